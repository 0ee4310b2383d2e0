//! The metric of a tape.
ghost use Rattle.std.specs.Prelude.{◌≡◌, OnOk, string_bytes};
ghost use Rattle.wf_operator.specs.Metrics.{with_tape_bytes};

use crate::metrics::gauge;
use std::alloc::AllocError;

/// Appends the length of a process's tape, if the system says how long it is. The only error is
/// allocation failure.
pub fn push_tape_bytes(text: &mut String, length: Option<u64>) -> Result<(), AllocError>
    ensures { OnOk result
        (string_bytes text.new ≡ with_tape_bytes (string_bytes text.old) length) }
{
    match length {
        Some(bytes) => gauge(
            text,
            "wfarm_tape_bytes",
            "Length of the tape, in bytes",
            bytes,
        ),
        None => Ok(()),
    }
}
