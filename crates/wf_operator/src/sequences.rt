//! Metrics of a history.
ghost use Rattle.std.specs.Prelude.{◌≡◌, OnOk, string_bytes};
ghost use Rattle.wf_operator.specs.Metrics.{with_sequences};

use crate::metrics::gauge;
use std::alloc::AllocError;
use wf_ballot::SEQUENCES;

/// Appends the last sequence that a process has, the last that it heard of, and how many are left
/// to publish after its own. The only error is allocation failure.
pub fn push_sequences(text: &mut String, published: u16, heard: u16) -> Result<(), AllocError>
    ensures { OnOk result
        (string_bytes text.new ≡ with_sequences (string_bytes text.old) published heard) }
{
    gauge(
        text,
        "wfarm_published_sequence",
        "Last sequence that the process has",
        published as u64,
    )?;
    gauge(
        text,
        "wfarm_heard_sequence",
        "Last sequence that the process heard of",
        heard as u64,
    )?;
    gauge(
        text,
        "wfarm_sequences_left",
        "Maps that can still be published before the farm is to be started over",
        SEQUENCES.saturating_sub(published) as u64,
    )
}
