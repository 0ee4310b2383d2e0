//! Why a run of a script ends before its end.

ghost use Rattle.std.specs.Prelude.{◌≡◌};
ghost use Rattle.wf_play.specs.Fault.{order_fault};

use thiserror::Error;
use wf_farm::CarrierFault;
use wf_script::ScriptFault;

/// Why a run of a script ended before its end. The text is the line for standard error.
#[derive(Clone, Copy, Debug, PartialEq, Eq, Error)]
pub enum PlayFault {
    /// The input is no script, or an allocation failed.
    #[error("script fault {0}")]
    Script(ScriptFault),
    /// The reader failed; nothing was read as a script.
    #[error("read fault")]
    Read,
    /// The writer failed; a part of the output may be written.
    #[error("write fault")]
    Write,
    /// A message wasn't carried to its node, or couldn't be cut off; the output of the orders
    /// before is written.
    #[error("wire fault")]
    Wire,
}

/// The error of the order at this line, by why it isn't performed to its end.
pub(crate) fn fault_at_line(fault: CarrierFault, line: usize) -> PlayFault
    ensures { result ≡ order_fault fault line }
{
    match fault {
        CarrierFault::Memory => PlayFault::Script(ScriptFault::Memory(line)),
        CarrierFault::Lost => PlayFault::Wire,
    }
}
