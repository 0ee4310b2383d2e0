use thiserror::Error;
use wf_journal::OpenFault;

/// Why a halted node isn't opened again on a tape.
#[derive(Clone, Copy, Debug, PartialEq, Eq, Error)]
pub enum ReopenFault {
    /// The tape doesn't open.
    #[error("{0}")]
    Tape(OpenFault),
    /// What the tape has isn't what the node had stored, with or without the record of the step
    /// within which its tape failed.
    #[error("the tape isn't what this node left")]
    Differs,
}
