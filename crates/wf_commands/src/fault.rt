//! Errors of a run.
use thiserror::Error;
use wf_canon::CanonFault;
use wf_listing::TapeReadFault;
use wf_mapfile::MapFault;
use wf_script::ScriptFault;

/// The error of a run. Its text is the line for standard error.
#[derive(Clone, Copy, Debug, PartialEq, Eq, Error)]
pub enum RunFault {
    /// The input isn't a mapfile, or an allocation failed.
    #[error("map fault {0}")]
    Map(MapFault),
    /// The map has no canonical text within the limit, or an allocation failed.
    #[error("canon fault {0}")]
    Canon(CanonFault),
    /// The input isn't a script, or an allocation failed while it was read or played.
    #[error("script fault {0}")]
    Script(ScriptFault),
    /// The file of a tape can't be read or is too long, or an allocation failed.
    #[error("tape fault {0}")]
    Tape(TapeReadFault),
    /// The reader failed; the input wasn't parsed.
    #[error("read fault")]
    Read,
    /// The writer failed; a prefix may be written.
    #[error("write fault")]
    Write,
    /// A message didn't cross the connection, or couldn't be cut off; what the orders before it
    /// write is written.
    #[error("wire fault")]
    Wire,
    /// No node is served: a tape doesn't open, the port isn't free, or an allocation failed.
    #[error("serve fault")]
    Serve,
}
