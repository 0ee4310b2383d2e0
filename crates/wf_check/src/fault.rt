//! Why a file isn't a map to publish.

use thiserror::Error;
use wf_block::MapFault;

/// Why a file isn't a map that a farm publishes. Its text is the error's number, with the byte
/// offset where it has one.
#[derive(Clone, Copy, Debug, PartialEq, Eq, Error)]
pub enum CheckFault {
    /// It isn't a mapfile.
    #[error("{0}")]
    Map(MapFault),
    /// The canonical text of its map is over the limit.
    #[error("K1")]
    TooBig,
}
