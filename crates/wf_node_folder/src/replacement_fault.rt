//! Why what a folder says of replacements isn't taken.

use thiserror::Error;
use wf_rejoin::{JoiningFault, ReplacementsFault};

/// Why what a folder says of replacements isn't taken.
#[derive(Clone, Copy, Debug, PartialEq, Eq, Error)]
pub enum ReplacementFault {
    /// The file `replaced` is bad.
    #[error("bad file replaced: {0}")]
    Replaced(ReplacementsFault),
    /// The file `joins` is bad.
    #[error("bad file joins: {0}")]
    Joins(JoiningFault),
    /// The file `joins` is that of another node, farm or folder.
    #[error("bad file joins: it is another folder's")]
    OtherFolder,
}
