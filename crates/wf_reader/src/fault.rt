ghost use Rattle.std.specs.Prelude.{◌≡◌};
ghost use Rattle.wf_reader.specs.declared.fault.ReplyFault.TheVariants.{Memory};

use std::alloc::{AllocError, AllocFailed};
use thiserror::Error;

/// Why bytes aren't decoded as a question.
#[derive(Clone, Copy, Debug, PartialEq, Eq, Error)]
pub enum QuestionFault {
    /// No error so far; more bytes are needed.
    #[error("the question isn't whole")]
    Short,
    /// They don't begin as a question does.
    #[error("not a reader")]
    NotAReader,
    /// The question is of another version.
    #[error("a reader of version {0}")]
    OtherVersion(u16),
    /// No question has these bytes.
    #[error("malformed")]
    Malformed,
}

/// Why bytes aren't decoded as a reply.
#[derive(Clone, Copy, Debug, PartialEq, Eq, Error)]
pub enum ReplyFault {
    /// No error so far; more bytes are needed.
    #[error("the reply isn't whole")]
    Short,
    /// No reply has so many bytes.
    #[error("too long")]
    TooLong,
    /// No reply has these bytes.
    #[error("malformed")]
    Malformed,
    /// An allocation failed.
    #[error("out of memory")]
    Memory,
}

impl From<AllocError> for ReplyFault {
    ghost from_gives = { λ _ fault. fault ≡ Memory };

    fn from(_: AllocError) -> Self {
        ReplyFault::Memory
    }
}

impl<T: Drop> From<AllocFailed<T>> for ReplyFault {
    ghost from_gives = { λ _ fault. fault ≡ Memory };

    fn from(_: AllocFailed<T>) -> Self {
        ReplyFault::Memory
    }
}
