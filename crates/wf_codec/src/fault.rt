ghost use Rattle.std.specs.Prelude.{◌≡◌};
ghost use Rattle.wf_codec.specs.declared.fault.DecodeFault.TheVariants.{Memory};

use std::alloc::{AllocError, AllocFailed};
use thiserror::Error;

/// Why bytes aren't decoded as a message.
#[derive(Clone, Copy, Debug, PartialEq, Eq, Error)]
pub enum DecodeFault {
    /// No error so far; more bytes are needed.
    #[error("the message isn't whole")]
    Short,
    /// C1: the version isn't the one that this crate reads and writes.
    #[error("C1: another version")]
    BadVersion,
    /// C2: no kind of message has this byte.
    #[error("C2: no kind of message")]
    BadKind,
    /// C3: a field is outside its range, or the kind can't have that length.
    #[error("C3: a field out of range")]
    BadField,
    /// C4: the text of a definition isn't canonical.
    #[error("C4: a text that isn't canonical")]
    NotCanonical,
    /// C5: the length is over that of the longest message.
    #[error("C5: too long")]
    TooLong,
    /// C6: allocation failed.
    #[error("C6: out of memory")]
    Memory,
}

impl From<AllocError> for DecodeFault {
    ghost from_gives = { λ _ fault. fault ≡ Memory };

    fn from(_: AllocError) -> Self {
        DecodeFault::Memory
    }
}

impl<T: Drop> From<AllocFailed<T>> for DecodeFault {
    ghost from_gives = { λ _ fault. fault ≡ Memory };

    fn from(_: AllocFailed<T>) -> Self {
        DecodeFault::Memory
    }
}
