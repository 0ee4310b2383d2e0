//! Why bytes aren't a mapfile.
ghost use Rattle.std.specs.Prelude.{◌≡◌};
ghost use Rattle.wf_block.specs.Faults.{byte_offset, code};

use crate::token::{LexFault, LexFaultKind};
use std::alloc::{AllocError, AllocFailed};
use std::error::Error;
use std::fmt;

/// The first error of a mapfile, from the left. Byte offsets count from the front of the file,
/// from 0.
#[derive(Clone, Copy, PartialEq, Eq)]
pub enum MapFault {
    /// Allocation failed; the bytes may be a mapfile.
    Memory,
    /// The file is longer than a mapfile may be.
    TooLong,
    /// The file isn't UTF-8: the first byte of the ill-formed sequence.
    NotUtf8(usize),
    /// A quote or a comment that isn't closed (its first byte), or a byte that no token may hold.
    BadToken(usize),
    /// Not the keyword, block, choice or kind of argument that is expected.
    UnexpectedWord(usize),
    /// The file ends inside MAP: its length.
    MissingEnd(usize),
    /// A malformed number or colour.
    BadNumber(usize),
    /// A value outside its range: its token, or the keyword EXTENT of an empty extent.
    OutOfRange(usize),
    /// A required keyword, or MAP itself, is missing.
    Missing,
    /// A keyword or a metadata key that comes a second time.
    Repeated(usize),
    /// More of something than a map may have.
    TooMany,
    /// A token after MAP's END.
    Trailing(usize),
}

impl MapFault {
    /// The number of the error, such as M5.
    #[tactic(auto, unfolding(crate::specs::Faults::code))]
    pub fn code(self) -> &'static str
        ensures { result.now ≡ code self }
    {
        match self {
            MapFault::Memory => "M1",
            MapFault::TooLong => "M2",
            MapFault::NotUtf8(_) => "M3",
            MapFault::BadToken(_) => "M4",
            MapFault::UnexpectedWord(_) => "M5",
            MapFault::MissingEnd(_) => "M6",
            MapFault::BadNumber(_) => "M7",
            MapFault::OutOfRange(_) => "M8",
            MapFault::Missing => "M9",
            MapFault::Repeated(_) => "M10",
            MapFault::TooMany => "M11",
            MapFault::Trailing(_) => "M12",
        }
    }

    /// The byte offset of the error, if it has one.
    #[tactic(auto, unfolding(crate::specs::Faults::byte_offset))]
    pub fn byte_offset(self) -> Option<usize>
        ensures { result ≡ byte_offset self }
    {
        match self {
            MapFault::NotUtf8(byte_offset)
            | MapFault::BadToken(byte_offset)
            | MapFault::UnexpectedWord(byte_offset)
            | MapFault::MissingEnd(byte_offset)
            | MapFault::BadNumber(byte_offset)
            | MapFault::OutOfRange(byte_offset)
            | MapFault::Repeated(byte_offset)
            | MapFault::Trailing(byte_offset) => Some(byte_offset),
            MapFault::Memory | MapFault::TooLong | MapFault::Missing | MapFault::TooMany => None,
        }
    }
}

// Written by hand: if it were derived, each case would print its text by calls of its own.
impl fmt::Display for MapFault {
    fn fmt<W: fmt::Write>(&self, f: &mut fmt::Formatter<W>) -> fmt::Result {
        f.write_str(self.code())?;
        match self.byte_offset() {
            Some(byte_offset) => write!(f, " at {byte_offset}"),
            None => Ok(()),
        }
    }
}

impl fmt::Debug for MapFault {
    fn fmt<W: fmt::Write>(&self, f: &mut fmt::Formatter<W>) -> fmt::Result {
        fmt::Display::fmt(self, f)
    }
}

impl Error for MapFault {}

impl From<LexFault> for MapFault {
    ghost use Rattle.std.specs.Prelude.{◌≡◌, false};
    ghost use Rattle.wf_block.specs.ReadContract.{is_memory};

    ghost from_gives = { λ _ e. is_memory e ≡ false };

    fn from(fault: LexFault) -> MapFault {
        match fault.kind {
            LexFaultKind::BadToken => MapFault::BadToken(fault.byte_offset),
            LexFaultKind::OutOfRange => MapFault::OutOfRange(fault.byte_offset),
        }
    }
}

impl From<AllocError> for MapFault {
    ghost use Rattle.std.specs.Prelude.{◌≡◌};
    ghost use Rattle.wf_block.specs.declared.fault.MapFault.TheVariants.{Memory};

    ghost from_gives = { λ _ e. e ≡ Memory };

    fn from(_e: AllocError) -> MapFault {
        MapFault::Memory
    }
}

impl<T: Drop> From<AllocFailed<T>> for MapFault {
    ghost use Rattle.std.specs.Prelude.{◌≡◌};
    ghost use Rattle.wf_block.specs.declared.fault.MapFault.TheVariants.{Memory};

    ghost from_gives = { λ _ e. e ≡ Memory };

    fn from(_e: AllocFailed<T>) -> MapFault {
        MapFault::Memory
    }
}
