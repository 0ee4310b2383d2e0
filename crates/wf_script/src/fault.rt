//! Why a script isn't played.

ghost use Rattle.std.specs.Prelude.{◌≡◌};
ghost use Rattle.wf_script.specs.Fault.{fault_of};
ghost use Rattle.wf_script.specs.declared.fault.Wrong.TheVariants as wrongs;

use std::alloc::{AllocError, AllocFailed};
use thiserror::Error;

/// Why a script isn't played, or not to its end, with the line of the first error. Lines are
/// counted from 1, skipped ones and those of maps included.
#[derive(Clone, Copy, Debug, PartialEq, Eq, Error)]
pub enum ScriptFault {
    /// S1: an allocation failed.
    #[error("S1 line {0}")]
    Memory(usize),
    /// S2: the line isn't a line of a script.
    #[error("S2 line {0}")]
    BadLine(usize),
    /// S3: the line holds the first byte, line or map over the limit.
    #[error("S3 line {0}")]
    OverLimit(usize),
    /// S4: the map that begins on this line isn't valid, or is too big.
    #[error("S4 line {0}")]
    BadMap(usize),
}

/// The error of a line, without its number.
#[derive(Clone, Copy, Debug, PartialEq, Eq)]
pub(crate) enum Wrong {
    Memory,
    BadLine,
    OverLimit,
    BadMap,
}

impl Wrong {
    /// The error, at the line of this number.
    pub(crate) fn at(self, line: usize) -> ScriptFault
        ensures { result ≡ fault_of self line }
    {
        match self {
            Wrong::Memory => ScriptFault::Memory(line),
            Wrong::BadLine => ScriptFault::BadLine(line),
            Wrong::OverLimit => ScriptFault::OverLimit(line),
            Wrong::BadMap => ScriptFault::BadMap(line),
        }
    }
}

impl From<AllocError> for Wrong {
    ghost from_gives = { λ _ wrong. wrong ≡ wrongs.Memory };

    fn from(_error: AllocError) -> Wrong {
        Wrong::Memory
    }
}

impl<T: Drop> From<AllocFailed<T>> for Wrong {
    ghost from_gives = { λ _ wrong. wrong ≡ wrongs.Memory };

    fn from(_error: AllocFailed<T>) -> Wrong {
        Wrong::Memory
    }
}
