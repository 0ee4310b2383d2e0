use std::alloc::{AllocError, AllocFailed};
use std::error::Error;
use std::fmt;

/// Why a proposer rejects. A rejection changes nothing.
#[derive(Clone, Copy, Debug, PartialEq, Eq)]
pub enum StepRejection {
    /// A proposal is running.
    Busy,
    /// No proposal is running that could be retried.
    Nothing,
    /// The last round, 4,294,967,295, was tried or reported: there is no higher one.
    RoundsFull,
    /// Allocation failed.
    Memory,
}

impl fmt::Display for StepRejection {
    ghost use Rattle.std.specs.Prelude.{Some};
    ghost use Rattle.wf_proposer.specs.StepRejection.{words_of};

    ghost output = { λ step_rejection. Some (words_of step_rejection) };

    fn fmt<W: fmt::Write>(&self, f: &mut fmt::Formatter<W>) -> fmt::Result {
        match self {
            StepRejection::Busy => write!(f, "a proposal runs"),
            StepRejection::Nothing => write!(f, "no proposal runs"),
            StepRejection::RoundsFull => write!(f, "no higher round"),
            StepRejection::Memory => write!(f, "out of memory"),
        }
    }
}

impl Error for StepRejection {}

impl From<AllocError> for StepRejection {
    ghost use Rattle.std.specs.Prelude.{◌≡◌};
    ghost use Rattle.wf_proposer.specs.declared.step_rejection.StepRejection.TheVariants.{Memory};

    ghost from_gives = { λ _ e. e ≡ Memory };

    fn from(_error: AllocError) -> StepRejection {
        StepRejection::Memory
    }
}

impl<T: Drop> From<AllocFailed<T>> for StepRejection {
    ghost use Rattle.std.specs.Prelude.{◌≡◌};
    ghost use Rattle.wf_proposer.specs.declared.step_rejection.StepRejection.TheVariants.{Memory};

    ghost from_gives = { λ _ e. e ≡ Memory };

    fn from(_failed: AllocFailed<T>) -> StepRejection {
        StepRejection::Memory
    }
}
