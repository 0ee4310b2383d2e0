//! Why there is no canonical text.

ghost use Rattle.std.specs.Prelude.{◌≡◌};
ghost use Rattle.wf_spelling.specs.declared.fault.CanonFault.TheVariants.{Memory};

use std::alloc::{AllocError, AllocFailed};
use thiserror::Error;

/// Why a definition or bytes have no canonical text.
#[derive(Clone, Copy, Debug, PartialEq, Eq, Error)]
pub enum CanonFault {
    /// The canonical text, or the bytes given, are longer than a canonical text may be.
    #[error("K1")]
    TooBig,
    /// The bytes aren't a canonical text.
    #[error("K2")]
    NotCanonical,
    /// Allocation failed.
    #[error("K3")]
    Memory,
}

impl From<AllocError> for CanonFault {
    ghost from_gives = { λ _ fault. fault ≡ Memory };

    fn from(_error: AllocError) -> CanonFault {
        CanonFault::Memory
    }
}

impl<T: Drop> From<AllocFailed<T>> for CanonFault {
    ghost from_gives = { λ _ fault. fault ≡ Memory };

    fn from(_error: AllocFailed<T>) -> CanonFault {
        CanonFault::Memory
    }
}
