ghost use Rattle.std.specs.Prelude.{◌≡◌};
ghost use Rattle.wf_tape.specs.declared.fault.TapeFault.TheVariants.{Memory};

use std::alloc::{AllocError, AllocFailed};

/// Why a call of a tape failed.
#[derive(Clone, Copy, Debug, PartialEq, Eq)]
pub enum TapeFault {
    /// The device failed; the failure is counted.
    Device,
    /// Allocation failed; nothing has changed.
    Memory,
}

impl From<AllocError> for TapeFault {
    ghost from_gives = { λ _ fault. fault ≡ Memory };

    fn from(_: AllocError) -> Self {
        TapeFault::Memory
    }
}

impl<T: Drop> From<AllocFailed<T>> for TapeFault {
    ghost from_gives = { λ _ fault. fault ≡ Memory };

    fn from(_: AllocFailed<T>) -> Self {
        TapeFault::Memory
    }
}
