ghost use Rattle.std.specs.Prelude.{◌≡◌};
ghost use Rattle.wf_disk.specs.declared.fault.DiskFault.TheVariants.{Memory};

use std::alloc::AllocError;

/// Why a call of a disk failed.
#[derive(Clone, Copy, Debug, PartialEq, Eq)]
pub enum DiskFault {
    /// The device failed, or a file that the call is about isn't there; the failure is counted.
    Device,
    /// Allocation failed; nothing has changed.
    Memory,
}

impl From<AllocError> for DiskFault {
    ghost from_gives = { λ _ fault. fault ≡ Memory };

    fn from(_: AllocError) -> Self {
        DiskFault::Memory
    }
}
