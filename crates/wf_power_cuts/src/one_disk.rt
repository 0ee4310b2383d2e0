//! One call on a disk in memory.
ghost use Rattle.std.specs.Prelude.{◌≡◌, ◌⊎◌, ℕ, List, OnOk};
ghost use Rattle.wf_disk.specs.Folder.{MayLeave};
ghost use Rattle.wf_power_cuts.specs.Disks.{LeavesOnDisk};

use std::alloc::Global;
use wf_disk::{Disk, DiskFault, MemoryDisk};
use wf_store::replace_on;

/// Replaces the file of a disk.
#[tactic(auto, using(crate::proofs::OneDisk::left_alone, crate::proofs::OneDisk::left_or))]
pub(crate) fn replace_one(disk: &mut MemoryDisk, bytes: &[u8]) -> Result<(), DiskFault>
    ensures alone { OnOk result
        ((image : List ℕ) → MayLeave disk.new.folder image → image ≡ bytes.now) }
    ensures left { LeavesOnDisk (λ image. MayLeave disk.old.folder image ⊎ (image ≡ bytes.now))
        disk.old disk.new }
{
    replace_on(disk, bytes)
}

/// Reads the file of a disk.
#[tactic(auto, using(crate::proofs::OneDisk::left_reading))]
pub(crate) fn read_one(disk: &mut MemoryDisk, alloc: Global) -> Result<Vec<u8>, DiskFault>
    ensures { LeavesOnDisk (MayLeave disk.old.folder) disk.old disk.new }
{
    disk.read(alloc)
}
