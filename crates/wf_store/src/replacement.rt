//! A file is replaced whole, on any disk.
ghost use Rattle.std.specs.Prelude.{◌≡◌, ◌⊎◌, Some, OnOk};
ghost use Rattle.wf_disk.specs.Call.{IsCounted};
ghost use Rattle.wf_disk.specs.Folder.{whole, IsLeftOf, MayLeave, IsSynced};
ghost use Rattle.wf_tape.specs.DiskTape.{unsynced, IsButSecond, placed, LeavesOnly, images_of};

use wf_disk::{Disk, DiskFault, Name};

/// Puts bytes in the place of a disk's own file, which needn't be there or open: they are written
/// to the second file, which is synced and gets the own name, and the names are synced last. Of a
/// durable disk a power cut meanwhile leaves what one could before, or exactly the bytes.
pub fn replace_on<D: Disk>(disk: &mut D, bytes: &[u8]) -> Result<(), DiskFault>
    ensures ok { D.durable → OnOk result (IsSynced (D.folder disk.new) bytes.now) }
    ensures passes { D.durable → LeavesOnly D.Disk
        (λ image. images_of D.Disk disk.old image ⊎ (image ≡ bytes.now)) disk.old disk.new }
    ensures cause { IsCounted (D.failed disk.old) (D.failed disk.new) result }
{
    match put_second(disk, bytes) {
        Ok(()) => place_second(disk),
        Err(fault) => Err(fault),
    }
}

/// Writes the bytes to the second file, and syncs it.
fn put_second<D: Disk>(disk: &mut D, bytes: &[u8]) -> Result<(), DiskFault>
    ensures ok { D.durable → OnOk result ((D.folder disk.new).second ≡ Some (whole bytes.now)) }
    ensures kept { D.durable → IsButSecond (D.folder disk.old) (D.folder disk.new) }
    ensures passes { D.durable → LeavesOnly D.Disk (images_of D.Disk disk.old) disk.old disk.new }
    ensures cause { IsCounted (D.failed disk.old) (D.failed disk.new) result }
{
    match write_second(disk, bytes) {
        Ok(()) => disk.sync(Name::Second),
        Err(fault) => Err(fault),
    }
}

/// Writes the bytes to the second file, which is made, or emptied if it is left over.
fn write_second<D: Disk>(disk: &mut D, bytes: &[u8]) -> Result<(), DiskFault>
    ensures ok { D.durable → OnOk result ((D.folder disk.new).second ≡ Some (unsynced bytes.now)) }
    ensures kept { D.durable → IsButSecond (D.folder disk.old) (D.folder disk.new) }
    ensures passes { D.durable → LeavesOnly D.Disk (images_of D.Disk disk.old) disk.old disk.new }
    ensures cause { IsCounted (D.failed disk.old) (D.failed disk.new) result }
{
    match disk.make() {
        Ok(()) => disk.append(Name::Second, bytes),
        Err(fault) => Err(fault),
    }
}

/// Gives the second file the own name, and syncs the names.
fn place_second<D: Disk>(disk: &mut D) -> Result<(), DiskFault>
    ensures ok { D.durable → OnOk result (D.folder disk.new ≡ placed (D.folder disk.old)) }
    ensures passes { D.durable → LeavesOnly D.Disk (λ image. MayLeave (D.folder disk.old) image
        ⊎ IsLeftOf (D.folder disk.old).second image) disk.old disk.new }
    ensures cause { IsCounted (D.failed disk.old) (D.failed disk.new) result }
{
    match disk.rename() {
        Ok(()) => disk.sync_names(),
        Err(fault) => Err(fault),
    }
}
