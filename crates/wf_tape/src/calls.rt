//! Calls of a disk in turn, as a tape makes them.

ghost use Rattle.std.specs.Prelude.{◌≡◌, ◌⊎◌, true, [], Some, OnOk, OnErr, IsErrOf};
ghost use Rattle.wf_disk.specs.declared.fault.DiskFault.TheVariants.{Memory};
ghost use Rattle.wf_disk.specs.declared.folder.Name.TheVariants.{Own};
ghost use Rattle.wf_disk.specs.Moments.{LeavesNoOther, LeavesOldOr};
ghost use Rattle.wf_disk.specs.Folder.{whole, IsLeftOf, MayLeave, IsSynced};
ghost use Rattle.wf_disk.specs.Call.{Rename, Sync, done, IsThere, IsCounted, IsNotOutOfMemory};
ghost use Rattle.wf_tape.specs.DiskTape.{unsynced, IsButSecond, placed, LeavesOnly, images_of, content_of};

use wf_disk::{Disk, DiskFault, Name};

/// Opens the own file, and syncs the names, since the file may be new.
pub(crate) fn open<D: Disk>(disk: &mut D) -> Result<(), DiskFault>
    ensures names { D.durable → OnOk result ((D.folder disk.new).earlier ≡ []) }
    ensures content { D.durable → content_of D.Disk disk.new ≡ content_of D.Disk disk.old }
    ensures images { D.durable →
        LeavesNoOther (images_of D.Disk disk.old) (images_of D.Disk disk.new) }
    ensures passes { D.durable → LeavesOnly D.Disk (images_of D.Disk disk.old) disk.old disk.new }
    ensures cause { IsCounted (D.failed disk.old) (D.failed disk.new) result }
{
    match disk.open() {
        Ok(()) => disk.sync_names(),
        Err(fault) => Err(fault),
    }
}

/// Syncs the own file, and the names unless they are synced.
pub(crate) fn sync<D: Disk>(disk: &mut D, are_names_synced: bool) -> Result<(), DiskFault>
    ensures ok { D.durable → OnOk result (IsThere Own (D.folder disk.old)
        × ((D.folder disk.new).own ≡ (done (Sync Own) (D.folder disk.old)).own)) }
    ensures names { D.durable → (are_names_synced ≡ true → (D.folder disk.old).earlier ≡ []) →
        OnOk result ((D.folder disk.new).earlier ≡ []) }
    ensures stay { D.durable → (D.folder disk.old).earlier ≡ [] → (D.folder disk.new).earlier ≡ [] }
    ensures content { D.durable → content_of D.Disk disk.new ≡ content_of D.Disk disk.old }
    ensures images { D.durable →
        LeavesNoOther (images_of D.Disk disk.old) (images_of D.Disk disk.new) }
    ensures passes { D.durable → LeavesOnly D.Disk (images_of D.Disk disk.old) disk.old disk.new }
    ensures memory { IsNotOutOfMemory result }
    ensures cause { IsCounted (D.failed disk.old) (D.failed disk.new) result }
{
    match disk.sync(Name::Own) {
        Ok(()) => sync_names(disk, are_names_synced),
        Err(fault) => Err(fault),
    }
}

/// Syncs the names unless they are synced.
fn sync_names<D: Disk>(disk: &mut D, are_names_synced: bool) -> Result<(), DiskFault>
    ensures own { D.durable → (D.folder disk.new).own ≡ (D.folder disk.old).own }
    ensures names { D.durable → (are_names_synced ≡ true → (D.folder disk.old).earlier ≡ []) →
        OnOk result ((D.folder disk.new).earlier ≡ []) }
    ensures stay { D.durable → (D.folder disk.old).earlier ≡ [] → (D.folder disk.new).earlier ≡ [] }
    ensures images { D.durable →
        LeavesNoOther (images_of D.Disk disk.old) (images_of D.Disk disk.new) }
    ensures passes { D.durable → LeavesOnly D.Disk (images_of D.Disk disk.old) disk.old disk.new }
    ensures memory { IsNotOutOfMemory result }
    ensures cause { IsCounted (D.failed disk.old) (D.failed disk.new) result }
{
    if are_names_synced {
        return Ok(());
    }
    disk.sync_names()
}

/// Makes the bytes the content: writes them to the second file, syncs it, and gives it the own
/// name.
pub(crate) fn replace<D: Disk>(disk: &mut D, bytes: &[u8]) -> Result<(), DiskFault>
    ensures ok { D.durable → OnOk result (IsSynced (D.folder disk.new) bytes.now) }
    ensures err { D.durable → ((D.folder disk.new).own ≡ (D.folder disk.old).own)
        ⊎ ((D.folder disk.new).own ≡ Some (whole bytes.now)) }
    ensures images { D.durable →
        LeavesOldOr bytes.now (images_of D.Disk disk.old) (images_of D.Disk disk.new) }
    ensures memory { D.durable → IsErrOf result Memory →
        IsButSecond (D.folder disk.old) (D.folder disk.new) }
    ensures passes { D.durable → LeavesOnly D.Disk
        (λ image. images_of D.Disk disk.old image ⊎ (image ≡ bytes.now)) disk.old disk.new }
    ensures cause { IsCounted (D.failed disk.old) (D.failed disk.new) result }
{
    match put_second(disk, bytes) {
        Ok(()) => place_second(disk),
        Err(fault) => Err(fault),
    }
}

/// Writes the bytes to the second file, and syncs it.
fn put_second<D: Disk>(disk: &mut D, bytes: &[u8]) -> Result<(), DiskFault>
    ensures ok { D.durable → OnOk result ((D.folder disk.new).second ≡ Some (whole bytes.now)) }
    ensures kept { D.durable → IsButSecond (D.folder disk.old) (D.folder disk.new) }
    ensures passes { D.durable → LeavesOnly D.Disk (images_of D.Disk disk.old) disk.old disk.new }
    ensures cause { IsCounted (D.failed disk.old) (D.failed disk.new) result }
{
    match write_second(disk, bytes) {
        Ok(()) => disk.sync(Name::Second),
        Err(fault) => Err(fault),
    }
}

/// Writes the bytes to the second file, which is made, or emptied if it is left over.
fn write_second<D: Disk>(disk: &mut D, bytes: &[u8]) -> Result<(), DiskFault>
    ensures ok { D.durable → OnOk result ((D.folder disk.new).second ≡ Some (unsynced bytes.now)) }
    ensures kept { D.durable → IsButSecond (D.folder disk.old) (D.folder disk.new) }
    ensures passes { D.durable → LeavesOnly D.Disk (images_of D.Disk disk.old) disk.old disk.new }
    ensures cause { IsCounted (D.failed disk.old) (D.failed disk.new) result }
{
    match disk.make() {
        Ok(()) => disk.append(Name::Second, bytes),
        Err(fault) => Err(fault),
    }
}

/// Gives the second file the own name, and syncs the names.
fn place_second<D: Disk>(disk: &mut D) -> Result<(), DiskFault>
    ensures ok { D.durable → OnOk result (D.folder disk.new ≡ placed (D.folder disk.old)) }
    ensures err { D.durable → OnErr result ((D.folder disk.new ≡ D.folder disk.old)
        ⊎ (D.folder disk.new ≡ done Rename (D.folder disk.old))) }
    ensures memory { D.durable → IsErrOf result Memory → D.folder disk.new ≡ D.folder disk.old }
    ensures passes { D.durable → LeavesOnly D.Disk (λ image. MayLeave (D.folder disk.old) image
        ⊎ IsLeftOf (D.folder disk.old).second image) disk.old disk.new }
    ensures cause { IsCounted (D.failed disk.old) (D.failed disk.new) result }
{
    match disk.rename() {
        Ok(()) => disk.sync_names(),
        Err(fault) => Err(fault),
    }
}
