ghost use Rattle.std.specs.Prelude.{◌≡◌, ℕ, List, Option, None, IfOk};
ghost use Rattle.std.specs.declared.io.ErrorKind.{ErrorKind as ErrorKindValue};
ghost use Rattle.wf_disk.specs.Moments.{Elapses, LeavesNow, AreNested, LeavesOldOrNew};
ghost use Rattle.wf_disk.specs.Folder.{Folder, MayLeave, bytes_in};
ghost use Rattle.wf_disk.specs.Call.{Open, Make, Append, Sync, Rename, SyncNames, Read, IsLeft, IsCounted, IsNotOutOfMemory, error_of};

use crate::fault::DiskFault;
use crate::folder::Name;
use std::alloc::Global;
use std::io::ErrorKind;

/// A disk: one folder with a file under its own name and one under a second name.
///
/// Model: the folder, what a power cut at each earlier moment could have left under the own name,
/// those inside a call included, and the count of the device's failures. The contracts about the
/// folder and the moments hold of a durable disk. Honesty is a property of the type, so no call
/// changes it.
pub trait Disk {
    /// The disk does what its calls say.
    ghost durable: { Type 0 };

    /// The two files, and what a power cut may put back.
    ghost folder: { Self → Folder };

    /// The number of times that the device has failed.
    ghost failed: { Self → ℕ };

    /// What the system said of the last failure. None: nothing.
    ghost said: { Self → Option ErrorKindValue } = { λ _. None };

    /// The moment now, as a number that doesn't fall: each change ends a moment.
    ghost moment: { Self → ℕ };

    /// What a power cut at this moment or a later one, up to now, could have left under the own
    /// name, inside a call or between two.
    ghost left_since: { Self → ℕ → List ℕ → Type 0 };

    /// Opens the own file, and makes it if it is absent. Call it once, before the others.
    fn open(&mut self) -> Result<(), DiskFault>
        ensures leaves { durable →
            IsLeft Open (folder self.old) (error_of result) (folder self.new) }
        ensures time { durable → Elapses
            (moment self.old) (moment self.new) (left_since self.old) (left_since self.new) }
        ensures inside { durable → LeavesOldOrNew (MayLeave (folder self.old))
            (MayLeave (folder self.new)) (left_since self.new (moment self.old)) }
        ensures cause { IsCounted (failed self.old) (failed self.new) result };

    /// Makes the second file, without bytes. One that is left over is emptied.
    fn make(&mut self) -> Result<(), DiskFault>
        ensures leaves { durable →
            IsLeft Make (folder self.old) (error_of result) (folder self.new) }
        ensures time { durable → Elapses
            (moment self.old) (moment self.new) (left_since self.old) (left_since self.new) }
        ensures inside { durable → LeavesOldOrNew (MayLeave (folder self.old))
            (MayLeave (folder self.new)) (left_since self.new (moment self.old)) }
        ensures cause { IsCounted (failed self.old) (failed self.new) result };

    /// Appends bytes to a file. They aren't synced.
    fn append(&mut self, name: Name, bytes: &[u8]) -> Result<(), DiskFault>
        ensures leaves { durable →
            IsLeft (Append name bytes.now) (folder self.old) (error_of result) (folder self.new) }
        ensures time { durable → Elapses
            (moment self.old) (moment self.new) (left_since self.old) (left_since self.new) }
        ensures inside { durable → LeavesOldOrNew (MayLeave (folder self.old))
            (MayLeave (folder self.new)) (left_since self.new (moment self.old)) }
        ensures cause { IsCounted (failed self.old) (failed self.new) result };

    /// Syncs a file's bytes, unless an earlier sync of it failed: then it may return Ok and leave
    /// them as they are. Doesn't allocate.
    fn sync(&mut self, name: Name) -> Result<(), DiskFault>
        ensures leaves { durable →
            IsLeft (Sync name) (folder self.old) (error_of result) (folder self.new) }
        ensures memory { IsNotOutOfMemory result }
        ensures time { durable → Elapses
            (moment self.old) (moment self.new) (left_since self.old) (left_since self.new) }
        ensures inside { durable → LeavesOldOrNew (MayLeave (folder self.old))
            (MayLeave (folder self.new)) (left_since self.new (moment self.old)) }
        ensures cause { IsCounted (failed self.old) (failed self.new) result };

    /// Gives the second file the own name. The file that had it goes, and until the names are
    /// synced a power cut may put it back.
    fn rename(&mut self) -> Result<(), DiskFault>
        ensures leaves { durable →
            IsLeft Rename (folder self.old) (error_of result) (folder self.new) }
        ensures time { durable → Elapses
            (moment self.old) (moment self.new) (left_since self.old) (left_since self.new) }
        ensures inside { durable → LeavesOldOrNew (MayLeave (folder self.old))
            (MayLeave (folder self.new)) (left_since self.new (moment self.old)) }
        ensures cause { IsCounted (failed self.old) (failed self.new) result };

    /// Syncs the folder, and so which file has which name. Doesn't allocate.
    fn sync_names(&mut self) -> Result<(), DiskFault>
        ensures leaves { durable →
            IsLeft SyncNames (folder self.old) (error_of result) (folder self.new) }
        ensures memory { IsNotOutOfMemory result }
        ensures time { durable → Elapses
            (moment self.old) (moment self.new) (left_since self.old) (left_since self.new) }
        ensures inside { durable → LeavesOldOrNew (MayLeave (folder self.old))
            (MayLeave (folder self.new)) (left_since self.new (moment self.old)) }
        ensures cause { IsCounted (failed self.old) (failed self.new) result };

    /// The bytes of the own file.
    fn read(&mut self, alloc: Global) -> Result<Vec<u8>, DiskFault>
        ensures ok { durable →
            IfOk result (λ bytes. bytes.items ≡ bytes_in (folder self.old).own) }
        ensures leaves { durable →
            IsLeft Read (folder self.old) (error_of result) (folder self.new) }
        ensures time { durable → Elapses
            (moment self.old) (moment self.new) (left_since self.old) (left_since self.new) }
        ensures inside { durable → LeavesOldOrNew (MayLeave (folder self.old))
            (MayLeave (folder self.new)) (left_since self.new (moment self.old)) }
        ensures cause { IsCounted (failed self.old) (failed self.new) result };

    /// The number of times that the device has failed. It saturates.
    fn failures(&self) -> u64
        ensures { result ≡ failed self.now };

    /// What the system said of the last failure of the device. None: it hasn't failed, or no system
    /// said why.
    fn cause(&self) -> Option<ErrorKind>
        ensures { result ≡ said self.now };

    /// Since this moment there was no other.
    ghost is_now: { durable → (disk : Self) →
        LeavesNow (MayLeave (folder disk)) (left_since disk (moment disk)) };

    /// What could have been left since a moment, could since an earlier one.
    ghost nested: { durable → (disk : Self) → AreNested (left_since disk) };
}
