//! A disk in memory.

ghost use Rattle.std.specs.Prelude.{◌≡◌, ◌∷◌, ◌-◌, ◌≤◌, [], None};
ghost use Rattle.wf_disk.specs.Moments.{HasRisen};
ghost use Rattle.wf_disk.specs.Folder.{IsCrashed};
ghost use Rattle.wf_disk.specs.MemoryDisk.{cut_to, burn};

use crate::disk::Disk;
use crate::failure;
use crate::fault::DiskFault;
use crate::folder::{MemoryFolder, Name};
use std::alloc::Global;
use std::io::ErrorKind;
use std::marker::Model;
use wf_past::Past;

/// A disk in memory. It is durable, and its device fails only where a failure was set (`set_fuse`),
/// or where the file of a call isn't there. What a power cut at each earlier moment could have left
/// is known in proofs alone, and takes no memory.
pub struct MemoryDisk {
    folder: MemoryFolder,
    past: Past<MemoryFolder, ()>,
    // the number of the call that will fail, counted from 1 from now, or 0, and how much it keeps
    call: usize,
    kept: usize,
    // the number of failures so far
    failures: u64,
}

impl Drop for MemoryDisk {
    fn drop(self) {
        let MemoryDisk {
            folder,
            past,
            call: _,
            kept: _,
            failures: _,
        } = self;
        drop(folder);
        drop(past);
    }
}

impl Model for MemoryDisk {
    ghost use Rattle.std.specs.Prelude.{reverse, map};
    ghost use Rattle.wf_disk.specs.MemoryDisk.{DiskValue};

    ghost Value = { DiskValue };

    ghost view = { λ d. record { folder = d.folder; past = reverse (map (λ entry. entry.0) d.past.items); call = d.call; kept = d.kept; failures = d.failures } };
}

impl MemoryDisk {
    /// A disk without files, on which no failure is set.
    pub fn new(alloc: Global) -> MemoryDisk
        ensures { result ≡ record {
          folder = record { own = None; second = None; earlier = [] };
          past = [];
          call = 0;
          kept = 0;
          failures = 0;
        } }
    {
        MemoryDisk {
            folder: MemoryFolder::new(alloc),
            past: Past::new(),
            call: 0,
            kept: 0,
            failures: 0,
        }
    }

    /// A power cut: under the own name is then one of the files that it may put back there, the one
    /// that is there for 0, with all its synced bytes and at most `keep` bytes of the rest. The
    /// second file stays as it is. No earlier moment is known any more.
    #[tactic(auto, using(crate::specs::FolderTheorems::cut_crashes))]
    pub fn cut(&mut self, back: usize, keep: usize)
        ensures crashed { IsCrashed self.old.folder self.new.folder }
        ensures exact { self.new.folder ≡ cut_to back keep self.old.folder }
        ensures past { self.new.past ≡ [] }
        ensures failures { self.new.failures ≡ self.old.failures }
        ensures call { self.new.call ≡ self.old.call }
        ensures kept { self.new.kept ≡ self.old.kept }
    {
        self.folder.cut(back, keep);
        self.past = Past::new();
    }

    /// Sets a failure: the `call`-th call from now, counted from 1, fails once. An append that
    /// fails keeps `kept` of its bytes, at most all of them. To open, to make and to rename, if it
    /// fails, has been done unless `kept` is 0. A sync that fails makes the file doubtful. Call 0
    /// sets no failure. A failure that was set before and that no call has reached is no longer
    /// set.
    pub fn set_fuse(&mut self, call: usize, kept: usize)
        ensures folder { self.new.folder ≡ self.old.folder }
        ensures past { self.new.past ≡ self.old.past }
        ensures failures { self.new.failures ≡ self.old.failures }
        ensures call { self.new.call ≡ call }
        ensures kept { self.new.kept ≡ kept }
    {
        self.call = call;
        self.kept = kept;
    }

    /// Notes the folder, and counts a call. If the failure that is set is this call's, returns how
    /// much it keeps.
    fn begin(&mut self) -> Option<usize>
        ensures kept { result ≡ burn self.old.call self.old.kept }
        ensures call { self.new.call ≡ self.old.call - 1 }
        ensures folder { self.new.folder ≡ self.old.folder }
        ensures past { self.new.past ≡ self.old.folder ∷ self.old.past }
        ensures failures { self.new.failures ≡ self.old.failures }
    {
        self.past = self.past.and(&self.folder, &());
        let call = self.call;
        self.call = call.saturating_sub(1);
        burn(call, self.kept)
    }

    /// Counts a failure, if it is the device's.
    fn count(&mut self, fault: DiskFault) -> DiskFault
        ensures same { result ≡ fault }
        ensures folder { self.new.folder ≡ self.old.folder }
        ensures past { self.new.past ≡ self.old.past }
        ensures device { fault ≡ DiskFault.Device → HasRisen self.old.failures self.new.failures }
        ensures later { self.old.failures ≤ self.new.failures }
        ensures memory { fault ≡ DiskFault.Memory → self.new.failures ≡ self.old.failures }
    {
        match fault {
            DiskFault::Device => self.failures = self.failures.saturating_add(1),
            DiskFault::Memory => {}
        }
        fault
    }
}

/// How much the next call keeps, if that one fails.
#[tactic(auto, unfolding(crate::specs::MemoryDisk::burn))]
fn burn(call: usize, kept: usize) -> Option<usize>
    ensures { result ≡ burn call kept }
{
    if call == 1 { Some(kept) } else { None }
}

impl Disk for MemoryDisk {
    ghost use Rattle.wf_disk.specs.MemoryDisk.{moment_of, IsFileLeftSince};
    ghost use Rattle.wf_disk.specs.MemoryMoments.{memory_now, memory_nested};

    ghost durable = { Unit {0} };

    ghost folder = { λ d. d.folder };

    ghost failed = { λ d. d.failures };

    ghost moment = { moment_of };

    ghost left_since = { IsFileLeftSince };

    ghost is_now = { λ _. memory_now };

    ghost nested = { λ _. memory_nested };

    fn open(&mut self) -> Result<(), DiskFault> {
        let kept = self.begin();
        match failure::open(&mut self.folder, kept) {
            Ok(()) => Ok(()),
            Err(fault) => Err(self.count(fault)),
        }
    }

    fn make(&mut self) -> Result<(), DiskFault> {
        let kept = self.begin();
        match failure::make(&mut self.folder, kept) {
            Ok(()) => Ok(()),
            Err(fault) => Err(self.count(fault)),
        }
    }

    fn append(&mut self, name: Name, bytes: &[u8]) -> Result<(), DiskFault> {
        let kept = self.begin();
        match failure::append(&mut self.folder, name, bytes, kept) {
            Ok(()) => Ok(()),
            Err(fault) => Err(self.count(fault)),
        }
    }

    fn sync(&mut self, name: Name) -> Result<(), DiskFault> {
        let kept = self.begin();
        match failure::sync(&mut self.folder, name, kept) {
            Ok(()) => Ok(()),
            Err(fault) => Err(self.count(fault)),
        }
    }

    fn rename(&mut self) -> Result<(), DiskFault> {
        let kept = self.begin();
        match failure::rename(&mut self.folder, kept) {
            Ok(()) => Ok(()),
            Err(fault) => Err(self.count(fault)),
        }
    }

    fn sync_names(&mut self) -> Result<(), DiskFault> {
        let kept = self.begin();
        match failure::sync_names(&mut self.folder, kept) {
            Ok(()) => Ok(()),
            Err(fault) => Err(self.count(fault)),
        }
    }

    fn read(&mut self, alloc: Global) -> Result<Vec<u8>, DiskFault> {
        let kept = self.begin();
        match failure::read(&self.folder, alloc, kept) {
            Ok(bytes) => Ok(bytes),
            Err(fault) => Err(self.count(fault)),
        }
    }

    fn failures(&self) -> u64 {
        self.failures
    }

    fn cause(&self) -> Option<ErrorKind> {
        None
    }
}
