//! A disk of a folder in memory.
ghost use Rattle.std.specs.Prelude.{◌≡◌, ◌≤◌, [], None};
ghost use Rattle.wf_disk.specs.Call.{IsCounted};
ghost use Rattle.wf_disk.specs.Moments.{HasRisen};

use crate::file_name::FileName;
use crate::memory_folder::MemoryFolder;
use std::alloc::Global;
use std::cell::RefMut;
use std::io::ErrorKind;
use wf_disk::{Disk, DiskFault, MemoryDisk, Name};

/// The disk of a file of a folder in memory, which the folder keeps. No clause says what the folder
/// holds, so it isn't durable.
#[derive(Drop)]
pub struct SharedDisk<'a> {
    folder: &'a MemoryFolder,
    file: FileName,
    failures: u64,
}

impl<'a> SharedDisk<'a> {
    /// The disk of a file of a folder, which hasn't failed yet.
    pub(crate) fn new(folder: &'a MemoryFolder, file: FileName) -> Self
        ensures { result.failures ≡ 0 }
    {
        SharedDisk {
            folder,
            file,
            failures: 0,
        }
    }

    /// The folder's disk, for one call: that fails if the failure that is set in the folder is its
    /// own.
    fn begin(&self) -> Option<RefMut<'a, MemoryDisk>> {
        let mut disk = self.folder.disk(self.file)?;
        if let Some(kept) = self.folder.count_call() {
            disk.set_fuse(1, kept);
        }
        Some(disk)
    }

    /// Counts a failure, if it is the device's.
    fn count(&mut self, fault: DiskFault) -> DiskFault
        ensures same { result ≡ fault }
        ensures device { fault ≡ DiskFault.Device → HasRisen self.old.failures self.new.failures }
        ensures later { self.old.failures ≤ self.new.failures }
        ensures memory { fault ≡ DiskFault.Memory → self.new.failures ≡ self.old.failures }
    {
        match fault {
            DiskFault::Device => self.failures = self.failures.saturating_add(1),
            DiskFault::Memory => {}
        }
        fault
    }

    /// The result of a call, whose failure is counted.
    fn counted(&mut self, called: Result<(), DiskFault>) -> Result<(), DiskFault>
        ensures same { result ≡ called }
        ensures cause { IsCounted self.old.failures self.new.failures result }
    {
        match called {
            Ok(()) => Ok(()),
            Err(fault) => Err(self.count(fault)),
        }
    }
}

impl<'a> Disk for SharedDisk<'a> {
    ghost durable = { ⊥ };

    ghost folder = { λ _. record { own = None; second = None; earlier = [] } };

    ghost failed = { λ d. d.failures };

    ghost moment = { λ _. 0 };

    ghost left_since = { λ _ _ _. ⊥ };

    ghost is_now = { λ no. absurd no };

    ghost nested = { λ no. absurd no };

    fn open(&mut self) -> Result<(), DiskFault> {
        let called = match self.begin() {
            Some(mut disk) => disk.open(),
            None => Err(DiskFault::Device),
        };
        self.counted(called)
    }

    fn make(&mut self) -> Result<(), DiskFault> {
        let called = match self.begin() {
            Some(mut disk) => disk.make(),
            None => Err(DiskFault::Device),
        };
        self.counted(called)
    }

    fn append(&mut self, name: Name, bytes: &[u8]) -> Result<(), DiskFault> {
        let called = match self.begin() {
            Some(mut disk) => disk.append(name, bytes),
            None => Err(DiskFault::Device),
        };
        self.counted(called)
    }

    fn sync(&mut self, name: Name) -> Result<(), DiskFault> {
        let called = match self.begin() {
            Some(mut disk) => disk.sync(name),
            None => Err(DiskFault::Device),
        };
        self.counted(called)
    }

    fn rename(&mut self) -> Result<(), DiskFault> {
        let called = match self.begin() {
            Some(mut disk) => disk.rename(),
            None => Err(DiskFault::Device),
        };
        self.counted(called)
    }

    fn sync_names(&mut self) -> Result<(), DiskFault> {
        let called = match self.begin() {
            Some(mut disk) => disk.sync_names(),
            None => Err(DiskFault::Device),
        };
        self.counted(called)
    }

    fn read(&mut self, alloc: Global) -> Result<Vec<u8>, DiskFault> {
        let read = match self.begin() {
            Some(mut disk) => disk.read(alloc),
            None => Err(DiskFault::Device),
        };
        match read {
            Ok(bytes) => Ok(bytes),
            Err(fault) => Err(self.count(fault)),
        }
    }

    fn failures(&self) -> u64 {
        self.failures
    }

    fn cause(&self) -> Option<ErrorKind> {
        None
    }
}
