//! A file in memory.

ghost use Rattle.std.specs.Prelude.{◌≡◌, ◌++◌, take, IfOk, OnOk, OnErr, IfErr};
ghost use Rattle.wf_disk.specs.Folder.{empty_file};
ghost use Rattle.wf_disk.specs.MemoryDisk.{left_by};
ghost use Rattle.wf_disk.specs.Call.{extended, synced, doubted};

use crate::fault::DiskFault;
use std::alloc::Global;
use std::marker::Model;

/// A file in memory: its bytes, of which the first are synced, and whether a sync of it has failed.
pub(crate) struct MemoryFile {
    bytes: Vec<u8>,
    // the number of synced bytes
    synced: usize,
    doubtful: bool,
}

impl Drop for MemoryFile {
    fn drop(self) {
        let MemoryFile {
            bytes,
            synced: _,
            doubtful: _,
        } = self;
        drop(bytes);
    }
}

impl Model for MemoryFile {
    ghost use Rattle.std.specs.Prelude.{length, take, drop, ◌≤◌};
    ghost use Rattle.wf_disk.specs.Folder.{File};

    ghost Value = { File };

    ghost view = { λ f. record { synced = take f.synced f.bytes.items; rest = drop f.synced f.bytes.items; doubtful = f.doubtful } };

    ghost invariant = { λ f. f.synced ≤ length f.bytes.items };
}

impl MemoryFile {
    /// A file without bytes.
    pub(crate) fn new(alloc: Global) -> MemoryFile
        ensures { result ≡ empty_file }
    {
        MemoryFile {
            bytes: Vec::new(alloc),
            synced: 0,
            doubtful: false,
        }
    }

    /// A copy of the file's bytes.
    pub(crate) fn read(&self, alloc: Global) -> Result<Vec<u8>, DiskFault>
        ensures ok { IfOk result (λ bytes. bytes.items ≡ self.now.synced ++ self.now.rest) }
        ensures err { IfErr result (λ fault. fault ≡ DiskFault.Memory) }
    {
        match self.bytes.to_vec(alloc) {
            Ok(bytes) => Ok(bytes),
            Err(_) => Err(DiskFault::Memory),
        }
    }

    /// Appends bytes, which aren't synced. An allocation failure leaves the file as it was.
    pub(crate) fn append(&mut self, bytes: &[u8]) -> Result<(), DiskFault>
        ensures ok { OnOk result (self.new ≡ extended bytes.now self.old) }
        ensures err { OnErr result (self.new ≡ self.old) }
        ensures memory { IfErr result (λ fault. fault ≡ DiskFault.Memory) }
    {
        match self.bytes.extend_from_slice(bytes) {
            Ok(()) => Ok(()),
            Err(_) => Err(DiskFault::Memory),
        }
    }

    /// Syncs the bytes, unless a sync has failed before.
    pub(crate) fn sync(&mut self)
        ensures { self.new ≡ synced self.old }
    {
        if !self.doubtful {
            self.synced = self.bytes.len();
        }
    }

    /// Counts a sync that failed.
    pub(crate) fn doubt(&mut self)
        ensures { self.new ≡ doubted self.old }
    {
        self.doubtful = true;
    }

    /// A power cut: keeps the synced bytes and at most `keep` bytes of the rest, all of them synced
    /// then.
    pub(crate) fn cut(&mut self, keep: usize)
        ensures { self.new ≡ left_by keep self.old }
    {
        self.bytes.truncate(self.synced.saturating_add(keep));
        self.synced = self.bytes.len();
        self.doubtful = false;
    }
}
