//! The disks of a folder.
ghost use Rattle.std.specs.Prelude.{◌≡◌, ℕ, List, false, true, IfNone, IfSome, OnErr, OnOk};
ghost use Rattle.wf_disk.specs.Folder.{MayLeave};
ghost use Rattle.wf_store.specs.declared.file_name.FileName.{FileName};
ghost use Rattle.wf_power_cuts.specs.Cut.{is_file};
ghost use Rattle.wf_power_cuts.specs.Disks.{AreOnlyRead, ChangesDisk, IsOldOr, disk_of, empty_disks, has_disk, no_files, with_disk};

use crate::one_disk::{read_one, replace_one};
use std::alloc::{AllocError, Global};
use std::marker::Model;
use std::mem::replace;
use wf_disk::{DiskFault, MemoryDisk};
use wf_store::FileName;
use wf_tape::{DiskTape, TapeFault};

/// The disks of a folder, one for each file; of the nodes' tapes one alone.
#[derive(Drop)]
pub(crate) struct Disks {
    farm: MemoryDisk,
    heard: MemoryDisk,
    joins: MemoryDisk,
    replaced: MemoryDisk,
    node_tape: MemoryDisk,
    replica_tape: MemoryDisk,
    node: u8,
}

impl Model for Disks {
    ghost use Rattle.wf_power_cuts.specs.Disks.{DiskSet};

    ghost Value = { DiskSet };

    ghost view = { λ d. record { farm = d.farm; heard = d.heard; joins = d.joins; replaced = d.replaced; node_tape = d.node_tape; replica_tape = d.replica_tape; node = d.node } };
}

impl Disks {
    /// Disks without files, for the tape of this node.
    pub(crate) fn new(alloc: Global, node: u8) -> Self
        ensures { result ≡ empty_disks node }
    {
        Disks {
            farm: MemoryDisk::new(alloc),
            heard: MemoryDisk::new(alloc),
            joins: MemoryDisk::new(alloc),
            replaced: MemoryDisk::new(alloc),
            node_tape: MemoryDisk::new(alloc),
            replica_tape: MemoryDisk::new(alloc),
            node,
        }
    }

    /// The node whose tape it has a disk for.
    pub(crate) fn node(&self) -> u8 {
        self.node
    }

    /// Takes the disk of a file out, with one without files in its place. None: there is none.
    pub(crate) fn take(&mut self, alloc: Global, file: FileName) -> Option<MemoryDisk>
        ensures disk { IfSome result (λ disk. disk ≡ disk_of self.old file) }
        ensures has { IfSome result (λ disk. has_disk self.old file ≡ true) }
        ensures left { IfSome result (λ disk. self.new ≡ with_disk self.old file no_files) }
        ensures none { IfNone result (self.new ≡ self.old) }
    {
        let empty = MemoryDisk::new(alloc);
        match file {
            FileName::Farm => Some(replace(&mut self.farm, empty)),
            FileName::Heard => Some(replace(&mut self.heard, empty)),
            FileName::Joins => Some(replace(&mut self.joins, empty)),
            FileName::Replaced => Some(replace(&mut self.replaced, empty)),
            FileName::ReplicaTape => Some(replace(&mut self.replica_tape, empty)),
            FileName::NodeTape(node) => {
                if node == self.node {
                    Some(replace(&mut self.node_tape, empty))
                } else {
                    drop(empty);
                    None
                }
            }
        }
    }

    /// Puts a disk in the place of a file's.
    pub(crate) fn put(&mut self, file: FileName, disk: MemoryDisk)
        ensures { self.new ≡ with_disk self.old file disk }
    {
        match file {
            FileName::Farm => drop(replace(&mut self.farm, disk)),
            FileName::Heard => drop(replace(&mut self.heard, disk)),
            FileName::Joins => drop(replace(&mut self.joins, disk)),
            FileName::Replaced => drop(replace(&mut self.replaced, disk)),
            FileName::ReplicaTape => drop(replace(&mut self.replica_tape, disk)),
            FileName::NodeTape(node) => {
                if self.node == node {
                    drop(replace(&mut self.node_tape, disk));
                } else {
                    drop(disk);
                }
            }
        }
    }

    /// Replaces a file. Err: `Memory`; or `Device` if there is no disk for it.
    #[tactic(auto, using(crate::proofs::DiskLemmas::changed_by, crate::proofs::DiskLemmas::is_back, crate::proofs::DiskLemmas::unchanged_or))]
    pub(crate) fn replace(
        &mut self,
        alloc: Global,
        file: FileName,
        bytes: &[u8],
    ) -> Result<(), DiskFault>
        ensures change { ChangesDisk file (IsOldOr self.old file bytes.now) self.old self.new }
        ensures alone { OnOk result ((image : List ℕ) →
            MayLeave (disk_of self.new file).folder image → image ≡ bytes.now) }
    {
        let Some(mut disk) = self.take(alloc, file) else {
            return Err(DiskFault::Device);
        };
        let replaced = replace_one(&mut disk, bytes);
        self.put(file, disk);
        replaced
    }

    /// The bytes of a file. None: there is no such file. The only error is allocation failure.
    #[tactic(auto, using(crate::proofs::DiskLemmas::changed_by, crate::proofs::DiskLemmas::one_read, crate::proofs::DiskLemmas::none_read))]
    pub(crate) fn read(
        &mut self,
        alloc: Global,
        file: FileName,
    ) -> Result<Option<Vec<u8>>, AllocError>
        ensures { AreOnlyRead self.old self.new }
    {
        let Some(mut disk) = self.take(alloc, file) else {
            return Ok(None);
        };
        let read = read_one(&mut disk, alloc);
        self.put(file, disk);
        match read {
            Ok(bytes) => Ok(Some(bytes)),
            Err(DiskFault::Device) => Ok(None),
            Err(DiskFault::Memory) => Err(AllocError),
        }
    }

    /// Opens a file as a tape, which has its disk then. Err: it isn't opened.
    #[tactic(auto, using(crate::proofs::DiskLemmas::unchanged))]
    pub(crate) fn open(
        &mut self,
        alloc: Global,
        file: FileName,
    ) -> Result<DiskTape<MemoryDisk>, TapeFault>
        ensures others { OnOk result ((other : FileName) → is_file file other ≡ false →
            disk_of self.new other ≡ disk_of self.old other) }
        ensures change { OnErr result
            (ChangesDisk file (MayLeave (disk_of self.old file).folder) self.old self.new) }
    {
        let Some(disk) = self.take(alloc, file) else {
            return Err(TapeFault::Device);
        };
        match DiskTape::over(disk) {
            Ok(tape) => Ok(tape),
            Err((disk, fault)) => {
                self.put(file, disk);
                Err(fault)
            }
        }
    }
}
