//! A folder in memory.
ghost use Rattle.std.specs.Prelude.{◌≡◌, IfOk, length};

use crate::file_name::FileName;
use std::alloc::{AllocError, Global};
use std::cell::{Cell, RefCell, RefMut};
use wf_disk::{Disk, DiskFault, MemoryDisk, Name};

/// A folder in memory, with a disk for each file. It outlives the stores over it, so that a process
/// that has ended is started on it anew, after a power cut too.
///
/// What a cell contains has no clause, so neither has what the folder holds: the clauses of a store
/// are those on its calls, and those on power cuts are of a `MemoryDisk` that is owned.
#[derive(Drop)]
pub struct MemoryFolder {
    alloc: Global,
    farm: RefCell<MemoryDisk>,
    heard: RefCell<MemoryDisk>,
    joins: RefCell<MemoryDisk>,
    replaced: RefCell<MemoryDisk>,
    replica_tape: RefCell<MemoryDisk>,
    node_tapes: Vec<RefCell<MemoryDisk>>,
    is_locked: Cell<bool>,
    bits: Cell<[u8; 16]>,
    // the number of the call that will fail, counted from 1 from now, or 0, and how much it keeps
    call: Cell<usize>,
    kept: Cell<usize>,
}

impl MemoryFolder {
    /// A folder without files, for the tapes of so many nodes; that of a node with a higher number
    /// can't be made. No failure is set. The only error is allocation failure.
    pub fn new(alloc: Global, nodes: u8) -> Result<MemoryFolder, AllocError>
        ensures { IfOk result (λ folder. length folder.node_tapes.items ≡ nodes) }
    {
        Ok(MemoryFolder {
            alloc,
            farm: RefCell::new(MemoryDisk::new(alloc)),
            heard: RefCell::new(MemoryDisk::new(alloc)),
            joins: RefCell::new(MemoryDisk::new(alloc)),
            replaced: RefCell::new(MemoryDisk::new(alloc)),
            replica_tape: RefCell::new(MemoryDisk::new(alloc)),
            node_tapes: empty_disks(alloc, nodes)?,
            is_locked: Cell::new(false),
            bits: Cell::new([0; 16]),
            call: Cell::new(0),
            kept: Cell::new(0),
        })
    }

    /// Sets the random bits that are drawn from now on.
    pub fn set_bits(&self, bits: [u8; 16]) {
        self.bits.set(bits);
    }

    /// Sets a failure: the `call`-th call of any of the disks from now, counted from 1, fails once,
    /// and keeps so much, as in `MemoryDisk::set_fuse`. Call 0 sets no failure. Calls that only
    /// look (whether a file is there, how long it is, the names) don't count. A failure that was
    /// set before and that no call has reached is no longer set.
    pub fn set_failure(&self, call: usize, kept: usize) {
        self.call.set(call);
        self.kept.set(kept);
    }

    /// Whether a failure is set that no call has reached.
    pub fn will_fail(&self) -> bool {
        self.call.get() != 0
    }

    /// A power cut: under each file's name is then one of the files that it may put back there, the
    /// one that is there for 0, with all its synced bytes and at most `keep` bytes of the rest, as
    /// in `MemoryDisk::cut`.
    pub fn cut(&self, back: usize, keep: usize) {
        cut_disk(&self.farm, back, keep);
        cut_disk(&self.heard, back, keep);
        cut_disk(&self.joins, back, keep);
        cut_disk(&self.replaced, back, keep);
        cut_disk(&self.replica_tape, back, keep);
        for disk in &self.node_tapes {
            cut_disk(disk, back, keep);
        }
    }

    /// Locks the folder, unless it is locked. False: it was.
    pub(crate) fn try_lock(&self) -> bool {
        !self.is_locked.replace(true)
    }

    /// Unlocks the folder.
    pub(crate) fn unlock(&self) {
        self.is_locked.set(false);
    }

    /// The random bits that are set.
    pub(crate) fn bits(&self) -> [u8; 16] {
        self.bits.get()
    }

    /// Counts a call. If the failure that is set is this call's, returns how much it keeps.
    pub(crate) fn count_call(&self) -> Option<usize> {
        let call = self.call.get();
        self.call.set(call.saturating_sub(1));
        if call == 1 {
            Some(self.kept.get())
        } else {
            None
        }
    }

    /// The disk of a file, on which no failure is set. None: it has none, or is in use.
    pub(crate) fn disk(&self, file: FileName) -> Option<RefMut<'_, MemoryDisk>> {
        let mut disk = self.cell_of(file)?.try_borrow_mut().ok()?;
        disk.set_fuse(0, 0);
        Some(disk)
    }

    /// The cell of a file's disk.
    fn cell_of(&self, file: FileName) -> Option<&RefCell<MemoryDisk>> {
        match file {
            FileName::Farm => Some(&self.farm),
            FileName::Heard => Some(&self.heard),
            FileName::Joins => Some(&self.joins),
            FileName::Replaced => Some(&self.replaced),
            FileName::ReplicaTape => Some(&self.replica_tape),
            FileName::NodeTape(node) => self.node_tapes.get(node as usize),
        }
    }

    /// The bytes of a file. None: there is no such file.
    pub(crate) fn bytes(&self, file: FileName) -> Result<Option<Vec<u8>>, AllocError> {
        let Some(mut disk) = self.disk(file) else {
            return Ok(None);
        };
        match disk.read(self.alloc) {
            Ok(bytes) => Ok(Some(bytes)),
            Err(DiskFault::Device) => Ok(None),
            Err(DiskFault::Memory) => Err(AllocError),
        }
    }

    /// The number of names in the folder, but for those of second files.
    pub(crate) fn count_names(&self) -> usize {
        let mut count = count_on(&self.farm)
            .saturating_add(count_on(&self.heard))
            .saturating_add(count_on(&self.joins))
            .saturating_add(count_on(&self.replaced))
            .saturating_add(count_on(&self.replica_tape));
        for disk in &self.node_tapes {
            count = count.saturating_add(count_on(disk));
        }
        count
    }
}

/// So many disks without files.
fn empty_disks(alloc: Global, count: u8) -> Result<Vec<RefCell<MemoryDisk>>, AllocError>
    ensures { IfOk result (λ disks. length disks.items ≡ count) }
{
    let mut disks = Vec::new(alloc);
    for _node in 0..count {
        disks.push(RefCell::new(MemoryDisk::new(alloc)))?;
    }
    Ok(disks)
}

/// A power cut of a disk.
fn cut_disk(disk: &RefCell<MemoryDisk>, back: usize, keep: usize) {
    if let Ok(mut disk) = disk.try_borrow_mut() {
        disk.cut(back, keep);
    }
}

/// The number of files on a disk.
fn count_on(disk: &RefCell<MemoryDisk>) -> usize {
    match disk.try_borrow_mut() {
        Ok(mut disk) => {
            disk.set_fuse(0, 0);
            is_there(&mut *disk, Name::Own) as usize
        }
        Err(_) => 0,
    }
}

/// Whether a disk on which no failure is set has a file under a name: then no bytes can be appended
/// to it.
fn is_there(disk: &mut MemoryDisk, name: Name) -> bool {
    disk.append(name, &[]).is_ok()
}
