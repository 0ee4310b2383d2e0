//! A folder whose syncs take time, on which there may be no room, and whose power may be cut.

use crate::lag::Lag;
use std::alloc::Global;
use std::cell::RefCell;
use std::io::ErrorKind;
use wf_folder::Presence;
use wf_simulation::World;
use wf_store::{FileName, FolderFault, MemoryFolder, MemoryStore, SharedDisk, Store};
use wf_tape::{DiskTape, Tape, TapeFault};

/// What a process's disks stand on: their folder, the time that their syncs take, and the host,
/// whose power may be cut at a call.
#[derive(Clone, Copy)]
pub struct Ground<'a> {
    pub folder: &'a MemoryFolder,
    pub lag: &'a Lag,
    pub world: &'a RefCell<World>,
    pub host: usize,
}

impl<'a> Ground<'a> {
    /// Calls that write begin: the first one fails, and keeps nothing, if there is no room, or no
    /// power any more.
    fn begin_write(&self) {
        if self.lag.is_full() && !self.lag.is_off() {
            self.lag.refuse();
            self.folder.set_failure(1, 0);
        }
        self.begin();
    }

    /// Calls begin: the first one fails if there is no power any more.
    fn begin(&self) {
        if self.lag.is_off() {
            self.folder.set_failure(1, 0);
        }
    }

    /// They are over. If the one failed at which the power is to be cut, it is: what the process
    /// sends from now on doesn't leave its host. No later call fails for want of room.
    fn end(&self) {
        if self.lag.is_armed() && !self.folder.will_fail() {
            self.lag.turn_off();
            if let Ok(mut world) = self.world.try_borrow_mut() {
                world.turn_off(self.host);
            }
        }
        if self.lag.is_full() || self.lag.is_off() {
            self.folder.set_failure(0, 0);
        }
    }
}

/// A tape of a folder in memory whose syncs take time, and whose writes may find no room. No clause
/// says what it holds, so it isn't durable.
#[derive(Drop)]
pub struct SlowTape<'a> {
    tape: DiskTape<SharedDisk<'a>>,
    ground: Ground<'a>,
}

impl<'a> Tape for SlowTape<'a> {
    ghost use Rattle.std.specs.Prelude.{[]};

    ghost durable = { ⊥ };

    ghost content = { λ _. [] };

    ghost images = { λ _ _. ⊥ };

    ghost failed = { λ t. t.tape.disk.failures };

    ghost doubtful = { λ t. t.tape.doubtful };

    ghost certain_is_durable = { λ no. absurd no };

    ghost is_now = { λ no. absurd no };

    ghost nested = { λ no. absurd no };

    fn read(&mut self, alloc: Global) -> Result<Vec<u8>, TapeFault> {
        self.ground.begin();
        let read = self.tape.read(alloc);
        self.ground.end();
        read
    }

    fn append(&mut self, bytes: &[u8]) -> Result<(), TapeFault> {
        self.ground.begin_write();
        let appended = self.tape.append(bytes);
        self.ground.end();
        appended
    }

    fn sync(&mut self) -> Result<(), TapeFault> {
        self.ground.lag.sync();
        self.ground.begin();
        let synced = self.tape.sync();
        self.ground.end();
        synced
    }

    fn replace(&mut self, bytes: &[u8]) -> Result<(), TapeFault> {
        self.ground.lag.sync();
        self.ground.begin_write();
        let replaced = self.tape.replace(bytes);
        self.ground.end();
        replaced
    }

    fn failures(&self) -> u64 {
        self.tape.failures()
    }

    fn cause(&self) -> Option<ErrorKind> {
        self.tape.cause()
    }

    fn is_doubtful(&self) -> bool {
        self.tape.is_doubtful()
    }
}

/// A folder in memory, as the process sees it that has it, whose syncs take time, and on which
/// there may be no room.
#[derive(Drop)]
pub struct SlowStore<'a> {
    store: MemoryStore<'a>,
    ground: Ground<'a>,
}

impl<'a> SlowStore<'a> {
    /// The folder of this ground.
    pub fn new(ground: Ground<'a>) -> Self {
        SlowStore {
            store: MemoryStore::new(ground.folder),
            ground,
        }
    }

    /// A tape of it.
    fn slow(&self, tape: DiskTape<SharedDisk<'a>>) -> SlowTape<'a> {
        SlowTape {
            tape,
            ground: self.ground,
        }
    }
}

impl<'a> Store for SlowStore<'a> {
    type Tape = SlowTape<'a>;

    ghost calls = { λ s. s.store.calls };

    fn make(&mut self) -> Result<(), FolderFault> {
        self.store.make()
    }

    fn lock(&mut self) -> Result<(), FolderFault> {
        self.store.lock()
    }

    fn is_same(&mut self) -> Result<bool, FolderFault> {
        self.store.is_same()
    }

    fn count_names(&mut self) -> Result<usize, FolderFault> {
        self.store.count_names()
    }

    fn draw(&mut self) -> Result<[u8; 16], FolderFault> {
        self.store.draw()
    }

    fn presence(&mut self, file: FileName) -> Result<Presence, FolderFault> {
        self.store.presence(file)
    }

    fn length(&mut self, file: FileName) -> Option<u64> {
        self.store.length(file)
    }

    fn read(&mut self, file: FileName, limit: usize) -> Result<Option<Vec<u8>>, FolderFault> {
        self.ground.begin();
        let read = self.store.read(file, limit);
        self.ground.end();
        read
    }

    fn open(&mut self, file: FileName) -> Result<SlowTape<'a>, FolderFault> {
        match self.store.open(file) {
            Ok(tape) => Ok(self.slow(tape)),
            Err(fault) => Err(fault),
        }
    }

    fn open_existing(&mut self, file: FileName) -> Result<SlowTape<'a>, FolderFault> {
        match self.store.open_existing(file) {
            Ok(tape) => Ok(self.slow(tape)),
            Err(fault) => Err(fault),
        }
    }

    fn replace(&mut self, file: FileName, bytes: Vec<u8>) -> Result<(), FolderFault> {
        self.ground.lag.sync();
        self.ground.begin_write();
        let replaced = self.store.replace(file, bytes);
        self.ground.end();
        replaced
    }
}
