//! The calls of a folder on disks in memory.
ghost use Rattle.std.specs.Prelude.{◌≡◌, ◌∷◌, [], IfErr, None, OnErr, OnOk};
ghost use Rattle.wf_store.specs.Call.{failed, failed_at, opened, opened_existing, replaced, unreplaced};
ghost use Rattle.wf_store.specs.Fault.{IsWhyUnopened, IsWhyUnread, IsWhyUnwritten};

use crate::folder::DiskStore;
use std::io::ErrorKind;
use wf_disk::{DiskFault, MemoryDisk};
use wf_folder::Presence;
use wf_store::{CallKind, FileName, FolderFault, Store};
use wf_tape::{DiskTape, TapeFault};

/// Why a file isn't replaced, by the error of its disk.
fn unwritten(file: FileName, fault: DiskFault) -> FolderFault
    ensures { IsWhyUnwritten file result }
{
    match fault {
        DiskFault::Memory => FolderFault::Memory,
        DiskFault::Device => FolderFault::Unwritten(file, ErrorKind::Other),
    }
}

/// Why a file isn't opened, by the error of its tape.
fn unopened(file: FileName, fault: TapeFault) -> FolderFault
    ensures { IsWhyUnopened file result }
{
    match fault {
        TapeFault::Memory => FolderFault::Memory,
        TapeFault::Device => FolderFault::Unopened(file),
    }
}

/// Whether a file is there, by its bytes.
fn presence_of(found: &Option<Vec<u8>>) -> Presence {
    match found {
        None => Presence::Absent,
        Some(bytes) => {
            if bytes.is_empty() {
                Presence::Empty
            } else {
                Presence::Written
            }
        }
    }
}

impl Store for DiskStore {
    type Tape = DiskTape<MemoryDisk>;

    ghost calls = { λ store. store.calls };

    fn make(&mut self) -> Result<(), FolderFault> {
        self.note(CallKind::Makes);
        Ok(())
    }

    fn lock(&mut self) -> Result<(), FolderFault> {
        self.note(CallKind::Locks);
        Ok(())
    }

    fn is_same(&mut self) -> Result<bool, FolderFault> {
        self.note(CallKind::Compares(true));
        Ok(true)
    }

    fn count_names(&mut self) -> Result<usize, FolderFault> {
        let count = self.count_files();
        self.note(CallKind::Counts(count));
        Ok(count)
    }

    fn draw(&mut self) -> Result<[u8; 16], FolderFault> {
        let bits = self.bits();
        self.note(CallKind::Draws(bits));
        Ok(bits)
    }

    fn presence(&mut self, file: FileName) -> Result<Presence, FolderFault> {
        match self.look(file) {
            Ok(found) => {
                let there = presence_of(&found);
                drop(found);
                self.note(CallKind::Sees(file, there));
                Ok(there)
            }
            Err(_) => {
                self.note(CallKind::Fails);
                Err(FolderFault::Memory)
            }
        }
    }

    fn length(&mut self, file: FileName) -> Option<u64> {
        let length = self.length_of(file);
        self.note(CallKind::Measures(file, length));
        length
    }

    fn read(&mut self, file: FileName, limit: usize) -> Result<Option<Vec<u8>>, FolderFault> {
        match self.first_bytes(file, limit) {
            Ok(found) => {
                self.note_read(file, &found);
                Ok(found)
            }
            Err(_) => {
                self.note(CallKind::Fails);
                Err(FolderFault::Memory)
            }
        }
    }

    fn open(&mut self, file: FileName) -> Result<DiskTape<MemoryDisk>, FolderFault> {
        match self.open_tape(file) {
            Ok(tape) => Ok(tape),
            Err(fault) => Err(unopened(file, fault)),
        }
    }

    fn open_existing(&mut self, file: FileName) -> Result<DiskTape<MemoryDisk>, FolderFault> {
        match self.length_of(file) {
            Some(_) => match self.open_tape_there(file) {
                Ok(tape) => Ok(tape),
                Err(fault) => Err(unopened(file, fault)),
            },
            None => {
                self.note(CallKind::Fails);
                Err(FolderFault::Unopened(file))
            }
        }
    }

    fn replace(&mut self, file: FileName, bytes: Vec<u8>) -> Result<(), FolderFault> {
        match self.put(file, bytes) {
            Ok(()) => Ok(()),
            Err(fault) => Err(unwritten(file, fault)),
        }
    }
}
