//! A folder of the system.
ghost use Rattle.std.specs.Prelude.{◌≡◌, [], ◌∷◌, None, false};
ghost use Rattle.wf_store.specs.Call.{IsAfter, OnlyReads, is_change};

use crate::call_kind::CallKind;
use crate::calls::Calls;
use crate::fault::FolderFault;
use crate::file_name::FileName;
use crate::store::Store;
use crate::system_file::{length_in, open_existing_in, open_in, presence_in, read_in, replace_in};
use crate::system_folder::{count_names, draw_bits, is_at, lock_folder, make_folder};
use std::fs::File;
use std::rt::Files;
use wf_folder::Presence;
use wf_tape::FileTape;

/// A folder of the system, at a path.
#[derive(Drop)]
pub struct SystemStore<'a, 'p, R: Files<File = File>> {
    rt: &'a R,
    folder: &'p str,
    // what is locked; the system releases it when the program ends in any way
    held: Option<File>,
    calls: Calls,
}

impl<'a, 'p, R: Files<File = File> + AllocGlobal> SystemStore<'a, 'p, R> {
    /// The folder at a path, which isn't opened yet.
    pub fn new(rt: &'a R, folder: &'p str) -> Self
        ensures { result.calls ≡ [] }
    {
        SystemStore {
            rt,
            folder,
            held: None,
            calls: Calls::new(),
        }
    }

    /// Notes a call that read or wrote no bytes.
    fn note(&mut self, kind: CallKind)
        ensures all { self.new.calls ≡ record { kind = kind; bytes = None } ∷ self.old.calls }
        ensures after { IsAfter self.old.calls self.new.calls }
        ensures reads { is_change kind ≡ false → OnlyReads self.old.calls self.new.calls }
    {
        self.calls = self.calls.and(kind, &None);
    }
}

impl<'a, 'p, R: Files<File = File> + AllocGlobal> Store for SystemStore<'a, 'p, R> {
    type Tape = FileTape<&'a R>;

    ghost calls = { λ store. store.calls };

    fn make(&mut self) -> Result<(), FolderFault> {
        match make_folder(self.rt, self.folder) {
            Ok(()) => {
                self.note(CallKind::Makes);
                Ok(())
            }
            Err(fault) => {
                self.note(CallKind::Fails);
                Err(fault)
            }
        }
    }

    fn lock(&mut self) -> Result<(), FolderFault> {
        match lock_folder(self.rt, self.folder) {
            Ok(held) => {
                self.held = Some(held);
                self.note(CallKind::Locks);
                Ok(())
            }
            Err(fault) => {
                self.note(CallKind::Fails);
                Err(fault)
            }
        }
    }

    fn is_same(&mut self) -> Result<bool, FolderFault> {
        match is_at(self.rt, self.folder, &self.held) {
            Ok(same) => {
                self.note(CallKind::Compares(same));
                Ok(same)
            }
            Err(fault) => {
                self.note(CallKind::Fails);
                Err(fault)
            }
        }
    }

    fn count_names(&mut self) -> Result<usize, FolderFault> {
        match count_names(self.rt, self.folder) {
            Ok(count) => {
                self.note(CallKind::Counts(count));
                Ok(count)
            }
            Err(fault) => {
                self.note(CallKind::Fails);
                Err(fault)
            }
        }
    }

    fn draw(&mut self) -> Result<[u8; 16], FolderFault> {
        match draw_bits(self.rt) {
            Ok(bits) => {
                self.note(CallKind::Draws(bits));
                Ok(bits)
            }
            Err(fault) => {
                self.note(CallKind::Fails);
                Err(fault)
            }
        }
    }

    fn presence(&mut self, file: FileName) -> Result<Presence, FolderFault> {
        match presence_in(self.rt, self.folder, file) {
            Ok(there) => {
                self.note(CallKind::Sees(file, there));
                Ok(there)
            }
            Err(fault) => {
                self.note(CallKind::Fails);
                Err(fault)
            }
        }
    }

    fn length(&mut self, file: FileName) -> Option<u64> {
        let length = length_in(self.rt, self.folder, file);
        self.note(CallKind::Measures(file, length));
        length
    }

    fn read(&mut self, file: FileName, limit: usize) -> Result<Option<Vec<u8>>, FolderFault> {
        match read_in(self.rt, self.folder, file, limit) {
            Ok(found) => {
                self.calls = self.calls.and(CallKind::Reads(file), &found);
                Ok(found)
            }
            Err(fault) => {
                self.note(CallKind::Fails);
                Err(fault)
            }
        }
    }

    fn open(&mut self, file: FileName) -> Result<FileTape<&'a R>, FolderFault> {
        match open_in(self.rt, self.folder, file) {
            Ok(tape) => {
                self.note(CallKind::Opens(file));
                Ok(tape)
            }
            Err(fault) => {
                self.note(CallKind::FailsAt(file));
                Err(fault)
            }
        }
    }

    fn open_existing(&mut self, file: FileName) -> Result<FileTape<&'a R>, FolderFault> {
        match open_existing_in(self.rt, self.folder, file) {
            Ok(tape) => {
                self.note(CallKind::OpensExisting(file));
                Ok(tape)
            }
            Err(fault) => {
                self.note(CallKind::Fails);
                Err(fault)
            }
        }
    }

    fn replace(&mut self, file: FileName, bytes: Vec<u8>) -> Result<(), FolderFault> {
        let replaced = replace_in(self.rt, self.folder, file, &bytes);
        let kind = match replaced {
            Ok(()) => CallKind::Replaces(file),
            Err(_) => CallKind::FailsAt(file),
        };
        let given = Some(bytes);
        self.calls = self.calls.and(kind, &given);
        drop(given);
        replaced
    }
}
