//! A folder in memory, as a process sees it.
ghost use Rattle.std.specs.Prelude.{◌≡◌, [], ◌∷◌, None, false, IfErr};
ghost use Rattle.wf_store.specs.Call.{IsAfter, OnlyReads, is_change};
ghost use Rattle.wf_store.specs.Fault.{IsWhyUnopened, IsWhyUnread, IsWhyUnwritten};

use crate::call_kind::CallKind;
use crate::calls::Calls;
use crate::fault::FolderFault;
use crate::file_name::FileName;
use crate::memory_folder::MemoryFolder;
use crate::replacement::replace_on;
use crate::shared_disk::SharedDisk;
use crate::store::Store;
use crate::system_file::unopened;
use std::io::ErrorKind;
use wf_disk::DiskFault;
use wf_folder::Presence;
use wf_tape::DiskTape;

/// A folder in memory, as the process sees it that has it. Its lock is released when it is dropped.
pub struct MemoryStore<'a> {
    folder: &'a MemoryFolder,
    holds: bool,
    calls: Calls,
}

impl<'a> Drop for MemoryStore<'a> {
    fn drop(self) {
        let MemoryStore {
            folder,
            holds,
            calls,
        } = self;
        drop(calls);
        if holds {
            folder.unlock();
        }
    }
}

impl<'a> MemoryStore<'a> {
    /// The folder, which isn't locked yet.
    pub fn new(folder: &'a MemoryFolder) -> Self
        ensures { result.calls ≡ [] }
    {
        MemoryStore {
            folder,
            holds: false,
            calls: Calls::new(),
        }
    }

    /// Notes a call that read or wrote no bytes.
    fn note(&mut self, kind: CallKind)
        ensures all { self.new.calls ≡ record { kind = kind; bytes = None } ∷ self.old.calls }
        ensures after { IsAfter self.old.calls self.new.calls }
        ensures reads { is_change kind ≡ false → OnlyReads self.old.calls self.new.calls }
    {
        self.calls = self.calls.and(kind, &None);
    }
}

/// Whether a file is there.
fn presence_in(folder: &MemoryFolder, file: FileName) -> Result<Presence, FolderFault>
    ensures { IfErr result (IsWhyUnread file) }
{
    match folder.bytes(file) {
        Ok(None) => Ok(Presence::Absent),
        Ok(Some(bytes)) => Ok(if bytes.is_empty() {
            Presence::Empty
        } else {
            Presence::Written
        }),
        Err(_) => Err(FolderFault::Memory),
    }
}

/// The number of bytes of a file.
fn length_in(folder: &MemoryFolder, file: FileName) -> Option<u64> {
    let bytes = folder.bytes(file).ok()??;
    Some(bytes.len() as u64)
}

/// The first bytes of a file, if it is there.
fn read_in(
    folder: &MemoryFolder,
    file: FileName,
    limit: usize,
) -> Result<Option<Vec<u8>>, FolderFault>
    ensures { IfErr result (IsWhyUnread file) }
{
    if folder.count_call().is_some() {
        return Err(FolderFault::Unread(file, ErrorKind::Other));
    }
    match folder.bytes(file) {
        Ok(None) => Ok(None),
        Ok(Some(mut bytes)) => {
            bytes.truncate(limit);
            Ok(Some(bytes))
        }
        Err(_) => Err(FolderFault::Memory),
    }
}

/// A file as a tape; it is made if it is absent.
fn open_in<'a>(
    folder: &'a MemoryFolder,
    file: FileName,
) -> Result<DiskTape<SharedDisk<'a>>, FolderFault>
    ensures { IfErr result (IsWhyUnopened file) }
{
    match DiskTape::over(SharedDisk::new(folder, file)) {
        Ok(tape) => Ok(tape),
        Err((disk, fault)) => {
            drop(disk);
            Err(unopened(file, fault))
        }
    }
}

/// A file as a tape; it has to be there.
fn open_existing_in<'a>(
    folder: &'a MemoryFolder,
    file: FileName,
) -> Result<DiskTape<SharedDisk<'a>>, FolderFault>
    ensures { IfErr result (IsWhyUnopened file) }
{
    match folder.bytes(file) {
        Ok(None) => Err(FolderFault::Unopened(file)),
        Ok(Some(bytes)) => {
            drop(bytes);
            open_in(folder, file)
        }
        Err(_) => Err(FolderFault::Memory),
    }
}

/// Puts bytes in the place of a file.
fn replace_in(folder: &MemoryFolder, file: FileName, bytes: &[u8]) -> Result<(), FolderFault>
    ensures { IfErr result (IsWhyUnwritten file) }
{
    let mut disk = SharedDisk::new(folder, file);
    match replace_on(&mut disk, bytes) {
        Ok(()) => Ok(()),
        Err(DiskFault::Memory) => Err(FolderFault::Memory),
        Err(DiskFault::Device) => Err(FolderFault::Unwritten(file, ErrorKind::Other)),
    }
}

impl<'a> Store for MemoryStore<'a> {
    type Tape = DiskTape<SharedDisk<'a>>;

    ghost calls = { λ store. store.calls };

    fn make(&mut self) -> Result<(), FolderFault> {
        self.note(CallKind::Makes);
        Ok(())
    }

    fn lock(&mut self) -> Result<(), FolderFault> {
        if self.folder.try_lock() {
            self.holds = true;
            self.note(CallKind::Locks);
            Ok(())
        } else {
            self.note(CallKind::Fails);
            Err(FolderFault::Held)
        }
    }

    fn is_same(&mut self) -> Result<bool, FolderFault> {
        let same = self.holds;
        self.note(CallKind::Compares(same));
        Ok(same)
    }

    fn count_names(&mut self) -> Result<usize, FolderFault> {
        let count = self.folder.count_names();
        self.note(CallKind::Counts(count));
        Ok(count)
    }

    fn draw(&mut self) -> Result<[u8; 16], FolderFault> {
        let bits = self.folder.bits();
        self.note(CallKind::Draws(bits));
        Ok(bits)
    }

    fn presence(&mut self, file: FileName) -> Result<Presence, FolderFault> {
        match presence_in(self.folder, file) {
            Ok(there) => {
                self.note(CallKind::Sees(file, there));
                Ok(there)
            }
            Err(fault) => {
                self.note(CallKind::Fails);
                Err(fault)
            }
        }
    }

    fn length(&mut self, file: FileName) -> Option<u64> {
        let length = length_in(self.folder, file);
        self.note(CallKind::Measures(file, length));
        length
    }

    fn read(&mut self, file: FileName, limit: usize) -> Result<Option<Vec<u8>>, FolderFault> {
        match read_in(self.folder, file, limit) {
            Ok(found) => {
                self.calls = self.calls.and(CallKind::Reads(file), &found);
                Ok(found)
            }
            Err(fault) => {
                self.note(CallKind::Fails);
                Err(fault)
            }
        }
    }

    fn open(&mut self, file: FileName) -> Result<DiskTape<SharedDisk<'a>>, FolderFault> {
        match open_in(self.folder, file) {
            Ok(tape) => {
                self.note(CallKind::Opens(file));
                Ok(tape)
            }
            Err(fault) => {
                self.note(CallKind::FailsAt(file));
                Err(fault)
            }
        }
    }

    fn open_existing(&mut self, file: FileName) -> Result<DiskTape<SharedDisk<'a>>, FolderFault> {
        match open_existing_in(self.folder, file) {
            Ok(tape) => {
                self.note(CallKind::OpensExisting(file));
                Ok(tape)
            }
            Err(fault) => {
                self.note(CallKind::Fails);
                Err(fault)
            }
        }
    }

    fn replace(&mut self, file: FileName, bytes: Vec<u8>) -> Result<(), FolderFault> {
        let replaced = replace_in(self.folder, file, &bytes);
        let kind = match replaced {
            Ok(()) => CallKind::Replaces(file),
            Err(_) => CallKind::FailsAt(file),
        };
        let given = Some(bytes);
        self.calls = self.calls.and(kind, &given);
        drop(given);
        replaced
    }
}
