//! A disk of the system, over std's files.

ghost use Rattle.std.specs.Prelude.{◌≡◌, ◌≤◌, [], None, Some, IfOk, false, true};
ghost use Rattle.std.specs.Fs.{asks_create};
ghost use Rattle.wf_disk.specs.Moments.{HasRisen};

use crate::disk::Disk;
use crate::fault::DiskFault;
use crate::folder::Name;
use std::alloc::Global;
use std::fs::{OpenFile, OpenOptions};
use std::io::{ErrorKind, Read, Seek, SeekFrom, Write};
use std::rt::Files;
use std::{fs, io};

/// The most reads of a file: if it hasn't ended by then, the read counts as failed.
pub const FILE_READS: u32 = 1_048_576;

/// The number of bytes requested in one read.
const PIECE_BYTES: usize = 8192;

/// A disk of the system: the file at a path, and a second one beside it. No contract sees what a
/// file holds, so it declares itself not durable: that its calls leave what they say is an
/// assumption, stated in words.
#[derive(Drop)]
pub struct SystemDisk<R: Files + Drop> {
    files: R,
    path: String,
    second_path: String,
    own: Option<R::File>,
    second: Option<R::File>,
    // whether a file that is absent is made when the disk is opened
    creates: bool,
    failures: u64,
    // what the system said of the last failure
    cause: Option<ErrorKind>,
}

impl<R: Files + Drop> SystemDisk<R> {
    /// The disk of the file at the path, which is made when the disk is opened if it is absent. The
    /// second file's name has `.new` appended. Nothing is opened yet. The only error is allocation
    /// failure.
    pub fn new(alloc: Global, files: R, path: &str) -> Result<SystemDisk<R>, DiskFault>
        ensures failures { IfOk result (λ disk. disk.failures ≡ 0) }
        ensures creates { IfOk result (λ disk. disk.creates ≡ true) }
    {
        SystemDisk::at(alloc, files, path, true)
    }

    /// The disk of the file at the path, which is never made: where it is absent the disk doesn't
    /// open, and that is `Device`. Nothing is opened yet. The only error is allocation failure.
    pub fn existing(alloc: Global, files: R, path: &str) -> Result<SystemDisk<R>, DiskFault>
        ensures failures { IfOk result (λ disk. disk.failures ≡ 0) }
        ensures creates { IfOk result (λ disk. disk.creates ≡ false) }
    {
        SystemDisk::at(alloc, files, path, false)
    }

    /// The disk of the file at the path, with nothing opened yet.
    fn at(alloc: Global, files: R, path: &str, creates: bool) -> Result<SystemDisk<R>, DiskFault>
        ensures failures { IfOk result (λ disk. disk.failures ≡ 0) }
        ensures creates { IfOk result (λ disk. disk.creates ≡ creates) }
    {
        let own_path = path.to_string(alloc)?;
        let second_path = format!(in alloc; "{path}.new")?;
        Ok(SystemDisk {
            files,
            path: own_path,
            second_path,
            own: None,
            second: None,
            creates,
            failures: 0,
            cause: None,
        })
    }

    /// Counts a failure of the device, and keeps what the system said of it.
    fn fail(&mut self, cause: ErrorKind) -> DiskFault
        ensures fault { result ≡ DiskFault.Device }
        ensures said { self.new.cause ≡ Some cause }
        ensures risen { HasRisen self.old.failures self.new.failures }
        ensures later { self.old.failures ≤ self.new.failures }
    {
        self.failures = self.failures.saturating_add(1);
        self.cause = Some(cause);
        DiskFault::Device
    }

    /// Renames the second file to the first. If that fails, which of them has the path isn't known,
    /// so the path is opened again, and no file is made there: a handle that was open may be one of
    /// a file without a name.
    fn put_second(&mut self) -> io::Result<()>
        ensures failures { self.new.failures ≡ self.old.failures }
        ensures said { self.new.cause ≡ self.old.cause }
    {
        let second = self.second.take();
        match fs::rename(&self.files, self.second_path.as_str(), self.path.as_str()) {
            Ok(()) => {
                self.own = second;
                Ok(())
            }
            Err(error) => {
                self.own = open_file(&self.files, self.path.as_str(), false).ok();
                Err(error)
            }
        }
    }
}

/// The options to open a file to read and write, and to create it if it is absent and `creates` is
/// set.
fn to_read_and_write(creates: bool) -> OpenOptions
    ensures { asks_create result ≡ creates }
{
    let mut options = OpenOptions::new();
    options.read(true).write(true).create(creates);
    options
}

/// Opens the file at the path to read and write, and creates it if it is absent and `creates` is
/// set.
fn open_file<R: Files>(files: &R, path: &str, creates: bool) -> io::Result<R::File> {
    to_read_and_write(creates).open(files, path)
}

/// Opens the file at the path to read and write, without bytes; it is created if it is absent.
fn open_empty<R: Files>(files: &R, path: &str) -> io::Result<R::File> {
    to_read_and_write(true).truncate(true).open(files, path)
}

/// Appends the bytes to the file. Err: it isn't open, which is `NotFound`, or the write fails.
fn write_behind<F: Write + Seek>(file: &mut Option<F>, bytes: &[u8]) -> Result<(), ErrorKind> {
    let Some(file) = file else {
        return Err(ErrorKind::NotFound);
    };
    match write_at_end(file, bytes) {
        Ok(()) => Ok(()),
        Err(error) => Err(error.kind()),
    }
}

/// Appends the bytes to the file.
fn write_at_end<F: Write + Seek>(file: &mut F, bytes: &[u8]) -> io::Result<()> {
    file.seek(SeekFrom::End(0))?;
    file.write_all(bytes)
}

/// Syncs the file. Err: it isn't open, which is `NotFound`, or the sync fails.
fn sync_file<F: OpenFile>(file: &Option<F>) -> Result<(), ErrorKind> {
    match file {
        None => Err(ErrorKind::NotFound),
        Some(file) => match file.sync_all() {
            Ok(()) => Ok(()),
            Err(error) => Err(error.kind()),
        },
    }
}

/// Syncs the directory of the file at the path, and so the files' names in it.
fn sync_folder<R: Files>(files: &R, path: &str) -> io::Result<()> {
    let folder = match path.rsplit_once('/') {
        None => ".",
        Some(("", _)) => "/",
        Some((folder, _)) => folder,
    };
    fs::open(files, folder)?.sync_all()
}

/// The result of reading to the end.
enum ReadResult {
    Bytes(Vec<u8>),
    Memory,
    Failed(ErrorKind),
}

/// Reads the file from its start to its end.
fn read_whole<F: Read + Seek>(file: &mut Option<F>, alloc: Global) -> ReadResult {
    match file {
        None => ReadResult::Failed(ErrorKind::NotFound),
        Some(file) => match file.seek(SeekFrom::Start(0)) {
            Ok(_) => read_to_end(file, alloc),
            Err(error) => ReadResult::Failed(error.kind()),
        },
    }
}

/// Reads to the end.
fn read_to_end<F: Read>(file: &mut F, alloc: Global) -> ReadResult {
    let mut bytes = Vec::new(alloc);
    let mut piece = [0u8; PIECE_BYTES];
    for _ in 0..FILE_READS {
        match file.read(&mut piece) {
            Ok(0) => return ReadResult::Bytes(bytes),
            Ok(count) => {
                if bytes.extend_from_slice(&piece[..count]).is_err() {
                    return ReadResult::Memory;
                }
            }
            Err(error) => return ReadResult::Failed(error.kind()),
        }
    }
    ReadResult::Failed(ErrorKind::Other)
}

impl<R: Files + Drop> Disk for SystemDisk<R> {
    ghost durable = { ⊥ };

    ghost folder = { λ _. record { own = None; second = None; earlier = [] } };

    ghost failed = { λ d. d.failures };

    ghost said = { λ d. d.cause };

    ghost moment = { λ _. 0 };

    ghost left_since = { λ _ _ _. ⊥ };

    ghost is_now = { λ no. absurd no };

    ghost nested = { λ no. absurd no };

    fn open(&mut self) -> Result<(), DiskFault> {
        match open_file(&self.files, self.path.as_str(), self.creates) {
            Ok(file) => {
                self.own = Some(file);
                Ok(())
            }
            Err(error) => Err(self.fail(error.kind())),
        }
    }

    fn make(&mut self) -> Result<(), DiskFault> {
        match open_empty(&self.files, self.second_path.as_str()) {
            Ok(file) => {
                self.second = Some(file);
                Ok(())
            }
            Err(error) => Err(self.fail(error.kind())),
        }
    }

    fn append(&mut self, name: Name, bytes: &[u8]) -> Result<(), DiskFault> {
        let written = match name {
            Name::Own => write_behind(&mut self.own, bytes),
            Name::Second => write_behind(&mut self.second, bytes),
        };
        match written {
            Ok(()) => Ok(()),
            Err(cause) => Err(self.fail(cause)),
        }
    }

    fn sync(&mut self, name: Name) -> Result<(), DiskFault> {
        let synced = match name {
            Name::Own => sync_file(&self.own),
            Name::Second => sync_file(&self.second),
        };
        match synced {
            Ok(()) => Ok(()),
            Err(cause) => Err(self.fail(cause)),
        }
    }

    fn rename(&mut self) -> Result<(), DiskFault> {
        match self.put_second() {
            Ok(()) => Ok(()),
            Err(error) => Err(self.fail(error.kind())),
        }
    }

    fn sync_names(&mut self) -> Result<(), DiskFault> {
        match sync_folder(&self.files, self.path.as_str()) {
            Ok(()) => Ok(()),
            Err(error) => Err(self.fail(error.kind())),
        }
    }

    fn read(&mut self, alloc: Global) -> Result<Vec<u8>, DiskFault> {
        match read_whole(&mut self.own, alloc) {
            ReadResult::Bytes(bytes) => Ok(bytes),
            ReadResult::Memory => Err(DiskFault::Memory),
            ReadResult::Failed(cause) => Err(self.fail(cause)),
        }
    }

    fn failures(&self) -> u64 {
        self.failures
    }

    fn cause(&self) -> Option<ErrorKind> {
        self.cause
    }
}
