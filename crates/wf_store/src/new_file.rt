//! A file of the system that takes the place of another, as a disk.
ghost use Rattle.std.specs.Prelude.{◌≡◌, ◌≤◌, [], None, Some};
ghost use Rattle.wf_disk.specs.Moments.{HasRisen};

use crate::system_folder::sync;
use std::alloc::Global;
use std::fs::{OpenFile, OpenOptions};
use std::io::{ErrorKind, Write};
use std::rt::Files;
use std::{fs, io};
use wf_disk::{Disk, DiskFault, Name};

/// The disk of a file of the system that is replaced: only its second file is opened, so the own
/// file needn't be there. It keeps the system's cause of the last failure. What the system does has
/// no model, so it declares itself not durable.
#[derive(Drop)]
pub(crate) struct NewFile<'a, R: Files> {
    rt: &'a R,
    folder: &'a str,
    path: &'a str,
    second_path: &'a str,
    second: Option<R::File>,
    cause: Option<ErrorKind>,
    failures: u64,
}

impl<'a, R: Files> NewFile<'a, R> {
    /// The disk of the file at a path in a folder, with the path of the second file. Nothing is
    /// opened yet.
    pub(crate) fn new(rt: &'a R, folder: &'a str, path: &'a str, second_path: &'a str) -> Self {
        NewFile {
            rt,
            folder,
            path,
            second_path,
            second: None,
            cause: None,
            failures: 0,
        }
    }

    /// Counts a failure, and keeps its cause.
    fn fail(&mut self, cause: ErrorKind) -> DiskFault
        ensures fault { result ≡ DiskFault.Device }
        ensures cause { self.new.cause ≡ Some cause }
        ensures risen { HasRisen self.old.failures self.new.failures }
        ensures later { self.old.failures ≤ self.new.failures }
    {
        self.cause = Some(cause);
        self.failures = self.failures.saturating_add(1);
        DiskFault::Device
    }
}

/// Opens the file at a path to write, without bytes; it is made if it is absent.
pub(crate) fn open_empty<R: Files>(rt: &R, path: &str) -> io::Result<R::File> {
    let mut options = OpenOptions::new();
    options.write(true).create(true).truncate(true);
    options.open(rt, path)
}

/// Writes the bytes to a file that is open.
pub(crate) fn write<F: Write>(file: &mut Option<F>, bytes: &[u8]) -> io::Result<()> {
    match file {
        None => Err(io::Error::from(ErrorKind::NotFound)),
        Some(file) => file.write_all(bytes),
    }
}

/// Syncs a file that is open.
pub(crate) fn sync_file<F: OpenFile>(file: &Option<F>) -> io::Result<()> {
    match file {
        None => Err(io::Error::from(ErrorKind::NotFound)),
        Some(file) => file.sync_all(),
    }
}

impl<'a, R: Files> Disk for NewFile<'a, R> {
    ghost durable = { ⊥ };

    ghost folder = { λ _. record { own = None; second = None; earlier = [] } };

    ghost failed = { λ d. d.failures };

    ghost said = { λ d. d.cause };

    ghost moment = { λ _. 0 };

    ghost left_since = { λ _ _ _. ⊥ };

    ghost is_now = { λ no. absurd no };

    ghost nested = { λ no. absurd no };

    fn open(&mut self) -> Result<(), DiskFault> {
        Err(self.fail(ErrorKind::Unsupported))
    }

    fn make(&mut self) -> Result<(), DiskFault> {
        match open_empty(self.rt, self.second_path) {
            Ok(file) => {
                self.second = Some(file);
                Ok(())
            }
            Err(error) => Err(self.fail(error.kind())),
        }
    }

    fn append(&mut self, name: Name, bytes: &[u8]) -> Result<(), DiskFault> {
        let written = match name {
            Name::Own => Err(io::Error::from(ErrorKind::Unsupported)),
            Name::Second => write(&mut self.second, bytes),
        };
        match written {
            Ok(()) => Ok(()),
            Err(error) => Err(self.fail(error.kind())),
        }
    }

    fn sync(&mut self, name: Name) -> Result<(), DiskFault> {
        let synced = match name {
            Name::Own => Err(io::Error::from(ErrorKind::Unsupported)),
            Name::Second => sync_file(&self.second),
        };
        match synced {
            Ok(()) => Ok(()),
            Err(error) => Err(self.fail(error.kind())),
        }
    }

    fn rename(&mut self) -> Result<(), DiskFault> {
        match fs::rename(self.rt, self.second_path, self.path) {
            Ok(()) => Ok(()),
            Err(error) => Err(self.fail(error.kind())),
        }
    }

    fn sync_names(&mut self) -> Result<(), DiskFault> {
        match sync(self.rt, self.folder) {
            Ok(()) => Ok(()),
            Err(error) => Err(self.fail(error.kind())),
        }
    }

    fn read(&mut self, _alloc: Global) -> Result<Vec<u8>, DiskFault> {
        Err(self.fail(ErrorKind::Unsupported))
    }

    fn failures(&self) -> u64 {
        self.failures
    }

    fn cause(&self) -> Option<ErrorKind> {
        self.cause
    }
}
