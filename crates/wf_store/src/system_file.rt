//! The files of a folder of the system, each at its path.
ghost use Rattle.std.specs.Prelude.{◌≡◌, IfErr};
ghost use Rattle.wf_store.specs.Fault.{IsWhyUnopened, IsWhyUnread, IsWhyUnwritten};
ghost use Rattle.wf_store.specs.FileName.{path_in};

use crate::at_path::{file_length, read_file};
use crate::fault::FolderFault;
use crate::file_name::{FileName, path_in};
use crate::new_file::NewFile;
use crate::replacement::replace_on;
use std::fs;
use std::io::ErrorKind;
use std::rt::Files;
use wf_disk::{Disk, DiskFault};
use wf_folder::Presence;
use wf_tape::{FileTape, TapeFault};

/// Whether a file of a folder is there.
pub(crate) fn presence_in<R: Files + AllocGlobal>(
    rt: &R,
    folder: &str,
    file: FileName,
) -> Result<Presence, FolderFault>
    ensures { IfErr result (IsWhyUnread file) }
{
    let Ok(path) = path_in(rt.alloc(), folder, file) else {
        return Err(FolderFault::Memory);
    };
    let there = presence_at(rt, folder, file, path.as_str());
    drop(path);
    there
}

/// Whether a file of a folder is at its path.
fn presence_at<R: Files>(
    rt: &R,
    folder: &str,
    file: FileName,
    path: &str,
) -> Result<Presence, FolderFault>
    requires own { path.now ≡ path_in folder.now file }
    ensures { IfErr result (IsWhyUnread file) }
{
    match fs::metadata(rt, path) {
        Ok(metadata) => Ok(if metadata.len() == 0 {
            Presence::Empty
        } else {
            Presence::Written
        }),
        Err(error) => match error.kind() {
            ErrorKind::NotFound => Ok(Presence::Absent),
            kind => Err(FolderFault::Unread(file, kind)),
        },
    }
}

/// The number of bytes of a file of a folder, if the system says so.
pub(crate) fn length_in<R: Files + AllocGlobal>(
    rt: &R,
    folder: &str,
    file: FileName,
) -> Option<u64> {
    let path = path_in(rt.alloc(), folder, file).ok()?;
    let length = file_length(rt, path.as_str());
    drop(path);
    length
}

/// The first bytes of a file of a folder, if it is there.
pub(crate) fn read_in<R: Files + AllocGlobal>(
    rt: &R,
    folder: &str,
    file: FileName,
    limit: usize,
) -> Result<Option<Vec<u8>>, FolderFault>
    ensures { IfErr result (IsWhyUnread file) }
{
    let Ok(path) = path_in(rt.alloc(), folder, file) else {
        return Err(FolderFault::Memory);
    };
    let read = read_at(rt, folder, file, path.as_str(), limit);
    drop(path);
    read
}

/// The first bytes of a file of a folder at its path.
fn read_at<R: Files + AllocGlobal>(
    rt: &R,
    folder: &str,
    file: FileName,
    path: &str,
    limit: usize,
) -> Result<Option<Vec<u8>>, FolderFault>
    requires own { path.now ≡ path_in folder.now file }
    ensures { IfErr result (IsWhyUnread file) }
{
    match read_file(rt, path, limit) {
        Ok(bytes) => Ok(Some(bytes)),
        Err(error) => match error.kind() {
            ErrorKind::NotFound => Ok(None),
            ErrorKind::OutOfMemory => Err(FolderFault::Memory),
            kind => Err(FolderFault::Unread(file, kind)),
        },
    }
}

/// A file of a folder as a tape; it is made if it is absent.
pub(crate) fn open_in<'a, R: Files + AllocGlobal>(
    rt: &'a R,
    folder: &str,
    file: FileName,
) -> Result<FileTape<&'a R>, FolderFault>
    ensures { IfErr result (IsWhyUnopened file) }
{
    let Ok(path) = path_in(rt.alloc(), folder, file) else {
        return Err(FolderFault::Memory);
    };
    let tape = open_at(rt, folder, file, path.as_str());
    drop(path);
    tape
}

/// A file of a folder at its path, as a tape.
fn open_at<'a, R: Files + AllocGlobal>(
    rt: &'a R,
    folder: &str,
    file: FileName,
    path: &str,
) -> Result<FileTape<&'a R>, FolderFault>
    requires own { path.now ≡ path_in folder.now file }
    ensures { IfErr result (IsWhyUnopened file) }
{
    match FileTape::open(rt.alloc(), rt, path) {
        Ok(tape) => Ok(tape),
        Err(fault) => Err(unopened(file, fault)),
    }
}

/// A file of a folder as a tape; it has to be there.
pub(crate) fn open_existing_in<'a, R: Files + AllocGlobal>(
    rt: &'a R,
    folder: &str,
    file: FileName,
) -> Result<FileTape<&'a R>, FolderFault>
    ensures { IfErr result (IsWhyUnopened file) }
{
    let Ok(path) = path_in(rt.alloc(), folder, file) else {
        return Err(FolderFault::Memory);
    };
    let tape = open_existing_at(rt, folder, file, path.as_str());
    drop(path);
    tape
}

/// A file of a folder that is at its path, as a tape.
fn open_existing_at<'a, R: Files + AllocGlobal>(
    rt: &'a R,
    folder: &str,
    file: FileName,
    path: &str,
) -> Result<FileTape<&'a R>, FolderFault>
    requires own { path.now ≡ path_in folder.now file }
    ensures { IfErr result (IsWhyUnopened file) }
{
    match FileTape::open_existing(rt.alloc(), rt, path) {
        Ok(tape) => Ok(tape),
        Err(fault) => Err(unopened(file, fault)),
    }
}

/// The error of a file that doesn't open as a tape.
pub(crate) fn unopened(file: FileName, fault: TapeFault) -> FolderFault
    ensures { IsWhyUnopened file result }
{
    match fault {
        TapeFault::Memory => FolderFault::Memory,
        TapeFault::Device => FolderFault::Unopened(file),
    }
}

/// Puts bytes in the place of a file of a folder.
pub(crate) fn replace_in<R: Files + AllocGlobal>(
    rt: &R,
    folder: &str,
    file: FileName,
    bytes: &[u8],
) -> Result<(), FolderFault>
    ensures { IfErr result (IsWhyUnwritten file) }
{
    let Ok(path) = path_in(rt.alloc(), folder, file) else {
        return Err(FolderFault::Memory);
    };
    let replaced = replace_at(rt, folder, file, path.as_str(), bytes);
    drop(path);
    replaced
}

/// Puts bytes in the place of a file of a folder at its path.
fn replace_at<R: Files + AllocGlobal>(
    rt: &R,
    folder: &str,
    file: FileName,
    path: &str,
    bytes: &[u8],
) -> Result<(), FolderFault>
    requires own { path.now ≡ path_in folder.now file }
    ensures { IfErr result (IsWhyUnwritten file) }
{
    let Ok(second) = format!(in rt.alloc(); "{path}.new") else {
        return Err(FolderFault::Memory);
    };
    let mut disk = NewFile::new(rt, folder, path, second.as_str());
    let replaced = replace_on(&mut disk, bytes);
    let cause = disk.cause().unwrap_or(ErrorKind::Other);
    drop(disk);
    drop(second);
    match replaced {
        Ok(()) => Ok(()),
        Err(DiskFault::Memory) => Err(FolderFault::Memory),
        Err(DiskFault::Device) => Err(FolderFault::Unwritten(file, cause)),
    }
}
