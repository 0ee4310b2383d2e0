//! What a folder of the system is, beside its files.
ghost use Rattle.std.specs.Prelude.{◌≡◌, None, false, IfErr, IfOk};
ghost use Rattle.wf_store.specs.Fault.{IsNoFolder, IsWhyUndrawn, IsWhyUnlisted, IsWhyUnlocked, IsWhyUnmade};

use crate::fault::FolderFault;
use std::fs::{File, OpenFile};
use std::io::{ErrorKind, Read};
use std::os::unix::fs::MetadataExt;
use std::path::Path;
use std::rt::Files;
use std::{fs, io};

/// What the name of a second file ends with.
const SECOND_ENDING: &str = ".new";

/// Where the system gives random bytes.
const RANDOM_BYTES: &str = "/dev/urandom";

/// Makes a folder where its parent is, if it isn't there; the parent is synced.
pub(crate) fn make_folder<R: Files>(rt: &R, folder: &str) -> Result<(), FolderFault>
    ensures { IfErr result IsWhyUnmade }
{
    match fs::create_dir(rt, folder) {
        Ok(()) => sync_parent(rt, folder),
        Err(error) => match error.kind() {
            ErrorKind::AlreadyExists => Ok(()),
            kind @ (ErrorKind::NotFound | ErrorKind::NotADirectory) => {
                Err(FolderFault::NoFolder(kind))
            }
            kind => Err(FolderFault::Unmade(kind)),
        },
    }
}

/// Syncs the folder in which a folder is.
fn sync_parent<R: Files>(rt: &R, folder: &str) -> Result<(), FolderFault>
    ensures { IfErr result IsWhyUnmade }
{
    match sync(rt, parent_of(folder)) {
        Ok(()) => Ok(()),
        Err(error) => Err(FolderFault::Unmade(error.kind())),
    }
}

/// The folder in which a folder is.
fn parent_of(folder: &str) -> &str {
    match Path::new(folder).parent() {
        Some(parent) if !parent.as_str().is_empty() => parent.as_str(),
        _ => ".",
    }
}

/// Syncs a folder.
pub(crate) fn sync<R: Files>(rt: &R, folder: &str) -> io::Result<()> {
    fs::open(rt, folder)?.sync_all()
}

/// Opens a folder, and locks it as long as the handle lives.
pub(crate) fn lock_folder<R: Files<File = File>>(rt: &R, folder: &str) -> Result<File, FolderFault>
    ensures { IfErr result IsWhyUnlocked }
{
    let handle = match fs::open(rt, folder) {
        Ok(handle) => handle,
        Err(error) => return Err(FolderFault::NoFolder(error.kind())),
    };
    match handle.try_lock() {
        Ok(()) => Ok(handle),
        Err(error) => {
            drop(error);
            drop(handle);
            Err(FolderFault::Held)
        }
    }
}

/// Whether the folder at a path is the one that is locked: it has the device and the number of that
/// one.
pub(crate) fn is_at<R: Files<File = File>>(
    rt: &R,
    folder: &str,
    held: &Option<File>,
) -> Result<bool, FolderFault>
    ensures none { held.now ≡ None → IfOk result (λ same. same ≡ false) }
    ensures cause { IfErr result IsNoFolder }
{
    let there = match fs::metadata(rt, folder) {
        Ok(there) => there,
        Err(error) => return Err(FolderFault::NoFolder(error.kind())),
    };
    match held {
        None => Ok(false),
        Some(held) => match held.metadata() {
            Ok(held) => Ok(held.dev() == there.dev() && held.ino() == there.ino()),
            Err(_) => Ok(false),
        },
    }
}

/// The number of names in a folder, but for those of second files.
pub(crate) fn count_names<R: Files + AllocGlobal>(
    rt: &R,
    folder: &str,
) -> Result<usize, FolderFault>
    ensures { IfErr result IsWhyUnlisted }
{
    let entries = match fs::read_dir(&rt, folder) {
        Ok(entries) => entries,
        Err(error) => return Err(FolderFault::NoFolder(error.kind())),
    };
    let mut count = 0usize;
    for entry in entries {
        match entry {
            Ok(entry) => {
                if !is_second(entry.file_name()) {
                    count = count.saturating_add(1);
                }
                drop(entry);
            }
            Err(error) => return Err(FolderFault::Unlisted(error.kind())),
        }
    }
    Ok(count)
}

/// Whether that is the name of a second file.
fn is_second(name: &str) -> bool {
    name.ends_with(SECOND_ENDING)
}

/// Random bits of the system.
pub(crate) fn draw_bits<R: Files>(rt: &R) -> Result<[u8; 16], FolderFault>
    ensures { IfErr result IsWhyUndrawn }
{
    let mut bits = [0u8; 16];
    match fill(rt, &mut bits) {
        Ok(()) => Ok(bits),
        Err(error) => Err(FolderFault::NoRandomBits(error.kind())),
    }
}

/// Fills a buffer with random bytes of the system.
fn fill<R: Files>(rt: &R, buffer: &mut [u8]) -> io::Result<()> {
    let mut source = fs::open(rt, RANDOM_BYTES)?;
    source.read_exact(buffer)
}
