//! Files at paths of the system, of a folder that isn't locked or whose call has failed. What the
//! system answers has no model.

use crate::new_file::{open_empty, sync_file, write};
use std::io::ErrorKind;
use std::rt::Files;
use std::{fs, io};
use wf_stream::{Stream, read_up_to};

/// Why a file at a path fails.
#[derive(Clone, Copy, Debug, PartialEq, Eq)]
pub enum ProbeFault {
    /// It can't be read.
    Unread(ErrorKind),
    /// A second file beside it can't be written.
    Unwritten(ErrorKind),
}

/// Whether a folder is at a path; false also if the system doesn't say.
pub fn is_folder<R: Files>(rt: &R, path: &str) -> bool {
    match fs::metadata(rt, path) {
        Ok(metadata) => metadata.is_dir(),
        Err(_) => false,
    }
}

/// The number of bytes of the file at a path, if the system says so.
pub fn file_length<R: Files>(rt: &R, path: &str) -> Option<u64> {
    match fs::metadata(rt, path) {
        Ok(metadata) => Some(metadata.len()),
        Err(_) => None,
    }
}

/// The first bytes of the file at a path, at most `limit` of them. Err: the system's error;
/// `OutOfMemory` if an allocation failed.
pub fn read_file<R: Files + AllocGlobal>(rt: &R, path: &str, limit: usize) -> io::Result<Vec<u8>> {
    let file = fs::open(rt, path)?;
    read_up_to(rt.alloc(), &mut Stream::new(file), limit)
}

/// Why a file at a path, of at most `limit` bytes, can't be replaced: it is read, and written to
/// the second file beside it, as a replacement does, which is removed then. Ok: both go.
pub fn probe_file<R: Files + AllocGlobal>(
    rt: &R,
    path: &str,
    limit: usize,
) -> Result<(), ProbeFault> {
    match read_file(rt, path, limit) {
        Ok(bytes) => match try_copy(rt, path, &bytes) {
            Ok(()) => Ok(()),
            Err(error) => Err(ProbeFault::Unwritten(error.kind())),
        },
        Err(error) => Err(ProbeFault::Unread(error.kind())),
    }
}

/// Writes the bytes to the second file beside a path, syncs it, and removes it.
fn try_copy<R: Files + AllocGlobal>(rt: &R, path: &str, bytes: &[u8]) -> io::Result<()> {
    let second = format!(in rt.alloc(); "{path}.new")?;
    let written = write_second(rt, second.as_str(), bytes);
    let _ = fs::remove_file(rt, second.as_str());
    written
}

/// Writes the bytes to a file at a path, and syncs it.
fn write_second<R: Files>(rt: &R, path: &str, bytes: &[u8]) -> io::Result<()> {
    let mut file = Some(open_empty(rt, path)?);
    write(&mut file, bytes)?;
    sync_file(&file)
}
