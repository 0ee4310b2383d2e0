//! What a call of a folder did.

use crate::file_name::FileName;
use wf_folder::Presence;

/// What a call of a folder did.
#[derive(Clone, Copy)]
pub enum CallKind {
    /// It made the folder, or found it.
    Makes,
    /// It locked the folder.
    Locks,
    /// It saw whether the folder at its path is the one that is locked.
    Compares(bool),
    /// It counted the names in the folder.
    Counts(usize),
    /// It drew these random bits.
    Draws([u8; 16]),
    /// It saw whether a file is there.
    Sees(FileName, Presence),
    /// It saw how long a file is, if the system says so.
    Measures(FileName, Option<u64>),
    /// It read a file, or found that there is none.
    Reads(FileName),
    /// It opened a file as a tape, and made it if it was absent.
    Opens(FileName),
    /// It opened a file that was there as a tape.
    OpensExisting(FileName),
    /// It put bytes in the place of a file.
    Replaces(FileName),
    /// It failed, and changed no file.
    Fails,
    /// It failed, and may have made a file, or replaced it by the bytes that it was given.
    FailsAt(FileName),
}
