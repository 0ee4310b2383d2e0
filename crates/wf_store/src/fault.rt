//! Why a call of a folder failed.

use crate::file_name::FileName;
use std::io::ErrorKind;
use thiserror::Error;

/// Why a call of a folder failed, with the system's cause where it is known.
#[derive(Clone, Copy, Debug, PartialEq, Eq, Error)]
pub enum FolderFault {
    /// The folder isn't there, or can't be opened.
    #[error("folder missing")]
    NoFolder(ErrorKind),
    /// Another program has the folder.
    #[error("folder held by another program")]
    Held,
    /// The folder can't be made, or its name can't be synced.
    #[error("the folder can't be written: {0}")]
    Unmade(ErrorKind),
    /// The names in the folder can't be read.
    #[error("the folder can't be read: {0}")]
    Unlisted(ErrorKind),
    /// A file can't be read, or the system doesn't say whether it is there.
    #[error("the folder can't be read: {1}")]
    Unread(FileName, ErrorKind),
    /// A tape can't be opened, or failed then.
    #[error("{0} can't be opened")]
    Unopened(FileName),
    /// A file can't be written; the one from before or the new one is there.
    #[error("the folder can't be written: {1}")]
    Unwritten(FileName, ErrorKind),
    /// The system gives no random bits.
    #[error("no random bits")]
    NoRandomBits(ErrorKind),
    /// An allocation failed.
    #[error("out of memory")]
    Memory,
}
