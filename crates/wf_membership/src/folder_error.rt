//! Why a file of a node's folder isn't read or written.

use std::fmt;
use wf_store::FolderFault;

/// Why a file of the node's folder isn't read or written.
#[derive(Clone, Copy, Debug)]
pub enum FolderError {
    /// What is at the folder's path isn't the folder that this process has locked.
    Other,
    /// A call of the folder failed.
    Store(FolderFault),
}

impl From<FolderFault> for FolderError {
    ghost use Rattle.std.specs.Prelude.{◌≡◌};
    ghost use Rattle.wf_membership.specs.declared.folder_error.FolderError.TheVariants.{Store};

    ghost from_gives = { λ fault error. error ≡ Store fault };

    fn from(fault: FolderFault) -> Self {
        FolderError::Store(fault)
    }
}

impl fmt::Display for FolderError {
    fn fmt<W: fmt::Write>(&self, f: &mut fmt::Formatter<W>) -> fmt::Result {
        match self {
            FolderError::Other => f.write_str("another folder is at its path"),
            FolderError::Store(FolderFault::NoFolder(kind)) => {
                write!(f, "the folder can't be opened: {kind}")
            }
            FolderError::Store(FolderFault::Unread(_, kind)) => {
                write!(f, "it can't be read: {kind}")
            }
            FolderError::Store(FolderFault::Unopened(_)) => f.write_str("it can't be opened"),
            FolderError::Store(FolderFault::Unwritten(_, kind)) => {
                write!(f, "it can't be written: {kind}")
            }
            FolderError::Store(fault) => write!(f, "{fault}"),
        }
    }
}
