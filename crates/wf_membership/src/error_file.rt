//! The file for which a folder isn't read or written.
ghost use Rattle.std.specs.Prelude.{◌≡◌};
ghost use Rattle.wf_membership.specs.FolderErrors.{file_at_fault, file_of};

use crate::folder_error::FolderError;
use wf_store::{FileName, FolderFault};

impl FolderError {
    /// The file that is the cause. None: it is the folder itself, or no memory.
    pub fn file(&self) -> Option<FileName>
        ensures { result ≡ file_of self.now }
    {
        match self {
            FolderError::Other => None,
            FolderError::Store(fault) => file_at_fault(fault),
        }
    }
}

/// The file for which a call of the folder failed.
fn file_at_fault(fault: &FolderFault) -> Option<FileName>
    ensures { result ≡ file_at_fault fault.now }
{
    match fault {
        FolderFault::Unread(file, _)
        | FolderFault::Unopened(file)
        | FolderFault::Unwritten(file, _) => Some(*file),
        FolderFault::NoFolder(_)
        | FolderFault::Held
        | FolderFault::Unmade(_)
        | FolderFault::Unlisted(_)
        | FolderFault::NoRandomBits(_)
        | FolderFault::Memory => None,
    }
}
