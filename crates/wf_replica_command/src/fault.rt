//! Why the command ends with an error.
ghost use Rattle.std.specs.Prelude.{◌≡◌, ◌≤◌};
ghost use Rattle.wf_replica_command.specs.Fault.{fault_status};

use std::alloc::AllocError;
use std::net::SocketAddr;
use thiserror::Error;
use wf_address::AddressOption;
use wf_reader::QuestionRejection;
use wf_store::FolderFault;

/// Why the command ends with an error. Its text is the line on standard error.
#[derive(Clone, Copy, Debug, Error)]
pub enum ReplicaFault {
    /// The word at this index of the list of peers isn't an address with a port.
    #[error("bad address in --peers: that at {0}")]
    BadPeer(usize),
    /// The list of peers has too many words.
    #[error("--peers has {0} addresses, at most 64 are allowed")]
    PeerCount(usize),
    /// The value of this option isn't an address with a port.
    #[error("bad address: {0}")]
    BadAddress(AddressOption),
    /// No farm can have this name.
    #[error("bad farm name: 1 to 32 letters, digits, -, . and _ are wanted")]
    Name,
    /// The folder, or a file of it, fails.
    #[error("{0}")]
    Folder(FolderFault),
    /// The folder has no file `farm`, and isn't empty.
    #[error("bad folder: not a replica's, and not empty")]
    NotEmpty,
    /// The file `farm` is none, or of another version.
    #[error("bad folder: not a farm file of version 1")]
    Version,
    /// The file `farm` is that of another kind of folder.
    #[error("bad folder: not a folder of wfarm replica")]
    Kind,
    /// The file `farm` is that of a replica of another farm.
    #[error("bad folder: a replica of another farm")]
    OtherFarm,
    /// The system gives no poll.
    #[error("no poll")]
    Poll,
    /// The address of this option is taken, or not permitted.
    #[error("the address of {0} is taken or not permitted: {1}")]
    Taken(AddressOption, SocketAddr),
    /// An allocation failed.
    #[error("out of memory")]
    Memory,
    /// A source doesn't answer this replica, which has to end.
    #[error("{0}")]
    Ended(QuestionRejection),
}

impl ReplicaFault {
    /// The exit status: 2 for a bad command line, 1 for any other error.
    pub fn status(self) -> u8
        ensures value { result ≡ fault_status self }
        ensures most { result ≤ 2 }
    {
        match self {
            ReplicaFault::BadPeer(_)
            | ReplicaFault::PeerCount(_)
            | ReplicaFault::BadAddress(_)
            | ReplicaFault::Name => 2,
            ReplicaFault::Folder(_)
            | ReplicaFault::NotEmpty
            | ReplicaFault::Version
            | ReplicaFault::Kind
            | ReplicaFault::OtherFarm
            | ReplicaFault::Poll
            | ReplicaFault::Taken(_, _)
            | ReplicaFault::Memory
            | ReplicaFault::Ended(_) => 1,
        }
    }
}

impl From<AllocError> for ReplicaFault {
    ghost use Rattle.std.specs.Prelude.{◌≡◌};
    ghost use Rattle.wf_replica_command.specs.declared.fault.ReplicaFault.TheVariants.{Memory};

    ghost from_gives = { λ _ fault. fault ≡ Memory };

    fn from(_: AllocError) -> Self {
        ReplicaFault::Memory
    }
}
