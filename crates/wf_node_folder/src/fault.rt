//! Why a command ends with an error.
ghost use Rattle.std.specs.Prelude.{◌≡◌, ◌≤◌};
ghost use Rattle.wf_node_folder.specs.Fault.{fault_status};

use crate::from_rejection::FromRejection;
use crate::replacement_fault::ReplacementFault;
use std::io;
use thiserror::Error;
use wf_address::AddressOption;
use wf_folder::{NodeRejection, NotEmpty};
use wf_peer::PeerProgressFault;
use wf_peer_connections::LoopFault;
use wf_store::FolderFault;

/// Why a command ends with an error. Its text is the line on standard error.
#[derive(Clone, Copy, Debug, Error)]
pub enum CommandFault {
    /// The word at this index of the list of peers isn't an address with a port.
    #[error("bad address in --peers: that of node {0}")]
    BadPeer(usize),
    /// The list of peers has too many words.
    #[error("--peers has {0} addresses, at most 64 are allowed")]
    PeerCount(usize),
    /// The value of this option isn't an address with a port.
    #[error("bad address: {0}")]
    BadAddress(AddressOption),
    /// The node's number isn't below the number of nodes.
    #[error("--id {0} isn't below --nodes {1}")]
    Id(u8, u8),
    /// No farm can have this name.
    #[error("bad farm name: 1 to 32 letters, digits, -, . and _ are wanted")]
    Name,
    /// A folder that joins begins without a tape.
    #[error("--replace begins without a tape: --from isn't taken with it")]
    ReplaceFrom,
    /// A call of the folder failed.
    #[error("{0}")]
    Folder(FolderFault),
    /// The folder of a new node isn't empty.
    #[error("{0}")]
    NotEmpty(NotEmpty),
    /// The node may not start on the folder.
    #[error("bad folder: {0}")]
    Rejected(NodeRejection),
    /// The file `heard` is bad.
    #[error("bad file heard: {0}")]
    PeerProgress(PeerProgressFault),
    /// A file of the folder about replacements isn't taken.
    #[error("{0}")]
    Replacement(ReplacementFault),
    /// The file of `--from` can't be read.
    #[error("--from can't be read: {0}")]
    FromUnread(io::ErrorKind),
    /// The tape of `--from` has a bad record at this byte offset.
    #[error("--from isn't a tape: P2: a bad record at {0}")]
    FromBad(usize),
    /// The tape of `--from` isn't taken.
    #[error("--from: {0}")]
    FromRejected(FromRejection),
    /// The file `farm` beside the tape of `--from` can't be read.
    #[error("the file farm beside --from can't be read: {0}")]
    BesideUnread(io::ErrorKind),
    /// The file `joins` beside the tape of `--from` can't be read.
    #[error("the file joins beside --from can't be read: {0}")]
    JoinsUnread(io::ErrorKind),
    /// The tape's file can't be read.
    #[error("the tape can't be read: {0}")]
    TapeUnread(io::ErrorKind),
    /// The second copy of the tape that a start writes can't be written.
    #[error("the tape can't be written anew: {0}")]
    TapeUnwritten(io::ErrorKind),
    /// The tape failed, and then didn't.
    #[error("P1: the tape failed")]
    TapeFailed,
    /// The tape has a bad record at this byte offset.
    #[error("the tape is damaged: P2: a bad record at {0}")]
    TapeBad(usize),
    /// An allocation failed.
    #[error("out of memory")]
    Memory,
    /// The node's loop doesn't begin.
    #[error("{0}")]
    Loop(LoopFault),
}

impl CommandFault {
    /// The exit status: 2 for a bad command line, 1 for any other error.
    pub fn status(self) -> u8
        ensures value { result ≡ fault_status self }
        ensures most { result ≤ 2 }
    {
        match self {
            CommandFault::BadPeer(_)
            | CommandFault::PeerCount(_)
            | CommandFault::BadAddress(_)
            | CommandFault::Id(..)
            | CommandFault::Name
            | CommandFault::ReplaceFrom => 2,
            CommandFault::Folder(_)
            | CommandFault::NotEmpty(_)
            | CommandFault::Rejected(_)
            | CommandFault::PeerProgress(_)
            | CommandFault::Replacement(_)
            | CommandFault::FromUnread(_)
            | CommandFault::FromBad(_)
            | CommandFault::FromRejected(..)
            | CommandFault::BesideUnread(_)
            | CommandFault::JoinsUnread(_)
            | CommandFault::TapeUnread(_)
            | CommandFault::TapeUnwritten(_)
            | CommandFault::TapeFailed
            | CommandFault::TapeBad(_)
            | CommandFault::Memory
            | CommandFault::Loop(_) => 1,
        }
    }
}
