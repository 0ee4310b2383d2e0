//! The events of a node, and their lines in its log.

use std::fmt;
use std::io::ErrorKind;
use std::net::SocketAddr;
use wf_membership::FolderError;
use wf_peer::{GreetingFault, PeerRejection};
use wf_store::FileName;
use wf_visitors::{Level, LogEntry};

/// Why a connection of a peer ended.
#[derive(Clone, Copy, PartialEq, Eq)]
pub enum PeerEnd {
    /// The peer closed it.
    Closed,
    /// It failed.
    Failed,
    /// Nothing came for too long.
    Silent,
    /// The greeting isn't one, or is one of another version.
    BadGreeting(GreetingFault),
    /// The peer isn't let in.
    Rejected(PeerRejection),
    /// The peer doesn't let this node in.
    RejectedBy(PeerRejection),
    /// What came isn't a message.
    BadMessage,
    /// A message came in the name of another node.
    WrongSender,
    /// The history of the peer is to be compared anew, over another connection.
    Compared,
    /// A newer connection of the same node has replaced it.
    Replaced,
    /// No slot was free for it.
    NoSlot,
    /// What is heard of the peer can't be written to the folder.
    Unwritten,
    /// The peer closed it before it replied.
    Unanswered,
    /// An allocation failed.
    Memory,
}

impl fmt::Display for PeerEnd {
    fn fmt<W: fmt::Write>(&self, f: &mut fmt::Formatter<W>) -> fmt::Result {
        match self {
            PeerEnd::Closed => f.write_str("closed"),
            PeerEnd::Failed => f.write_str("failed"),
            PeerEnd::Silent => f.write_str("silent"),
            PeerEnd::BadGreeting(fault) => write!(f, "\"bad greeting: {fault}\""),
            PeerEnd::Rejected(rejection) => write!(f, "\"refused: {rejection}\""),
            PeerEnd::RejectedBy(rejection) => write!(f, "\"refused by it: {rejection}\""),
            PeerEnd::BadMessage => f.write_str("bad-message"),
            PeerEnd::WrongSender => f.write_str("wrong-sender"),
            PeerEnd::Compared => f.write_str("compared-anew"),
            PeerEnd::Replaced => f.write_str("replaced"),
            PeerEnd::NoSlot => f.write_str("no-free-slot"),
            PeerEnd::Unwritten => f.write_str("unwritten"),
            PeerEnd::Unanswered => f.write_str(
                "\"closed before its reply: is this machine's address in its --peers?\"",
            ),
            PeerEnd::Memory => f.write_str("out-of-memory"),
        }
    }
}

/// An event. Nodes are named by their numbers.
#[derive(Clone, Copy)]
pub enum NodeEvent {
    /// Addresses are bound.
    Listening {
        http: SocketAddr,
        listen: SocketAddr,
    },
    /// The node has opened its tape.
    Opened {
        node: usize,
        published: u16,
    },
    /// The connection to a peer is open.
    Connected {
        peer: usize,
        address: SocketAddr,
    },
    /// The connection to a peer has ended.
    Lost {
        peer: usize,
        why: PeerEnd,
    },
    /// A peer's connection was accepted.
    Accepted {
        peer: usize,
    },
    /// The connection of a peer, or of what isn't one, has ended.
    Dropped {
        peer: Option<usize>,
        why: PeerEnd,
    },
    /// A connection came from an address that isn't listed.
    Unlisted {
        address: SocketAddr,
    },
    /// A peer remembers more of this node than it has: the node is suspended.
    Suspended {
        peer: usize,
        address: SocketAddr,
        why: PeerRejection,
    },
    /// The history of a peer differs, up to this sequence.
    Differs {
        peer: usize,
        address: SocketAddr,
        sequence: u16,
    },
    /// The history of this peer differs, and those that agree with this node and are heard are no
    /// majority: it answers no client, and doesn't vote.
    Outvoted {
        peer: usize,
        address: SocketAddr,
        sequence: u16,
    },
    /// Those that agree with this node are a majority again, or no history differs.
    Agrees,
    /// The node's map is published.
    Published {
        sequence: u16,
    },
    /// Another map is published under the sequence that the node's map was proposed for.
    Overtaken {
        sequence: u16,
    },
    /// The node's tape was opened again.
    Reopened,
    /// A replacement of a node is known from now on, under this count.
    ReplacementNoted {
        node: usize,
        count: u32,
    },
    /// The node's folder has joined, with this last published sequence.
    Joined {
        published: u16,
    },
}

impl LogEntry for NodeEvent {
    fn level(&self) -> Level {
        match self {
            NodeEvent::Suspended { .. } | NodeEvent::Outvoted { .. } => Level::Error,
            NodeEvent::Lost { .. }
            | NodeEvent::Dropped { .. }
            | NodeEvent::Unlisted { .. }
            | NodeEvent::Differs { .. }
            | NodeEvent::Overtaken { .. } => Level::Warn,
            NodeEvent::Listening { .. }
            | NodeEvent::Opened { .. }
            | NodeEvent::Connected { .. }
            | NodeEvent::Accepted { .. }
            | NodeEvent::Agrees
            | NodeEvent::Published { .. }
            | NodeEvent::Reopened
            | NodeEvent::ReplacementNoted { .. }
            | NodeEvent::Joined { .. } => Level::Info,
        }
    }
}

impl fmt::Display for NodeEvent {
    fn fmt<W: fmt::Write>(&self, f: &mut fmt::Formatter<W>) -> fmt::Result {
        match self {
            NodeEvent::Listening { http, listen } => write!(
                f,
                "listening http={http} peers={listen}"
            ),
            NodeEvent::Opened { node, published } => {
                write!(f, "opened node={node} published={published}")
            }
            NodeEvent::Connected { peer, address } => {
                write!(f, "connected peer={peer} address={address}")
            }
            NodeEvent::Lost { peer, why } => write!(f, "lost peer={peer} why={why}"),
            NodeEvent::Accepted { peer } => write!(f, "accepted peer={peer}"),
            NodeEvent::Dropped { peer, why } => match peer {
                Some(peer) => write!(f, "dropped peer={peer} why={why}"),
                None => write!(f, "dropped peer=unknown why={why}"),
            },
            NodeEvent::Unlisted { address } => {
                write!(
                    f,
                    "dropped peer=unknown why=unknown-address address={address}"
                )
            }
            NodeEvent::Suspended { peer, address, why } => write!(
                f,
                "suspended peer={peer} address={address} why=\"{why}\""
            ),
            NodeEvent::Differs {
                peer,
                address,
                sequence,
            } => write!(
                f,
                "history-differs peer={peer} address={address} sequence={sequence}"
            ),
            NodeEvent::Outvoted {
                peer,
                address,
                sequence,
            } => write!(
                f,
                "no-agreeing-majority peer={peer} address={address} sequence={sequence}"
            ),
            NodeEvent::Agrees => f.write_str("agreeing-majority"),
            NodeEvent::Published { sequence } => write!(f, "published sequence={sequence}"),
            NodeEvent::Overtaken { sequence } => write!(f, "overtaken sequence={sequence}"),
            NodeEvent::Reopened => f.write_str("tape-reopened"),
            NodeEvent::ReplacementNoted { node, count } => {
                write!(f, "replacement-noted node={node} count={count}")
            }
            NodeEvent::Joined { published } => write!(f, "joined published={published}"),
        }
    }
}

/// The node's tape at this path has failed, as the system said, and the node is halted.
#[derive(Clone, Copy)]
pub(crate) struct TapeFailed<'a> {
    pub(crate) tape: &'a str,
    pub(crate) cause: Option<ErrorKind>,
}

impl<'a> LogEntry for TapeFailed<'a> {
    fn level(&self) -> Level {
        Level::Error
    }
}

impl<'a> fmt::Display for TapeFailed<'a> {
    fn fmt<W: fmt::Write>(&self, f: &mut fmt::Formatter<W>) -> fmt::Result {
        let TapeFailed { tape, cause } = self;
        match cause {
            Some(kind) => write!(f, "tape-failed file={tape} why=\"{kind}\""),
            None => write!(f, "tape-failed file={tape}"),
        }
    }
}

/// A file of the folder isn't written, and the node acts no more until it is.
#[derive(Clone, Copy)]
pub(crate) struct FolderNotWritten<'a> {
    pub(crate) folder: &'a str,
    pub(crate) file: FileName,
    pub(crate) why: FolderError,
}

impl<'a> LogEntry for FolderNotWritten<'a> {
    fn level(&self) -> Level {
        Level::Error
    }
}

impl<'a> fmt::Display for FolderNotWritten<'a> {
    fn fmt<W: fmt::Write>(&self, f: &mut fmt::Formatter<W>) -> fmt::Result {
        let FolderNotWritten { folder, file, why } = self;
        write!(f, "folder-not-written file={folder}/{file} why=\"{why}\"")
    }
}
