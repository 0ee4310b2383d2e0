//! The events of a replica, and their lines in its log. Those of its folder are a `FolderEvent`.

use std::fmt;
use std::net::SocketAddr;
use wf_reader::{QuestionRejection, ReplyFault};
use wf_visitors::{Level, LogEntry};

/// Why the connection to a source ended.
#[derive(Clone, Copy, PartialEq, Eq)]
pub(crate) enum SourceEnd {
    /// The source closed it.
    Closed,
    /// It failed.
    Failed,
    /// No reply came in time.
    Silent,
    /// What came isn't a reply.
    BadReply(ReplyFault),
    /// A reply came, or a part of one, while no question was open.
    Unasked,
    /// A reply doesn't fit the question, by its count, its published sequence or its digest.
    Unfit,
    /// The source doesn't answer.
    Rejected(QuestionRejection),
}

impl fmt::Display for SourceEnd {
    fn fmt<W: fmt::Write>(&self, f: &mut fmt::Formatter<W>) -> fmt::Result {
        match self {
            SourceEnd::Closed => f.write_str("closed"),
            SourceEnd::Failed => f.write_str("failed"),
            SourceEnd::Silent => f.write_str("silent"),
            SourceEnd::BadReply(fault) => write!(f, "\"bad reply: {fault}\""),
            SourceEnd::Unasked => f.write_str("\"a reply that wasn't asked for\""),
            SourceEnd::Unfit => f.write_str("\"a reply that doesn't fit the question\""),
            SourceEnd::Rejected(rejection) => write!(f, "\"refused by it: {rejection}\""),
        }
    }
}

/// An event. Sources are named by their index in the list.
#[derive(Clone, Copy)]
pub(crate) enum ReplicaEvent {
    /// The address for clients is bound.
    Listening { http: SocketAddr },
    /// The replica has begun with what its tape has.
    Opened { published: u16 },
    /// Maps were learned, up to this sequence.
    Learned { published: u16 },
    /// A source is asked.
    Asking { source: usize, address: SocketAddr },
    /// The connection to a source has ended, and not since another one is asked.
    Lost { source: usize, why: SourceEnd },
}

impl LogEntry for ReplicaEvent {
    fn level(&self) -> Level {
        match self {
            ReplicaEvent::Lost { .. } => Level::Warn,
            ReplicaEvent::Listening { .. }
            | ReplicaEvent::Opened { .. }
            | ReplicaEvent::Learned { .. }
            | ReplicaEvent::Asking { .. } => Level::Info,
        }
    }
}

impl fmt::Display for ReplicaEvent {
    fn fmt<W: fmt::Write>(&self, f: &mut fmt::Formatter<W>) -> fmt::Result {
        match self {
            ReplicaEvent::Listening { http } => write!(f, "listening http={http}"),
            ReplicaEvent::Opened { published } => write!(f, "opened published={published}"),
            ReplicaEvent::Learned { published } => write!(f, "learned published={published}"),
            ReplicaEvent::Asking { source, address } => {
                write!(f, "asking source={source} address={address}")
            }
            ReplicaEvent::Lost { source, why } => write!(f, "lost source={source} why={why}"),
        }
    }
}
