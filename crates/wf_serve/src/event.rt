//! The events of a farm that is served, and their lines in its log. Those of its folder are a
//! `FolderEvent`.

use std::fmt;
use wf_store::{FileName, FolderFault};
use wf_visitors::{Level, LogEntry};

/// An event. Nodes are named by their numbers.
#[derive(Clone, Copy)]
pub enum ServeEvent<'a> {
    /// The port is bound.
    Port {
        port: u16,
    },
    /// A node has caught up.
    CaughtUp {
        node: usize,
        published: u16,
    },
    /// Nodes don't start.
    Fault(StartFault<'a>),
    /// A node proposes a map, by its answer.
    Proposed {
        node: usize,
        answer: &'a str,
    },
    /// A request to publish was rejected.
    Rejected {
        node: usize,
        status: u16,
        answer: &'a str,
    },
    /// The map of a node is published.
    Published {
        node: usize,
        sequence: u16,
    },
    /// Another map is published under the sequence that a node's map was proposed for.
    Overtaken {
        node: usize,
        sequence: u16,
    },
    /// The tape of a node has failed, and the node is halted.
    Halted {
        node: usize,
    },
    /// All connections were served.
    Ended {
        connections: u32,
    },
}

/// Why nodes don't start: a cause, in a folder if there is one.
#[derive(Clone, Copy)]
pub struct StartFault<'a> {
    pub cause: Cause,
    pub folder: Option<&'a str>,
}

/// The cause of a fault. Tapes are named by the numbers of their nodes.
#[derive(Clone, Copy)]
pub enum Cause {
    /// The port is taken, or not permitted.
    Port(u16),
    /// A call of the folder failed.
    Folder(FolderFault),
    /// The file `farm` isn't one of this program and version.
    BadFile(wf_folder::FileFault),
    /// The folder is that of a farm of another number of nodes.
    OtherNodes(u8),
    /// A tape isn't there.
    TapeMissing(usize),
    /// A tape is there of a node that the farm doesn't have.
    TapeSurplus(usize),
    /// A tape holds bytes at an offset that are no record, or a record there that can't follow.
    TapeBad {
        tape: usize,
        offset: usize,
    },
    /// Two tapes hold different maps as published under one sequence.
    TapesDiffer {
        sequence: u16,
        tape: usize,
        other: usize,
    },
    /// A tape that was seen isn't there when it is read.
    TapeVanished(usize),
    /// A tape has more bytes than the longest one.
    TapeTooLong(usize),
    /// No node opens on a tape: the tape failed, or an allocation.
    TapeFailed(usize),
    /// An allocation failed.
    Memory,
}

impl LogEntry for ServeEvent<'_> {
    fn level(&self) -> Level {
        match self {
            ServeEvent::Fault(_) | ServeEvent::Halted { .. } => Level::Error,
            ServeEvent::Rejected { .. } | ServeEvent::Overtaken { .. } => Level::Warn,
            ServeEvent::Port { .. }
            | ServeEvent::CaughtUp { .. }
            | ServeEvent::Proposed { .. }
            | ServeEvent::Published { .. }
            | ServeEvent::Ended { .. } => Level::Info,
        }
    }
}

impl fmt::Display for ServeEvent<'_> {
    fn fmt<W: fmt::Write>(&self, f: &mut fmt::Formatter<W>) -> fmt::Result {
        match self {
            ServeEvent::Port { port } => write!(f, "listening port={port}"),
            ServeEvent::CaughtUp { node, published } => {
                write!(f, "caught-up node={node} published={published}")
            }
            ServeEvent::Fault(fault) => write!(f, "fault {fault}"),
            ServeEvent::Proposed { node, answer } => write!(
                f,
                "proposed node={node} answer={answer:?}"
            ),
            ServeEvent::Rejected {
                node,
                status,
                answer,
            } => write!(f, "rejected node={node} status={status} answer={answer:?}"),
            ServeEvent::Published { node, sequence } => {
                write!(f, "published node={node} sequence={sequence}")
            }
            ServeEvent::Overtaken { node, sequence } => {
                write!(f, "overtaken node={node} sequence={sequence}")
            }
            ServeEvent::Halted { node } => write!(f, "tape-failed node={node}"),
            ServeEvent::Ended { connections } => write!(f, "end connections={connections}"),
        }
    }
}

impl fmt::Display for StartFault<'_> {
    fn fmt<W: fmt::Write>(&self, f: &mut fmt::Formatter<W>) -> fmt::Result {
        write!(f, "cause=\"{}\"", self.cause)?;
        match self.folder {
            Some(folder) => self.write_place(f, folder),
            None => Ok(()),
        }
    }
}

impl StartFault<'_> {
    /// Writes the file that the fault is about, or the folder.
    fn write_place<W: fmt::Write>(&self, f: &mut fmt::Formatter<W>, folder: &str) -> fmt::Result {
        match self.cause {
            Cause::Folder(fault) => write_failed(f, folder, fault),
            Cause::TapeMissing(tape)
            | Cause::TapeSurplus(tape)
            | Cause::TapeVanished(tape)
            | Cause::TapeTooLong(tape)
            | Cause::TapeFailed(tape) => write_tape(f, "file", folder, tape),
            Cause::TapeBad { tape, offset } => {
                write_tape(f, "file", folder, tape)?;
                write!(f, " offset={offset}")
            }
            Cause::TapesDiffer {
                sequence,
                tape,
                other,
            } => {
                write_tape(f, "file", folder, tape)?;
                write_tape(f, "other", folder, other)?;
                write!(f, " sequence={sequence}")
            }
            Cause::BadFile(_) => write!(f, " file=\"{folder}/farm\""),
            Cause::Port(_) | Cause::OtherNodes(_) | Cause::Memory => {
                write!(f, " folder={folder:?}")
            }
        }
    }
}

/// Writes the file that a failed call is about, or the folder.
fn write_failed<W: fmt::Write>(
    f: &mut fmt::Formatter<W>,
    folder: &str,
    fault: FolderFault,
) -> fmt::Result {
    match fault {
        FolderFault::Unread(file, _)
        | FolderFault::Unopened(file)
        | FolderFault::Unwritten(file, _) => write!(f, " file=\"{folder}/{file}\""),
        FolderFault::NoFolder(_)
        | FolderFault::Held
        | FolderFault::Unmade(_)
        | FolderFault::Unlisted(_)
        | FolderFault::NoRandomBits(_)
        | FolderFault::Memory => write!(f, " folder={folder:?}"),
    }
}

/// Writes the path of a tape.
fn write_tape<W: fmt::Write>(
    f: &mut fmt::Formatter<W>,
    key: &str,
    folder: &str,
    tape: usize,
) -> fmt::Result {
    write!(f, " {key}=\"{folder}/node-{tape}.tape\"")
}

impl fmt::Display for Cause {
    fn fmt<W: fmt::Write>(&self, f: &mut fmt::Formatter<W>) -> fmt::Result {
        match self {
            Cause::Port(port) => write!(f, "port {port} taken or not permitted"),
            Cause::Folder(fault) => write_call(f, *fault),
            Cause::BadFile(fault) => write!(f, "{fault}"),
            Cause::OtherNodes(nodes) => write!(
                f,
                "not this farm's folder, but one of {nodes} nodes"
            ),
            Cause::TapeMissing(_) => f.write_str("tape missing"),
            Cause::TapeSurplus(_) => f.write_str("a tape too many"),
            Cause::TapeBad { .. } => f.write_str("tape bad"),
            Cause::TapesDiffer { .. } => f.write_str("tapes differ"),
            Cause::TapeVanished(_) | Cause::TapeTooLong(_) => f.write_str("tape unreadable"),
            Cause::TapeFailed(_) => f.write_str("tape failed"),
            Cause::Memory => f.write_str("allocation failed"),
        }
    }
}

/// Writes which call of the folder failed; the system's cause is left out.
fn write_call<W: fmt::Write>(f: &mut fmt::Formatter<W>, fault: FolderFault) -> fmt::Result {
    match fault {
        FolderFault::Unread(FileName::NodeTape(_), _) => f.write_str("tape unreadable"),
        FolderFault::Unread(_, _) => f.write_str("file unreadable"),
        FolderFault::Unopened(_) => f.write_str("tape failed"),
        FolderFault::Unwritten(_, _) => f.write_str("file can't be written"),
        FolderFault::Memory => f.write_str("allocation failed"),
        FolderFault::NoFolder(_)
        | FolderFault::Held
        | FolderFault::Unmade(_)
        | FolderFault::Unlisted(_)
        | FolderFault::NoRandomBits(_) => write!(f, "{fault}"),
    }
}
