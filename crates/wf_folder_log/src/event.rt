//! The events of a folder and its tapes, and their lines in a log.

use std::fmt;
use wf_folder::Beginning;
use wf_visitors::{Level, LogEntry};

/// An event of a folder or of a tape in it.
#[derive(Clone, Copy)]
pub enum FolderEvent<'a> {
    /// The folder is that of a farm of so many nodes, which one program serves.
    Farm {
        folder: &'a str,
        nodes: u8,
        beginning: Beginning,
    },
    /// A tape has opened: its bytes before that and now, if the system says, and whether it was
    /// shortened.
    TapeOpened {
        path: &'a str,
        before: Option<u64>,
        after: Option<u64>,
        is_short: bool,
    },
    /// The node of a folder begins to start: its tape is yet to be read.
    NodeStarts {
        node: u8,
        folder: &'a str,
    },
    /// So many zeros behind a tape's records, which were never synced, were dropped.
    ZerosDropped(usize),
    /// The tape of a replica was missing, and begins empty.
    TapeMissing,
    /// The tape of a replica was damaged, and begins anew.
    TapeDamaged,
    /// The tape of a replica has failed: the replica goes on in memory.
    TapeFailed,
}

impl LogEntry for FolderEvent<'_> {
    fn level(&self) -> Level {
        match self {
            FolderEvent::TapeFailed => Level::Error,
            FolderEvent::ZerosDropped(_) | FolderEvent::TapeDamaged => Level::Warn,
            FolderEvent::Farm { .. }
            | FolderEvent::TapeOpened { .. }
            | FolderEvent::NodeStarts { .. }
            | FolderEvent::TapeMissing => Level::Info,
        }
    }
}

impl fmt::Display for FolderEvent<'_> {
    fn fmt<W: fmt::Write>(&self, f: &mut fmt::Formatter<W>) -> fmt::Result {
        match self {
            FolderEvent::Farm {
                folder,
                nodes,
                beginning,
            } => {
                let began = match beginning {
                    Beginning::Empty => "empty",
                    Beginning::Found => "found",
                };
                write!(f, "folder path={folder:?} nodes={nodes} began={began}")
            }
            FolderEvent::TapeOpened {
                path,
                before,
                after,
                is_short,
            } => {
                write!(f, "tape file={path:?}")?;
                write_count(f, "before", *before)?;
                write_count(f, "after", *after)?;
                write!(f, " shortened={is_short}")
            }
            FolderEvent::NodeStarts { node, folder } => {
                write!(f, "starts node={node} folder={folder}")
            }
            FolderEvent::ZerosDropped(dropped) => write!(f, "tape-zeros dropped={dropped}"),
            FolderEvent::TapeMissing => f.write_str("tape-missing begun=anew"),
            FolderEvent::TapeDamaged => f.write_str("tape-damaged begun=anew"),
            FolderEvent::TapeFailed => f.write_str("tape-failed goes-on=in-memory"),
        }
    }
}

/// Writes a count of bytes, if it is known.
fn write_count<W: fmt::Write>(
    f: &mut fmt::Formatter<W>,
    key: &str,
    count: Option<u64>,
) -> fmt::Result {
    match count {
        Some(count) => write!(f, " {key}={count}"),
        None => Ok(()),
    }
}
