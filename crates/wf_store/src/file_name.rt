//! The files of a folder, by their names.
ghost use Rattle.std.specs.Prelude.{◌≡◌, IfOk, string_bytes};
ghost use Rattle.wf_store.specs.FileName.{node_tape_path, path_in};

use std::alloc::{AllocError, Global};
use std::fmt;

/// A file of a folder.
#[derive(Clone, Copy, Debug, PartialEq, Eq)]
pub enum FileName {
    /// `farm`, which says whose the folder is.
    Farm,
    /// `heard`, which says what a node heard of its peers.
    Heard,
    /// `joins`, which says what the folder of a node was told that joins in the place of a lost
    /// one.
    Joins,
    /// `replaced`, which says what a node knows of replacements.
    Replaced,
    /// `node-I.tape`, the tape of a node.
    NodeTape(u8),
    /// `replica.tape`, the tape of a replica.
    ReplicaTape,
}

impl fmt::Display for FileName {
    fn fmt<W: fmt::Write>(&self, f: &mut fmt::Formatter<W>) -> fmt::Result {
        match self {
            FileName::Farm => f.write_str("farm"),
            FileName::Heard => f.write_str("heard"),
            FileName::Joins => f.write_str("joins"),
            FileName::Replaced => f.write_str("replaced"),
            FileName::NodeTape(node) => write!(f, "node-{node}.tape"),
            FileName::ReplicaTape => f.write_str("replica.tape"),
        }
    }
}

/// The path of a file in a folder.
pub fn path_in(alloc: Global, folder: &str, file: FileName) -> Result<String, AllocError>
    ensures { IfOk result (λ path. string_bytes path ≡ path_in folder.now file) }
{
    match file {
        FileName::Farm => format!(in alloc; "{folder}/farm"),
        FileName::Heard => format!(in alloc; "{folder}/heard"),
        FileName::Joins => format!(in alloc; "{folder}/joins"),
        FileName::Replaced => format!(in alloc; "{folder}/replaced"),
        FileName::NodeTape(node) => tape_path(alloc, folder, node),
        FileName::ReplicaTape => format!(in alloc; "{folder}/replica.tape"),
    }
}

/// The path of a node's tape in a folder.
fn tape_path(alloc: Global, folder: &str, node: u8) -> Result<String, AllocError>
    ensures { IfOk result (λ path. string_bytes path ≡ node_tape_path folder.now node) }
{
    match format!(in alloc; "{folder}/node-{node}.tape") {
        Ok(path) => Ok(path),
        Err(error) => Err(error),
    }
}
