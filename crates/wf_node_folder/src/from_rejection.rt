//! Whose a tape is that a new folder is to begin with, and why it isn't taken.

use thiserror::Error;
use wf_folder::{FarmFile, NodeFile, NodeFileFault};

/// What was found as the file `farm` beside a tape, and as the file `joins`.
#[derive(Clone, Copy)]
pub enum Beside {
    /// There is no such file.
    Nothing,
    /// That of the nodes of a farm that one program serves.
    Serve(FarmFile),
    /// That of one node.
    Node(NodeFile),
    /// One, and a file `joins` that isn't empty.
    Joins,
    /// A file that can't be read as either.
    Bad(NodeFileFault),
}

/// Why a tape isn't taken for a new folder.
#[derive(Clone, Copy, Debug, PartialEq, Eq, Error)]
pub enum FromRejection {
    /// The file `farm` beside it can't be read as one.
    #[error("the file farm beside it: {0}")]
    BadFile(NodeFileFault),
    /// Its folder joins in the place of a lost one, so that it may not vote yet.
    #[error("the tape of a folder that joins: it may not vote")]
    Joins,
    /// It is of a farm of the first number of nodes, and the second one is wanted.
    #[error("the tape of a farm of {0} nodes, and of {1} is wanted")]
    OtherNodes(u8, u8),
    /// It is in the folder of the first node, and the second one's is wanted.
    #[error("in the folder of node {0}, and that of node {1} is wanted")]
    OtherNode(u8, u8),
    /// Its name isn't that of the wanted node's tape.
    #[error("another node's tape, and node-{0}.tape is wanted")]
    OtherName(u8),
    /// A record of it promises or votes for the first round, as one of the node's own; its node
    /// tried no higher than the second one.
    #[error("another node's tape: its node promised or voted for round {0} of its own, and tried up to {1}")]
    Untried(u32, u32),
}
