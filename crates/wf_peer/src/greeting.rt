use crate::progress::Progress;
use crate::state::NodeState;
use wf_ballot::{NodeId, Seq};
use wf_folder::FarmName;
use wf_rejoin::Replacements;

/// The version of what nodes say to each other: of greetings and replies, and that messages follow.
/// It isn't the program's. Nodes of unequal versions don't talk.
pub const PEER_VERSION: u16 = 2;

/// The number of bytes of a greeting that tells of no replacement, and the least of any: the last
/// of them is the number of replaced nodes.
pub const GREETING_BYTES: usize = 132;

/// What a node says first on a connection to a peer.
#[derive(Clone, Copy, Debug, PartialEq, Eq)]
pub struct Greeting {
    /// The name of its farm.
    pub farm: FarmName,
    /// The number of the farm's nodes.
    pub nodes: u8,
    /// Which of them it is.
    pub node: NodeId,
    /// How far it is.
    pub progress: Progress,
    /// The digest of its history up to its last published sequence.
    pub digest: [u8; 32],
    /// What it does now.
    pub state: NodeState,
    /// What it knows of replacements.
    pub replacements: Replacements,
    /// The highest sequence at which it has a vote, 0 if it has none. It is told with replacements
    /// alone, and is 0 where none are known.
    pub voted: Seq,
}
