//! A node that was read of its tape, and isn't on it yet.

use wf_folder::Known;
use wf_node::Node;
use wf_tape::MemoryTape;

/// A node on a copy of its tape's bytes in memory, how far it is, and how many zeros were dropped
/// there that were behind its records and never synced.
#[derive(Drop)]
pub(crate) struct ReadNode {
    pub node: Node<MemoryTape>,
    pub known: Known,
    pub dropped: usize,
}
