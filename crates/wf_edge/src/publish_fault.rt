//! Why a map isn't proposed.

use wf_mapfile::MapFault;
use wf_node::NodeFault;

/// Why a map isn't proposed.
#[derive(Clone, Copy)]
pub enum PublishFault {
    /// The body isn't a map: an error other than allocation failure.
    Map(MapFault),
    /// The map's canonical text is over the limit.
    TooBig,
    /// An allocation failed before the node's step.
    Memory,
    /// The node rejected the proposal, or failed.
    Node(NodeFault),
}
