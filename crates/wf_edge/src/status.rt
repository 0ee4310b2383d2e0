//! The status of a node.

use wf_ballot::{NodeId, Seq};
use wf_proposer::ProposalState;

/// The status of a node, as GET /status reports it.
#[derive(Clone, Copy)]
pub struct Status {
    /// The node's number.
    pub id: NodeId,
    /// The sequence of the last map that it has published.
    pub published: Seq,
    /// How its proposal stands; a halted node has none.
    pub proposal: ProposalState,
}
