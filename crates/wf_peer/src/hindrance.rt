//! What keeps a node from voting.
ghost use Rattle.std.specs.Prelude.{◌≡◌};
ghost use Rattle.wf_peer.specs.Admission.{hindrance_of};

use crate::state::NodeState;
use wf_rejoin::Hindrance;

/// What keeps a node that is in this state from voting; None if it votes.
pub fn hindrance_of(state: NodeState) -> Option<Hindrance>
    ensures { result ≡ hindrance_of state }
{
    match state {
        NodeState::Serves => None,
        NodeState::Halted => Some(Hindrance::Halted),
        NodeState::Suspended => Some(Hindrance::Suspended),
        NodeState::Joins => Some(Hindrance::Joins),
        NodeState::Outvoted => Some(Hindrance::Outvoted),
    }
}
