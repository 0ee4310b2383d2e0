//! What a node says of itself to its peers.
ghost use Rattle.std.specs.Prelude.{◌≡◌, ◌⊎◌, IfSome};
ghost use Rattle.wf_node.specs.Node.{stored_of};
ghost use Rattle.wf_peering.specs.Greeting.{IsGreetedWith, state_by};
ghost use Rattle.wf_rejoin.specs.Replacements.{known_count};
ghost use Rattle.wf_voter.specs.Reach.{IsHighestVoted};

use wf_membership::Gate;
use wf_peer::{Greeting, NodeState, Progress};
use wf_peer_connections::{PeerConnections, Told};
use wf_sockets::Network;
use wf_tape::Tape;
use wf_voter::{Process, Voter, reach_of, told_votes};

/// How far the node is, in this start of its folder.
fn progress<T: Tape + Drop, N: Network>(
    peers: &PeerConnections<N>,
    process: &Process<T>,
) -> Progress
    ensures { IsGreetedWith peers.now.plan.start process.now.actor.node result }
{
    peers.plan.start.at(&reach_of(process.node()))
}

/// This node's greeting now, with the replacements with which it began. None: an allocation failed.
pub(crate) fn greeting<T: Tape + Drop, N: Network>(
    peers: &mut PeerConnections<N>,
    voter: &Voter<T>,
) -> Option<Greeting>
    ensures progress { IfSome result (λ said.
        IsGreetedWith peers.old.plan.start voter.now.process.actor.node said.progress) }
    ensures voted { IfSome result (λ said. (known_count voter.now.membership.replacements ≡ 0)
        ⊎ IsHighestVoted (stored_of voter.now.process.actor.node) said.voted) }
    ensures replacements { IfSome result (λ said.
        said.replacements ≡ voter.now.membership.replacements) }
{
    peers.table.extend(voter.process.node().history());
    let now = progress(peers, &voter.process);
    let told = Told {
        replacements: voter.membership.replacements,
        voted: told_votes(voter.process.node(), &voter.membership.replacements)?,
    };
    peers.table.greeting(now, state_of(voter), told)
}

/// What a node does now, as its peers are told.
pub fn state_of<T: Tape + Drop>(voter: &Voter<T>) -> NodeState
    ensures { result ≡ state_by voter.now.gate voter.now.process.actor.node.halted
        voter.now.membership.joins voter.now.is_outvoted }
{
    match voter.gate {
        Gate::Suspended => NodeState::Suspended,
        Gate::Unwritten => NodeState::Halted,
        Gate::Open | Gate::Starting => {
            if voter.process.is_halted() {
                NodeState::Halted
            } else if voter.membership.joins {
                NodeState::Joins
            } else if voter.is_outvoted {
                NodeState::Outvoted
            } else {
                NodeState::Serves
            }
        }
    }
}
