//! How far a node is.
ghost use Rattle.std.specs.Prelude.{◌≡◌, ◌≤◌, ◌⊎◌, IfSome, Some};
ghost use Rattle.wf_ballot.specs.Sequence.{IsSlot};
ghost use Rattle.wf_def.specs.Definition.{Definition};
ghost use Rattle.wf_folder.specs.Reach.{IsNoLowerVote};
ghost use Rattle.wf_model.specs.Message.{Vote};
ghost use Rattle.wf_node.specs.Node.{stored_of};
ghost use Rattle.wf_rejoin.specs.Replacements.{known_count};
ghost use Rattle.wf_voter.specs.Reach.{IsHighestVote, IsHighestVoted, IsReachOf, IsVoteOfNode, IsVotedOrNone};

use wf_ballot::{SEQUENCES, Seq, Slot};
use wf_folder::{HighestVote, Reach, raise_vote};
use wf_node::Node;
use wf_rejoin::Replacements;
use wf_tape::Tape;

/// How far a node is: its last round, its promise, its highest vote at a sequence that isn't
/// published, and what it has published.
pub fn reach_of<T: Tape>(node: &Node<T>) -> Reach
    ensures { IsReachOf node.now result }
{
    Reach {
        round: node.last_round(),
        promise: node.promise(),
        vote: highest_vote(node),
        published: node.published(),
    }
}

/// A node's highest vote.
fn highest_vote<T: Tape>(node: &Node<T>) -> Option<HighestVote>
    ensures { IsHighestVote (stored_of node.now) result }
{
    let mut highest = None;
    for number in 0..SEQUENCES {
        highest = with_vote_of(node, number + 1, highest);
    }
    highest
}

/// The highest vote, raised to the one at the sequence of this number, if there is one.
#[tactic(auto, using(wf_folder::proofs::Raised::no_lower_vote_self))]
fn with_vote_of<T: Tape>(
    node: &Node<T>,
    number: u16,
    highest: Option<HighestVote>,
) -> Option<HighestVote>
    ensures kept { IsNoLowerVote highest result }
    ensures no_lower { IsSlot number → (vote : Vote Definition) →
        (stored_of node.now).votes number ≡ Some vote →
        IsNoLowerVote (Some (record { ballot = vote.ballot; sequence = number })) result }
    ensures is_vote { IsVoteOfNode (stored_of node.now) highest →
        IsVoteOfNode (stored_of node.now) result }
{
    match Slot::new(number) {
        Some(slot) => with_vote_at(node, slot, highest),
        None => highest,
    }
}

/// The highest vote, raised to the one at a slot, if there is one.
fn with_vote_at<T: Tape>(
    node: &Node<T>,
    slot: Slot,
    highest: Option<HighestVote>,
) -> Option<HighestVote>
    ensures kept { IsNoLowerVote highest result }
    ensures no_lower { (vote : Vote Definition) → (stored_of node.now).votes slot ≡ Some vote →
        IsNoLowerVote (Some (record { ballot = vote.ballot; sequence = slot })) result }
    ensures is_vote { IsVoteOfNode (stored_of node.now) highest →
        IsVoteOfNode (stored_of node.now) result }
{
    match node.vote_at(slot) {
        Some(vote) => Some(raise_vote(
            &highest,
            &HighestVote {
                ballot: vote.0,
                sequence: slot,
            },
        )),
        None => highest,
    }
}

/// The sequence that a node tells its peers beside the replacements that it knows of: the highest
/// one at which it has a vote, 0 if it has none. Where it knows of no replacement it tells 0.
pub fn told_votes<T: Tape>(node: &Node<T>, known: &Replacements) -> Option<Seq>
    ensures { IfSome result (λ told.
        (known_count known.now ≡ 0) ⊎ IsHighestVoted (stored_of node.now) told) }
{
    if known.is_empty() {
        Seq::new(0)
    } else {
        Seq::new(highest_voted(node))
    }
}

/// The highest sequence at which a node has a vote; 0 if it has none.
fn highest_voted<T: Tape>(node: &Node<T>) -> u16
    ensures { IsHighestVoted (stored_of node.now) result }
{
    let mut highest = 0;
    for number in 0..SEQUENCES {
        highest = with_voted(node, number + 1, highest);
    }
    highest
}

/// The number of a sequence if the node has a vote there, otherwise the other one.
fn with_voted<T: Tape>(node: &Node<T>, number: u16, highest: u16) -> u16
    ensures voted { IsSlot number → (vote : Vote Definition) →
        (stored_of node.now).votes number ≡ Some vote → result ≡ number }
    ensures within { highest ≤ number → (highest ≤ result) × (result ≤ number) }
    ensures is_voted { IsVotedOrNone (stored_of node.now) highest →
        IsVotedOrNone (stored_of node.now) result }
{
    match Slot::new(number) {
        Some(slot) => with_voted_at(node, slot, highest),
        None => highest,
    }
}

/// The number of a slot if the node has a vote there, otherwise the other one.
fn with_voted_at<T: Tape>(node: &Node<T>, slot: Slot, highest: u16) -> u16
    ensures voted { (vote : Vote Definition) → (stored_of node.now).votes slot ≡ Some vote →
        result ≡ slot }
    ensures within { highest ≤ slot → (highest ≤ result) × (result ≤ slot) }
    ensures is_voted { IsVotedOrNone (stored_of node.now) highest →
        IsVotedOrNone (stored_of node.now) result }
{
    match node.vote_at(slot) {
        Some(_) => slot.number(),
        None => highest,
    }
}
