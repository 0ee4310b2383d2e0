//! Whether an acceptor's votes are those of another one.

ghost use Rattle.std.specs.Prelude.{◌≡◌, IsTrue, Some};
ghost use Rattle.std.specs.FinMap as map;
ghost use Rattle.wf_acceptor.specs.Comparison.{HasAllBut, AreSameBut};

use crate::same::is_same;
use crate::votes::OpenVotes;
use wf_ballot::{Ballot, Slot};
use wf_codec::Canon;

/// Whether the two have the same votes, except at this slot.
#[tactic(auto, using(crate::proofs::Compared::same_both_ways))]
pub fn have_same_votes(votes: &OpenVotes, others: &OpenVotes, but: &Option<Slot>) -> bool
    ensures { IsTrue result → AreSameBut but.now votes.now.by_slot others.now.by_slot }
{
    has_all(votes, others, but) && has_all(others, votes, but)
}

/// Whether the others have each of these votes, except that at this slot.
#[tactic(auto, using(crate::proofs::Compared::has_next, crate::proofs::Compared::has_each))]
fn has_all(votes: &OpenVotes, others: &OpenVotes, but: &Option<Slot>) -> bool
    ensures { IsTrue result → HasAllBut but.now votes.now.by_slot others.now.by_slot }
{
    for (slot, vote) in votes.entries() {
        if !is_among(others, *slot, vote, but) {
            return false;
        }
    }
    true
}

/// Whether the vote at the slot is this one, unless it is the slot that doesn't count.
fn is_among(votes: &OpenVotes, slot: Slot, vote: &(Ballot, Canon), but: &Option<Slot>) -> bool
    ensures { IsTrue result → (but.now ≡ Some slot → ⊥) →
        map.get votes.now.by_slot slot ≡ Some vote.now }
{
    if *but == Some(slot) {
        return true;
    }
    has_vote(votes, slot, vote.0, &vote.1)
}

/// Whether the vote at the slot is for this definition, at this ballot.
pub fn has_vote(votes: &OpenVotes, slot: Slot, ballot: Ballot, canon: &Canon) -> bool
    ensures { IsTrue result → map.get votes.now.by_slot slot ≡ Some (ballot, canon.now) }
{
    match votes.value_at(slot) {
        Some((other, another)) => *other == ballot && is_same(another, canon),
        None => false,
    }
}
