ghost use Rattle.std.specs.Prelude.{◌≡◌, ◌+◌, ◌<◌, ◌≤◌, ◌++◌, ◌^◌, [], length, if◌then◌else◌, IfOk};
ghost use Rattle.arrayvec.specs.ArrayVec.{array_vec_len};
ghost use Rattle.wf_model.specs.Message.{first_vote, from_sequence, vote_of};
ghost use Rattle.wf_model.specs.VolatileState.{better, better_each, carried};
ghost use Rattle.wf_codec.specs.Message.{view_vote, view_votes};

use crate::report::{Report, Votes, copy_votes};
use arrayvec::ArrayVec;
use std::alloc::AllocError;
use std::marker::Model;
use std::mem::replace;
use wf_ballot::{Ballot, Slot};
use wf_canon::Canon;

/// The best of the votes that several reports from one slot on have: for each slot the one at the
/// highest ballot, and of votes at equal ballots the first reported.
pub struct BestVotes {
    votes: Votes,
}

// Written by hand: callers then prove one call where they drop these.
impl Drop for BestVotes {
    fn drop(self) {
        let BestVotes { votes } = self;
        drop(votes);
    }
}

impl Model for BestVotes {
    ghost use Rattle.std.specs.Prelude.{List, Option};
    ghost use Rattle.wf_def.specs.Definition.{Definition};
    ghost use Rattle.wf_model.specs.Message.{Vote};
    ghost use Rattle.wf_codec.specs.Message.{view_votes};

    ghost Value = { List (Option (Vote Definition)) };

    ghost view = { λ best. view_votes best.votes.items };
}

impl BestVotes {
    /// Those of no report.
    pub fn none() -> BestVotes
        ensures { result ≡ [] }
    {
        BestVotes {
            votes: ArrayVec::new(),
        }
    }

    /// Those of one more report. Doesn't allocate.
    pub fn improve(&mut self, report: Report)
        ensures { self.new ≡ better_each self.old (view_votes report.votes) }
    {
        let best = replace(&mut self.votes, ArrayVec::new());
        let better = better_votes(best, report.into_votes());
        drop(replace(&mut self.votes, better));
    }

    /// A copy. The only error is allocation failure.
    pub fn copy(&self) -> Result<BestVotes, AllocError>
        ensures { IfOk result (λ best. best ≡ self.now) }
    {
        let mut votes = ArrayVec::new();
        copy_votes(self.votes.as_slice(), &mut votes)?;
        Ok(BestVotes { votes })
    }

    /// The definition of the vote at the first slot, or this one if there is no vote.
    pub fn first_or<'a>(&'a self, own: &'a Canon) -> &'a Canon
        ensures { result.now ≡ carried (first_vote self.now) own.now }
    {
        first_or(self.votes.as_slice(), own)
    }

    /// The definition of the vote at the slot, if the first one is at `base`, or this one if there
    /// is no vote.
    pub fn at_or<'a>(&'a self, base: Slot, slot: Slot, own: &'a Canon) -> &'a Canon
        ensures { result.now ≡ carried (vote_of base self.now slot) own.now }
    {
        let votes = votes_from(base.number(), self.votes.as_slice(), slot.number());
        first_or(votes, own)
    }
}

/// The definition of the first vote, or this one if there is none.
#[tactic(auto, unfolding(wf_model::specs::Message::first_vote, wf_model::specs::VolatileState::carried))]
fn first_or<'a>(votes: &'a [Option<(Ballot, Canon)>], own: &'a Canon) -> &'a Canon
    ensures { result.now ≡ carried (first_vote (view_votes votes.now)) own.now }
{
    match votes {
        [] => own,
        [vote, ..] => definition_or(vote, own),
    }
}

/// The vote's definition, or this one if there is no vote.
#[tactic(auto, unfolding(wf_model::specs::VolatileState::carried))]
fn definition_or<'a>(vote: &'a Option<(Ballot, Canon)>, own: &'a Canon) -> &'a Canon
    ensures { result.now ≡ carried (view_vote vote.now) own.now }
{
    match vote {
        None => own,
        Some((_, canon)) => canon,
    }
}

/// The votes from the slot on, if the first one is at `base`.
#[tactic(auto, unfolding(wf_model::specs::Message::from_sequence))]
fn votes_from(base: u16, votes: &[Option<(Ballot, Canon)>], slot: u16) -> &[Option<(Ballot, Canon)>]
    requires { base + length votes.now < 2 ^ 16 }
    ensures { view_votes result.now ≡ from_sequence base (view_votes votes.now) slot }
{
    match votes {
        [] => votes,
        [_, rest @ ..] => {
            if slot == base {
                votes
            } else {
                votes_from(base + 1, rest, slot)
            }
        }
    }
}

/// There are at most four votes, as their type says. The call does nothing.
fn at_most_four(votes: &Votes)
    ensures { array_vec_len votes.now ≤ 4 }
{
    let _ = votes.as_slice();
}

/// For each slot the better of its two votes. The slots of both begin at the same one.
fn better_votes(best: Votes, votes: Votes) -> Votes
    ensures { view_votes result.items ≡
        better_each (view_votes best.items) (view_votes votes.items) }
{
    at_most_four(&best);
    at_most_four(&votes);
    let mut best = best;
    let mut votes = votes;
    let mut better = ArrayVec::new();
    put_better(&mut best, &mut votes, &mut better);
    drop(best);
    drop(votes);
    better
}

/// Appends for each slot the better of its two votes; there must be room. They are taken out.
#[tactic(auto, using(crate::proofs::Better::none_better, crate::proofs::Better::best_alone, crate::proofs::Better::both_better))]
fn put_better(best: &mut Votes, votes: &mut Votes, out: &mut Votes)
    requires best { array_vec_len out.old + array_vec_len best.old ≤ 4 }
    requires votes { array_vec_len out.old + array_vec_len votes.old ≤ 4 }
    ensures { view_votes out.new.items ≡ view_votes out.old.items ++
        better_each (view_votes best.old.items) (view_votes votes.old.items) }
{
    match best.pop_at(0) {
        None => put_all(votes, out),
        Some(first) => match votes.pop_at(0) {
            None => {
                out.push(first);
                put_all(best, out);
            }
            Some(vote) => {
                out.push(better_vote(first, vote));
                put_better(best, votes, out);
            }
        },
    }
}

/// Appends the votes; there must be room. They are taken out.
#[tactic(auto, using(crate::proofs::Better::none_left, crate::proofs::Better::one_put))]
fn put_all(votes: &mut Votes, out: &mut Votes)
    requires { array_vec_len out.old + array_vec_len votes.old ≤ 4 }
    ensures { out.new.items ≡ out.old.items ++ votes.old.items }
{
    match votes.pop_at(0) {
        None => {}
        Some(vote) => {
            out.push(vote);
            put_all(votes, out);
        }
    }
}

/// The better of two votes: the one at the higher ballot, and of equal ones the first.
fn better_vote(
    best: Option<(Ballot, Canon)>,
    vote: Option<(Ballot, Canon)>,
) -> Option<(Ballot, Canon)>
    ensures { view_vote result ≡ better (view_vote best) (view_vote vote) }
{
    if is_better(&best, &vote) {
        drop(best);
        vote
    } else {
        drop(vote);
        best
    }
}

/// Whether the better of the two is the vote.
#[tactic(auto, unfolding(wf_model::specs::VolatileState::better))]
fn is_better(best: &Option<(Ballot, Canon)>, vote: &Option<(Ballot, Canon)>) -> bool
    ensures { better (view_vote best.now) (view_vote vote.now) ≡
        (if result then view_vote vote.now else view_vote best.now) }
{
    match best {
        None => true,
        Some((highest, _)) => match vote {
            None => false,
            Some((ballot, _)) => highest.is_below(*ballot),
        },
    }
}
