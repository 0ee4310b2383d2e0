//! What a promise reports of an acceptor's votes.

ghost use Rattle.std.specs.Prelude.{◌≡◌, ◌+◌, ◌≤◌, ◌++◌, IfOk, OnOk};
ghost use Rattle.std.specs.FinMap as map;
ghost use Rattle.arrayvec.specs.ArrayVec.{array_vec_len};
ghost use Rattle.wf_model.specs.VolatileState.{window};
ghost use Rattle.wf_acceptor.specs.Prepared.{reported};

use crate::votes::OpenVotes;
use arrayvec::ArrayVec;
use std::alloc::AllocError;
use wf_ballot::{Ballot, Slot};
use wf_codec::{Canon, MOST_VOTES, Report, Votes};

/// The report of the votes from the slot on.
pub fn report_from(votes: &OpenVotes, slot: Slot) -> Result<Report, AllocError>
    ensures { IfOk result (λ report. report ≡
        record { slot = slot; votes = reported votes.now.by_slot slot window }) }
{
    let mut copies = ArrayVec::new();
    copy_votes(votes, slot, MOST_VOTES, &mut copies)?;
    Ok(Report::of(slot, copies))
}

/// Appends copies of so many votes from the slot on, as far as there are slots. There must be room
/// for them.
fn copy_votes(
    votes: &OpenVotes,
    slot: Slot,
    count: usize,
    copies: &mut Votes,
) -> Result<(), AllocError>
    requires { array_vec_len copies.old + count ≤ 4 }
    ensures { OnOk result (copies.new.items ≡
        copies.old.items ++ reported votes.now.by_slot slot count) }
{
    if count == 0 {
        return Ok(());
    }
    let vote = copy_of_vote(votes, slot)?;
    copies.push(vote);
    match Slot::new(slot.number() + 1) {
        Some(next) => copy_votes(votes, next, count - 1, copies),
        None => Ok(()),
    }
}

/// A copy of the slot's vote.
fn copy_of_vote(votes: &OpenVotes, slot: Slot) -> Result<Option<(Ballot, Canon)>, AllocError>
    ensures { IfOk result (λ vote. vote ≡ map.get votes.now.by_slot slot) }
{
    match votes.value_at(slot) {
        Some((ballot, canon)) => Ok(Some((*ballot, canon.copy()?))),
        None => Ok(None),
    }
}
