ghost use Rattle.std.specs.Prelude.{◌≡◌, ◌+◌, ◌*◌, ◌≤◌, ◌++◌, length, IfOk, IsSome, OnOk, OnErr};
ghost use Rattle.arrayvec.specs.ArrayVec.{array_vec_len};
ghost use Rattle.wf_ballot.specs.Sequence.{IsSlot};
ghost use Rattle.wf_frame.specs.Report.{votes_in_report, votes_definitions, IsVoteOf, AreVotesOf};
ghost use Rattle.wf_canon.specs.Canon.{canon, most_canon_bytes};
ghost use Rattle.wf_codec.specs.Message.{view_vote, view_votes, HasOne, HasText};
ghost use Rattle.wf_codec.specs.Encoding.{written_vote, written_votes};

use arrayvec::ArrayVec;
use std::alloc::AllocError;
use std::marker::Model;
use wf_ballot::{Ballot, Slot};
use wf_canon::Canon;
use wf_frame::{ballot_in_range, slot_in_range};

/// The most votes that a report has: those at its slot and at the three after it.
pub const MOST_VOTES: usize = 4;

/// The votes of a report, in the order of their slots; None where there is no vote.
pub type Votes = ArrayVec<Option<(Ballot, Canon)>, MOST_VOTES>;

/// What a promise reports: the slot from which on it is made, and for that slot and the three after
/// it, as far as there are slots, the vote there, or that there is none.
pub struct Report {
    slot: Slot,
    votes: Votes,
}

// Written by hand: callers then prove one call where they drop a report.
impl Drop for Report {
    fn drop(self) {
        let Report { slot: _, votes } = self;
        drop(votes);
    }
}

impl Model for Report {
    ghost use Rattle.std.specs.Prelude.{◌≡◌, length};
    ghost use Rattle.wf_frame.specs.Report.{votes_in_report};
    ghost use Rattle.wf_codec.specs.Report.{Report as Reported};

    ghost Value = { Reported };

    ghost view = { λ r. record { slot = r.slot; votes = r.votes.items } };

    ghost invariant = { λ r. length r.votes.items ≡ votes_in_report r.slot };
}

impl Report {
    /// The report of these votes, that at the slot first.
    pub fn of(slot: Slot, votes: Votes) -> Report
        requires { length votes.items ≡ votes_in_report slot }
        ensures { result ≡ record { slot = slot; votes = votes.items } }
    {
        Report { slot, votes }
    }

    /// The slot from which on the promise is made.
    pub fn slot(&self) -> Slot
        ensures value { result ≡ self.now.slot }
        ensures in_range { IsSlot result }
    {
        slot_in_range(self.slot);
        self.slot
    }

    /// The votes, that at the slot first.
    pub fn votes(&self) -> &[Option<(Ballot, Canon)>]
        ensures value { result.now ≡ self.now.votes }
        ensures count { length result.now ≡ votes_in_report self.now.slot }
        ensures few { length result.now ≤ 4 }
    {
        self.votes.as_slice()
    }

    /// The votes, that at the slot first, taken out.
    pub fn into_votes(self) -> Votes
        ensures { result.items ≡ self.votes }
    {
        let Report { slot: _, votes } = self;
        votes
    }

    /// A copy. The only error is allocation failure, for a report with a vote.
    pub fn copy(&self) -> Result<Report, AllocError>
        ensures copy { IfOk result (λ r. r ≡ self.now) }
        ensures memory { OnErr result (HasOne (votes_definitions (view_votes self.now.votes))) }
    {
        let mut votes = ArrayVec::new();
        copy_votes(self.votes.as_slice(), &mut votes)?;
        Ok(Report {
            slot: self.slot,
            votes,
        })
    }
}

/// Appends copies of the votes, for which there is room.
pub(crate) fn copy_votes(
    votes: &[Option<(Ballot, Canon)>],
    out: &mut Votes,
) -> Result<(), AllocError>
    requires { array_vec_len out.old + length votes.now ≤ 4 }
    ensures copy { OnOk result (out.new.items ≡ out.old.items ++ votes.now) }
    ensures memory { OnErr result (HasOne (votes_definitions (view_votes votes.now))) }
{
    match votes {
        [] => Ok(()),
        [vote, rest @ ..] => {
            out.push(copy_vote(vote)?);
            copy_votes(rest, out)
        }
    }
}

fn copy_vote(vote: &Option<(Ballot, Canon)>) -> Result<Option<(Ballot, Canon)>, AllocError>
    ensures copy { IfOk result (λ v. v ≡ vote.now) }
    ensures memory { OnErr result (IsSome vote.now) }
{
    match vote {
        None => Ok(None),
        Some((ballot, canon)) => Ok(Some((*ballot, canon.copy()?))),
    }
}

/// The number of bytes of the votes.
#[tactic(auto, unfolding(wf_frame::specs::Report::votes_bytes))]
pub(crate) fn votes_length(votes: &[Option<(Ballot, Canon)>]) -> usize
    requires { length votes.now ≤ 4 }
    ensures value { result ≡ length (written_votes votes.now) }
    ensures most { result ≤ length votes.now * (10 + most_canon_bytes) }
    ensures are_votes { AreVotesOf HasText (view_votes votes.now) }
{
    match votes {
        [] => 0,
        [vote, rest @ ..] => vote_length(vote) + votes_length(rest),
    }
}

/// The number of bytes of a vote, with its mark.
#[tactic(auto, using(crate::proofs::Fields::vote_has_length))]
fn vote_length(vote: &Option<(Ballot, Canon)>) -> usize
    ensures value { result ≡ length (written_vote vote.now) }
    ensures most { result ≤ 10 + most_canon_bytes }
    ensures is_vote { IsVoteOf HasText (view_vote vote.now) }
{
    match vote {
        None => 1,
        Some((ballot, canon)) => {
            ballot_in_range(*ballot);
            10 + text_length(canon)
        }
    }
}

/// The number of bytes of a canonical text.
pub(crate) fn text_length(text: &Canon) -> usize
    ensures value { result ≡ length (canon text.now) }
    ensures has_text { HasText text.now }
{
    let _ = text.def();
    text.text().len()
}
