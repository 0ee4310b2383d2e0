//! Words with numbers, marks, promises and votes, appended to a text.
ghost use Rattle.std.specs.Prelude.{◌≡◌, ◌<◌, ◌^◌, ◌++◌, [], None, Some, OnOk, length};
ghost use Rattle.hex.specs.Hex.{IsBytes};
ghost use Rattle.wf_folder.specs.Reach.{IsPromise, IsReach, IsVoteOrNone};
ghost use Rattle.wf_folder.specs.Words.{mark_then, number_then, promise_then, reach_then, vote_then};

use crate::farm_file::mark_digits;
use crate::number::push_number;
use crate::reach::{HighestVote, Reach};
use std::alloc::AllocError;
use wf_ballot::Ballot;

/// What is said of a node that made no promise.
pub(crate) const NO_PROMISE: &[u8] = b" nothing promised";

/// Appends a word and a mark. The only error is allocation failure.
pub fn push_mark_after(text: &mut Vec<u8>, word: &[u8], mark: [u8; 16]) -> Result<(), AllocError>
    ensures items { OnOk result (text.new.items ≡ text.old.items ++ mark_then word.now mark []) }
    ensures bytes { IsBytes mark }
    ensures size { length mark ≡ 16 }
{
    text.extend_from_slice(word)?;
    text.extend_from_slice(&mark_digits(&mark))
}

/// Appends a word and a number. The only error is allocation failure.
pub fn push_word(text: &mut Vec<u8>, word: &[u8], number: u32) -> Result<(), AllocError>
    ensures items { OnOk result (text.new.items ≡
        text.old.items ++ number_then word.now number []) }
    ensures fits { number < 2 ^ 32 }
{
    text.extend_from_slice(word)?;
    push_number(text, number)
}

/// Appends a promise. The only error is allocation failure.
#[tactic(auto, using(crate::proofs::WordLemmas::two_parts), unfolding(crate::specs::Words::promise_then))]
fn push_promise(text: &mut Vec<u8>, promise: Option<Ballot>) -> Result<(), AllocError>
    ensures items { OnOk result (text.new.items ≡ text.old.items ++ promise_then promise []) }
    ensures promise { OnOk result (IsPromise promise) }
{
    match promise {
        None => text.extend_from_slice(NO_PROMISE),
        Some(ballot) => {
            push_word(text, b" promised ", ballot.round())?;
            push_word(text, b" of ", u32::from(ballot.node().number()))
        }
    }
}

/// Appends the words of a vote, if there is one. The only error is allocation failure.
fn push_vote(text: &mut Vec<u8>, vote: &Option<HighestVote>) -> Result<(), AllocError>
    ensures items { OnOk result (text.new.items ≡ text.old.items ++ vote_then vote.now []) }
    ensures vote { OnOk result (IsVoteOrNone vote.now) }
{
    match vote {
        None => no_vote(text),
        Some(vote) => push_some_vote(text, vote),
    }
}

/// Nothing is said where there is no vote.
#[tactic(auto, unfolding(crate::specs::Words::vote_then))]
fn no_vote(text: &mut Vec<u8>) -> Result<(), AllocError>
    ensures items { OnOk result (text.new.items ≡ text.old.items ++ vote_then None []) }
{
    text.extend_from_slice(b"")
}

/// Appends the words of a vote.
#[tactic(auto, using(crate::proofs::WordLemmas::three_parts))]
fn push_some_vote(text: &mut Vec<u8>, vote: &HighestVote) -> Result<(), AllocError>
    ensures items { OnOk result (text.new.items ≡ text.old.items ++ vote_then (Some vote.now) []) }
    ensures vote { OnOk result (IsVoteOrNone (Some vote.now)) }
{
    push_word(text, b" voted ", vote.ballot.round())?;
    push_word(text, b" of ", u32::from(vote.ballot.node().number()))?;
    push_word(text, b" at ", u32::from(vote.sequence.number()))
}

/// Appends how far a node is. The only error is allocation failure.
#[tactic(auto, using(crate::proofs::WordLemmas::four_parts))]
pub fn push_reach(text: &mut Vec<u8>, reach: &Reach) -> Result<(), AllocError>
    ensures items { OnOk result (text.new.items ≡ text.old.items ++ reach_then reach.now []) }
    ensures known { OnOk result (IsReach reach.now) }
{
    push_word(text, b" tried ", reach.round)?;
    push_promise(text, reach.promise)?;
    push_vote(text, &reach.vote)?;
    push_word(text, b" published ", u32::from(reach.published.number()))
}
