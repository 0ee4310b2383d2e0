//! Words with numbers, marks, promises and votes are read.
ghost use Rattle.std.specs.Prelude.{◌≡◌, ◌≢◌, ◌<◌, ◌^◌, ℕ, List, Option, Some, codes, length, IfNone, IfSome};
ghost use Rattle.hex.specs.Hex.{IsBytes};
ghost use Rattle.wf_ballot.specs.Ballot.{Ballot as BallotValue, IsBallot};
ghost use Rattle.wf_ballot.specs.Node.{IsNode};
ghost use Rattle.wf_ballot.specs.Sequence.{IsSequence, IsSlot};
ghost use Rattle.wf_folder.specs.Reach.{IsPromise, IsReach, IsVote, IsVoteOrNone};
ghost use Rattle.wf_folder.specs.Words.{end_then, mark_then, number_then, promise_then, reach_then, vote_then};
ghost use Rattle.wf_folder.specs.declared.reach.HighestVote.{HighestVote as VoteValue};
ghost use Rattle.wf_folder.specs.declared.reach.Reach.{Reach as ReachValue};

use crate::number::split_number;
use crate::reach::{HighestVote, Reach};
use crate::reader::{after, split_mark};
use crate::words::NO_PROMISE;
use wf_ballot::{Ballot, NodeId, Seq, Slot};

/// How far a node is by the words that bytes begin with, and what follows them; None if they begin
/// with no such words.
pub fn split_reach(bytes: &[u8]) -> Option<(Reach, &[u8])>
    ensures known { IfSome result (λ x. IsReach x.0) }
    ensures some { IfSome result (λ x. bytes.now ≡ reach_then x.0 x.1.now) }
    ensures none { IfNone result ((r : ReachValue) (rest : List ℕ) → IsReach r →
        bytes.now ≢ reach_then r rest) }
{
    let (round, rest) = split_word(bytes, b" tried ")?;
    let Some((promise, rest)) = split_promise(rest) else {
        return None;
    };
    let Some((vote, published, rest)) = split_end(rest) else {
        return None;
    };
    let reach = Reach {
        round,
        promise,
        vote,
        published,
    };
    Some((reach, rest))
}

/// The vote and the published sequence that bytes begin with, and what follows them.
fn split_end(bytes: &[u8]) -> Option<(Option<HighestVote>, Seq, &[u8])>
    ensures vote { IfSome result (λ x. IsVoteOrNone x.0) }
    ensures seq { IfSome result (λ x. IsSequence x.1) }
    ensures some { IfSome result (λ x. bytes.now ≡ end_then x.0 x.1 x.2.now) }
    ensures none { IfNone result ((vote : Option VoteValue) (s : ℕ) (rest : List ℕ) →
        IsVoteOrNone vote → IsSequence s → bytes.now ≢ end_then vote s rest) }
{
    match split_published(bytes) {
        Some((published, rest)) => Some((None, published, rest)),
        None => split_voted(bytes),
    }
}

/// The vote that bytes begin with, the published sequence, and what follows them.
fn split_voted(bytes: &[u8]) -> Option<(Option<HighestVote>, Seq, &[u8])>
    ensures vote { IfSome result (λ x. IsVoteOrNone x.0) }
    ensures seq { IfSome result (λ x. IsSequence x.1) }
    ensures some { IfSome result (λ x. bytes.now ≡ end_then x.0 x.1 x.2.now) }
    ensures none { IfNone result ((vote : VoteValue) (s : ℕ) (rest : List ℕ) → IsVote vote →
        IsSequence s → bytes.now ≢ end_then (Some vote) s rest) }
{
    let Some((vote, rest)) = split_vote(bytes) else {
        return None;
    };
    match split_published(rest) {
        Some((published, rest)) => Some((Some(vote), published, rest)),
        None => None,
    }
}

/// The published sequence that bytes begin with, and what follows it.
fn split_published(bytes: &[u8]) -> Option<(Seq, &[u8])>
    ensures seq { IfSome result (λ x. IsSequence x.0) }
    ensures some { IfSome result (λ x. bytes.now ≡ number_then (codes " published ") x.0 x.1.now) }
    ensures none { IfNone result ((s : ℕ) (rest : List ℕ) → IsSequence s →
        bytes.now ≢ number_then (codes " published ") s rest) }
{
    let (number, rest) = split_word(bytes, b" published ")?;
    match sequence_of(number) {
        Some(seq) => Some((seq, rest)),
        None => None,
    }
}

/// The sequence with this number.
fn sequence_of(number: u32) -> Option<Seq>
    ensures some { IfSome result (λ s. (s ≡ number) × IsSequence s) }
    ensures none { IfNone result (¬ IsSequence number) }
{
    match u16::try_from(number) {
        Ok(number) => Seq::new(number),
        Err(_) => None,
    }
}

/// The slot with this number.
fn slot_of(number: u32) -> Option<Slot>
    ensures some { IfSome result (λ s. (s ≡ number) × IsSlot s) }
    ensures none { IfNone result (¬ IsSlot number) }
{
    match u16::try_from(number) {
        Ok(number) => Slot::new(number),
        Err(_) => None,
    }
}

/// The vote that bytes begin with, and what follows it.
fn split_vote(bytes: &[u8]) -> Option<(HighestVote, &[u8])>
    ensures vote { IfSome result (λ x. IsVote x.0) }
    ensures some { IfSome result (λ x. bytes.now ≡ vote_then (Some x.0) x.1.now) }
    ensures none { IfNone result ((v : VoteValue) (rest : List ℕ) → IsVote v →
        bytes.now ≢ vote_then (Some v) rest) }
{
    let (round, rest) = split_word(bytes, b" voted ")?;
    let (node, rest) = split_word(rest, b" of ")?;
    let (number, rest) = split_word(rest, b" at ")?;
    let Some(ballot) = ballot_of(round, node) else {
        return None;
    };
    match slot_of(number) {
        Some(sequence) => Some((HighestVote { ballot, sequence }, rest)),
        None => None,
    }
}

/// The promise that bytes begin with, and what follows it.
#[tactic(auto, unfolding(crate::specs::Words::promise_then))]
fn split_promise(bytes: &[u8]) -> Option<(Option<Ballot>, &[u8])>
    ensures promise { IfSome result (λ x. IsPromise x.0) }
    ensures some { IfSome result (λ x. bytes.now ≡ promise_then x.0 x.1.now) }
    ensures none { IfNone result ((p : Option BallotValue) (rest : List ℕ) → IsPromise p →
        bytes.now ≢ promise_then p rest) }
{
    match after(bytes, NO_PROMISE) {
        Some(rest) => Some((None, rest)),
        None => match split_ballot(bytes) {
            Some((ballot, rest)) => Some((Some(ballot), rest)),
            None => None,
        },
    }
}

/// The ballot of the promise that bytes begin with, and what follows it.
fn split_ballot(bytes: &[u8]) -> Option<(Ballot, &[u8])>
    ensures ballot { IfSome result (λ x. IsBallot x.0) }
    ensures some { IfSome result (λ x. bytes.now ≡ promise_then (Some x.0) x.1.now) }
    ensures none { IfNone result ((b : BallotValue) (rest : List ℕ) → IsBallot b →
        bytes.now ≢ promise_then (Some b) rest) }
{
    let (round, rest) = split_word(bytes, b" promised ")?;
    let (node, rest) = split_word(rest, b" of ")?;
    match ballot_of(round, node) {
        Some(ballot) => Some((ballot, rest)),
        None => None,
    }
}

/// The ballot with this round and node.
fn ballot_of(round: u32, node: u32) -> Option<Ballot>
    ensures some { IfSome result (λ b. (b.round ≡ round) × (b.node ≡ node) × IsBallot b) }
    ensures none { IfNone result ((b : BallotValue) → IsBallot b → b.round ≡ round →
        b.node ≢ node) }
{
    match node_of(node) {
        Some(node) => Ballot::new(round, node),
        None => None,
    }
}

/// The node with this number.
pub(crate) fn node_of(number: u32) -> Option<NodeId>
    ensures some { IfSome result (λ n. (n ≡ number) × IsNode n) }
    ensures none { IfNone result (¬ IsNode number) }
{
    match u8::try_from(number) {
        Ok(number) => NodeId::new(number),
        Err(_) => None,
    }
}

/// The mark after a word with which bytes begin, and what follows it; None if they begin with no
/// such word and mark.
#[tactic(auto, using(crate::proofs::WordLemmas::no_mark_after))]
pub fn split_named<'a>(bytes: &'a [u8], word: &[u8]) -> Option<([u8; 16], &'a [u8])>
    ensures mark { IfSome result (λ x. IsBytes x.0 × (length x.0 ≡ 16)) }
    ensures some { IfSome result (λ x. bytes.now ≡ mark_then word.now x.0 x.1.now) }
    ensures none { IfNone result ((mark rest : List ℕ) → IsBytes mark → length mark ≡ 16 →
        bytes.now ≢ mark_then word.now mark rest) }
{
    match after(bytes, word) {
        Some(rest) => split_mark(rest),
        None => None,
    }
}

/// The number after a word with which bytes begin, and what follows it; None if they begin with no
/// such word and number.
#[tactic(auto, using(crate::proofs::WordLemmas::no_number_after))]
pub fn split_word<'a>(bytes: &'a [u8], word: &[u8]) -> Option<(u32, &'a [u8])>
    ensures fits { IfSome result (λ x. x.0 < 2 ^ 32) }
    ensures some { IfSome result (λ x. bytes.now ≡ number_then word.now x.0 x.1.now) }
    ensures none { IfNone result ((n : ℕ) (rest : List ℕ) → n < 2 ^ 32 →
        bytes.now ≢ number_then word.now n rest) }
{
    match after(bytes, word) {
        Some(rest) => split_number(rest),
        None => None,
    }
}
