//! Which promises and votes are higher.
ghost use Rattle.std.specs.Prelude.{◌≡◌, ◌↔◌, IsTrue, Some, max};
ghost use Rattle.wf_model.specs.DurableState.{raised};
ghost use Rattle.wf_folder.specs.Reach.{IsNoLower, IsNoLowerVote, higher_promise, higher_vote, open_vote, raised_vote, together, vote_below};

use crate::reach::{HighestVote, Reach};
use std::fmt;
use wf_ballot::{Ballot, Seq};

impl HighestVote {
    /// Whether this vote is lower than the other one, by ballot, then by sequence.
    #[tactic(auto, unfolding(crate::specs::Reach::vote_below))]
    pub fn is_below(&self, other: &HighestVote) -> bool
        ensures { result ≡ vote_below self.now other.now }
    {
        self.ballot.is_below(other.ballot)
            || (!other.ballot.is_below(self.ballot)
                && self.sequence.number() < other.sequence.number())
    }
}

/// Whether a promise is no lower than one that was known.
pub fn is_no_lower(known: Option<Ballot>, claimed: Option<Ballot>) -> bool
    ensures { IsTrue result ↔ IsNoLower known claimed }
{
    match (known, claimed) {
        (None, _) => true,
        (Some(_), None) => false,
        (Some(known), Some(claimed)) => !claimed.is_below(known),
    }
}

/// Whether a vote is no lower than one that was known.
pub fn is_no_lower_vote(known: Option<HighestVote>, claimed: Option<HighestVote>) -> bool
    ensures { IsTrue result ↔ IsNoLowerVote known claimed }
{
    match (known, claimed) {
        (None, _) => true,
        (Some(_), None) => false,
        (Some(known), Some(claimed)) => !claimed.is_below(&known),
    }
}

/// The promise, raised to this ballot.
#[tactic(auto, unfolding(wf_model::specs::DurableState::raised))]
pub fn raise_promise(promise: Option<Ballot>, ballot: Ballot) -> Ballot
    ensures { Some result ≡ raised promise ballot }
{
    match promise {
        Some(promise) if !promise.is_below(ballot) => promise,
        _ => ballot,
    }
}

/// The higher one of two promises.
pub fn higher_promise(known: Option<Ballot>, claimed: Option<Ballot>) -> Option<Ballot>
    ensures { result ≡ higher_promise known claimed }
{
    match claimed {
        Some(ballot) => Some(raise_promise(known, ballot)),
        None => known,
    }
}

/// The vote, raised to this one.
pub fn raise_vote(known: &Option<HighestVote>, vote: &HighestVote) -> HighestVote
    ensures { Some result ≡ raised_vote known.now vote.now }
{
    match known {
        Some(known) => higher_one(known, vote),
        None => *vote,
    }
}

/// The second vote if the first one is below it, else the first.
fn higher_one(first: &HighestVote, second: &HighestVote) -> HighestVote
    ensures { Some result ≡ raised_vote (Some first.now) second.now }
{
    if first.is_below(second) {
        *second
    } else {
        *first
    }
}

/// The higher one of two votes.
pub fn higher_vote(
    known: &Option<HighestVote>,
    claimed: &Option<HighestVote>,
) -> Option<HighestVote>
    ensures { result ≡ higher_vote known.now claimed.now }
{
    match claimed {
        Some(vote) => Some(raise_vote(known, vote)),
        None => *known,
    }
}

/// The vote that a node still has that has published so far: none at a sequence that it has
/// published.
pub fn open_vote(vote: Option<HighestVote>, published: Seq) -> Option<HighestVote>
    ensures { result ≡ open_vote vote published }
{
    match vote {
        Some(vote) if published.number() < vote.sequence.number() => Some(vote),
        _ => None,
    }
}

impl Reach {
    /// Both together: of each the more.
    pub fn together(&self, other: &Reach) -> Reach
        ensures { result ≡ together self.now other.now }
    {
        Reach {
            round: self.round.max(other.round),
            promise: higher_promise(self.promise, other.promise),
            vote: higher_vote(&self.vote, &other.vote),
            published: later(self.published, other.published),
        }
    }
}

/// The later one of two sequences.
fn later(first: Seq, second: Seq) -> Seq
    ensures { result ≡ max first second }
{
    if first.number() < second.number() {
        second
    } else {
        first
    }
}

impl fmt::Display for HighestVote {
    fn fmt<W: fmt::Write>(&self, f: &mut fmt::Formatter<W>) -> fmt::Result {
        let ballot = self.ballot;
        let sequence = self.sequence;
        write!(f, "{ballot} at {sequence}")
    }
}
