use wf_ballot::{Ballot, Seq};
use wf_folder::HighestVote;

/// How far a node is: of a sound one no number ever falls, a vote goes only once its sequence is
/// published, and the mark stays.
#[derive(Clone, Copy, Debug, PartialEq, Eq)]
pub struct Progress {
    /// The mark of its folder.
    pub mark: [u8; 16],
    /// How often it started on that folder.
    pub starts: u32,
    /// The mark of this start: random bits that the process draws.
    pub life: [u8; 16],
    /// The highest round that it tried; 0 if none.
    pub round: u32,
    /// Its promise.
    pub promise: Option<Ballot>,
    /// Its highest vote, at a sequence that it hasn't published.
    pub vote: Option<HighestVote>,
    /// The last sequence that it published.
    pub published: Seq,
}
