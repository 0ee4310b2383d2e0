use wf_ballot::{Ballot, Seq, Slot};

/// The highest vote of a node: the ballot that it voted for, and at which sequence. Votes are
/// ordered by ballot, then by sequence.
#[derive(Clone, Copy, Debug, PartialEq, Eq)]
pub struct HighestVote {
    /// The ballot.
    pub ballot: Ballot,
    /// The sequence.
    pub sequence: Slot,
}

/// How far a node is. Of a sound one no number ever falls, and a vote goes only once its sequence
/// is published.
#[derive(Clone, Copy, Debug, PartialEq, Eq)]
pub struct Reach {
    /// The highest round that it tried; 0 if none.
    pub round: u32,
    /// Its promise.
    pub promise: Option<Ballot>,
    /// Its highest vote.
    pub vote: Option<HighestVote>,
    /// The last sequence that it published.
    pub published: Seq,
}

/// How far a node is known to have been, and the digest of its history up to the sequence that it
/// had published.
#[derive(Clone, Copy, Debug, PartialEq, Eq)]
pub struct Known {
    /// How far it was.
    pub reach: Reach,
    /// The digest.
    pub digest: [u8; 32],
}
