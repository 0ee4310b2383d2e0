//! What an asked node answers about its votes.
ghost use Rattle.std.specs.Prelude.{◌≡◌};
ghost use Rattle.wf_rejoin.specs.Answer.{highest};

use wf_ballot::Seq;

/// How far an asked node was at a moment, by sequences.
#[derive(Clone, Copy, Debug, PartialEq, Eq)]
pub struct Answer {
    /// The last one that it had published.
    pub published: u16,
    /// The highest one at which it stored a vote; 0 if it stored none. It may be another one than
    /// that of its vote at the highest ballot.
    pub voted: u16,
}

impl Answer {
    /// The answer of a node that has published so far, and whose highest sequence with a vote is
    /// this one; 0 if it has none.
    pub fn new(published: Seq, voted: Seq) -> Answer
        ensures published { result.published ≡ published }
        ensures voted { result.voted ≡ voted }
    {
        Answer {
            published: published.number(),
            voted: voted.number(),
        }
    }

    /// The last sequence at which the node had published or voted.
    pub fn highest(&self) -> u16
        ensures { result ≡ highest self.now }
    {
        self.published.max(self.voted)
    }
}
