//! How far a folder is that joins.
ghost use Rattle.wf_rejoin.specs.Joining.{IsJoining};
ghost use Rattle.wf_rejoin.specs.Phase.{IsAfterAnswers, IsPhase};

use crate::joining::{Joining, WINDOW};
use std::fmt;
use wf_ballot::{SEQUENCES, Seq};

/// How far a folder is that joins.
#[derive(Clone, Copy, Debug, PartialEq, Eq)]
pub enum Phase {
    /// No operator has begun its replacement.
    Waits,
    /// So many nodes have agreed, and so many are half of all.
    Asks(usize, usize),
    /// So many nodes have agreed, half of all, and one of them hasn't answered.
    Hears(usize),
    /// All of them have answered, and it has so many maps to go of so many.
    Learns(u16, u16),
    /// It may vote.
    Votes,
}

impl Joining {
    /// How far the folder is, with this last published sequence.
    pub fn phase(&self, published: Seq) -> Phase
        requires { IsJoining self.now }
        ensures { IsPhase self.now published result }
    {
        if !self.has_half() {
            return if self.replacement.count == 0 {
                Phase::Waits
            } else {
                Phase::Asks(self.agreed(), usize::from(self.nodes).div_ceil(2))
            };
        }
        match self.highest() {
            Some(highest) => phase_after(highest, published),
            None => Phase::Hears(self.agreed()),
        }
    }
}

/// How far a folder is that has all answers.
fn phase_after(highest: u16, published: Seq) -> Phase
    ensures { IsAfterAnswers highest published result }
{
    let target = highest.saturating_add(WINDOW).min(SEQUENCES);
    if target <= published.number() {
        Phase::Votes
    } else {
        Phase::Learns(target - published.number(), target)
    }
}

impl fmt::Display for Phase {
    fn fmt<W: fmt::Write>(&self, f: &mut fmt::Formatter<W>) -> fmt::Result {
        match self {
            Phase::Waits => f.write_str("joins, wfarmctl replace isn't begun"),
            Phase::Asks(agreed, needed) => write!(f, "joins, {agreed} of {needed} nodes agreed"),
            Phase::Hears(agreed) => write!(f, "joins, not all of {agreed} nodes answered"),
            Phase::Learns(left, target) => write!(f, "joins, {left} of {target} maps to go"),
            Phase::Votes => f.write_str("joins, may vote"),
        }
    }
}
