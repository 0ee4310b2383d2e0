ghost use Rattle.std.specs.Prelude.{◌≡◌, ◌↔◌, Some, IsSome, IfSome};
ghost use Rattle.std.specs.Fmt.{decimal};
ghost use Rattle.wf_ballot.specs.Ballot.{round_bytes, IsRound};

use crate::ballot::Ballot;
use std::fmt;
use std::marker::Model;

/// The round of an attempt, 1 to 4,294,967,295. Round 0 means that a node hasn't made an attempt
/// yet; it isn't a `Round`.
#[derive(Clone, Copy, Debug, PartialEq, Eq, PartialOrd, Ord, Hash)]
pub struct Round {
    number: u32,
}

impl Model for Round {
    ghost use Rattle.std.specs.Prelude.{ℕ, ◌≤◌};

    ghost Value = { ℕ };

    ghost view = { λ r. r.number };

    ghost invariant = { λ r. 1 ≤ r.number };

    ghost inverse = { λ n. record { number = n } };
}

impl Round {
    /// The round of this number; None for 0.
    pub fn new(number: u32) -> Option<Round>
        ensures valid { IsSome result ↔ IsRound number }
        ensures value { IfSome result (λ r. r ≡ number) }
    {
        if number >= 1 {
            Some(Round { number })
        } else {
            None
        }
    }

    /// The ballot's round.
    pub fn of(ballot: Ballot) -> Round
        ensures value { result ≡ ballot.round }
        ensures in_range { IsRound result }
    {
        let number = ballot.round();
        Round { number }
    }

    /// The round's number, counted from 1.
    pub fn number(self) -> u32
        ensures value { result ≡ self }
        ensures in_range { IsRound result }
    {
        self.number
    }

    /// The round's bytes in messages and records: 4 bytes, big-endian.
    #[tactic(auto, unfolding(crate::specs::Ballot::round_bytes))]
    pub fn bytes(self) -> [u8; 4]
        ensures { result ≡ round_bytes self }
    {
        self.number.to_be_bytes()
    }
}

impl fmt::Display for Round {
    ghost output = { λ r. Some (decimal r) };

    fn fmt<W: fmt::Write>(&self, f: &mut fmt::Formatter<W>) -> fmt::Result {
        let number = self.number;
        write!(f, "{number}")
    }
}
