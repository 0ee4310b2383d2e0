ghost use Rattle.std.specs.Prelude.{◌≡◌, ◌↔◌, ℕ, Some, IsSome, IfSome};
ghost use Rattle.std.specs.Fmt.{decimal};
ghost use Rattle.wf_ballot.specs.Sequence.{IsSequence, seq_bytes};

use std::fmt;
use std::marker::Model;

/// The highest update sequence, and so the most map definitions that a farm publishes.
pub const SEQUENCES: u16 = 4096;

/// An update sequence, 0 to 4,096: the index of a map definition in the farm's history, counted
/// from 1. At 0 nothing is published yet (OGC 06-042, 7.2.3.5).
#[derive(Clone, Copy, Debug, PartialEq, Eq, PartialOrd, Ord, Hash)]
pub struct Seq {
    number: u16,
}

impl Model for Seq {
    ghost use Rattle.std.specs.Prelude.{ℕ};
    ghost use Rattle.wf_ballot.specs.Sequence.{IsSequence};

    ghost Value = { ℕ };

    ghost view = { λ s. s.number };

    ghost invariant = { λ s. IsSequence s.number };

    ghost inverse = { λ n. record { number = n } };
}

#[tactic(auto, unfolding(crate::specs::Sequence::seq_bytes))]
impl Seq {
    /// The sequence of this number; None above 4,096.
    pub fn new(number: u16) -> Option<Seq>
        ensures valid { IsSome result ↔ IsSequence number }
        ensures value { IfSome result (λ s. s ≡ number) }
    {
        if number <= SEQUENCES {
            Some(Seq { number })
        } else {
            None
        }
    }

    /// The sequence's number.
    pub fn number(self) -> u16
        ensures value { result ≡ self }
        ensures in_range { IsSequence result }
    {
        self.number
    }

    /// The sequence's bytes in messages and records: 2 bytes, big-endian.
    pub fn bytes(self) -> [u8; 2]
        ensures { result ≡ seq_bytes self }
    {
        self.number.to_be_bytes()
    }

    /// The sequence with these bytes; None for any other bytes.
    pub fn from_bytes(bytes: &[u8]) -> Option<Seq>
        ensures value { IfSome result (λ s. bytes.now ≡ seq_bytes s) }
        ensures in_range { IfSome result IsSequence }
        ensures each { (s : ℕ) → IsSequence s → bytes.now ≡ seq_bytes s → result ≡ Some s }
    {
        match bytes {
            [high, low] => Seq::new(u16::from_be_bytes([*high, *low])),
            _ => None,
        }
    }
}

impl fmt::Display for Seq {
    ghost output = { λ s. Some (decimal s) };

    fn fmt<W: fmt::Write>(&self, f: &mut fmt::Formatter<W>) -> fmt::Result {
        let number = self.number;
        write!(f, "{number}")
    }
}
