ghost use Rattle.std.specs.Prelude.{◌≡◌, ◌↔◌, ℕ, Some, IsSome, IfSome};
ghost use Rattle.std.specs.Fmt.{decimal};
ghost use Rattle.wf_ballot.specs.Sequence.{IsSlot, seq_bytes};

use crate::sequence::Seq;
use std::fmt;
use std::marker::Model;

/// The update sequence of a map definition that the farm agrees on, 1 to 4,096: a Multi-Paxos slot,
/// with an instance of Paxos of its own. Sequence 0 isn't a slot, since its map is fixed. Messages
/// and records contain slots only.
#[derive(Clone, Copy, Debug, PartialEq, Eq, PartialOrd, Ord, Hash)]
pub struct Slot {
    seq: Seq,
}

impl Model for Slot {
    ghost use Rattle.std.specs.Prelude.{ℕ, ◌≤◌};

    ghost Value = { ℕ };

    ghost view = { λ s. s.seq };

    ghost invariant = { λ s. 1 ≤ s.seq };

    ghost inverse = { λ n. record { seq = n } };
}

impl Slot {
    /// The slot of this number; None for 0 and above 4,096.
    pub fn new(number: u16) -> Option<Slot>
        ensures valid { IsSome result ↔ IsSlot number }
        ensures value { IfSome result (λ s. s ≡ number) }
    {
        Slot::of(Seq::new(number)?)
    }

    /// The slot of this sequence; None for sequence 0.
    pub fn of(seq: Seq) -> Option<Slot>
        ensures valid { IsSome result ↔ IsSlot seq }
        ensures value { IfSome result (λ s. s ≡ seq) }
    {
        if seq.number() == 0 {
            return None;
        }
        Some(Slot { seq })
    }

    /// The slot's sequence.
    pub fn seq(self) -> Seq
        ensures value { result ≡ self }
        ensures in_range { IsSlot self }
    {
        let Slot { seq } = self;
        let _ = seq.number();
        seq
    }

    /// The slot's number, counted from 1.
    pub fn number(self) -> u16
        ensures value { result ≡ self }
        ensures in_range { IsSlot result }
    {
        self.seq().number()
    }

    /// The slot's bytes in messages and records: its sequence's 2 bytes, big-endian.
    pub fn bytes(self) -> [u8; 2]
        ensures { result ≡ seq_bytes self }
    {
        self.seq.bytes()
    }

    /// The slot with these bytes; None for any other bytes.
    pub fn from_bytes(bytes: &[u8]) -> Option<Slot>
        ensures value { IfSome result (λ s. bytes.now ≡ seq_bytes s) }
        ensures in_range { IfSome result IsSlot }
        ensures each { (s : _) → IsSlot s → bytes.now ≡ seq_bytes s → result ≡ Some s }
    {
        Slot::of(Seq::from_bytes(bytes)?)
    }
}

impl fmt::Display for Slot {
    ghost output = { λ s. Some (decimal s) };

    fn fmt<W: fmt::Write>(&self, f: &mut fmt::Formatter<W>) -> fmt::Result {
        let number = self.number();
        write!(f, "{number}")
    }
}
