//! Integers in a range.
ghost use Rattle.std.specs.Prelude.{◌≡◌, ◌↔◌, ◌≤◌, IsSome, IfSome};
ghost use Rattle.wf_text.specs.Number.{whole_between};

use crate::micro::Micro;
use std::marker::Model;

/// An integer from `LEAST` to `MOST`.
#[derive(Clone, Copy, PartialEq, Eq)]
pub struct Whole<const LEAST: u8, const MOST: u8> {
    number: u8,
}

impl<const LEAST: u8, const MOST: u8> Model for Whole<LEAST, MOST> {
    ghost use Rattle.std.specs.Prelude.{ℕ, ◌≤◌};

    ghost Value = { ℕ };

    ghost view = { λ w. w.number };

    ghost invariant = { λ w. (LEAST ≤ w.number) × (w.number ≤ MOST) };

    ghost inverse = { λ n. record { number = n } };
}

impl<const LEAST: u8, const MOST: u8> Whole<LEAST, MOST> {
    /// The number, if it is in the range.
    pub fn new(number: u8) -> Option<Self>
        ensures within { IsSome result ↔ ((LEAST ≤ number) × (number ≤ MOST)) }
        ensures value { IfSome result (λ whole. whole ≡ number) }
    {
        if number >= LEAST && number <= MOST {
            Some(Whole { number })
        } else {
            None
        }
    }

    /// The coordinate's number of units, if it is an integer in the range.
    #[tactic(auto, unfolding(crate::specs::Number::whole_between))]
    pub fn from_micro(number: Micro) -> Option<Self>
        ensures { result ≡ whole_between LEAST MOST number }
    {
        let millionths = number.millionths();
        if millionths < 0 || millionths % 1_000_000 != 0 {
            return None;
        }
        let units = millionths / 1_000_000;
        if units < i64::from(LEAST) || units > i64::from(MOST) {
            return None;
        }
        Some(Whole {
            number: units as u8,
        })
    }

    /// The number.
    pub fn get(self) -> u8
        ensures value { result ≡ self.entry }
        ensures least { LEAST ≤ self.entry }
        ensures most { self.entry ≤ MOST }
    {
        self.number
    }
}
