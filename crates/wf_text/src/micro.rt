//! Coordinates in millionths.
ghost use Rattle.std.specs.Prelude.{◌≡◌, ◌↔◌, IsSome, IfSome};
ghost use Rattle.wf_text.specs.Number.{IsMicro, number};

use crate::fault::NumberFault;
use crate::limits::MOST_MILLIONTHS;
use crate::number::Numeral;
use std::marker::Model;

/// A coordinate, in millionths of a unit, of a magnitude of at most 100,000,000 units.
#[derive(Clone, Copy, PartialEq, Eq, PartialOrd, Ord)]
pub struct Micro {
    millionths: i64,
}

impl Model for Micro {
    ghost use Rattle.std.specs.Prelude.{ℤ};
    ghost use Rattle.wf_text.specs.Number.{IsMicro};

    ghost Value = { ℤ };

    ghost view = { λ m. m.millionths };

    ghost invariant = { λ m. IsMicro m.millionths };

    ghost inverse = { λ z. record { millionths = z } };
}

impl Micro {
    /// Reads a number as a mapfile writes it: an optional sign, digits with an optional point, and
    /// an optional power of ten. Digits below a millionth are dropped. Another form is `BadNumber`.
    /// More than 9 digits before the point, more than 25 after it, or a magnitude over the limit is
    /// `OutOfRange`. Doesn't allocate.
    #[tactic(auto, unfolding(crate::specs::Number::number))]
    pub fn read(text: &[u8]) -> Result<Self, NumberFault>
        ensures { result ≡ number text.now }
    {
        let Some(numeral) = Numeral::new(text) else {
            return Err(NumberFault::BadNumber);
        };
        let millionths = numeral.millionths()?;
        Ok(Micro { millionths })
    }

    /// The coordinate of that many millionths, if the magnitude is within the limit.
    pub fn from_millionths(millionths: i64) -> Option<Self>
        ensures within { IsSome result ↔ IsMicro millionths }
        ensures value { IfSome result (λ m. m ≡ millionths) }
    {
        if millionths.unsigned_abs() <= MOST_MILLIONTHS {
            Some(Micro { millionths })
        } else {
            None
        }
    }

    /// The coordinate in millionths of a unit.
    pub fn millionths(self) -> i64
        ensures value { result ≡ self }
        ensures within { IsMicro self }
    {
        self.millionths
    }
}
