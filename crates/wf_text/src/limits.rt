//! The limits of texts and numbers, each with its unit.
ghost use Rattle.std.specs.Prelude.{◌≡◌};
ghost use Rattle.wf_text.specs.Limit.{most_fraction_digits, most_millionths, most_number_bytes, most_power_digits, most_text_bytes, most_whole_digits};

/// The longest text, in bytes.
pub const MOST_TEXT_BYTES: usize = 1_000;

/// The greatest magnitude of a coordinate, in millionths of a unit: 100,000,000 units.
pub const MOST_MILLIONTHS: u64 = 100_000_000_000_000;

/// The most digits before a number's point.
pub const MOST_WHOLE_DIGITS: usize = 9;

/// The most digits after a number's point.
pub const MOST_FRACTION_DIGITS: usize = 25;

/// The most digits of a number's power of ten.
pub const MOST_POWER_DIGITS: usize = 3;

/// The longest text that a coordinate is written as, in bytes: a `-`, nine digits, a point and six
/// digits.
pub const MOST_NUMBER_BYTES: usize = 17;

/// Each constant is the number in the definitions. A theorem: the call does nothing.
pub fn constants_are_the_limits()
    ensures text_bytes { MOST_TEXT_BYTES ≡ most_text_bytes }
    ensures millionths { MOST_MILLIONTHS ≡ most_millionths }
    ensures whole_digits { MOST_WHOLE_DIGITS ≡ most_whole_digits }
    ensures fraction_digits { MOST_FRACTION_DIGITS ≡ most_fraction_digits }
    ensures power_digits { MOST_POWER_DIGITS ≡ most_power_digits }
    ensures number_bytes { MOST_NUMBER_BYTES ≡ most_number_bytes }
{}
