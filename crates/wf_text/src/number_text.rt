//! The text of a number.

ghost use Rattle.std.specs.Prelude.{◌≡◌, ◌+◌, ◌<◌, ◌≤◌, ◌∷◌, ◌++◌, length, OnOk, OnErr};
ghost use Rattle.std.specs.Fmt.{decimal};
ghost use Rattle.wf_text.specs.Limit.{most_number_bytes};
ghost use Rattle.wf_text.specs.NumberText.{Writes, fraction_digits, fraction_text, magnitude_text, number_text};

use crate::limits::MOST_NUMBER_BYTES;
use crate::micro::Micro;
use arrayvec::ArrayVec;
use itoa::Buffer;
use std::alloc::AllocError;
use std::marker::Model;

/// The number of millionths in a unit.
const UNIT: u64 = 1_000_000;

/// The number of digits of a fraction in millionths.
const FRACTION_DIGITS: u32 = 6;

/// The canonical text of a coordinate: `-` if it is negative, no leading zeros, a fraction only if
/// it isn't zero, and no trailing zeros in it. Doesn't allocate.
#[derive(Drop)]
pub struct NumberText {
    bytes: ArrayVec<u8, MOST_NUMBER_BYTES>,
}

impl Model for NumberText {
    ghost use Rattle.std.specs.Prelude.{ℕ, List};

    ghost Value = { List ℕ };

    ghost view = { λ t. t.bytes.items };
}

impl NumberText {
    /// The text of this number.
    pub fn of(number: Micro) -> Self
        ensures { result ≡ number_text number }
    {
        // A coordinate is within its limit, so its text is within the length.
        let _ = number.millionths();
        let mut bytes: ArrayVec<u8, MOST_NUMBER_BYTES> = ArrayVec::new();
        push_number(&mut bytes, number);
        NumberText { bytes }
    }

    /// The text's bytes, which are ASCII.
    pub fn as_bytes(&self) -> &[u8]
        ensures value { result.now ≡ self.now }
        ensures short { length result.now ≤ most_number_bytes }
    {
        self.bytes.as_slice()
    }
}

/// Appends the canonical text of a number, or leaves `out` as it was if allocation fails.
pub fn write_number(number: Micro, out: &mut Vec<u8>) -> Result<(), AllocError>
    ensures ok { OnOk result (out.new.items ≡ out.old.items ++ number_text number) }
    ensures err { OnErr result (out.new.items ≡ out.old.items) }
{
    let text = NumberText::of(number);
    out.extend_from_slice(text.as_bytes())
}

/// Appends the bytes if there is room for them.
fn extend(out: &mut ArrayVec<u8, MOST_NUMBER_BYTES>, bytes: &[u8])
    ensures { length out.old.items + length bytes.now ≤ most_number_bytes →
        out.new.items ≡ out.old.items ++ bytes.now }
{
    let _ = out.try_extend_from_slice(bytes);
}

/// Appends a piece of a number's text.
fn push(out: &mut ArrayVec<u8, MOST_NUMBER_BYTES>, bytes: &[u8])
    ensures { Writes out.old.items bytes.now out.new.items }
{
    extend(out, bytes);
}

/// Writes an integer.
fn push_whole(out: &mut ArrayVec<u8, MOST_NUMBER_BYTES>, whole: u64)
    ensures { Writes out.old.items (decimal whole) out.new.items }
{
    let mut digits = Buffer::new();
    push(out, digits.format(whole).as_bytes());
}

fn push_fraction_digits(out: &mut ArrayVec<u8, MOST_NUMBER_BYTES>, parts: u64)
    requires { parts < 1000000 }
    ensures { Writes out.old.items (fraction_digits 6 parts) out.new.items }
{
    let mut rest = parts;
    for places in (0..FRACTION_DIGITS).rev() {
        if rest == 0 {
            break;
        }
        let unit = 10u64.pow(places);
        let digit = b'0' + (rest / unit) as u8;
        push(out, &[digit]);
        rest %= unit;
    }
}

#[tactic(auto, unfolding(crate::specs::NumberText::fraction_text))]
fn push_fraction(out: &mut ArrayVec<u8, MOST_NUMBER_BYTES>, parts: u64)
    requires { parts < 1000000 }
    ensures { Writes out.old.items (fraction_text parts) out.new.items }
{
    if parts == 0 {
        return;
    }
    push(out, b".");
    push_fraction_digits(out, parts);
}

#[tactic(auto, unfolding(crate::specs::NumberText::magnitude_text))]
fn push_magnitude(out: &mut ArrayVec<u8, MOST_NUMBER_BYTES>, millionths: u64)
    ensures { Writes out.old.items (magnitude_text millionths) out.new.items }
{
    push_whole(out, millionths / UNIT);
    push_fraction(out, millionths % UNIT);
}

/// Writes a negative number, given its magnitude in millionths.
fn push_negative(out: &mut ArrayVec<u8, MOST_NUMBER_BYTES>, millionths: u64)
    ensures { Writes out.old.items (45 ∷ magnitude_text millionths) out.new.items }
{
    push(out, b"-");
    push_magnitude(out, millionths);
}

/// Writes a number of millionths.
#[tactic(auto, unfolding(crate::specs::NumberText::number_text))]
fn push_number(out: &mut ArrayVec<u8, MOST_NUMBER_BYTES>, number: Micro)
    ensures { Writes out.old.items (number_text number) out.new.items }
{
    let millionths = number.millionths();
    let magnitude = millionths.unsigned_abs();
    if millionths < 0 {
        push_negative(out, magnitude);
    } else {
        push_magnitude(out, magnitude);
    }
}
