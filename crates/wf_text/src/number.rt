//! Reading a number's text: the text is cut into parts, and the parts have a value.
ghost use Rattle.std.specs.Prelude.{◌≡◌, ◌+◌, ◌*◌, ◌/◌, ◌^◌, ◌<◌, ◌≤◌, ◌==◌, ◌++◌, ◌+ℤ◌, ◌-ℤ◌, pos, min, length, IfOk};
ghost use Rattle.std.specs.Char.{is_ascii_digit};
ghost use Rattle.std.specs.List.{prefix_len};
ghost use Rattle.wf_text.specs.Number.{IsMicro, Numeral as NumeralValue, is_negative, after_sign, leading_digits, after_digits, fraction_digits, after_fraction, spelled_onto, is_sign, is_power_digits, is_power_mark, signed_power, power_of, numeral_from, numeral, scale, with_sign, has_too_many_digits, magnitude, in_range};
ghost use Rattle.wf_text.specs.Limit.{most_fraction_digits, most_millionths, most_power_digits, most_whole_digits};

use crate::digits::are_digits;
use crate::fault::NumberFault;
use crate::limits::{MOST_FRACTION_DIGITS, MOST_MILLIONTHS, MOST_POWER_DIGITS, MOST_WHOLE_DIGITS};
use std::marker::Model;

/// Digits after a point that fit into 64 bits behind the most digits before it.
const FEW_FRACTION_DIGITS: usize = 8;

/// A number's text in parts: the digits as written, and the power of ten.
#[derive(Drop)]
pub(crate) struct Numeral<'a> {
    negative: bool,
    whole: &'a [u8],
    fraction: &'a [u8],
    power: i16,
}

impl<'a> Model for Numeral<'a> {
    ghost use Rattle.wf_text.specs.Number.{Numeral as NumeralValue};

    ghost Value = { NumeralValue };

    ghost view = { λ n. record { negative = n.negative; whole = n.whole.now; fraction = n.fraction.now; power = n.power } };
}

impl<'a> Numeral<'a> {
    /// The parts of a text that has the form of a number, else `None`.
    #[tactic(auto, unfolding(crate::specs::Number::numeral))]
    pub(crate) fn new(text: &'a [u8]) -> Option<Self>
        ensures { result ≡ numeral text.now }
    {
        let (whole, rest) = split_digits(after_sign(text));
        let (fraction, rest) = split_fraction(rest);
        Numeral::from_parts(is_negative(text), whole, fraction, power_of(rest))
    }

    /// The number of these parts, if there is at least one digit and the power is valid.
    fn from_parts(
        negative: bool,
        whole: &'a [u8],
        fraction: &'a [u8],
        power: Option<i16>,
    ) -> Option<Self>
        ensures { result ≡ numeral_from negative whole.now fraction.now power }
    {
        if whole.len() + fraction.len() == 0 {
            return None;
        }
        let power = power?;
        Some(Numeral {
            negative,
            whole,
            fraction,
            power,
        })
    }
}

fn is_negative(text: &[u8]) -> bool
    ensures { result ≡ is_negative text.now }
{
    text.first() == Some(&b'-')
}

fn is_sign(byte: u8) -> bool
    ensures { result ≡ is_sign byte }
{
    byte == b'-' || byte == b'+'
}

fn after_sign(text: &[u8]) -> &[u8]
    ensures { result.now ≡ after_sign text.now }
{
    match text {
        [byte, after @ ..] if is_sign(*byte) => after,
        _ => text,
    }
}

/// The number of digits that the text begins with.
fn count_digits(text: &[u8]) -> usize
    ensures value { result ≡ prefix_len is_ascii_digit text.now }
    ensures within { result ≤ length text.now }
{
    text.iter().take_while(|byte| byte.is_ascii_digit()).count()
}

/// The digits that the text begins with, and the rest.
fn split_digits(text: &[u8]) -> (&[u8], &[u8])
    ensures digits { result.0.now ≡ leading_digits text.now }
    ensures rest { result.1.now ≡ after_digits text.now }
{
    let count = count_digits(text);
    text.split_at(count)
}

fn is_point(byte: u8) -> bool
    ensures { result ≡ (byte == 46) }
{
    byte == b'.'
}

/// The digits after a point, if the text begins with one, and the rest.
fn split_fraction(text: &[u8]) -> (&[u8], &[u8])
    ensures digits { result.0.now ≡ fraction_digits text.now }
    ensures rest { result.1.now ≡ after_fraction text.now }
{
    match text {
        [byte, after @ ..] if is_point(*byte) => split_digits(after),
        _ => (&[], text),
    }
}

fn is_power_mark(byte: u8) -> bool
    ensures { result ≡ is_power_mark byte }
{
    byte == b'e' || byte == b'E'
}

/// The power of ten that ends a number.
fn power_of(text: &[u8]) -> Option<i16>
    ensures { result ≡ power_of text.now }
{
    match text {
        [] => Some(0),
        [byte, after @ ..] if is_power_mark(*byte) => signed_power(after),
        _ => None,
    }
}

/// One to three digits after an optional sign.
fn signed_power(text: &[u8]) -> Option<i16>
    ensures { result ≡ signed_power text.now }
{
    let digits = after_sign(text);
    if !is_power_digits(digits) {
        return None;
    }
    let power = small_value(digits);
    Some(if is_negative(text) { -power } else { power })
}

fn is_power_digits(digits: &[u8]) -> bool
    ensures { result ≡ is_power_digits digits.now }
{
    !digits.is_empty() && digits.len() <= MOST_POWER_DIGITS && are_digits(digits)
}

/// The value that the digits spell, appended to the digits of a value.
fn spelled_onto(value: u128, digits: &[u8]) -> u128
    requires { (value + 23) * 10 ^ length digits.now ≤ 2 ^ 128 }
    ensures value { result ≡ spelled_onto value digits.now }
    ensures bound { result + 23 ≤ (value + 23) * 10 ^ length digits.now }
{
    let mut spelled = value;
    for byte in digits {
        spelled = spelled * 10 + u128::from(byte.saturating_sub(b'0'));
    }
    spelled
}

/// The value that the digits spell, appended to the digits of a value, in 64 bits.
fn few_spelled_onto(value: u64, digits: &[u8]) -> u64
    requires { (value + 23) * 10 ^ length digits.now ≤ 2 ^ 64 }
    ensures value { result ≡ spelled_onto value digits.now }
    ensures bound { result + 23 ≤ (value + 23) * 10 ^ length digits.now }
{
    let mut spelled = value;
    for byte in digits {
        spelled = spelled * 10 + u64::from(byte.saturating_sub(b'0'));
    }
    spelled
}

/// What at most three digits spell.
fn small_value(digits: &[u8]) -> i16
    requires { length digits.now ≤ most_power_digits }
    ensures value { result ≡ pos (spelled_onto 0 digits.now) }
    ensures within { spelled_onto 0 digits.now < 2 ^ 15 }
{
    few_spelled_onto(0, digits) as i16
}

/// The value times 10 ^ `times`, or the first number over the limit if that is less.
fn capped_product(value: u128, times: u32) -> u64
    ensures { result ≡ min (value * 10 ^ times) (most_millionths + 1) }
{
    let mut capped_product = value.min(u128::from(MOST_MILLIONTHS) + 1) as u64;
    for _done in 0..times {
        capped_product = (capped_product * 10).min(MOST_MILLIONTHS + 1);
    }
    capped_product
}

/// The value divided by 10 ^ `times`, or the first number over the limit if that is less.
fn capped_quotient(value: u128, times: u32) -> u64
    ensures { result ≡ min (value / 10 ^ times) (most_millionths + 1) }
{
    let mut capped_quotient = value;
    for _done in 0..times {
        capped_quotient /= 10;
    }
    capped_quotient.min(u128::from(MOST_MILLIONTHS) + 1) as u64
}

/// The value times a power of ten, or the first number over the limit if that is less.
#[tactic(auto, unfolding(crate::specs::Number::scale))]
fn scale(value: u128, power: i32) -> u64
    ensures { result ≡ min (scale value power) (most_millionths + 1) }
{
    if power >= 0 {
        capped_product(value, power.unsigned_abs())
    } else {
        capped_quotient(value, power.unsigned_abs())
    }
}

impl<'a> Numeral<'a> {
    fn has_too_many_digits(&self) -> bool
        ensures { result ≡ has_too_many_digits self.now }
    {
        self.whole.len() > MOST_WHOLE_DIGITS || self.fraction.len() > MOST_FRACTION_DIGITS
    }

    /// The magnitude in millionths, or the first number over the limit if that is less.
    fn capped_magnitude(&self) -> u64
        requires whole { length self.now.whole ≤ most_whole_digits }
        requires fraction { length self.now.fraction ≤ most_fraction_digits }
        ensures { result ≡ min (magnitude self.now) (most_millionths + 1) }
    {
        let digits = all_digits(self.whole, self.fraction);
        scale(digits, places(self.power, self.fraction))
    }

    /// The number in millionths, unless it has too many digits or is too great.
    #[tactic(auto, unfolding(crate::specs::Number::in_range))]
    pub(crate) fn millionths(&self) -> Result<i64, NumberFault>
        ensures value { result ≡ in_range self.now }
        ensures within { IfOk result IsMicro }
    {
        if self.has_too_many_digits() {
            return Err(NumberFault::OutOfRange);
        }
        let magnitude = self.capped_magnitude();
        if magnitude > MOST_MILLIONTHS {
            return Err(NumberFault::OutOfRange);
        }
        Ok(with_sign(self.negative, magnitude))
    }
}

/// The value that the digits before and after the point spell together. Few digits are spelled in
/// 64 bits, more in 128.
fn all_digits(whole: &[u8], fraction: &[u8]) -> u128
    requires whole { length whole.now ≤ most_whole_digits }
    requires fraction { length fraction.now ≤ most_fraction_digits }
    ensures { result ≡ spelled_onto 0 (whole.now ++ fraction.now) }
{
    let units = few_spelled_onto(0, whole);
    if fraction.len() <= FEW_FRACTION_DIGITS {
        u128::from(few_spelled_onto(units, fraction))
    } else {
        spelled_onto(u128::from(units), fraction)
    }
}

/// The power of ten that turns all digits, read as one integer, into millionths.
fn places(power: i16, fraction: &[u8]) -> i32
    requires { length fraction.now ≤ most_fraction_digits }
    ensures { result ≡ pos 6 +ℤ power -ℤ pos (length fraction.now) }
{
    6 + i32::from(power) - fraction.len() as i32
}

fn with_sign(negative: bool, magnitude: u64) -> i64
    requires { magnitude < 2 ^ 63 }
    ensures { result ≡ with_sign negative magnitude }
{
    let magnitude = magnitude as i64;
    if negative { -magnitude } else { magnitude }
}
