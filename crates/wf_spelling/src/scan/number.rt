//! Scans the numbers of a canonical text.

ghost use Rattle.std.specs.Prelude.{◌≡◌, ◌≢◌, ◌<◌, IfSome};
ghost use Rattle.std.specs.Fmt.{decimal};
ghost use Rattle.wf_text.specs.NumberText.{fraction_digits, fraction_text, magnitude_text, number_text};
ghost use Rattle.wf_spelling.specs.Scan.{Scans};

use crate::scan::cursor::Cursor;
use wf_def::Micro;

/// The number of millionths in a unit.
const UNIT: u64 = 1_000_000;

/// The number of millionths in a unit, as a fraction is counted.
const ALL_PARTS: u32 = 1_000_000;

/// The number of digits of a fraction in millionths.
const FRACTION_DIGITS: u32 = 6;

/// The least integer behind which no further digit is scanned.
const MANY: u32 = 100_000_000;

/// Scans an integer below 1,000,000,000, which has no leading zero.
#[inline(always)]
pub fn scan_whole(cursor: &mut Cursor<'_>) -> Option<u32>
    ensures scanned { IfSome result (λ whole. Scans cursor.old (decimal whole) cursor.new) }
    ensures most { IfSome result (λ whole. whole < 1000000000) }
{
    let first = cursor.digit()?;
    let mut whole = u32::from(first);
    for _ in 0..8 {
        if whole == 0 || whole >= MANY {
            break;
        }
        match cursor.digit() {
            Some(digit) => whole = whole * 10 + u32::from(digit),
            None => break,
        }
    }
    Some(whole)
}

/// Scans the digits of a fraction in millionths, the last of which isn't zero.
#[inline(always)]
fn scan_fraction_digits(cursor: &mut Cursor<'_>) -> Option<u32>
    ensures scanned { IfSome result
        (λ parts. Scans cursor.old (fraction_digits 6 parts) cursor.new) }
    ensures most { IfSome result (λ parts. parts < 1000000) }
{
    let mut places = FRACTION_DIGITS;
    let mut unit = ALL_PARTS;
    let mut parts = 0;
    let mut last = 0;
    while places > 0 {
        match cursor.digit() {
            Some(digit) => {
                places -= 1;
                unit /= 10;
                parts += u32::from(digit) * unit;
                last = digit;
            }
            None => return end_fraction(parts, last),
        }
    }
    end_fraction(parts, last)
}

/// The millionths of digits of which this is the last, unless it is zero.
fn end_fraction(parts: u32, last: u8) -> Option<u32>
    ensures { IfSome result (λ whole. (whole ≡ parts) × (last ≢ 0)) }
{
    if last == 0 {
        return None;
    }
    Some(parts)
}

/// Scans a point and the digits of a fraction in millionths, if a point is ahead.
#[inline(always)]
fn scan_fraction(cursor: &mut Cursor<'_>) -> Option<u32>
    ensures scanned { IfSome result (λ parts. Scans cursor.old (fraction_text parts) cursor.new) }
    ensures most { IfSome result (λ parts. parts < 1000000) }
{
    if !cursor.skip(b".") {
        return Some(0);
    }
    let parts = scan_fraction_digits(cursor)?;
    if parts == 0 {
        return None;
    }
    Some(parts)
}

/// Scans a number of millionths without its sign.
#[inline(always)]
fn scan_magnitude(cursor: &mut Cursor<'_>) -> Option<u64>
    ensures scanned { IfSome result
        (λ millionths. Scans cursor.old (magnitude_text millionths) cursor.new) }
    ensures most { IfSome result (λ millionths. millionths < 1000000000000000) }
{
    let whole = scan_whole(cursor)?;
    let parts = scan_fraction(cursor)?;
    Some(u64::from(whole) * UNIT + u64::from(parts))
}

/// Scans a number of millionths.
#[inline(always)]
pub fn scan_number(cursor: &mut Cursor<'_>) -> Option<Micro>
    ensures { IfSome result (λ number. Scans cursor.old (number_text number) cursor.new) }
{
    if cursor.skip(b"-") {
        let millionths = scan_magnitude(cursor)?;
        if millionths == 0 {
            return None;
        }
        return Micro::from_millionths(-(millionths as i64));
    }
    let millionths = scan_magnitude(cursor)?;
    Micro::from_millionths(millionths as i64)
}
