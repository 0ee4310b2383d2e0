//! Bytes as a table spells them: `\n`, `\r`, `\t`, `\\`, `\s` for a space, `\xHH` for any byte;
//! everything else is itself.
ghost use Rattle.std.specs.Prelude.{◌<◌, IfSome};

use crate::answer::Transcript;
use crate::questions::Unanswered;

// The state of the reader of a spelled text.
#[derive(Clone, Copy)]
enum State {
    Outside,
    BehindBackslash,
    BehindX,
    BehindDigit(u8),
}

/// The value of a hexadecimal digit, of either letter case.
pub fn digit(byte: u8) -> Option<u8>
    ensures { IfSome result (λ digit. digit < 16) }
{
    match byte {
        b'0'..=b'9' => Some(byte - b'0'),
        b'a'..=b'f' => Some(byte - b'a' + 10),
        b'A'..=b'F' => Some(byte - b'A' + 10),
        _ => None,
    }
}

// Reads a byte that follows no backslash.
fn take_plain(byte: u8, out: &mut Transcript) -> State {
    if byte == b'\\' {
        return State::BehindBackslash;
    }
    out.bytes(&[byte]);
    State::Outside
}

// The byte that a backslash and this letter spell.
fn letter(byte: u8) -> Option<u8> {
    match byte {
        b'n' => Some(b'\n'),
        b'r' => Some(b'\r'),
        b't' => Some(b'\t'),
        b's' => Some(b' '),
        b'\\' => Some(b'\\'),
        _ => None,
    }
}

fn take_letter(byte: u8, out: &mut Transcript) -> Result<State, Unanswered> {
    if byte == b'x' {
        return Ok(State::BehindX);
    }
    match letter(byte) {
        Some(meant) => out.bytes(&[meant]),
        None => return Err(Unanswered::BadWords),
    }
    Ok(State::Outside)
}

fn take_first_digit(byte: u8) -> Result<State, Unanswered> {
    match digit(byte) {
        Some(high) => Ok(State::BehindDigit(high * 16)),
        None => Err(Unanswered::BadWords),
    }
}

fn take_second_digit(high: u8, byte: u8, out: &mut Transcript) -> Result<State, Unanswered> {
    match digit(byte) {
        Some(low) => out.bytes(&[high | low]),
        None => return Err(Unanswered::BadWords),
    }
    Ok(State::Outside)
}

fn take(state: State, byte: u8, out: &mut Transcript) -> Result<State, Unanswered> {
    match state {
        State::Outside => Ok(take_plain(byte, out)),
        State::BehindBackslash => take_letter(byte, out),
        State::BehindX => take_first_digit(byte),
        State::BehindDigit(high) => take_second_digit(high, byte, out),
    }
}

/// Appends the bytes that a text spells. Returns an error where a backslash begins no escape; then
/// a part is appended.
pub fn unescape(text: &str, out: &mut Transcript) -> Result<(), Unanswered> {
    let mut state = State::Outside;
    for byte in text.as_bytes() {
        state = take(state, *byte, out)?;
    }
    match state {
        State::Outside => Ok(()),
        _ => Err(Unanswered::BadWords),
    }
}

fn write_hexadecimal(byte: u8, out: &mut Transcript) {
    let digits = b"0123456789ABCDEF";
    out.bytes(&[
        b'\\',
        b'x',
        digits[(byte / 16) as usize],
        digits[(byte % 16) as usize],
    ]);
}

fn write_escaped_byte(byte: u8, out: &mut Transcript) {
    match byte {
        b'\n' => out.text("\\n"),
        b'\r' => out.text("\\r"),
        b'\t' => out.text("\\t"),
        b'\\' => out.text("\\\\"),
        b' '..=b'~' => out.bytes(&[byte]),
        _ => write_hexadecimal(byte, out),
    }
}

/// Appends bytes as a table spells them, on one line.
pub fn escape(bytes: &[u8], out: &mut Transcript) {
    for byte in bytes {
        write_escaped_byte(*byte, out);
    }
}
