//! Bytes of a file as text that is safe to print.

ghost use Rattle.std.specs.Prelude.{◌≡◌, ◌<◌, ◌≤◌, ℕ, drop, length, take, IfSome};

use std::fmt;
use wf_block::{Token, TokenKind};

/// The most bytes of a line that are shown on each side of an offset.
const MOST_BESIDE: usize = 50;

/// Bytes of one line of a file.
#[derive(Clone, Copy)]
pub(crate) enum Shown<'a> {
    /// As they are. What isn't UTF-8, and each control character other than TAB, is shown as
    /// U+FFFD.
    Text(&'a [u8]),
    /// As much white space as they take: a TAB for each TAB, a space for any other character.
    Blank(&'a [u8]),
}

impl<'a> Shown<'a> {
    /// The bytes.
    fn bytes(self) -> &'a [u8] {
        match self {
            Shown::Text(bytes) | Shown::Blank(bytes) => bytes,
        }
    }

    /// What is shown for a character.
    fn shown(self, character: char) -> char {
        match self {
            _ if character == '\t' => '\t',
            Shown::Blank(_) => ' ',
            Shown::Text(_) if character < ' ' || ('\u{7f}'..='\u{9f}').contains(&character) => {
                '\u{FFFD}'
            }
            Shown::Text(_) => character,
        }
    }
}

/// The longest beginning that is UTF-8, and what follows the byte after it.
fn cut(bytes: &[u8]) -> (&str, Option<&[u8]>)
    ensures { IfSome result.1 (λ rest. length rest.now < length bytes.now) }
{
    match str::from_utf8(bytes) {
        Ok(text) => (text, None),
        Err(error) => {
            let (valid, rest) = bytes.split_at(error.valid_up_to());
            let text = str::from_utf8(valid).unwrap_or("");
            match rest.split_first() {
                Some((_, after)) => (text, Some(after)),
                None => (text, None),
            }
        }
    }
}

/// Writes what is shown for a text.
fn write_text<W: fmt::Write>(
    f: &mut fmt::Formatter<W>,
    shown: Shown<'_>,
    text: &str,
) -> fmt::Result {
    for character in text.chars() {
        f.write_char(shown.shown(character))?;
    }
    Ok(())
}

impl fmt::Display for Shown<'_> {
    fn fmt<W: fmt::Write>(&self, f: &mut fmt::Formatter<W>) -> fmt::Result {
        let shown = *self;
        let mut rest = shown.bytes();
        loop {
            let (text, after) = cut(rest);
            write_text(f, shown, text)?;
            let Some(after) = after else {
                return Ok(());
            };
            f.write_char(shown.shown('\u{FFFD}'))?;
            rest = after;
        }
    }
}

/// Whether a byte continues a character in UTF-8.
fn continues(byte: u8) -> bool {
    128 <= byte && byte < 192
}

/// The last bytes of a line before an offset, at most 50, which begin with a whole character.
pub(crate) fn last_part(before: &[u8]) -> &[u8]
    ensures { (count : ℕ) × (result.now ≡ drop count before.now) × (length result.now ≤ 50) }
{
    let mut start = before.len().saturating_sub(MOST_BESIDE);
    while start < before.len() && continues(before[start]) {
        start += 1;
    }
    if start == 0 {
        before
    } else {
        before.split_at(start).1
    }
}

/// The first bytes of a line from an offset on, at most 50, which end with a whole character.
pub(crate) fn first_part(after: &[u8]) -> &[u8]
    ensures { (count : ℕ) × (result.now ≡ take count after.now) × (length result.now ≤ 50) }
{
    let mut end = after.len().min(MOST_BESIDE);
    while end > 0 && end < after.len() && continues(after[end]) {
        end -= 1;
    }
    after.split_at(end).0
}

/// A token as it stands in a file, at most 50 bytes of it, or the end of the file.
#[derive(Clone, Copy)]
pub(crate) struct Quote<'a>(pub(crate) Option<Token<'a>>);

impl fmt::Display for Quote<'_> {
    fn fmt<W: fmt::Write>(&self, f: &mut fmt::Formatter<W>) -> fmt::Result {
        let Quote(token) = *self;
        let Some(token) = token else {
            return write!(f, "the end of the file");
        };
        let part = first_part(token.text);
        let more = if part.len() < token.text.len() {
            "..."
        } else {
            ""
        };
        let text = Shown::Text(part);
        match token.kind {
            TokenKind::Word => write!(f, "{text}{more}"),
            TokenKind::Quoted => write!(f, "\"{text}{more}\""),
            TokenKind::Braced => write!(f, "{{{text}{more}}}"),
        }
    }
}
