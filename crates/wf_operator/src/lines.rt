//! Maps of a history as text.

use std::alloc::{AllocError, Global};
use std::fmt::Write;
use wf_ballot::{Seq, Slot};
use wf_canon::Canon;
use wf_learner::History;

/// The definition published under a sequence.
pub(crate) fn canon_at(history: &History, number: u16) -> Option<&Canon> {
    let slot = Slot::new(number)?;
    history.canon(slot)
}

/// The canonical text of the empty map, which is the map of sequence 0.
pub(crate) fn empty_map(alloc: Global, history: &History) -> Result<Option<String>, AllocError> {
    let Some(first) = Seq::new(0) else {
        return Ok(None);
    };
    let Some(map) = history.get(first) else {
        return Ok(None);
    };
    let canon = match Canon::of(alloc, map) {
        Ok(canon) => canon,
        Err(_) => return Err(AllocError),
    };
    let text = text_of(alloc, &canon);
    drop(canon);
    text
}

/// The canonical text of a map.
pub(crate) fn text_of(alloc: Global, canon: &Canon) -> Result<Option<String>, AllocError> {
    match str::from_utf8(canon.text()) {
        Ok(text) => Ok(Some(String::from_str(alloc, text)?)),
        Err(_) => Ok(None),
    }
}

/// Appends the line of a sequence: its number, the digest of the history up to it, the length of
/// its canonical text, and the map's name and title in quotes.
pub(crate) fn push_line(
    text: &mut String,
    number: u16,
    digest: Option<[u8; 32]>,
    canon: &Canon,
) -> Result<(), AllocError> {
    let map = canon.def();
    let bytes = canon.text().len();
    write!(text, "{number} ")?;
    push_digest(text, digest)?;
    write!(text, " {bytes} ")?;
    push_quoted(text, map.name().as_str())?;
    text.push_str(" ")?;
    push_quoted(text, map.title().as_str())?;
    text.push_str("\n")
}

/// Appends a digest in hexadecimal digits, or `-` if there is none.
fn push_digest(text: &mut String, digest: Option<[u8; 32]>) -> Result<(), AllocError> {
    match digest {
        Some(digest) => {
            for byte in digest {
                write!(text, "{byte:02x}")?;
            }
            Ok(())
        }
        None => text.push_str("-"),
    }
}

/// Appends a text in quotes: double ones, unless it has such.
fn push_quoted(text: &mut String, words: &str) -> Result<(), AllocError> {
    let quote = if words.bytes().any(|byte| byte == b'"') {
        "'"
    } else {
        "\""
    };
    text.push_str(quote)?;
    text.push_str(words)?;
    text.push_str(quote)
}
