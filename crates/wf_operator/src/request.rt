//! What an operator asks for.

use crate::replacement::{Proposed, ReplaceRequest};
use wf_ballot::NodeId;
use wf_rejoin::Replacement;

/// The longest head of a request, in bytes.
const MOST_HEAD: usize = 8_192;

/// A request's first line, taken apart; empty where a part is absent.
#[derive(Clone, Copy)]
pub(crate) struct FirstLine<'a> {
    pub(crate) method: &'a str,
    pub(crate) path: &'a str,
    pub(crate) query: &'a str,
}

/// Whether the head of a request has come, or what has come is too long for one.
pub(crate) fn is_whole(bytes: &[u8]) -> bool {
    MOST_HEAD <= bytes.len()
        || bytes.windows(4).any(|four| four == b"\r\n\r\n".as_slice())
        || bytes.windows(2).any(|two| two == b"\n\n".as_slice())
}

/// What is asked for.
pub(crate) fn request_of(bytes: &[u8]) -> FirstLine<'_> {
    let line = first_line(bytes);
    let (method, rest) = line.split_once(' ').unwrap_or((line, ""));
    let (target, _) = rest.split_once(' ').unwrap_or((rest, ""));
    let (path, query) = target.split_once('?').unwrap_or((target, ""));
    FirstLine {
        method,
        path,
        query,
    }
}

/// The first line of a request; empty if it isn't text.
fn first_line(bytes: &[u8]) -> &str {
    let length = bytes
        .iter()
        .take_while(|byte| **byte != b'\r' && **byte != b'\n')
        .count();
    match str::from_utf8(bytes.split_at(length.min(bytes.len())).0) {
        Ok(line) => line,
        Err(_) => "",
    }
}

/// The number that a query gives after a key.
pub(crate) fn number_of(query: &str, key: &str) -> Option<u16> {
    digits_of(query, key, 5)?.parse::<u16>().ok()
}

/// The count that a query gives after a key.
fn count_of(query: &str, key: &str) -> Option<u32> {
    digits_of(query, key, 10)?.parse::<u32>().ok()
}

/// What a query gives after a key, if it is decimal digits, so many at most.
fn digits_of<'a>(query: &'a str, key: &str, most: usize) -> Option<&'a str> {
    let digits = query.strip_prefix(key)?;
    if digits.is_empty() || most < digits.len() || !digits.bytes().all(|b| b.is_ascii_digit()) {
        return None;
    }
    Some(digits)
}

/// The question about a replacement that a request with this path and query is:
/// `POST /replace/ask?node=I&count=C&mark=HEX`, `/replace/agree` with such a query, both maybe with
/// `&force` behind it, and `/replace/begin?count=C`. None: it is malformed.
pub(crate) fn replace_request_of(path: &str, query: &str) -> Option<ReplaceRequest> {
    match path {
        "/replace/ask" => Some(ReplaceRequest::Ask(proposed_of(query)?)),
        "/replace/agree" => Some(ReplaceRequest::Agree(proposed_of(query)?)),
        _ => Some(ReplaceRequest::Begin(count_of(query, "count=")?)),
    }
}

/// The replacement of a query: a node, a count and a mark, in this order, and whether it is forced.
fn proposed_of(query: &str) -> Option<Proposed> {
    let (query, force) = match query.strip_suffix("&force") {
        Some(query) => (query, true),
        None => (query, false),
    };
    let (node, rest) = query.split_once('&')?;
    let (count, mark) = rest.split_once('&')?;
    Some(Proposed {
        node: node_of(number_of(node, "node=")?)?,
        replacement: Replacement {
            count: count_of(count, "count=")?,
            mark: mark_of(mark.strip_prefix("mark=")?)?,
        },
        force,
    })
}

/// The node of a number.
fn node_of(number: u16) -> Option<NodeId> {
    match u8::try_from(number) {
        Ok(number) => NodeId::new(number),
        Err(_) => None,
    }
}

/// The mark with these hexadecimal digits.
fn mark_of(digits: &str) -> Option<[u8; 16]> {
    let mut mark = [0u8; 16];
    match hex::decode_to_slice(digits, &mut mark) {
        Ok(()) => Some(mark),
        Err(_) => None,
    }
}
