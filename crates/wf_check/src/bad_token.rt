//! Bytes at which no token may begin or go on.

use std::fmt;

/// What is wrong at such bytes.
#[derive(Clone, Copy)]
pub(crate) enum BadToken {
    /// A comment that isn't closed.
    Comment,
    /// A character.
    Character(char),
}

impl BadToken {
    /// What is wrong at the front of the rest of a file.
    pub(crate) fn at(rest: &[u8]) -> Self {
        if rest.starts_with(b"/*") {
            return BadToken::Comment;
        }
        let first = match str::from_utf8(rest) {
            Ok(text) => text.chars().next(),
            Err(_) => None,
        };
        BadToken::Character(first.unwrap_or('\u{FFFD}'))
    }

    /// What is allowed there.
    pub(crate) fn allowed(self) -> &'static str {
        match self {
            BadToken::Comment => "a comment up to the next */",
            BadToken::Character('"' | '\'') => "a text up to the next quote of the same kind",
            BadToken::Character('{' | '\n' | '\r') => {
                "a list after white space, up to the next }, in one line and without a { in it"
            }
            BadToken::Character('(' | ')' | '[' | ']' | '}') => {
                "this character between quotes only"
            }
            BadToken::Character('\u{FFFE}' | '\u{FFFF}' | '\u{0}'..='\u{7F}') => {
                "this character nowhere in a mapfile"
            }
            BadToken::Character(_) => "this character between quotes only",
        }
    }
}

impl fmt::Display for BadToken {
    fn fmt<W: fmt::Write>(&self, f: &mut fmt::Formatter<W>) -> fmt::Result {
        match *self {
            BadToken::Comment => write!(f, "a comment that isn't closed"),
            BadToken::Character('"' | '\'') => write!(f, "a quote that isn't closed"),
            BadToken::Character('{') => write!(f, "a {{ that begins no list"),
            BadToken::Character(c @ '!'..='~') => write!(f, "{c}"),
            BadToken::Character(c) => write!(f, "the character U+{:04X}", u32::from(c)),
        }
    }
}
