//! What the lexer finds at the front of the rest of a text.

use crate::token::{LexFaultKind, TokenKind};

/// One step of the lexer.
#[derive(Clone, Copy)]
pub enum Lexeme<'a> {
    /// White space or a comment, and the rest.
    Gap {
        after: &'a [u8],
    },
    /// A token, and the rest.
    Found {
        kind: TokenKind,
        text: &'a [u8],
        after: &'a [u8],
    },
    /// The rest is empty.
    End,
    /// No token may begin here, or the one that begins doesn't end; the error is at the front of
    /// `at`.
    Fault {
        kind: LexFaultKind,
        at: &'a [u8],
    },
}
