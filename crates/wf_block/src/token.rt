//! The tokens of a mapfile, words, strings and lists with their byte offsets, and the errors of a
//! text that has none.

use std::alloc::Global;

/// What a token stands between.
#[derive(Clone, Copy)]
pub enum TokenKind {
    /// A run of bytes without quotes or braces.
    Word,
    /// The bytes between two quotes.
    Quoted,
    /// The bytes between two braces.
    Braced,
}

/// A token, which borrows from its text.
#[derive(Clone, Copy)]
pub struct Token<'a> {
    /// What it stands between.
    pub kind: TokenKind,
    /// Its byte offset in the file; that of a string is its opening quote's, that of a list its
    /// opening brace's.
    pub byte_offset: usize,
    /// Its bytes, without quotes or braces.
    pub text: &'a [u8],
}

/// Why a text has no tokens.
#[derive(Clone, Copy)]
pub enum LexFaultKind {
    /// A missing closing quote, brace or comment end, or a byte that no token may hold there.
    BadToken,
    /// A string or a list over 1,000 bytes.
    OutOfRange,
}

/// The first error of a text, from the left.
#[derive(Clone, Copy)]
pub struct LexFault {
    /// Which error it is.
    pub kind: LexFaultKind,
    /// Its byte offset in the file.
    pub byte_offset: usize,
}

/// The tokens of a text up to its end, or up to its first error.
#[derive(Drop)]
pub struct Tokens<'a> {
    /// The tokens, in order.
    pub tokens: Vec<Token<'a>, Global>,
    /// The error that ended them, if one did.
    pub fault: Option<LexFault>,
}
