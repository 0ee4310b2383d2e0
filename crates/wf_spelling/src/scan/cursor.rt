//! What is ahead in bytes that are compared with a canonical text.

ghost use Rattle.std.specs.Prelude.{◌≡◌, ◌+◌, ◌<◌, ◌∷◌, [], true, false, IfNone, IfSome};
ghost use Rattle.wf_block.specs.Spelling.{quoted, braced};
ghost use Rattle.wf_spelling.specs.Scan.{IsAt, Scans};

use crate::line::quote_for;
use std::alloc::Global;

/// A canonical text while it is scanned, piece by piece. That a piece doesn't match is remembered,
/// so only the end is to be tested.
#[derive(Drop)]
pub struct Cursor<'a> {
    alloc: Global,
    /// The bytes ahead.
    rest: &'a [u8],
    /// Whether each piece so far matched.
    matches: bool,
}

impl<'a> Cursor<'a> {
    /// A cursor before the first of these bytes.
    pub fn new(alloc: Global, bytes: &'a [u8]) -> Self
        ensures { IsAt result bytes.now }
    {
        Cursor {
            alloc,
            rest: bytes,
            matches: true,
        }
    }

    /// The allocator for the values that are scanned.
    pub fn alloc(&self) -> Global {
        self.alloc
    }

    /// The number of bytes ahead.
    pub fn len(&self) -> usize {
        self.rest.len()
    }

    /// Whether these bytes are ahead.
    #[inline(always)]
    pub fn is_at(&self, piece: &[u8]) -> bool {
        self.rest.starts_with(piece)
    }

    /// Whether all bytes were scanned, and every piece matched.
    pub fn is_done(&self) -> bool
        ensures { result ≡ true → IsAt self.now [] }
    {
        self.matches && self.rest.is_empty()
    }

    /// Goes past a piece if it is ahead.
    #[inline(always)]
    pub fn skip(&mut self, piece: &[u8]) -> bool
        ensures past { result ≡ true → Scans self.old piece.now self.new }
        ensures unchanged { result ≡ false → Scans self.old [] self.new }
    {
        match self.rest.strip_prefix(piece) {
            Some(rest) => {
                self.rest = rest;
                true
            }
            None => false,
        }
    }

    /// Goes past a piece that must be ahead.
    #[inline(always)]
    pub fn take(&mut self, piece: &[u8])
        ensures { Scans self.old piece.now self.new }
    {
        if !self.skip(piece) {
            self.matches = false;
        }
    }

    /// Goes past a digit if one is ahead, and returns its value.
    #[inline(always)]
    pub fn digit(&mut self) -> Option<u8>
        ensures past { IfSome result (λ digit. Scans self.old ((48 + digit) ∷ []) self.new) }
        ensures value { IfSome result (λ digit. digit < 10) }
        ensures unchanged { IfNone result (Scans self.old [] self.new) }
    {
        match self.rest {
            [byte, rest @ ..] if byte.is_ascii_digit() => {
                let digit = *byte - b'0';
                self.rest = rest;
                Some(digit)
            }
            _ => None,
        }
    }

    /// Goes past a text in its quotes, and returns the text; `None` unless one is ahead, in the
    /// quotes that it has in a canonical text.
    pub fn take_quoted(&mut self) -> Option<&'a [u8]>
        ensures { IfSome result (λ text. Scans self.old (quoted text.now) self.new) }
    {
        let (quote, behind) = self.rest.split_first()?;
        let length = behind.iter().position(|byte| byte == quote)?;
        let (text, closing) = behind.split_at(length);
        if quote_for(text) != *quote {
            return None;
        }
        self.rest = &closing[1..];
        Some(text)
    }

    /// Goes past a list in its braces, and returns its inside; `None` unless one is ahead.
    pub fn take_braced(&mut self) -> Option<&'a [u8]>
        ensures { IfSome result (λ inside. Scans self.old (braced inside.now) self.new) }
    {
        let (opening, behind) = self.rest.split_first()?;
        let length = behind.iter().position(|byte| *byte == b'}')?;
        let (inside, closing) = behind.split_at(length);
        if *opening != b'{' {
            return None;
        }
        self.rest = &closing[1..];
        Some(inside)
    }
}
