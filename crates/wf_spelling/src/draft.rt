//! A canonical text while it is written.

ghost use Rattle.std.specs.Prelude.{◌≡◌, ◌≤◌, ◌+◌, ◌++◌, ℕ, List, [], nat_lt, true, IfOk, IsOk, is_ok, length, vec_len, vec_capacity, if◌then◌else◌};
ghost use Rattle.wf_spelling.specs.Canon.{most_canon_bytes};
ghost use Rattle.wf_spelling.specs.Draft.{HasRoomForBytes, IsDraftOf, Writes};

use crate::text::MOST_CANON_BYTES;
use std::alloc::{AllocError, Global};

/// A canonical text while it is written, piece by piece. Its length is counted even if allocation
/// fails for its bytes, so a text over the limit is distinguished from an allocation failure.
#[derive(Drop)]
pub struct Draft {
    text: Vec<u8>,
    /// The number of bytes written, up to 2^64 - 1.
    length: usize,
    /// Whether `text` holds all of them.
    is_whole: bool,
}

impl Draft {
    /// The empty text, with room for that many bytes if there is memory for them.
    pub fn with_room(alloc: Global, room: usize) -> Self
        ensures { IsDraftOf result [] }
    {
        let text = match Vec::with_capacity(alloc, room) {
            Ok(text) => text,
            Err(_) => Vec::new(alloc),
        };
        Draft {
            text,
            length: 0,
            is_whole: true,
        }
    }

    /// The empty text, of which only the length is counted.
    pub fn counting(alloc: Global) -> Self
        ensures { IsDraftOf result [] }
    {
        Draft {
            text: Vec::new(alloc),
            length: 0,
            is_whole: false,
        }
    }

    /// Appends bytes. Allocation can fail only if the text must grow for them.
    pub fn push(&mut self, bytes: &[u8])
        ensures bytes { Writes self.old bytes.now self.new }
        ensures room { self.old.is_whole ≡ true → HasRoomForBytes bytes.now self.old →
            self.new.is_whole ≡ true }
    {
        self.length = self.length.saturating_add(bytes.len());
        if self.length > MOST_CANON_BYTES {
            self.is_whole = false;
            return;
        }
        if self.is_whole && append(&mut self.text, bytes).is_err() {
            self.is_whole = false;
        }
    }

    /// The number of bytes written, up to 2^64 - 1.
    pub fn length(&self) -> usize
        ensures { result ≡ self.now.length }
    {
        self.length
    }

    /// Whether the text is over the limit.
    pub fn is_too_long(&self) -> bool
        ensures { result ≡ nat_lt most_canon_bytes self.now.length }
    {
        self.length > MOST_CANON_BYTES
    }

    /// The text, unless an allocation failed.
    pub fn finish(self) -> Result<Vec<u8>, AllocError>
        requires { self.length ≤ most_canon_bytes }
        ensures { (text : List ℕ) → IsDraftOf self text →
            IfOk result (λ whole. whole.items ≡ text) }
    {
        if self.is_whole {
            Ok(self.text)
        } else {
            Err(AllocError)
        }
    }
}

/// Appends bytes; most pieces are one byte, a space, a quote or an LF, which needs no call that
/// copies.
fn append(text: &mut Vec<u8>, bytes: &[u8]) -> Result<(), AllocError>
    ensures items { text.new.items ≡
        (if is_ok result then text.old.items ++ bytes.now else text.old.items) }
    ensures succeeds { vec_len text.old + length bytes.now ≤ vec_capacity text.old → IsOk result }
{
    match bytes {
        [byte] => {
            text.push(*byte)?;
            Ok(())
        }
        _ => text.extend_from_slice(bytes),
    }
}
