//! The calls of a folder, as notes that only proofs read.
ghost use Rattle.std.specs.Prelude.{◌≡◌, [], ◌∷◌, false};
ghost use Rattle.wf_store.specs.Call.{IsAfter, OnlyReads, bytes_of, is_change};

use crate::call_kind::CallKind;
use std::marker::Model;
use wf_past::Past;

/// The calls so far, the latest first. Only proofs read them, and they take no memory.
#[derive(Drop)]
pub struct Calls {
    notes: Past<Option<Vec<u8>>, CallKind>,
}

impl Model for Calls {
    ghost use Rattle.std.specs.Prelude.{List, reverse, map};
    ghost use Rattle.wf_store.specs.Call.{Call, call_of};

    ghost Value = { List Call };

    ghost view = { λ c. reverse (map call_of c.notes.items) };
}

impl Calls {
    /// No call was made yet.
    pub fn new() -> Calls
        ensures { result ≡ [] }
    {
        Calls { notes: Past::new() }
    }

    /// One more call, with the bytes that it read, wrote or was to write.
    pub fn and(&self, kind: CallKind, bytes: &Option<Vec<u8>>) -> Calls
        ensures all { result ≡ record { kind = kind; bytes = bytes_of bytes.now } ∷ self.now }
        ensures after { IsAfter self.now result }
        ensures reads { is_change kind ≡ false → OnlyReads self.now result }
    {
        Calls {
            notes: self.notes.and(bytes, &kind),
        }
    }
}
