//! Bytes that only proofs read.
ghost use Rattle.std.specs.Prelude.{◌≡◌, ◌++◌, ℕ, List, []};
ghost use Rattle.std.specs.Borrow.{ftrue};

use std::marker::{Model, PhantomData};

/// Bytes that only proofs read: a clause names them `bytes`. It takes no memory, and its calls do
/// nothing.
#[derive(Drop)]
pub struct Trail {
    marker: PhantomData<u8>,
    pub ghost bytes: { List ℕ },
}

impl Model for Trail {
    ghost also_owns = { λ _. ftrue };
}

impl Trail {
    /// No bytes.
    pub fn new() -> Trail
        ensures { result.bytes ≡ [] }
    {
        Trail {
            marker: PhantomData,
        }
    }

    /// Adds bytes behind those that are there.
    pub fn add(&mut self, _bytes: &[u8])
        ensures { self.new.bytes ≡ self.old.bytes ++ _bytes.now }
    {}
}
