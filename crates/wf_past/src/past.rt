//! Lists that only proofs read.
ghost use Rattle.std.specs.Prelude.{◌≡◌, List, [], ◌∷◌, ◌++◌};
ghost use Rattle.std.specs.Borrow.{ftrue};

use std::marker::{Model, PhantomData};

/// A list of pairs that only proofs read: a clause names it `items`.
#[derive(Drop)]
pub struct Past<A, B> {
    of: PhantomData<(A, B)>,
    pub ghost items: { List (A × B) },
}

impl<A, B> Model for Past<A, B> {
    ghost also_owns = { λ _. ftrue };
}

// It owns nothing.
unsafe impl<A: Send, B: Send> Send for Past<A, B> {}

impl<A, B> Past<A, B> {
    /// An empty list.
    pub fn new() -> Past<A, B>
        ensures { result.items ≡ [] }
    {
        Past { of: PhantomData }
    }

    /// The list with this pair at its end.
    pub fn and(&self, first: &A, second: &B) -> Past<A, B>
        ensures { result.items ≡ self.now.items ++ (first.now, second.now) ∷ [] }
    {
        Past { of: PhantomData }
    }
}
