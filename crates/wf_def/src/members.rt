//! Lists whose members are within their limits: of styles, classes, points, parts and features.
ghost use Rattle.std.specs.Prelude.{◌≡◌, ◌<◌, ◌≤◌, ◌↔◌, [], ◌∷◌, ◌++◌, length, All, IsTrue, IfOk, OnOk, OnErr};
ghost use Rattle.std.specs.Bool.{Decides};
ghost use Rattle.std.specs.Cmp.{partial_equiv_from_equiv};
ghost use Rattle.std.specs.Cmp.Lexicographic.{pointwise, lists_equiv};
ghost use Rattle.wf_def.specs.Held.{held_members};

use crate::held::Held;
use std::alloc::{AllocError, Global};
use std::marker::Model;

/// What such a list may contain: a value with limits of its own.
pub trait Limited: Clone + Eq {
    /// The limits: what holds of each value.
    ghost IsWithin: { Self → Type 0 };

    /// Makes it known to the prover that a value is within its limits.
    fn know(&self)
        ensures { IsWithin self.now };

    /// A copy equals the value.
    ghost copies: { (value copy : Self) → Self.is_clone value copy → copy ≡ value };

    /// Values that compare equal are the same.
    ghost decides: { (a b : Self) → Decides (Self.PartialEq.eq a b) (a ≡ b) };
}

/// Members in order, limited only by memory: points, parts and features are counted over a whole
/// map.
pub struct Members<T: Limited> {
    alloc: Global,
    held: Held<T>,
}

// Written by hand: callers then prove one call where they drop the members, not one for each.
impl<T: Limited + Drop> Drop for Members<T> {
    fn drop(self) {
        let Members { alloc: _, held } = self;
        drop(held);
    }
}

impl<T: Limited> Model for Members<T> {
    ghost use Rattle.std.specs.Prelude.{List, All};

    ghost Value = { List T };

    ghost use Rattle.wf_def.specs.Held.{held_members};

    ghost view = { λ m. held_members m.held };

    ghost invariant = { λ m. All T.IsWithin (held_members m.held) };
}

impl<T: Limited> Members<T> {
    /// An empty list.
    pub fn new(alloc: Global) -> Self
        ensures { result ≡ [] }
    {
        Members {
            alloc,
            held: Held::Nothing,
        }
    }

    /// The number of members.
    pub fn len(&self) -> usize
        ensures value { result ≡ length self.now }
        ensures within { All T.IsWithin self.now }
    {
        self.held.as_slice().len()
    }

    /// Whether the list is empty.
    pub fn is_empty(&self) -> bool
        ensures { IsTrue result ↔ (length self.now ≡ 0) }
    {
        self.held.as_slice().is_empty()
    }

    /// The members in order.
    pub fn as_slice(&self) -> &[T]
        ensures value { result.now ≡ self.now }
        ensures within { All T.IsWithin self.now }
    {
        self.held.as_slice()
    }
}

impl<T: Limited + Drop> Members<T> {
    /// Appends a member. After allocation failure the list is unchanged.
    #[inline]
    pub fn push(&mut self, member: T) -> Result<(), AllocError>
        ensures pushed { OnOk result (self.new ≡ self.old ++ member ∷ []) }
        ensures unchanged { OnErr result (self.new ≡ self.old) }
    {
        member.know();
        self.held.push(self.alloc, member)
    }

    /// Gives back the memory that the members don't need, if no more will come.
    pub fn shrink_to_fit(&mut self)
        ensures { self.new ≡ self.old }
    {
        self.held.shrink_to_fit();
    }
}

impl<T: Limited + Drop> Clone for Members<T> {
    ghost is_clone = { λ members copy. copy ≡ members };

    fn clone(&self) -> Result<Self, AllocError> {
        Ok(Members {
            alloc: self.alloc,
            held: copy_list(&self.held)?,
        })
    }
}

/// A copy of the members, each of which is within its limits.
fn copy_list<T: Limited + Drop>(held: &Held<T>) -> Result<Held<T>, AllocError>
    ensures { IfOk result (λ copy. held_members copy ≡ held_members held.now) }
{
    match held {
        Held::Nothing => Ok(Held::Nothing),
        Held::One([member]) => Ok(Held::One([member.clone()?])),
        Held::Many(members) => Ok(Held::Many(members.clone()?)),
    }
}

impl<T: Limited> PartialEq for Members<T> {
    ghost eq = { pointwise T.PartialEq.eq };

    ghost laws = { partial_equiv_from_equiv (lists_equiv T.Eq.laws) };

    fn eq(&self, other: &Self) -> bool
        ensures test { result ≡ pointwise T.PartialEq.eq self.now other.now }
        ensures equal { IsTrue result ↔ (self.now ≡ other.now) }
    {
        self.as_slice() == other.as_slice()
    }
}

impl<T: Limited> Eq for Members<T> {
    ghost laws = { lists_equiv T.Eq.laws };
}

impl<T: Limited + Drop> Limited for Members<T> {
    ghost use Rattle.std.specs.Prelude.{All};
    ghost use Rattle.std.specs.Cmp.Lexicographic.{pointwise_decides};

    ghost IsWithin = { All T.IsWithin };

    fn know(&self) {
        let _ = self.as_slice();
    }

    ghost copies = { λ _ _ same. same };

    ghost decides = { pointwise_decides T.decides };
}

/// Members in order, at most `MOST`: a class's styles, a layer's classes.
pub struct Capped<T: Limited, const MOST: usize> {
    members: Members<T>,
}

impl<T: Limited + Drop, const MOST: usize> Drop for Capped<T, MOST> {
    fn drop(self) {
        let Capped { members } = self;
        drop(members);
    }
}

impl<T: Limited, const MOST: usize> Model for Capped<T, MOST> {
    ghost use Rattle.std.specs.Prelude.{List, length, ◌≤◌};

    ghost Value = { List T };

    ghost view = { λ m. m.members };

    ghost invariant = { λ m. length m.members ≤ MOST };
}

impl<T: Limited, const MOST: usize> Capped<T, MOST> {
    /// An empty list.
    pub fn new(alloc: Global) -> Self
        ensures { result ≡ [] }
    {
        Capped {
            members: Members::new(alloc),
        }
    }

    /// Whether there is no room for another.
    pub fn is_full(&self) -> bool
        ensures full { IsTrue result ↔ (length self.now ≡ MOST) }
        ensures most { length self.now ≤ MOST }
        ensures within { All T.IsWithin self.now }
    {
        self.members.len() >= MOST
    }

    /// The members in order.
    pub fn as_slice(&self) -> &[T]
        ensures value { result.now ≡ self.now }
        ensures most { length self.now ≤ MOST }
        ensures within { All T.IsWithin self.now }
    {
        self.members.as_slice()
    }
}

impl<T: Limited + Drop, const MOST: usize> Capped<T, MOST> {
    /// Appends a member. After allocation failure the list is unchanged.
    pub fn push(&mut self, member: T) -> Result<(), AllocError>
        requires { length self.old < MOST }
        ensures pushed { OnOk result (self.new ≡ self.old ++ member ∷ []) }
        ensures unchanged { OnErr result (self.new ≡ self.old) }
    {
        self.members.push(member)
    }
}

impl<T: Limited + Drop, const MOST: usize> Clone for Capped<T, MOST> {
    ghost is_clone = { λ members copy. copy ≡ members };

    fn clone(&self) -> Result<Self, AllocError> {
        Ok(Capped {
            members: self.members.clone()?,
        })
    }
}
