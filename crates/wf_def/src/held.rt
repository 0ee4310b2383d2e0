//! How the members of a list are held in memory.
ghost use Rattle.std.specs.Prelude.{◌≡◌, ◌∷◌, [], ◌++◌, IfOk, IfErr, OnOk, OnErr};
ghost use Rattle.wf_def.specs.Held.{held_members};

use std::alloc::{AllocError, Global};
use std::mem::replace;

/// The room for members with which a list begins that has more than one.
const FIRST_ROOM: usize = 4;

/// The members of a list. A single one is held in place: most shapes have one part, and a marker's
/// part has one point, so most of these lists need no memory of their own.
#[derive(Drop)]
pub(crate) enum Held<T> {
    Nothing,
    One([T; 1]),
    Many(Vec<T>),
}

impl<T> Held<T> {
    /// The members in order.
    #[inline]
    pub(crate) fn as_slice(&self) -> &[T]
        ensures { result.now ≡ held_members self.now }
    {
        match self {
            Held::Nothing => &[],
            Held::One(single) => single,
            Held::Many(members) => members.as_slice(),
        }
    }
}

impl<T: Drop> Held<T> {
    /// Appends a member. After allocation failure the members are as before.
    #[inline]
    pub(crate) fn push(&mut self, alloc: Global, member: T) -> Result<(), AllocError>
        ensures pushed { OnOk result
            (held_members self.new ≡ held_members self.old ++ member ∷ []) }
        ensures unchanged { OnErr result (held_members self.new ≡ held_members self.old) }
    {
        match self {
            Held::Many(members) => push_to(members, member),
            _ => self.push_anew(alloc, member),
        }
    }

    /// Appends a member to members that are taken out and put back: right for all, meant for those
    /// that have no memory of their own.
    #[inline]
    fn push_anew(&mut self, alloc: Global, member: T) -> Result<(), AllocError>
        ensures pushed { OnOk result
            (held_members self.new ≡ held_members self.old ++ member ∷ []) }
        ensures unchanged { OnErr result (held_members self.new ≡ held_members self.old) }
    {
        match replace(self, Held::Nothing) {
            Held::Nothing => {
                *self = Held::One([member]);
                Ok(())
            }
            Held::One([first]) => match both(alloc, first, member) {
                Ok(members) => {
                    *self = Held::Many(members);
                    Ok(())
                }
                Err(first) => {
                    *self = Held::One([first]);
                    Err(AllocError)
                }
            },
            Held::Many(members) => {
                let mut members = members;
                let is_pushed = push_to(&mut members, member);
                *self = Held::Many(members);
                is_pushed
            }
        }
    }

    /// Gives back the memory that the members don't need.
    pub(crate) fn shrink_to_fit(&mut self)
        ensures { held_members self.new ≡ held_members self.old }
    {
        if let Held::Many(members) = self {
            members.shrink_to_fit();
        }
    }
}

/// Appends a member to a list in memory of its own.
fn push_to<T: Drop>(members: &mut Vec<T>, member: T) -> Result<(), AllocError>
    ensures pushed { OnOk result (members.new.items ≡ members.old.items ++ member ∷ []) }
    ensures unchanged { OnErr result (members.new.items ≡ members.old.items) }
{
    members.push(member)?;
    Ok(())
}

/// A list of two members in memory of its own. Allocation failure returns the first.
fn both<T: Drop>(alloc: Global, first: T, second: T) -> Result<Vec<T>, T>
    ensures pushed { IfOk result (λ members. members.items ≡ first ∷ second ∷ []) }
    ensures returned { IfErr result (λ returned. returned ≡ first) }
{
    match Vec::with_capacity(alloc, FIRST_ROOM) {
        Ok(room) => {
            let mut members = room;
            members.push_reserved(first);
            members.push_reserved(second);
            Ok(members)
        }
        Err(AllocError) => {
            drop(second);
            Err(first)
        }
    }
}
