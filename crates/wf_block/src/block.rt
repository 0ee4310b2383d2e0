//! Blocks: keywords with their arguments, up to END.
ghost use Rattle.std.specs.Prelude.{◌≡◌, length, OnOk, Some};
ghost use Rattle.wf_block.specs.ReadContract.{Gives};
ghost use Rattle.wf_block.specs.Steps.{fill};

use crate::fault::MapFault;
use crate::keyword::is_end;
use crate::parser::Parser;
use crate::place::Block;
use crate::token::Token;
use std::mem::replace;

/// A block while it is read: what its keywords have set so far, within their limits.
pub trait Slots {
    ghost use Rattle.std.specs.Prelude.{◌≡◌, ℕ, List, Option, OnOk};
    ghost use Rattle.wf_block.specs.Token.{Token};
    ghost use Rattle.wf_block.specs.ReadContract.{Gives};

    // The slots' value, in the terms of the block's definition.
    ghost Settings: { Type 0 };

    ghost settings: { Self → Settings };

    // What limits the block from outside, such as the layers before a layer; nothing for most.
    ghost Within: { Type 0 };

    ghost within: { Self → Within };

    // The definition of the block: the slots after a keyword.
    ghost put: { Within → Settings → List ℕ → List Token → Option (Settings × List Token) };

    // What holds of the block besides its slots.
    ghost Holds: { Self → Type 0 } = { λ _. Unit {0} };

    /// Reads a keyword's arguments and stores them.
    fn take(&mut self, keyword: Token<'_>, parser: &mut Parser<'_>) -> Result<(), MapFault>
        requires holds { Holds self.old }
        ensures read { Gives (λ _. (settings self.new, parser.new)) result
            (put (within self.old) (settings self.old) keyword.entry.text.now parser.old) }
        ensures within { OnOk result (within self.new ≡ within self.old) }
        ensures holds { OnOk result (Holds self.new) };
}

/// Reads keywords up to the END of a block of this kind and stores their arguments.
pub fn fill_block<S: Slots>(
    parser: &mut Parser<'_>,
    block: Block,
    slots: &mut S,
) -> Result<(), MapFault>
    requires holds { S.Holds slots.old }
    ensures read { Gives (λ _. (S.settings slots.new, parser.new)) result
        (fill (S.put (S.within slots.old)) (length parser.old) (S.settings slots.old) parser.old) }
    ensures within { OnOk result (S.within slots.new ≡ S.within slots.old) }
    ensures holds { OnOk result (S.Holds slots.new) }
{
    let outer = parser.enter(block);
    fill_keywords(parser, slots)?;
    parser.leave(outer);
    Ok(())
}

/// Reads keywords up to the block's END and stores their arguments.
#[tactic(auto, using(crate::proofs::Blocks::fill_step, crate::proofs::Blocks::fill_past))]
fn fill_keywords<S: Slots>(parser: &mut Parser<'_>, slots: &mut S) -> Result<(), MapFault>
    requires holds { S.Holds slots.old }
    ensures read { Gives (λ _. (S.settings slots.new, parser.new)) result
        (fill (S.put (S.within slots.old)) (length parser.old) (S.settings slots.old) parser.old) }
    ensures within { OnOk result (S.within slots.new ≡ S.within slots.old) }
    ensures holds { OnOk result (S.Holds slots.new) }
{
    for _ in 0..parser.len() {
        let word = parser.keyword()?;
        if is_end(word.text) {
            return Ok(());
        }
        slots.take(word, parser)?;
    }
    Err(parser.missing_end())
}

/// Stores a keyword's value.
pub fn keep<T: Drop>(slot: &mut Option<T>, settings: T)
    ensures { slot.new ≡ Some settings }
{
    drop(replace(slot, Some(settings)));
}

/// Reads the arguments of a keyword that comes at most once, and stores them, or what a function
/// makes of them, in its slot. A macro, since two exits by `?` are six calls to prove wherever they
/// stand.
#[macro_export]
macro_rules! once {
    ($slot:expr, $byte_offset:expr, $read:expr) => {
        $crate::once!($slot, $byte_offset, $read, settings => settings)
    };
    ($slot:expr, $byte_offset:expr, $read:expr, $settings:pat => $kept:expr) => {
        if $slot.is_some() {
            return Err($crate::MapFault::Repeated($byte_offset));
        }
        match $read {
            Ok($settings) => $crate::keep(&mut $slot, $kept),
            Err(fault) => return Err(fault),
        }
    };
}
