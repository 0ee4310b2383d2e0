//! Where an error is that has no offset of its own.
ghost use Rattle.std.specs.Prelude.{◌≡◌, ◌+◌, ◌++◌, ◌<◌, ◌≤◌, ◌⊎◌, IfNone, IfOk, IfSome, false, length, true};
ghost use Rattle.std.specs.List.{suffix_len};
ghost use Rattle.wf_check.specs.Finding.{IsBoundary, IsLastBlock, IsSound, IsSoundTo, NoneBegins, StopsFrom, begins_block, begins_with, ends_item, is_blank};

use crate::fault::CheckFault;
use crate::line::is_feed;
use std::alloc::{AllocError, Global};
use wf_block::is_name;
use wf_mapfile::{MapFault, read};
use wf_spelling::{MOST_CANON_BYTES, text_length};

/// The place of M9, M11 and K1. Up to a LAYER the file, closed, is a map, for K1 one that a farm
/// publishes, and up to the next LAYER it isn't; the place is that LAYER, or likewise the last
/// CLASS or FEATURE in it. It is the front of the file if there is no such LAYER. The file is read
/// a number of times that is logarithmic in its length.
#[tactic(auto, using(crate::proofs::Places::past_end, crate::proofs::Places::last_block))]
pub(crate) fn last_block(
    alloc: Global,
    fault: CheckFault,
    bytes: &[u8],
) -> Result<usize, AllocError>
    ensures { IfOk result (IsLastBlock fault bytes.now) }
{
    let end = bytes.len() + 1;
    let layer = boundary(alloc, false, fault, bytes, 0, end)?;
    match first_block(false, bytes, layer + 1, end) {
        Some(next) => boundary(alloc, true, fault, bytes, layer, next),
        None => boundary(alloc, true, fault, bytes, layer, end),
    }
}

/// The last block from an offset up to another, at a LAYER or at any, up to which the file is
/// sound, by a binary search.
#[tactic(auto, using(crate::proofs::Places::no_block, crate::proofs::Places::block_here, crate::proofs::Places::block_stops, crate::proofs::Places::found))]
fn boundary(
    alloc: Global,
    all: bool,
    fault: CheckFault,
    bytes: &[u8],
    from: usize,
    to: usize,
) -> Result<usize, AllocError>
    requires order { from < to }
    requires within { to ≤ length bytes.now + 1 }
    requires stops { StopsFrom all fault bytes.now to }
    ensures boundary { IfOk result (IsBoundary all fault bytes.now from) }
    ensures before { IfOk result (λ offset. offset < to) }
{
    let mut last = from;
    let mut stop = to;
    while stop - last > 1 {
        let middle = last + (stop - last) / 2;
        match first_block(all, bytes, middle, stop) {
            Some(block) if is_sound_to(alloc, fault, bytes, block)? => last = block,
            _ => stop = middle,
        }
    }
    Ok(last)
}

/// The first LAYER, or block of any kind, from an offset up to another.
fn first_block(all: bool, bytes: &[u8], from: usize, to: usize) -> Option<usize>
    requires { to ≤ length bytes.now + 1 }
    ensures block { IfSome result (λ block. begins_block all bytes.now block ≡ true) }
    ensures from { IfSome result (λ block. from ≤ block) }
    ensures to { IfSome result (λ block. block < to) }
    ensures first { IfSome result (NoneBegins all bytes.now from) }
    ensures none { IfNone result (NoneBegins all bytes.now from to) }
{
    let mut offset = from;
    while offset < to {
        if begins_block(all, bytes, offset) {
            return Some(offset);
        }
        offset += 1;
    }
    None
}

/// Whether LAYER is at an offset, at the front of a line or behind END; or, of all blocks, CLASS or
/// FEATURE.
#[tactic(auto, unfolding(crate::specs::Finding::begins_block))]
fn begins_block(all: bool, bytes: &[u8], offset: usize) -> bool
    requires { offset ≤ length bytes.now }
    ensures { result ≡ begins_block all bytes.now offset }
{
    let (before, word) = bytes.split_at(offset);
    (begins_with("LAYER", word)
        || all && (begins_with("CLASS", word) || begins_with("FEATURE", word)))
        && ends_item(before)
}

/// Whether a word is at the front, without regard to ASCII letter case, with white space behind it.
#[tactic(auto, unfolding(crate::specs::Finding::begins_with))]
fn begins_with(word: &str, bytes: &[u8]) -> bool
    ensures { result ≡ begins_with word.now bytes.now }
{
    let end = word.len();
    end < bytes.len()
        && (is_blank(bytes[end]) || is_feed(bytes[end]))
        && is_name(bytes.split_at(end).0, word)
}

/// Whether, but for blanks, the bytes end at their front, at a line feed or at END.
#[tactic(auto, unfolding(crate::specs::Finding::ends_item))]
fn ends_item(before: &[u8]) -> bool
    ensures { result ≡ ends_item before.now }
{
    let kept = before.split_at(before.len() - blanks(before)).0;
    let count = kept.len();
    count == 0
        || is_feed(kept[count - 1])
        || is_name(kept.split_at(count.saturating_sub(3)).1, "END")
}

/// The number of blanks at the end.
fn blanks(before: &[u8]) -> usize
    ensures value { result ≡ suffix_len is_blank before.now }
    ensures most { result ≤ length before.now }
{
    before
        .iter()
        .rev()
        .take_while(|byte| is_blank(**byte))
        .count()
}

#[tactic(auto, unfolding(crate::specs::Finding::is_blank))]
fn is_blank(byte: u8) -> bool
    ensures { result ≡ is_blank byte }
{
    byte == b' ' || byte == b'\t' || byte == b'\r'
}

/// Whether the bytes up to an offset are sound with one END or two, behind `*/` where a comment is
/// open.
fn is_sound_to(
    alloc: Global,
    fault: CheckFault,
    bytes: &[u8],
    offset: usize,
) -> Result<bool, AllocError>
    requires { offset ≤ length bytes.now }
    ensures yes { IfOk result (λ is. is ≡ true → IsSoundTo fault bytes.now offset) }
    ensures no { IfOk result (λ is. is ≡ false → ¬ (IsSoundTo fault bytes.now offset)) }
{
    let before = bytes.split_at(offset).0;
    Ok(
        is_sound_with(alloc, fault, before, "\nEND", "\nEND\nEND")?
            || is_sound_with(alloc, fault, before, "*/\nEND", "*/\nEND\nEND")?,
    )
}

/// Whether bytes are sound with one of these behind them.
fn is_sound_with(
    alloc: Global,
    fault: CheckFault,
    bytes: &[u8],
    one: &str,
    other: &str,
) -> Result<bool, AllocError>
    ensures yes { IfOk result (λ is. is ≡ true →
        IsSound fault (bytes.now ++ one.now) ⊎ IsSound fault (bytes.now ++ other.now)) }
    ensures no { IfOk result (λ is. is ≡ false →
        ¬ (IsSound fault (bytes.now ++ one.now) ⊎ IsSound fault (bytes.now ++ other.now))) }
{
    Ok(is_sound_behind(alloc, fault, bytes, one)? || is_sound_behind(alloc, fault, bytes, other)?)
}

/// Whether bytes are sound with these behind them.
fn is_sound_behind(
    alloc: Global,
    fault: CheckFault,
    bytes: &[u8],
    ends: &str,
) -> Result<bool, AllocError>
    ensures yes { IfOk result (λ is. is ≡ true → IsSound fault (bytes.now ++ ends.now)) }
    ensures no { IfOk result (λ is. is ≡ false → ¬ (IsSound fault (bytes.now ++ ends.now))) }
{
    let mut text = Vec::new(alloc);
    text.extend_from_slice(bytes)?;
    text.extend_from_slice(ends.as_bytes())?;
    let is = is_sound(alloc, fault, text.as_slice());
    drop(text);
    is
}

/// Whether bytes are a map, for K1 one that a farm publishes.
fn is_sound(alloc: Global, fault: CheckFault, bytes: &[u8]) -> Result<bool, AllocError>
    ensures yes { IfOk result (λ is. is ≡ true → IsSound fault bytes.now) }
    ensures no { IfOk result (λ is. is ≡ false → ¬ (IsSound fault bytes.now)) }
{
    match read(alloc, bytes) {
        Ok(map) => {
            let length = text_length(alloc, &map);
            drop(map);
            match fault {
                CheckFault::Map(_) => Ok(true),
                CheckFault::TooBig => Ok(length <= MOST_CANON_BYTES),
            }
        }
        Err(MapFault::Memory) => Err(AllocError),
        Err(_) => Ok(false),
    }
}
