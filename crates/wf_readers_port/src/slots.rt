//! The slots of readers.
ghost use Rattle.std.specs.Prelude.{◌≡◌, List, None, Some, IfOk, IfSome, slice_index_or, slice_set};
ghost use Rattle.wf_readers_port.specs.Exchanges.{AreExchangesOf, Exchange};
ghost use Rattle.wf_readers_port.specs.Readers.{AreReplied};

use crate::reader::Reader;
use std::alloc::{AllocError, Global};
use wf_sockets::Connection;

/// That many free slots.
#[tactic(auto, using(crate::proofs::Replied::none_replied, crate::proofs::Replied::one_more_free))]
pub(crate) fn free_slots<C: Connection + Drop>(
    alloc: Global,
    count: usize,
) -> Result<Vec<Option<Reader<C>>>, AllocError>
    ensures { IfOk result (λ slots. (all : List Exchange)
        → AreReplied C.Connection all slots.items) }
{
    let mut slots: Vec<Option<Reader<C>>> = Vec::new(alloc);
    for _ in 0..count {
        slots.push(None)?;
    }
    Ok(slots)
}

/// Takes what is in a slot.
fn take_one<T: Drop>(slots: &mut Vec<Option<T>>, index: usize) -> Option<T>
    ensures slots { slots.new.items ≡ slice_set slots.old.items index None }
    ensures taken { result ≡ slice_index_or slots.old.items index None }
{
    if index < slots.len() {
        slots[index].take()
    } else {
        None
    }
}

/// Puts something into a slot, in the place of what is there.
fn put_one<T: Drop>(slots: &mut Vec<Option<T>>, index: usize, one: T)
    ensures { slots.new.items ≡ slice_set slots.old.items index (Some one) }
{
    if index < slots.len() {
        slots[index] = Some(one);
    } else {
        drop(one);
    }
}

/// Takes the reader out of a slot.
#[tactic(auto, using(crate::proofs::Replied::left_at, crate::proofs::Replied::taken_at))]
pub(crate) fn take_out<C: Connection + Drop>(
    slots: &mut Vec<Option<Reader<C>>>,
    index: usize,
) -> Option<Reader<C>>
    ensures kept { (all : List Exchange) → AreReplied C.Connection all slots.old.items
        → AreReplied C.Connection all slots.new.items }
    ensures given { (all : List Exchange) → AreReplied C.Connection all slots.old.items
        → IfSome result (λ reader. AreExchangesOf all reader.exchanges.items) }
{
    take_one(slots, index)
}

/// Puts a reader into a slot, in the place of who is there.
#[tactic(auto, using(crate::proofs::Replied::put_at))]
pub(crate) fn put_in<C: Connection + Drop>(
    slots: &mut Vec<Option<Reader<C>>>,
    index: usize,
    reader: Reader<C>,
)
    ensures { (all : List Exchange) → AreReplied C.Connection all slots.old.items
        → AreExchangesOf all reader.exchanges.items
        → AreReplied C.Connection all slots.new.items }
{
    put_one(slots, index, reader);
}

/// The slot for a newcomer: the first free one, else that of the reader that has waited longest.
/// None: there are no slots.
pub(crate) fn slot_index<C: Connection + Drop>(slots: &[Option<Reader<C>>]) -> Option<usize> {
    let mut found: Option<(usize, u64)> = None;
    for (index, slot) in slots.iter().enumerate() {
        let since = match slot {
            Some(reader) => reader.since(),
            None => return Some(index),
        };
        if is_earlier(since, found) {
            found = Some((index, since));
        }
    }
    match found {
        Some((index, _)) => Some(index),
        None => None,
    }
}

/// Whether that is earlier than what was found.
fn is_earlier(since: u64, found: Option<(usize, u64)>) -> bool {
    match found {
        Some((_, earliest)) => since < earliest,
        None => true,
    }
}
