//! Whether a history is another one, or that with one more definition.

ghost use Rattle.std.specs.Prelude.{◌≡◌, ◌≤◌, ℕ, IsTrue, Some, length};
ghost use Rattle.wf_learner.specs.History.{with_chosen};
ghost use Rattle.wf_model.specs.DurableState.{definition_at};
ghost use Rattle.wf_node.specs.DurablePart.{definitions_after};

use crate::compaction::slot_of;
use wf_ballot::Slot;
use wf_codec::Canon;
use wf_journal::Record;
use wf_learner::History;

/// Whether the history is the other one with the record's definition, if it is the record of a
/// published one.
pub(crate) fn has_learned(history: &History, other: &History, entry: &Record) -> bool
    ensures { IsTrue result →
        history.now.definitions ≡ definitions_after other.now.definitions entry.now }
{
    match entry {
        Record::Published(slot, canon) => is_followed(history, other, *slot, canon),
        Record::Tried(_) | Record::Promised(_, _) | Record::Accepted(_, _, _) => {
            are_same(history, other)
        }
    }
}

/// Whether the two histories are equal.
#[tactic(auto, using(crate::proofs::Histories::same_where_alike))]
pub(crate) fn are_same(history: &History, other: &History) -> bool
    ensures { IsTrue result → history.now.definitions ≡ other.now.definitions }
{
    history.published() == other.published() && begins_with(history, other)
}

/// Whether the history is the other one, followed by this definition at the slot.
fn is_followed(history: &History, other: &History, slot: Slot, canon: &Canon) -> bool
    ensures { IsTrue result →
        history.now.definitions ≡ with_chosen other.now.definitions slot canon.now }
{
    let next = other.published().number() + 1;
    if slot.number() != next {
        return false;
    }
    let last = history.published().number();
    if last != next {
        return false;
    }
    if !is_at(history, slot, canon) {
        return false;
    }
    begins_with(history, other)
}

/// Whether the history has each definition of the other one, at its sequence.
fn begins_with(history: &History, other: &History) -> bool
    ensures { IsTrue result → (s : ℕ) → 1 ≤ s → s ≤ length other.now.definitions →
        definition_at history.now.definitions s ≡ definition_at other.now.definitions s }
{
    for number in 1..other.published().number() + 1 {
        if !is_same_at(history, other, slot_of(number)) {
            return false;
        }
    }
    true
}

/// Whether both histories have the same definition at the slot.
fn is_same_at(history: &History, other: &History, slot: Slot) -> bool
    ensures { IsTrue result →
        definition_at history.now.definitions slot ≡ definition_at other.now.definitions slot }
{
    match other.canon(slot) {
        Some(canon) => is_at(history, slot, canon),
        None => false,
    }
}

/// Whether the history has this definition at the slot.
fn is_at(history: &History, slot: Slot, canon: &Canon) -> bool
    ensures { IsTrue result → definition_at history.now.definitions slot ≡ Some canon.now }
{
    match history.canon(slot) {
        Some(other) => *other == *canon,
        None => false,
    }
}
