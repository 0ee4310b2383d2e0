//! Equality of records.

ghost use Rattle.std.specs.Prelude.{◌≡◌, ◌↔◌, IsTrue};
ghost use Rattle.wf_journal.specs.declared.record.Record.TheVariants.{Tried, Promised, Accepted, Published};

use wf_ballot::{Ballot, Round, Slot};
use wf_codec::Canon;
use wf_journal::Record;

/// Whether the two records are equal.
pub fn is_same_record(a: &Record, b: &Record) -> bool
    ensures { IsTrue result ↔ (a.now ≡ b.now) }
{
    match a {
        Record::Tried(round) => is_tried(b, *round),
        Record::Promised(slot, ballot) => is_promised(b, *slot, *ballot),
        Record::Accepted(slot, ballot, canon) => is_accepted(b, *slot, *ballot, canon),
        Record::Published(slot, canon) => is_published(b, *slot, canon),
    }
}

/// Whether it is the record that the round was tried.
fn is_tried(entry: &Record, round: Round) -> bool
    ensures { IsTrue result ↔ (Tried round ≡ entry.now) }
{
    match entry {
        Record::Tried(other) => round == *other,
        _ => false,
    }
}

/// Whether it is the record of a promise of the ballot at the slot.
fn is_promised(entry: &Record, slot: Slot, ballot: Ballot) -> bool
    ensures { IsTrue result ↔ (Promised slot ballot ≡ entry.now) }
{
    match entry {
        Record::Promised(other, another) => slot == *other && ballot == *another,
        _ => false,
    }
}

/// Whether it is the record of a vote for the definition at the slot and the ballot.
fn is_accepted(entry: &Record, slot: Slot, ballot: Ballot, canon: &Canon) -> bool
    ensures { IsTrue result ↔ (Accepted slot ballot canon.now ≡ entry.now) }
{
    match entry {
        Record::Accepted(other, another, third) => {
            slot == *other && ballot == *another && is_same(canon, third)
        }
        _ => false,
    }
}

/// Whether it is the record that the definition is published at the slot.
fn is_published(entry: &Record, slot: Slot, canon: &Canon) -> bool
    ensures { IsTrue result ↔ (Published slot canon.now ≡ entry.now) }
{
    match entry {
        Record::Published(other, another) => slot == *other && is_same(canon, another),
        _ => false,
    }
}

/// Whether the two definitions are equal.
pub fn is_same(a: &Canon, b: &Canon) -> bool
    ensures { IsTrue result ↔ (a.now ≡ b.now) }
{
    *a == *b
}
