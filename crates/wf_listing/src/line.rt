//! The lines of a listing.
ghost use Rattle.std.specs.Prelude.{OnOk};
ghost use Rattle.wf_listing.specs.Listing.{Prints, accepted_line, left_line, promised_line, published_line, record_line, rest_line, tried_line};
ghost use Rattle.wf_journal.specs.Record.{view};

use std::alloc::AllocError;
use std::fmt::Write;
use wf_ballot::{Ballot, Round, Slot};
use wf_journal::Record;

/// What follows the whole records of a tape.
#[derive(Clone, Copy)]
pub enum Rest {
    /// Nothing.
    Nothing,
    /// The beginning of a record: what a crash may leave.
    Torn,
    /// Bytes that are neither a record nor the beginning of one.
    Bad,
}

/// Appends the line of the record at a byte offset.
pub(crate) fn push_record(out: &mut String, offset: usize, entry: &Record) -> Result<(), AllocError>
    ensures { OnOk result (Prints out.old out.new (record_line offset (view entry.now))) }
{
    match entry {
        Record::Tried(round) => push_tried(out, offset, *round),
        Record::Promised(slot, ballot) => push_promised(out, offset, *slot, *ballot),
        Record::Accepted(slot, ballot, canon) => {
            push_accepted(out, offset, *slot, *ballot, canon.text().len())
        }
        Record::Published(slot, canon) => push_published(out, offset, *slot, canon.text().len()),
    }
}

// One function for each kind: a line alone is proved in less time.
fn push_tried(out: &mut String, offset: usize, round: Round) -> Result<(), AllocError>
    ensures { OnOk result (Prints out.old out.new (tried_line offset round)) }
{
    writeln!(out, "{offset} tried {round}")
}

fn push_promised(
    out: &mut String,
    offset: usize,
    slot: Slot,
    ballot: Ballot,
) -> Result<(), AllocError>
    ensures { OnOk result (Prints out.old out.new (promised_line offset slot ballot)) }
{
    writeln!(out, "{offset} promised {slot} ballot {ballot}")
}

fn push_accepted(
    out: &mut String,
    offset: usize,
    slot: Slot,
    ballot: Ballot,
    length: usize,
) -> Result<(), AllocError>
    ensures { OnOk result (Prints out.old out.new (accepted_line offset slot ballot length)) }
{
    writeln!(
        out,
        "{offset} accepted {slot} ballot {ballot} text {length}"
    )
}

fn push_published(
    out: &mut String,
    offset: usize,
    slot: Slot,
    length: usize,
) -> Result<(), AllocError>
    ensures { OnOk result (Prints out.old out.new (published_line offset slot length)) }
{
    writeln!(out, "{offset} published {slot} text {length}")
}

/// Appends the line of what follows the records: it begins at a byte offset and has that many
/// bytes.
pub(crate) fn push_rest(
    out: &mut String,
    offset: usize,
    count: usize,
    rest: Rest,
) -> Result<(), AllocError>
    ensures { OnOk result (Prints out.old out.new (rest_line offset count rest)) }
{
    match rest {
        Rest::Nothing => writeln!(out, "{offset} end"),
        Rest::Torn => push_left(out, offset, "torn record", count),
        Rest::Bad => push_left(out, offset, "P2 bad record", count),
    }
}

fn push_left(out: &mut String, offset: usize, words: &str, count: usize) -> Result<(), AllocError>
    ensures { OnOk result (Prints out.old out.new (left_line offset words.now count)) }
{
    writeln!(out, "{offset} {words}, {count} bytes")
}
