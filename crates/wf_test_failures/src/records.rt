//! Copies of records, and the listing of many.
use crate::values::{MAP_A, TRIED, round, slot};
use std::alloc::{AllocError, Global};
use wf_ballot::{Ballot, NodeId};
use wf_journal::Record;
use wf_listing::list;
use wf_test_calls::canon_of;
use wf_test_table::{Answered, CaseInput, CaseWords, Transcript, Unanswered};

/// Appends that a copy of the record is made. It isn't used any more.
fn write_copy(kind: &str, record: Record, answer: &mut Transcript) -> Result<(), AllocError> {
    let made = match record.copy() {
        Ok(copy) => {
            drop(copy);
            answer.line(kind);
            Ok(())
        }
        Err(_) => Err(AllocError),
    };
    drop(record);
    made
}

/// The highest ballot of round 7.
fn ballot() -> Result<Ballot, Unanswered> {
    let Some(node) = NodeId::new(63) else {
        return Err(Unanswered::BadWords);
    };
    match Ballot::new(7, node) {
        Some(ballot) => Ok(ballot),
        None => Err(Unanswered::BadWords),
    }
}

/// `copied`: of a copy its contract says what it is, but not that one is made.
pub(crate) fn copied(asked: CaseInput<'_>, answer: &mut Transcript) -> Answered {
    let (slot, ballot) = (slot(4096)?, ballot()?);
    write_copy("tried", Record::Tried(round(4_294_967_295)?), answer)?;
    write_copy("promised", Record::Promised(slot, ballot), answer)?;
    let canon = canon_of(asked.alloc, MAP_A)?;
    write_copy("accepted", Record::Accepted(slot, ballot, canon), answer)?;
    let canon = canon_of(asked.alloc, MAP_A)?;
    write_copy("published", Record::Published(slot, canon), answer)?;
    Ok(())
}

/// The bytes of so many Tried records of round 1.
fn tape(alloc: Global, count: usize) -> Result<Vec<u8>, AllocError> {
    let mut bytes = Vec::new(alloc);
    for _ in 0..count {
        if bytes.extend_from_slice(TRIED).is_err() {
            drop(bytes);
            return Err(AllocError);
        }
    }
    Ok(bytes)
}

/// What their listing has to be: a line for each, which begins with its offset, and the line of the
/// end.
fn listing(alloc: Global, count: usize) -> Transcript {
    let mut lines = Transcript::new(alloc);
    let mut offset = 0usize;
    for _ in 0..count {
        lines.count(offset);
        lines.line(" tried 1");
        offset = offset.saturating_add(TRIED.len());
    }
    lines.count(offset);
    lines.line(" end");
    lines
}

/// Appends whether the listing of the tape is this one.
fn write_whether_listed(
    alloc: Global,
    bytes: &[u8],
    lines: &Transcript,
    answer: &mut Transcript,
) -> Answered {
    let expected = lines.finished_text()?;
    match list(alloc, bytes) {
        Ok(text) => {
            answer.line(if text.as_bytes() == expected {
                "a line for each record, and the last line"
            } else {
                "another listing"
            });
            drop(text);
            Ok(())
        }
        Err(_) => Err(Unanswered::Memory),
    }
}

/// `listed`: the listing of a long tape.
pub(crate) fn listed(asked: CaseInput<'_>, answer: &mut Transcript) -> Answered {
    let count = CaseWords::of(asked.input)?.count()?;
    let bytes = tape(asked.alloc, count)?;
    let lines = listing(asked.alloc, count);
    let written = write_whether_listed(asked.alloc, &bytes, &lines, answer);
    drop(lines);
    drop(bytes);
    written
}
