//! Journals and nodes over a disk in memory, whose power is cut where one of its calls fails.
use crate::values::round;
use std::alloc::Global;
use wf_ballot::NodeId;
use wf_disk::MemoryDisk;
use wf_journal::{Journal, Record};
use wf_node::Node;
use wf_tape::{DiskTape, Tape};
use wf_test_table::{Answered, CaseInput, CaseWords, Transcript, Unanswered};

/// The rounds of the records that are added, in turn.
const ROUNDS: u32 = 3;

/// More calls than opening a journal and adding these records makes.
const CALLS: usize = 24;

/// The bytes of three Tried records, of rounds 1, 2 and 3.
const THREE_TRIED: &[u8] = &[
    2, 1, 0, 0, 0, 4, 0, 0, 0, 1, 2, 1, 0, 0, 0, 4, 0, 0, 0, 2, 2, 1, 0, 0, 0, 4, 0, 0, 0, 3,
];

/// The bytes of one such record.
const RECORD_BYTES: usize = 10;

/// Opens a journal on the disk and adds the records until one fails. Returns the disk and how many
/// were added.
fn add_until_failure(alloc: Global, disk: MemoryDisk) -> (MemoryDisk, usize) {
    match DiskTape::over(disk) {
        Ok(tape) => add_on(alloc, tape),
        Err((disk, _)) => (disk, 0),
    }
}

/// Opens a journal on a tape that is open and adds the records until one fails. Returns the disk
/// and how many were added.
fn add_on(alloc: Global, tape: DiskTape<MemoryDisk>) -> (MemoryDisk, usize) {
    match Journal::open(alloc, tape) {
        Ok((journal, records)) => {
            drop(records);
            add_all(alloc, journal)
        }
        Err((tape, _)) => (tape.close(), 0),
    }
}

/// Adds the records until one fails.
fn add_all(alloc: Global, mut journal: Journal<DiskTape<MemoryDisk>>) -> (MemoryDisk, usize) {
    let mut added = 0;
    for number in 1..=ROUNDS {
        if journal.is_halted() {
            break;
        }
        if let Ok(round) = round(number) {
            let tried = Record::Tried(round);
            if journal.add(alloc, &tried).is_ok() {
                added = number as usize;
            }
            drop(tried);
        }
    }
    (journal.close().close(), added)
}

/// The bytes of the tape on the disk.
fn content(alloc: Global, disk: MemoryDisk) -> Result<Vec<u8>, Unanswered> {
    let Ok(mut tape) = DiskTape::over(disk) else {
        return Ok(Vec::new(alloc));
    };
    let bytes = tape.read(alloc);
    drop(tape);
    match bytes {
        Ok(bytes) => Ok(bytes),
        Err(_) => Err(Unanswered::Memory),
    }
}

/// Where this call fails and the power cut leaves so much, the tape has the records that were
/// added, at most one more, and a part of the one after it.
fn has_added(alloc: Global, call: usize, kept: usize, back: usize) -> Result<bool, Unanswered> {
    let mut disk = MemoryDisk::new(alloc);
    disk.set_fuse(call, kept);
    let (mut disk, added) = add_until_failure(alloc, disk);
    disk.set_fuse(0, 0);
    disk.cut(back, kept);
    let bytes = content(alloc, disk)?;
    let least = added.saturating_mul(RECORD_BYTES);
    let most = added.saturating_add(1).saturating_mul(RECORD_BYTES);
    let has_added = THREE_TRIED.starts_with(bytes.as_slice())
        && least <= bytes.len()
        && bytes.len() <= most;
    drop(bytes);
    Ok(has_added)
}

/// Appends after which call it isn't so.
fn write_exception(call: usize, answer: &mut Transcript) {
    answer.text("not after call ");
    answer.count(call);
    answer.line("");
}

/// `added`: whichever call fails.
pub(crate) fn added(asked: CaseInput<'_>, answer: &mut Transcript) -> Answered {
    let mut words = CaseWords::of(asked.input)?;
    let kept = words.count()?;
    let back = words.count()?;
    for call in 1..=CALLS {
        if !has_added(asked.alloc, call, kept, back)? {
            write_exception(call, answer);
        }
    }
    answer.line("tried each call");
    Ok(())
}

/// `failed_sync`: a journal is halted after it; one that is opened again writes a new file, and
/// what it adds is kept.
pub(crate) fn failed_sync(asked: CaseInput<'_>, answer: &mut Transcript) -> Answered {
    let mut disk = MemoryDisk::new(asked.alloc);
    // Opening makes eight calls; the first append is the ninth, and its sync the tenth.
    disk.set_fuse(10, 0);
    let (disk, added) = add_until_failure(asked.alloc, disk);
    answer.count(added);
    let (mut disk, added) = add_until_failure(asked.alloc, disk);
    answer.text(" added, then ");
    answer.count(added);
    disk.cut(0, 0);
    let bytes = content(asked.alloc, disk)?;
    answer.text(", kept are ");
    answer.count(bytes.len());
    answer.line(" bytes");
    drop(bytes);
    Ok(())
}

/// `opened_after_cut`: a node opens from what a cut left of its disk.
pub(crate) fn opened_after_cut(asked: CaseInput<'_>, answer: &mut Transcript) -> Answered {
    for call in 1..=CALLS {
        let mut disk = MemoryDisk::new(asked.alloc);
        disk.set_fuse(call, 1);
        let (mut disk, _) = add_until_failure(asked.alloc, disk);
        disk.set_fuse(0, 0);
        disk.cut(call % 3, 0);
        if !opens(asked.alloc, disk) {
            write_exception(call, answer);
        }
    }
    answer.line("tried each call");
    Ok(())
}

/// Whether a node opens from the disk.
fn opens(alloc: Global, disk: MemoryDisk) -> bool {
    let Ok(tape) = DiskTape::over(disk) else {
        return false;
    };
    let Some(id) = NodeId::new(0) else {
        return false;
    };
    match Node::open(alloc, tape, id, 1) {
        Ok(node) => {
            drop(node);
            true
        }
        Err(refused) => {
            drop(refused);
            false
        }
    }
}
