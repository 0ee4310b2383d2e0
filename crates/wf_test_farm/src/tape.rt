//! The questions about tapes: the records that their bytes open with, and the bytes that are left
//! then.
use std::alloc::Global;
use wf_ballot::Slot;
use wf_canon::Canon;
use wf_journal::{Journal, OpenFault, Record};
use wf_tape::MemoryTape;
use wf_test_calls::{bytes_on, canon_of, tape_of, write_head, write_length, write_printed};
use wf_test_table::{Answered, CaseInput, Transcript, Unanswered};

pub(crate) fn ask(mut asked: CaseInput<'_>, answer: &mut Transcript) -> Answered {
    match asked.words.word() {
        "open" => write_opened(asked, answer),
        "torn" => write_torn(asked, answer),
        "published" => write_published(asked, answer),
        _ => Err(Unanswered::UnknownQuestion),
    }
}

/// Appends each record, or the error, and how many bytes are on the tape then.
fn write_opened(asked: CaseInput<'_>, answer: &mut Transcript) -> Answered {
    match Journal::open(asked.alloc, tape_of(asked.alloc, asked.input)?) {
        Ok((journal, records)) => write_records(journal, records, answer),
        Err((tape, fault)) => return write_rejected(tape, fault, answer),
    }
    Ok(())
}

fn write_records(journal: Journal<MemoryTape>, records: Vec<Record>, answer: &mut Transcript) {
    for record in &records {
        write_record(record, answer);
    }
    drop(records);
    write_length(bytes_on(journal.close()), answer);
}

fn write_rejected(tape: MemoryTape, fault: OpenFault, answer: &mut Transcript) -> Answered {
    let left = bytes_on(tape);
    if let OpenFault::Memory = fault {
        return Err(Unanswered::Memory);
    }
    write_printed(fault, answer);
    write_length(left, answer);
    Ok(())
}

/// Appends a record in words, and then the text of its definition.
fn write_record(record: &Record, answer: &mut Transcript) {
    write_head(record, answer);
    answer.line("");
    match record {
        Record::Accepted(_, _, canon) | Record::Published(_, canon) => answer.bytes(canon.text()),
        Record::Tried(_) | Record::Promised(_, _) => {}
    }
}

/// Appends how many proper beginnings of the bytes open with exactly the first N bytes left, of
/// those that hold these N bytes. The word is N.
fn write_torn(mut asked: CaseInput<'_>, answer: &mut Transcript) -> Answered {
    let whole = asked.words.count()?;
    let torn = count_torn(asked.alloc, whole, asked.input)?;
    answer.value(torn);
    answer.text(" of ");
    answer.count(asked.input.len().saturating_sub(whole));
    answer.line(" are torn");
    Ok(())
}

fn count_torn(alloc: Global, whole: usize, bytes: &[u8]) -> Result<u64, Unanswered> {
    let mut torn = 0u64;
    for length in whole..bytes.len() {
        if bytes_left(alloc, &bytes[..length])? == Some(whole) {
            torn = torn.saturating_add(1);
        }
    }
    Ok(torn)
}

/// How many bytes are on the tape once it was opened; None where it isn't.
fn bytes_left(alloc: Global, bytes: &[u8]) -> Result<Option<usize>, Unanswered> {
    match Journal::open(alloc, tape_of(alloc, bytes)?) {
        Ok((journal, records)) => {
            drop(records);
            Ok(Some(bytes_on(journal.close())))
        }
        Err((tape, fault)) => {
            drop(tape);
            none_left(fault)
        }
    }
}

fn none_left(fault: OpenFault) -> Result<Option<usize>, Unanswered> {
    match fault {
        OpenFault::Memory => Err(Unanswered::Memory),
        _ => Ok(None),
    }
}

/// Appends how many records and bytes a tape opens with to which the definition was added at the
/// slots from 1 to the last one.
fn write_published(mut asked: CaseInput<'_>, answer: &mut Transcript) -> Answered {
    let last = asked.words.short()?;
    let tape = published_tape(asked.alloc, last, asked.input)?;
    match Journal::open(asked.alloc, tape) {
        Ok((journal, records)) => {
            write_counts(journal, records, answer);
            Ok(())
        }
        Err(refused) => {
            drop(refused);
            Err(Unanswered::Memory)
        }
    }
}

fn write_counts(journal: Journal<MemoryTape>, records: Vec<Record>, answer: &mut Transcript) {
    answer.count(records.len());
    drop(records);
    answer.text(" records, ");
    write_length(bytes_on(journal.close()), answer);
}

fn published_tape(alloc: Global, last: u16, text: &[u8]) -> Result<MemoryTape, Unanswered> {
    let canon = canon_of(alloc, text)?;
    let tape = tape_with(alloc, last, &canon);
    drop(canon);
    tape
}

/// A tape to which the definition was added at the slots from 1 to `last`.
fn tape_with(alloc: Global, last: u16, canon: &Canon) -> Result<MemoryTape, Unanswered> {
    match Journal::open(alloc, MemoryTape::new(Vec::new(alloc))) {
        Ok((journal, records)) => {
            drop(records);
            filled(alloc, journal, last, canon)
        }
        Err(refused) => {
            drop(refused);
            Err(Unanswered::Memory)
        }
    }
}

fn filled(
    alloc: Global,
    mut journal: Journal<MemoryTape>,
    last: u16,
    canon: &Canon,
) -> Result<MemoryTape, Unanswered> {
    let published = publish_each(alloc, &mut journal, last, canon);
    let tape = journal.close();
    match published {
        Ok(()) => Ok(tape),
        Err(unanswered) => {
            drop(tape);
            Err(unanswered)
        }
    }
}

fn publish_each(
    alloc: Global,
    journal: &mut Journal<MemoryTape>,
    last: u16,
    canon: &Canon,
) -> Answered {
    for number in 1..last.saturating_add(1) {
        match Slot::new(number) {
            Some(slot) => publish(alloc, journal, slot, canon)?,
            None => return Err(Unanswered::BadWords),
        }
    }
    Ok(())
}

fn publish(
    alloc: Global,
    journal: &mut Journal<MemoryTape>,
    slot: Slot,
    canon: &Canon,
) -> Answered {
    if journal.is_halted() {
        return Err(Unanswered::Memory);
    }
    let record = Record::Published(slot, canon.copy()?);
    let added = journal.add(alloc, &record);
    drop(record);
    match added {
        Ok(()) => Ok(()),
        Err(_) => Err(Unanswered::Memory),
    }
}
