//! Tapes in files.
use crate::values::{round, unanswered};
use std::fs;
use std::rt::Files;
use wf_journal::{Journal, Record};
use wf_tape::{FileTape, Tape};
use wf_test_table::{Answered, CaseInput, CaseWords, Transcript, Unanswered};

/// The folder of the tape, the tape, and the second file that a replacement writes.
const FOLDER: &str = "tape";

const PATH: &str = "tape/tape";

const SECOND: &str = "tape/tape.new";

/// The most bytes that an answer has.
const MOST_BYTES: usize = 1_000;

/// An empty folder.
pub(crate) fn new_folder<R: Files + AllocGlobal>(rt: &R, folder: &str) -> Answered {
    let _ = fs::remove_dir_all(rt, folder);
    make_folder(rt, folder)
}

fn make_folder<R: Files>(rt: &R, folder: &str) -> Answered {
    match fs::create_dir(rt, folder) {
        Ok(()) => Ok(()),
        Err(error) => Err(unanswered(error)),
    }
}

/// A file with these bytes.
pub(crate) fn write_file<R: Files>(rt: &R, path: &str, bytes: &[u8]) -> Answered {
    match fs::write(rt, path, bytes) {
        Ok(()) => Ok(()),
        Err(error) => Err(unanswered(error)),
    }
}

/// Opens a journal over the file, adds a Tried record of this round, and appends how many records
/// the journal had.
fn write_added<R: Files + AllocGlobal>(rt: &R, number: u32, answer: &mut Transcript) -> Answered {
    match FileTape::open(rt.alloc(), rt, PATH) {
        Ok(tape) => write_added_on(rt, tape, number, answer),
        Err(_) => {
            answer.line("no tape");
            Ok(())
        }
    }
}

/// Opens a journal on a tape that is open, and likewise; where none opens, appends why, and how
/// often the tape failed.
fn write_added_on<R: Files + AllocGlobal>(
    rt: &R,
    tape: FileTape<&R>,
    number: u32,
    answer: &mut Transcript,
) -> Answered {
    match Journal::open(rt.alloc(), tape) {
        Ok((journal, records)) => {
            answer.count(records.len());
            drop(records);
            add(rt, journal, number, answer)
        }
        Err((tape, fault)) => {
            answer.value(fault);
            answer.text(", failures: ");
            answer.value(tape.failures());
            answer.line("");
            drop(tape);
            Ok(())
        }
    }
}

/// Adds a Tried record of this round, and appends whether it is added.
fn add<R: Files + AllocGlobal>(
    rt: &R,
    mut journal: Journal<FileTape<&R>>,
    number: u32,
    answer: &mut Transcript,
) -> Answered {
    let Ok(round) = round(number) else {
        drop(journal);
        return Err(Unanswered::BadWords);
    };
    let tried = Record::Tried(round);
    let is_added = !journal.is_halted() && journal.add(rt.alloc(), &tried).is_ok();
    drop(tried);
    drop(journal);
    answer.line(if is_added {
        " records, one added"
    } else {
        " records, none added"
    });
    Ok(())
}

/// Appends the bytes of the file, or of many how many.
fn write_bytes<R: Files + AllocGlobal>(rt: &R, answer: &mut Transcript) -> Answered {
    match fs::read(rt, PATH) {
        Ok(bytes) => {
            if bytes.len() <= MOST_BYTES {
                answer.bytes(&bytes);
                answer.line("");
            } else {
                answer.count(bytes.len());
                answer.line(" bytes");
            }
            drop(bytes);
            Ok(())
        }
        Err(error) => Err(unanswered(error)),
    }
}

/// `file_tape`: a file keeps what is added, and loses a torn record.
pub(crate) fn file_tape<R: Files + AllocGlobal>(
    rt: &R,
    asked: CaseInput<'_>,
    answer: &mut Transcript,
) -> Answered {
    new_folder(rt, FOLDER)?;
    if !asked.input.is_empty() {
        write_file(rt, PATH, asked.input)?;
    }
    for word in asked.words.rest().split(' ') {
        write_added(rt, CaseWords::new(word).number()?, answer)?;
    }
    write_bytes(rt, answer)
}

/// `file_beside`: a crash between the steps of a replacement leaves the second file beside the old
/// content.
pub(crate) fn file_beside<R: Files + AllocGlobal>(
    rt: &R,
    asked: CaseInput<'_>,
    answer: &mut Transcript,
) -> Answered {
    new_folder(rt, FOLDER)?;
    write_file(rt, PATH, asked.input)?;
    write_file(rt, SECOND, b"longer than what is put there")?;
    write_added(rt, 1, answer)?;
    write_bytes(rt, answer)
}

/// `folder_beside`: the second file can't be written, since its path is a folder.
pub(crate) fn folder_beside<R: Files + AllocGlobal>(
    rt: &R,
    asked: CaseInput<'_>,
    answer: &mut Transcript,
) -> Answered {
    new_folder(rt, FOLDER)?;
    make_folder(rt, SECOND)?;
    write_file(rt, PATH, asked.input)?;
    write_added(rt, 1, answer)?;
    write_bytes(rt, answer)
}

/// `no_folder`: a file in no folder is no tape.
pub(crate) fn no_folder<R: Files + AllocGlobal>(
    rt: &R,
    _asked: CaseInput<'_>,
    answer: &mut Transcript,
) -> Answered {
    let _ = fs::remove_dir_all(rt, FOLDER);
    write_added(rt, 1, answer)
}
