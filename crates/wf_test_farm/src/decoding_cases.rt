//! Messages that are read from bytes.
use crate::encoding_cases::write_spelled;
use std::alloc::Global;
use wf_codec::{DecodeFault, Message, decode};
use wf_test_calls::{CallMaps, write_message, write_printed};
use wf_test_table::{Answered, CaseInput, Runs, Transcript, Unanswered};

/// Appends how many bytes the message at the front has, and the message; or the error.
pub(crate) fn write_decoded(asked: CaseInput<'_>, answer: &mut Transcript) -> Answered {
    match decode(asked.alloc, asked.input) {
        Ok((message, count)) => write_read(message, count, answer),
        Err(DecodeFault::Memory) => return Err(Unanswered::Memory),
        Err(fault) => write_printed(fault, answer),
    }
    Ok(())
}

fn write_read(message: Message, count: usize, answer: &mut Transcript) {
    answer.count(count);
    answer.text(" bytes, ");
    write_message(&message, CallMaps::NONE, answer);
    answer.line("");
    drop(message);
}

/// Appends what is read of the bytes with one more byte after them, which is each byte in turn:
/// equal answers together, as `256 times: ..`.
pub(crate) fn write_followed(asked: CaseInput<'_>, answer: &mut Transcript) -> Answered {
    let mut runs = Runs::new(asked.alloc);
    let taken = take_followed(asked, &mut runs, answer);
    runs.write(answer);
    drop(runs);
    taken
}

fn take_followed(asked: CaseInput<'_>, runs: &mut Runs, answer: &mut Transcript) -> Answered {
    for byte in 0..=255u8 {
        take_followed_by(asked, byte, runs, answer)?;
    }
    Ok(())
}

fn take_followed_by(
    asked: CaseInput<'_>,
    byte: u8,
    runs: &mut Runs,
    answer: &mut Transcript,
) -> Answered {
    let mut bytes = Transcript::new(asked.alloc);
    let mut reported = Transcript::new(asked.alloc);
    bytes.bytes(asked.input);
    bytes.bytes(&[byte]);
    let answered = write_decoded_of(asked, &bytes, &mut reported);
    runs.take(&reported, answer);
    drop(reported);
    drop(bytes);
    answered
}

fn write_decoded_of(asked: CaseInput<'_>, bytes: &Transcript, answer: &mut Transcript) -> Answered {
    let whole = CaseInput {
        input: bytes.finished_text()?,
        ..asked
    };
    write_decoded(whole, answer)
}

/// Appends how many of the proper beginnings of the bytes are short.
pub(crate) fn write_beginnings(asked: CaseInput<'_>, answer: &mut Transcript) {
    answer.value(short_beginnings(asked.alloc, asked.input));
    answer.text(" of ");
    answer.count(asked.input.len());
    answer.line(" are short");
}

fn short_beginnings(alloc: Global, bytes: &[u8]) -> u64 {
    let mut short = 0u64;
    for count in 0..bytes.len() {
        if is_short(alloc, &bytes[..count]) {
            short = short.saturating_add(1);
        }
    }
    short
}

fn is_short(alloc: Global, bytes: &[u8]) -> bool {
    match decode(alloc, bytes) {
        Ok((message, _)) => {
            drop(message);
            false
        }
        Err(fault) => fault == DecodeFault::Short,
    }
}

/// Appends the bytes of a copy of the message at the front.
pub(crate) fn write_copy(asked: CaseInput<'_>, answer: &mut Transcript) -> Answered {
    match decode(asked.alloc, asked.input) {
        Ok((message, _)) => write_copied(message, answer),
        Err(DecodeFault::Memory) => return Err(Unanswered::Memory),
        Err(_) => return Err(Unanswered::BadWords),
    }
    Ok(())
}

fn write_copied(message: Message, answer: &mut Transcript) {
    let copied = message.copy();
    drop(message);
    match copied {
        Ok(copy) => write_spelled(copy, answer),
        Err(_) => answer.cut(),
    }
}
