//! Tapes of bytes, and in words how many bytes are on one.
use std::alloc::Global;
use wf_tape::MemoryTape;
use wf_test_table::{Transcript, Unanswered};

/// A tape with a copy of these bytes, all of them synced.
pub fn tape_of(alloc: Global, bytes: &[u8]) -> Result<MemoryTape, Unanswered> {
    match bytes.to_vec(alloc) {
        Ok(copy) => Ok(MemoryTape::new(copy)),
        Err(_) => Err(Unanswered::Memory),
    }
}

/// How many bytes are on a tape, which isn't used any more.
pub fn bytes_on(tape: MemoryTape) -> usize {
    let count = tape.bytes().len();
    drop(tape);
    count
}

/// Appends how many bytes are on a tape.
pub fn write_length(bytes: usize, answer: &mut Transcript) {
    answer.count(bytes);
    answer.line(" bytes");
}
