//! Readers and writers, over those of std and over memory, that count their failed calls.
//!
//! A [`Source`] is a reader and a [`Sink`] a writer, which may take two buffers in one call.
//! [`Stream`] wraps the readers and writers of std; [`Bytes`] and [`Output`] are over memory.
//! [`read_piece`] reads once, [`read_onto`] and [`read_up_to`] read to the end or a limit, and
//! [`write_all`] writes all of some bytes.
//!
//! **Model.** Of a source, the bytes still to be read and the most bytes that a call returns; of a
//! sink, the bytes written; each if known. Of both, the number of failed calls.
//! `specs/Effects.antt` states the effect of a call.
//!
//! **Promises.**
//! - What is read is a prefix of what is left, of at most the requested length.
//! - What is written is all of the bytes, or the reported number of them if a call failed. No call
//!   comes after one that failed.
//! - The count of failures increases iff a call fails. A call interrupted by a signal isn't
//!   reported as failed, but made again: of one [`Stream`] 200,000 are interrupted at most. A
//!   reader's own error is never reported as allocation failure.
//!
//! **Doesn't.** It doesn't promise that a reader ever returns its next byte, nor what a writer of
//! std does with bytes that it has taken. That no failed call is repeated, unless it was
//! interrupted, and that 200,000 interruptions end it, is tested (`wf_test_map`).
#![tactic(auto)]

mod memory;
mod stream;

pub use memory::{Bytes, Output};
pub use stream::{Sink, Source, Stream, read_onto, read_piece, read_up_to, write_all};
