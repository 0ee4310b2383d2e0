//! Frames of bytes: what messages and records have in common.
//!
//! A frame is a version, a kind, the length of its body and its body; numbers are big-endian
//! (`specs/Frame.antt`). A body is fields of fixed length (a node, a slot, a round, a ballot), and
//! then nothing, a text, or what a promise reports (`specs/Layout.antt`). Model: a format is the
//! versions that are read, and the kinds of each, each with a byte and the layout of its body
//! ([`FrameFormat`]). A message or a record is a row: the byte of its kind, a value for each field,
//! and the ending (`specs/Row.antt`).
//!
//! Promises, of every format: a frame has one reading, and no frame is a prefix of another.
//! [`split_frame`] checks from left to right, each byte as soon as it is there, and splits off the
//! frame at the front iff there is one; an error remains, whatever follows, unless it is that more
//! bytes are needed; and that one is returned iff the bytes are part of a frame. A body is read as
//! its parts and nothing else is. No call allocates.
//!
//! Not here: what a frame means, and whether a text is canonical. Reading the fields of a kind is
//! up to its crate, field by field; that it does so as the layout says is in that crate's
//! contracts.
#![tactic(auto)]

mod append;
mod fault;
mod field;
mod format;
mod header;
mod lengths;
mod theorem;

pub use append::{put, put_header};
pub use fault::FrameFault;
pub use field::{
    FieldBytes, MOST_FIELD_BYTES, ballot_in_range, put_ballot, put_node, put_round, put_slot,
    slot_in_range,
};
pub use format::FrameFormat;
pub use header::{HEADER_BYTES, split_frame};
pub use lengths::Lengths;
pub use theorem::{bodies_are_read, frames_are_read, none_begins_another};
