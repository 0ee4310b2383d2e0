//! Tapes: append-only storage of bytes, in memory and on a disk.
//!
//! Model: a tape has a content, images (what a crash now may leave), what a crash since a moment
//! could have left, and a count of failures, and is durable (keeps what was written) or not
//! (`specs/Tape.antt`). It may be doubtful: a sync that succeeds may then leave bytes unsynced,
//! until the content is replaced.
//!
//! Promises, of a durable tape: after an append and a sync the only image is the content, unless
//! the tape is doubtful; whatever a call returns, and at each moment inside it, a crash leaves what
//! its clauses say. Of every tape: a failure is returned only if the tape counted one, and never of
//! a tape that won't fail. A `MemoryTape` is proved to be durable, and to fail just at the call for
//! which a failure was set. A `DiskTape` is proved to be durable where its disk is (wf_disk).
//!
//! Not here: what a file holds (a `FileTape` is on a disk of the system, which declares itself not
//! durable), and what the bytes mean (wf_journal).
#![tactic(auto)]

mod calls;
mod disk_tape;
mod fault;
mod memory;
mod tape;
mod theorem;

pub use disk_tape::{DiskTape, FileTape};
pub use fault::TapeFault;
pub use memory::MemoryTape;
pub use tape::Tape;
pub use theorem::an_append_cuts_short;
pub use wf_disk::FILE_READS;
