//! Drops from a tape the zeros that a power cut left in place of a record that was never synced.
//!
//! To wf_tape a power cut leaves a beginning of what was appended. Some file systems (ext4, xfs)
//! may keep a file's length before the bytes of an append within a block that was in use: what was
//! never synced then reads as zeros. No record begins with a zero, so such bytes are bad to
//! wf_journal, and no journal opens on them.
//!
//! Promises, of a durable tape (wf_tape): [`drop_unsynced`] leaves exactly the whole records, as
//! the only image, if all that follows them is zeros, and no more of them than the longest record
//! has bytes (`specs/Unsynced.antt`); else it changes nothing. Each image, also of a moment inside
//! the call, reads as the records from before. Such zeros begin with no record
//! ([`zeros_begin_no_record`]). Of every tape: a failure is returned only if the tape counted one,
//! and never of a tape that won't fail.
//!
//! Not here: whether bytes that were synced came back as zeros, which no tape shows.
#![tactic(auto)]

mod recovery;
mod theorem;
mod unsynced;

pub use recovery::drop_unsynced;
pub use theorem::zeros_begin_no_record;
