//! The records of a node on its tape, and the journal that adds them.
//!
//! Model: a `Record` is that of wf_model, with definitions (`specs/Record.antt`); each kind is a
//! row of a table (`specs/KindTable.antt`), and its encoding is that of `specs/Encoding.antt`. In
//! contracts a record is called `entry`, since `record` is one of their words; nothing else on a
//! tape is called so. The records of bytes are the longest list of whole records that the bytes
//! begin with (`specs/Records.antt`). A `Journal` is its tape, and whether it is halted.
//!
//! Records are written in the second version. Those of the first, whose texts are shorter, are read
//! as the same records, and a tape may hold both (`specs/Version.antt`): no encoding begins
//! another, whatever their versions.
//!
//! Promises, of a durable tape (wf_tape): a journal opens with the records of the content, and then
//! the only image is their bytes. After a record is added, the only image is the bytes from before
//! followed by the record's. Whatever a call returns, each image reads as the records from before,
//! or with the new one. After the records are rewritten, or a journal begins with records on a
//! tape, the only image is the bytes of these; if the tape fails at that, each image is one from
//! before or those bytes. The same holds of a crash at each moment inside these calls. Of every
//! tape: a failure is returned only if the tape counted one, and never of a tape that won't fail.
//!
//! Not here: what the records mean, and which record may follow which.
#![tactic(auto)]

mod decoder;
mod encoder;
mod fault;
mod format;
mod found;
mod journal;
mod open_error;
mod record;
mod record_reader;
mod rewrite;
mod theorem;
mod version;

pub use found::Found;
pub use journal::Journal;
pub use open_error::{AddFault, OpenFault};
pub use record::Record;
pub use theorem::records_are_read_one_way;
