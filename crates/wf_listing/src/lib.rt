//! What a tape holds, as text for an operator: one line for each record and one for what follows
//! them.
//!
//! [`list`] lists the bytes of a tape, whatever wrote them: it reads them as a node does when it
//! opens, and changes nothing. [`text_of_map`] returns the text of a map that is published on it.
//!
//! Promises: the text is exactly the listing of the bytes (`specs/Listing.antt`). Its lines are
//! those of the whole records that the bytes begin with, in order, each with the byte offset at
//! which it begins; the last line says whether nothing follows them, a torn record, or bytes that
//! are neither. Bytes have one listing ([`bytes_have_one_listing`]). [`MOST_TAPE_BYTES`] is the
//! length of the longest tape.
//!
//! Not here: what the records mean together, and which record may follow which: a tape of whole
//! records may still be one that no node opens.
#![tactic(auto)]

mod fault;
mod line;
mod listing;
mod map;
mod record_search;
mod tape_bytes;
mod theorem;

pub use fault::TapeReadFault;
pub use listing::list;
pub use map::text_of_map;
pub use tape_bytes::MOST_TAPE_BYTES;
pub use theorem::bytes_have_one_listing;
