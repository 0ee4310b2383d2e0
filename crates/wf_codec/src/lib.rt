//! Messages as bytes: the encoder and the decoder.
//!
//! A message's encoding is a version, a kind, the length of its body and its body; numbers are
//! big-endian. The canonical text of a definition fills the rest of the body; a Promise may have
//! several, each behind its length (`specs/Encoding.antt`). Model: a [`Message`] is that of
//! wf_model, with definitions (`specs/Message.antt`); each kind is a row of a table
//! (`specs/KindTable.antt`).
//!
//! Promises: each message has exactly one encoding, and no encoding is a prefix of another.
//! [`encode`] appends that encoding or nothing. [`decode`] returns a message iff the bytes begin
//! with its encoding, whatever follows, unless allocation fails. Bytes are rejected only if no
//! continuation of them begins with a message, with the error of the first check that fails
//! (`specs/Fault.antt`). Allocation fails only for a message with a definition; memory is allocated
//! before anything is changed.
//!
//! Not here: who sends a message to whom, and whether its node is one of the farm's. There is no
//! checksum: a message that was altered in transit and still decodes is a message.
#![tactic(auto)]

mod best;
mod decoder;
mod encoder;
mod fault;
mod format;
mod message;
mod report;
mod theorem;

pub use best::BestVotes;
pub use decoder::decode;
pub use encoder::encode;
pub use fault::DecodeFault;
pub use format::{BODY_BYTES, HEADER_BYTES, VERSION};
pub use message::Message;
pub use report::{MOST_VOTES, Report, Votes};
pub use theorem::{
    longest_body, no_spelling_is_empty, none_begins_another, numbers_of_messages, one_spelling,
};
pub use wf_canon::{Canon, CanonFault, one_text_one_map};
