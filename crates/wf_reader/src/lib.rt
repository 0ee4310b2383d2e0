//! What is said at a readers' port: a replica's questions, and the replies of whoever has the
//! farm's history.
//!
//! A [`Question`] says which farm a reader is of, its last published sequence, and the digest of
//! its history up to that. The [`Reply`] is an [`ReaderAnswer`], with the definitions at the next
//! sequences, eight at most, or a [`QuestionRejection`]. Each question has one reply, and one
//! question is asked at a time.
//!
//! Promises: each question and each reply has exactly one encoding, and nothing else is decoded as
//! it (`specs/Question.antt`, `specs/Reply.antt`). [`reply_to`] answers with exactly the
//! definitions that are published next, and reports that histories differ iff the digests do at the
//! reader's last sequence (`specs/Answerer.antt`). Two answerers don't keep each other's readers
//! old: each answer says how far from a voter it comes ([`MOST_DISTANCE`]).
//!
//! Not here: connections, when is asked, and what a reader does with an answer.
#![tactic(auto)]

mod answer;
mod answerer;
mod fault;
mod question;
mod question_bytes;
mod rejection;
mod reply;
mod reply_decoder;
mod reply_encoder;

pub use answer::{MOST_DISTANCE, ReaderAnswer};
pub use answerer::{Answerer, reply_to};
pub use fault::{QuestionFault, ReplyFault};
pub use question::{QUESTION_BYTES, Question, READER_VERSION};
pub use question_bytes::{decode_question, encode_question};
pub use rejection::QuestionRejection;
pub use reply::{MOST_REPLY_BYTES, Reply};
pub use reply_decoder::{decode_reply, reply_length};
pub use reply_encoder::encode_reply;
