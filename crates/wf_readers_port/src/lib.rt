//! The readers' port of a process that has a history: it answers replicas' questions, and nothing
//! that comes there changes the process.
//!
//! [`ReadersPort`] has a listener and slots of its own. All that it is given of the process is a
//! [`PortView`]: its history and digests, to be read only. Each question has one reply, which
//! `wf_reader` makes; a connection asks one question at a time.
//!
//! A newcomer takes a free slot, else that of the reader that has waited longest since its last
//! question, which is closed. A reader that asks nothing for five seconds is closed too.
//!
//! **Model.** A [`ReadersPort`] has a log that only proofs read: each question that a reader asked,
//! with its reply, as bytes (`specs/Exchanges.antt`).
//!
//! **Promises.** What came on a reader's connection is questions of the log, one after the other,
//! and a part of the next one; what was sent on it, with what is still to be taken, is the replies
//! to them, one after the other ([`ReadersPort::always_replied`]). The exchanges that a turn makes
//! are each a question with the encoding of a reply whose maps are those that the history of that
//! turn has next; if the digests are the history's, it is the reply that the question has by that
//! ([`ReadersPort::on_ready`], `specs/QuestionReplies.antt`); no other call makes one.
//!
//! **Doesn't.** No clause says which sockets are ready, or what became of a connection after its
//! last turn. The network is any ([`wf_sockets`]); where none is named it is the system's.
#![tactic(auto)]

mod event;
mod port;
mod reader;
mod replies;
mod service;
mod slots;
mod turn;

pub use port::{PortView, ReadersPort};
pub use wf_reader::Answerer;
