//! A replica: a process without a vote, which learns a farm's published maps from voters or other
//! replicas, keeps them on a tape of its own, and serves the public.
//!
//! - [`Follower`] is its state: the maps and their digests, and its tape. [`Follower::open`] begins
//!   with what the tape has, [`Follower::take_answer`] takes an answer at a readers' port,
//!   [`Follower::serve`] answers a client.
//! - [`Asking`] says which of its sources it asks, and when, as a function of a clock; [`Refusals`]
//!   which of them refuse it.
//! - [`replica_text`] is the text of the file `farm` of its folder.
//!
//! **Promises.**
//! - Its list is what it heard, message after message, as `wf_execution`'s `Replica` learns them.
//!   What it heard is what it read of its tape, and then the first definitions of each answer that
//!   fits its question, and nothing else ([`Follower::always_learned`]). So it never goes back
//!   ([`a_replica_never_goes_back`]).
//! - A durable tape of it has exactly the records of its list, in their order
//!   (`specs/Recorded.antt`): a map is learned before its record is written. A replica begins with
//!   all that its tape has, in its order; only a tape that has something else begins anew.
//! - What an answer at a readers' port says is what a node answers when it is asked for the next
//! definition ([`answers_report`]). Where it is given only such answers, of processes of a farm or
//! of their replicas, and its tape has what such have, such have told all that it heard
//! ([`what_is_heard_is_reported`]): so its list is at each moment one of which `wf_execution`'s
//! `replicas_agree` says that all are beginnings of one history ([`what_is_learned_is_served`],
//! [`what_is_learned_agrees`]).
//! - Its list goes on only by answers that fit its question, by count, published sequence and
//!   digest: such a one is taken whole, as far as memory allows, and any other changes nothing
//!   (`specs/Fit.antt`). What a sound source answers fits ([`sound_answers_fit`]).
//! - A request to the map service is answered from that list as a node answers it
//!   (`specs/Service.antt`); so replicas and nodes answer alike, by `replicas_answer_alike`.
//! - [`Asking`]'s moments are those of `specs/Questions.antt`.
//!
//! **Doesn't.** Nothing says that an answer comes, or what a file holds: that its tape has what it
//! wrote is a premise, as is that a connection brings what was written to it. Where a source has
//! more than eight more, its digest is of a sequence that the replica can't compute yet: such an
//! answer fits by count and published sequence, and the source compares the digest of the next
//! question.
#![tactic(auto)]

mod answer;
mod farm_file;
mod follower;
mod learner;
mod maps;
mod misfit;
mod page;
mod questions;
mod record;
mod refusals;
mod service;
mod shelf;
mod start;
mod theorem;

pub use farm_file::replica_text;
pub use follower::Follower;
pub use misfit::{AnswerFault, Misfit};
pub use questions::{Asking, REST_MILLIS, SILENCE_MILLIS, TURN_MILLIS};
pub use refusals::Refusals;
pub use start::FoundTape;
pub use theorem::{
    a_replica_never_goes_back, answers_report, sound_answers_fit, what_is_heard_is_reported,
    what_is_learned_agrees, what_is_learned_is_served,
};
