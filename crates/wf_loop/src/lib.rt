//! A node in a process of its own: one thread that waits for its sockets and serves them, and never
//! blocks on one.
//!
//! - [`EventLoop`] has the node and its clients (`wf_voter`), and the parts of
//!   `wf_peer_connections`: the connections to and from its peers (`wf_peering`), and its readers
//!   and operators, who only read, over any network (`wf_sockets`). [`EventLoop::run_once`] is one
//!   turn: it is handed the time and the tokens of the sockets that may be ready, does what there
//!   is to do, a bounded part of it, and waits for nothing; [`EventLoop::patience`] says for how
//!   long the next one may be waited for. Over the system's network [`EventLoop::wait_and_run`]
//!   waits and takes a turn. A message for the peers is written before anything else is done.
//!   Digests of the history are made once nothing came for a moment, or where one is needed.
//! - [`NodePlan`] says which node it is, and where the others are. A folder that joins in the place
//!   of a lost one ([`Joiner`]) learns what is published, and does nothing else.
//! - [`Log`] writes each [`NodeEvent`] as a line on standard error.
//!
//! **Promises.** After each turn the node has lived by its acts, the process has gone on in its
//! run, and each response that a client was sent is the one that `wf_voter` says (its
//! `specs/Lived.antt`, `specs/Continuation.antt`, `specs/Answer.antt`). Readers and operators get
//! the node to be read only; a reader's question was replied by the list that the node then had
//! (`specs/Readers.antt`). What a node goes by of replacements, and whether its folder joins, is
//! what its plan says, from its first turn to its last one (`membership_of`,
//! `specs/EventLoop.antt`). What it is told is written, and the event loop is over.
//!
//! **Doesn't.** Which sockets are ready and what a clock shows has no model, and no clause relies
//! on it. That is tested with the built program.
#![tactic(auto)]

mod clock;
mod event_loop;
mod service;
mod turn;

pub use event_loop::EventLoop;
pub use wf_peer_connections::{Joiner, LoopFault, NodeEvent, NodePlan};
pub use wf_visitors::Log;
pub use wf_voter::{NodeFolder, Process};
