//! Clients of a server that never blocks, with their sockets, whatever answers them.
//!
//! - [`Visitors`] has a listener and slots: it accepts clients, reads their requests, and writes
//!   what a [`Server`] responds. When all slots are taken the unfinished request that has waited
//!   longest gives way (`wf_client`).
//! - [`Log`] writes each [`LogEntry`] as a line on standard error; a [`Visit`] is one of a client.
//! - [`Counts`] counts requests by path and status.
//!
//! **Promises.** What was sent on a client's connection is a beginning of what the server responded
//! to the bytes that had come on it, and nothing is sent before
//! ([`Visitors::always_responded`], [`Visitors::serve`]).
//!
//! **Doesn't.** That is of the clients that are there: no clause says what a call sent on a
//! connection that the same call closed. Nor does one say which sockets are ready, or what a clock
//! shows. The network is any ([`wf_sockets`]); where none is named it is the system's.
#![tactic(auto)]

mod clock;
mod context;
mod counts;
mod event;
mod log;
mod request_line;
mod server;
mod service;
mod slots;
mod socket;
mod turn;
mod visitors;

pub use clock::{micros, now};
pub use context::Context;
pub use counts::Counts;
pub use event::{Level, LogEntry, Visit};
pub use log::Log;
pub use server::{Server, ServerReply};
pub use visitors::Visitors;
