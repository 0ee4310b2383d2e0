//! Clients of a server that never blocks: what has come of a request, what is still to be taken of
//! its answer, and which client gives way.
//!
//! There are no sockets here, and the time is handed in, in milliseconds of any clock that never
//! goes back.
//! - [`Incoming`] is what has come of a request; [`Arrived`] reads it, and fails at its end as long
//!   as more may come, so a request is whole once reading it doesn't fail.
//! - [`Outgoing`] is an answer, and how much of it was taken.
//! - [`Client`] is one client with its phase, and when that is over.
//! - `slots` says where a newcomer goes: to a free slot, or to that of the unfinished request that
//!   has waited longest.
//!
//! **Model.** `specs/PartialRequest.antt`, `specs/ResponseBuffer.antt` and `specs/Client.antt`.
//!
//! **Promises.**
//! - What is read is what has come, from its beginning; the end of the input is reported only once
//!   the client has closed its side.
//! - What is to be written next is the rest of the answer; an answer is taken once all of it was.
//! - The limit of a phase is one of the whole phase: no byte that comes begins it anew.
//! - A newcomer takes a free slot if there is one, else that of the request that has waited longest
//!   of those that aren't whole.
//!
//! **Doesn't.** It doesn't say when a client sends or takes bytes, nor what the answer is.
#![tactic(auto)]

mod arrived;
mod client;
mod limits;
mod partial_request;
mod response_buffer;
mod slots;

pub use arrived::Arrived;
pub use client::{Client, ClientPhase};
pub use limits::BUDGET_BYTES;
pub use partial_request::Incoming;
pub use response_buffer::Outgoing;
pub use slots::{first_free, slot_index, weight};
