//! The acceptor: a node's promise and votes, and its answers to Prepare and Accept.
//!
//! Model: an `Acceptor` is its part of the node (the node's number, the number of published
//! definitions, the promise, which is one for all slots, and the vote at each slot, as a map) and
//! the prepared record, for which room is reserved (`specs/Acceptor.antt`). Transitions and the
//! fold concern the part only; the prepared record concerns only whether there is room for a record
//! (`HasRoomFor`). The acceptor acts for every stored state of a node that has this promise, these
//! votes and this number of definitions (`ActsFor`).
//!
//! Promises: an answer is the transition of wf_model's step table for the Prepare or the Accept,
//! whatever else the node has stored. An answer leaves the part unchanged and reserves room for its
//! vote. Applying a record has the effect of the fold, and leaves no record prepared.
//!
//! Not here: storing records (the node writes an answer's record to its tape, then has it applied),
//! and answers for a published slot. That a call takes hardly longer with more votes, since one is
//! found by binary search, is measured (`bench/sizes.py`), not proved.
#![tactic(auto)]

mod acceptor;
mod comparison;
mod report;
mod same;
mod votes;

pub use acceptor::{Acceptor, AcceptorAnswer};
