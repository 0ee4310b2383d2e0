//! A farm whose nodes have a process each: what all of them ever publish and answer, in the code's
//! words.
//!
//! **Model.** A run (`specs/Run.antt`) is a node that was opened from the bytes on its tape, and
//! its calls of `Node::step` since then. A process (`specs/Execution.antt`) is runs one after the
//! other, each opened from the bytes that the one before left. A run ends between two steps, within
//! one, or after its tape has failed; what it leaves is said as a fact about bytes, which a durable
//! tape gives, so it may be said of a file. A farm (`IsFarm`) is such processes, and one order of
//! time of their steps in which each message that is delivered was returned earlier, by any of
//! them. Nothing else connects the processes: messages may be lost, repeated and late.
//!
//! **Promises**, over any kind of tape, of all node values that the processes ever held, each at
//! any moment of any of its runs:
//! - [`open`] and [`act`] are a run, call by call: a node that was opened begins one, and each step
//!   of it is an act of it.
//! - What a process has published is a beginning of what it has published at each later moment
//!   ([`lists_grow`]).
//! - There is one history, of which each list is a beginning; no two node values have different
//!   definitions under one sequence ([`processes_agree`]).
//! - Where two have published equally many maps, they have one answer to a query of the web map
//!   service, byte for byte; so they have, however many either has published, where the query asks
//!   both for one map ([`processes_answer_alike`]).
//! - All of it is one run of the model, with exactly the messages that were returned, so each
//!   theorem of `wf_safety` holds of it ([`a_farm_is_one_run`]).
//! - Processes that haven't started are a farm, and it stays one with each start, step and end of a
//!   process ([`a_farm_goes_on`], `specs/Continuation.antt`). What a run is said to leave is what a
//!   durable tape leaves ([`durable_tapes_leave_this`], `specs/CrashImages.antt`).
//! - An example: three processes that a program begins, of which one proposes a map, all publish
//!   it, and one starts again, are such a farm ([`open_first`], [`three_processes_publish`];
//!   `specs/Processes.antt`).
//! - A replica, which has no vote and no tape, learns the maps from answers of nodes and other
//!   replicas ([`Replica`], `specs/Replica.antt`). At each moment its list is a beginning of that
//!   one history, also if it was lost and begun anew; replicas agree and answer alike, with one
//!   another and with each node ([`replicas_agree`], [`replicas_answer_alike`]).
//!
//! **Doesn't.** The number of processes is fixed, each has one tape, and its runs don't overlap.
//! Nothing says that a process goes on, or that a message arrives. Nothing here opens a file or a
//! connection.
#![tactic(auto)]

mod example;
mod replica;
mod run;
mod theorem;

pub use example::{open_first, three_processes_publish};
pub use replica::Replica;
pub use run::{act, open};
pub use theorem::{
    a_compared_node_goes_on, a_farm_goes_on, a_farm_is_one_run, durable_tapes_leave_this,
    lists_grow, processes_agree, processes_answer_alike, replicas_agree, replicas_answer_alike,
};
