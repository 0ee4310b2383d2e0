//! The runs of `wfarm serve` on one folder, one after the other: what their nodes publish and
//! answer, across restarts.
//!
//! **Model.** A session (`specs/Session.antt`) is the nodes of a farm that share one process: they
//! are opened, and take steps one after the other, each by the contract of `Node::step`, until the
//! process ends: between two steps, within one, or after a tape has failed. Sessions are on one
//! folder (`specs/Folder.antt`) if the tapes were empty before the first, and each later one read
//! of them what the one before it left. What a session leaves, and what openings that were cut off
//! make of it, is said as facts about bytes, which a durable tape gives, so it may be said of
//! files. A run of `serve` (`specs/ServedSteps.antt`) is what `serve` returned (`HasServed` of
//! `wf_serve`), and the steps by which that came about; one that was killed made only the first of
//! these.
//!
//! **Promises**, over any kind of tape:
//! - Sessions on one folder are a farm of processes of `wf_execution`, one for each node
//!   ([`a_folder_is_one_farm`]). So there is one history, of which each list that any node ever
//!   published is a beginning; no two nodes, at any two moments of any two sessions, have different
//!   definitions under one sequence; and what the node at an index has published is a beginning of
//!   what it has later ([`sessions_are_one_farm`]).
//! - Nodes at any two moments respond to equal queries to the map service with equal bytes, where
//!   they have published equally many maps, or the query asks both for one map; so two clients get
//!   equal bytes. A response that reports an allocation failure (503) is apart.
//! - What was served is steps, and each connection begins at one of their moments
//!   ([`a_serving_is_steps`]). So the runs of `serve` on one folder that was new are such sessions,
//!   and so is one run of new nodes in memory ([`runs_are_one_farm`]).
//! - What is said to be left is what a durable tape leaves: inside an opening
//!   ([`openings_read_alike`]), and however a process ends, by a kill or with the power
//!   ([`disks_leave_this`]; within a step `durable_tapes_leave_this` of `wf_execution`).
//! - An example: a node on a disk in memory that proposes a map, loses its power and is opened
//!   again ([`run_twice`]).
//!
//! **Doesn't.** It opens no file and no socket. That a file of the system holds what was written to
//! it is a premise, as are the number of nodes and that nothing but these runs writes on the tapes.
#![tactic(auto)]

mod example;
mod theorem;

pub use example::{MemoryDiskTape, open_on, restart, run_twice};
pub use theorem::{
    a_folder_is_one_farm, a_serving_is_steps, disks_leave_this, openings_read_alike,
    runs_are_one_farm, sessions_are_one_farm,
};
