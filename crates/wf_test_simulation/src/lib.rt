//! Farms of real nodes in one process, on a network, disks and a clock that are simulated, driven
//! by a seed.
//!
//! The questions of a table of cases (`wf_test_table`) about a play ([`ask_play`]), or about many
//! whose counts are added up ([`ask_plays`]); `wf_test_commands` has the table. Nodes are started
//! and stepped as `wfarm node` does ([`wf_node_command::RunningNode`], `node`) and replicas as
//! `wfarm replica` does ([`wf_replica_command::RunningReplica`], `replica`), each on a host of its
//! own (`member`), with clients and faults around them (`wf_test_scene`). All the while clients
//! publish at each node, ask for capabilities and pictures, look at the operator's port, and read
//! the history, and faults happen that are drawn from the seed; a client may stop within its
//! request, or take no byte of the response, and a sync may take time. After each step is checked
//! what a farm promises:
//!
//! - Two answers to one request about a sequence are equal, and so are two maps.
//! - No list of maps goes back, and each published map is one that a client sent. A replica has
//!   none before a node has it.
//! - What a node reported as published is there, then and at the end.
//! - Each process starts, and no node is rejected by its peers; but one whose folder was lost, or
//!   put back as it was before, doesn't start or is suspended.
//! - Once all faults are over, each client has its answer and all nodes have published equally many
//!   within five seconds; within twelve where connections had died in silence, or where a folder
//!   joins in the place of a lost one. Each replica follows within five seconds.
//! - Then all clients go, but for those that have stopped: within 25 seconds each process has no
//!   connection of a client any more, and none of a reader but a replica. Once those have gone too
//!   no connection is there but one of each node to each other, and one of each replica.
//!
//! The answer has what was violated, how much happened, and a digest of all answers, which is one
//! on every machine.
//!
//! It is proved to be safe and to return, and nothing more: what the cases show is in the table.
#![tactic(auto)]

mod judging;
mod member;
mod node;
mod play;
mod questions;
mod replica;

pub use questions::{ask_play, ask_plays};
