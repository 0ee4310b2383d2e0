//! The numbers of Multi-Paxos: node ids, rounds, ballots, update sequences, slots and majorities.
//!
//! Model: a `NodeId`, a `Round`, a `Seq` and a `Slot` (a sequence from 1 on) are their numbers; a
//! `Ballot` is the record of its round and its node's number (`specs/Ballot.antt`); a set of nodes
//! is a test of numbers, counted over the nodes of the farm (`specs/Majority.antt`).
//!
//! Promises: each value is in its range. Ballots are totally ordered, by round, then by node. Two
//! majorities of the same nodes share a node. Each value has exactly one encoding in messages and
//! records, and no other bytes are decoded to it. No call allocates or fails.
//!
//! Not here: what a ballot is used for, and which nodes a farm has; a node id may be above those of
//! a smaller farm.
#![tactic(auto)]

mod ballot;
mod front;
mod majority;
mod node;
mod round;
mod sequence;
mod slot;

pub use ballot::{Ballot, ROUNDS, order_is_total};
pub use front::{
    field_lengths, fields_are_distinct, fields_are_read, split_ballot, split_node, split_round,
    split_slot,
};
pub use majority::{is_majority, majorities_meet};
pub use node::{NODES, NodeId};
pub use round::Round;
pub use sequence::{SEQUENCES, Seq};
pub use slot::Slot;
