//! Questions of test cases about a farm's node numbers, sequences, slots and ballots, the bytes of
//! its messages and tapes, and what an acceptor, a proposer, a history and a whole node answer to a
//! script of calls; and what a node opens with on a tape. [`ask`] lists them; `wf_test_map` has the
//! table.
//!
//! It has no contract of its own: its answers are those of `wf_ballot`, `wf_codec`, `wf_mail`,
//! `wf_tape`, `wf_acceptor`, `wf_proposer`, `wf_learner` and `wf_node`, put into words.
#![tactic(auto)]

mod acceptor;
mod decoding_cases;
mod encoding_cases;
mod history;
mod inbox;
mod message;
mod node;
mod number;
mod open_cases;
mod proposer;
mod questions;
mod tape;
mod tape_cases;
mod tries;

pub use questions::ask;
