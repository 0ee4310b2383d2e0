//! Questions of test cases about a folder in memory: what a process finds there after a power cut,
//! also within `init` and within the start of a node. [`ask`] lists them; `wf_test_commands` has
//! the table.
//!
//! Its functions are proved to be safe and to return, and nothing more: what the cases show is in
//! the table.
#![tactic(auto)]

mod files;
mod questions;
mod starts;

pub use questions::ask;
