//! Questions of test cases about what fails, comes late or reaches a limit: files, connections and
//! clocks of this machine, nodes that are served there, and a disk whose power is cut. [`ask`]
//! lists them; `wf_test_commands` has the table.
//!
//! Its functions are proved to be safe and to return, and nothing more: what the cases show is in
//! the table.
#![tactic(auto)]

mod catch_up;
mod connections;
mod crowd;
mod disk;
mod farm;
mod limits;
mod machine;
mod many;
mod questions;
mod records;
mod serve;
mod tape;
mod values;

pub use questions::ask;
