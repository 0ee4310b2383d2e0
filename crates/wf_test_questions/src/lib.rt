//! Questions of test cases about numbers, texts, definitions, tokens, mapfiles and canonical texts:
//! what `wf_test_map` asks the crates that know no node.
//!
//! [`ask`] has them by their names. Each question is one function, by subject: `numbers`, `texts`,
//! `definitions`, `tokens`, `mapfiles`, `spellings`, `canonical`; `tables` has the question about
//! the table language itself, and `shown` how definitions are shown.
//!
//! Its functions are proved to be safe and to return, and nothing more: what the cases show is in
//! the table.
#![tactic(auto)]

mod canonical;
mod definitions;
mod mapfile_frame;
mod mapfiles;
mod numbers;
mod questions;
mod shown;
mod spellings;
mod tables;
mod texts;
mod tokens;

pub use questions::ask;
