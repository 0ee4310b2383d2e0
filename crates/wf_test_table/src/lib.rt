//! Tables of test cases, and the runner that asks them.
//!
//! A table is a text of lines. `case NAME` begins a case, `ask WORDS` is its question, `<` lines
//! are its input and `>` lines the expected answer; `for INPUT => ANSWER` is a whole case in one
//! line. [`line`] has every form of a line, and `escape` how bytes are spelled in it. The program
//! defines the questions: it implements [`Questions`].
//!
//! [`run_table`] asks each case's question and appends to a report each case whose answer differs,
//! each line of the table that has an error, and in the end the number of cases. [`run_program`]
//! does that from standard input to standard output; the `main` of such a program calls nothing
//! else.
//!
//! A question appends its answer to an [`Transcript`], which remembers an allocation failure, so
//! that a call that appends returns no error. [`CaseWords`] reads the question's words.
//!
//! An answer other than the expected one is counted as a difference, and a count never falls. So
//! the report ends in `0 differ` only where no answer that was compared differed. No contract says
//! what the cases show.
#![tactic(auto)]

mod answer;
mod case_input;
mod counts;
mod escape;
mod fault;
mod program;
mod questions;
mod runner;
mod runs;
mod table_line;
mod words;

pub use answer::Transcript;
pub use case_input::CaseInput;
pub use counts::CaseCounts;
pub use escape::{digit, unescape};
pub use fault::TableFault;
pub use program::run_program;
pub use questions::{Answered, Questions, Unanswered};
pub use runner::run_table;
pub use runs::Runs;
pub use words::CaseWords;
