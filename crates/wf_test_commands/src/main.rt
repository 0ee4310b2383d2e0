//! Test cases about scripts and command lines: what a script writes, what a command line asks for,
//! and what the commands write, with their error lines; folders after a power cut, also within
//! `init` and a start; files, connections, clocks and limits of this machine; and farms of the
//! processes that two commands start, which are simulated.
//!
//! Standard input is a table of cases (`wf_test_table` defines its format). The program compares
//! each answer with the expected one and writes each difference, with the counts on the last line.
//! [`played`] has the questions about scripts, [`fused`] that about runs in which a tape fails,
//! [`commands`] those about the commands' output, [`lines`] those about command lines,
//! [`process_lines`] those about `init`, `node` and `replica`, [`folders`] those about a farm's
//! folder, [`process`] that about a whole process, `wf_test_store` those about a folder in memory,
//! `wf_test_failures` those about this machine, `wf_test_simulation` those about simulated farms,
//! and [`questions`] all by their names.
//!
//! It has no contract of its own: its answers are those of `wf_play`, `wf_farm` and `wf_commands`.
#![tactic(auto)]

mod broken;
mod commands;
mod folders;
mod fused;
mod lines;
mod names;
mod played;
mod process;
mod process_lines;
mod questions;
mod recorder;

use questions::CommandQuestions;
use std::process::ExitCode;
use wf_test_table::run_program;

fn main(rt: HostRuntime) -> ExitCode {
    run_program(&rt, &CommandQuestions(&rt))
}
