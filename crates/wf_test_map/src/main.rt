//! Test cases about numbers, texts, definitions, tokens, mapfiles, canonical texts, requests about
//! a map, and the HTTP edge of a node: requests as bytes, what is read of them or answered at once,
//! and what a node answers; about pictures; and about the parts of a node, call by call.
//!
//! Standard input is a table of cases (`wf_test_table` defines its format); standard output is the
//! report, whose last line has the counts. Questions about pictures are those of `wf_test_paint`,
//! about the parts of a node those of `wf_test_farm`, and about texts, definitions and mapfiles
//! those of `wf_test_questions`; each of the others is one function, by subject: `requests`,
//! `maps`, `cached`, `reports`, `edge`.
//!
//! The program is proved to be safe and to return, and nothing more: what the cases show is in the
//! table.
#![tactic(auto)]

mod alone;
mod broken;
mod cached;
mod edge;
mod exchange;
mod failing_streams;
mod maps;
mod published;
mod questions;
mod reports;
mod requests;
mod requests_in_turn;

use questions::MapQuestions;
use std::process::ExitCode;
use wf_test_table::run_program;

fn main(rt: HostRuntime) -> ExitCode {
    run_program(&rt, &MapQuestions)
}
