//! A program of cases, from its table to its exit status.
use crate::answer::Transcript;
use crate::questions::Questions;
use crate::runner::run_table;
use std::alloc::{AllocError, Global};
use std::io;
use std::process::ExitCode;

// Asks the cases of a table, appends the report, and returns whether each case's answer is the
// expected one.
fn is_right<Q: Questions>(
    alloc: Global,
    questions: &Q,
    table: &str,
    report: &mut Transcript,
) -> Result<bool, AllocError> {
    match run_table(alloc, questions, table, report) {
        Ok(counts) => Ok(counts.differing == 0 && counts.faults == 0),
        Err(error) => Err(error),
    }
}

fn print_report<R: Print>(rt: &R, report: &Transcript) -> io::Result<()> {
    let mut writer = io::writer(rt);
    io::Write::write_all(&mut writer, report.finished_text()?)
}

// Asks the cases of the table, and prints the report.
fn run<R: Input + Print + AllocGlobal, Q: Questions>(rt: &R, questions: &Q) -> io::Result<bool> {
    let table = io::read_to_string(rt.alloc(), rt.reader())?;
    let mut report = Transcript::new(rt.alloc());
    let is_right = is_right(rt.alloc(), questions, table.as_str(), &mut report)?;
    print_report(rt, &report)?;
    Ok(is_right)
}

/// Asks the cases of the table on standard input, writes the report to standard output, and
/// succeeds iff no answer differs and the table has no error.
pub fn run_program<R: Input + Print + AllocGlobal, Q: Questions>(
    rt: &R,
    questions: &Q,
) -> ExitCode {
    match run(rt, questions) {
        Ok(true) => ExitCode::SUCCESS,
        _ => ExitCode::FAILURE,
    }
}
