//! The commands on bytes in memory.
use std::alloc::Global;
use wf_ballot::Seq;
use wf_commands::{RunFault, run_canon, run_caps, run_check};
use wf_line::Format;
use wf_stream::Stream;
use wf_test_table::{Answered, CaseInput, Transcript, Unanswered, unescape};

/// Appends the line for standard error, where a command failed.
pub(crate) fn write_outcome(outcome: Result<(), RunFault>, answer: &mut Transcript) {
    if let Err(fault) = outcome {
        answer.value(fault);
        answer.line("");
    }
}

// The command `canon` on bytes in memory.
fn run_canon_on(alloc: Global, input: &[u8], output: &mut Transcript) -> Result<(), RunFault> {
    let mut source = Stream::new(input);
    let mut sink = Stream::new(output.target());
    run_canon(alloc, &mut source, &mut sink)
}

/// `canon`: what the command `canon` writes, or its error line.
pub(crate) fn canon(asked: CaseInput<'_>, answer: &mut Transcript) -> Answered {
    let outcome = run_canon_on(asked.alloc, asked.input, answer);
    write_outcome(outcome, answer);
    Ok(())
}

// The command `check` on bytes in memory.
fn run_check_on(alloc: Global, input: &[u8], output: &mut Transcript) -> Result<(), RunFault> {
    let mut source = Stream::new(input);
    let mut sink = Stream::new(output.target());
    run_check(alloc, Format::Text, &mut source, &mut sink)
}

/// `check`: what the command `check` writes, and its error line or `fine`.
pub(crate) fn check(asked: CaseInput<'_>, answer: &mut Transcript) -> Answered {
    match run_check_on(asked.alloc, asked.input, answer) {
        Ok(()) => answer.line("fine"),
        Err(fault) => write_outcome(Err(fault), answer),
    }
    Ok(())
}

fn is_written(bytes: &[u8], output: &Transcript) -> bool {
    match output.finished_text() {
        Ok(written) => written == bytes,
        Err(_) => false,
    }
}

fn write_canon_again(alloc: Global, once: &[u8], answer: &mut Transcript) {
    let mut twice = Transcript::new(alloc);
    match run_canon_on(alloc, once, &mut twice) {
        Ok(()) => answer.line(if is_written(once, &twice) {
            "the same again"
        } else {
            "another text"
        }),
        Err(fault) => write_outcome(Err(fault), answer),
    }
    drop(twice);
}

fn write_canon_twice(alloc: Global, once: &Transcript, answer: &mut Transcript) -> Answered {
    let once = once.finished_text()?;
    answer.count(once.len());
    answer.text(" bytes, ");
    write_canon_again(alloc, once, answer);
    Ok(())
}

/// `canon_twice`: the length of the canonical text, and whether this text's own canonical text is
/// the same.
pub(crate) fn canon_twice(asked: CaseInput<'_>, answer: &mut Transcript) -> Answered {
    let mut once = Transcript::new(asked.alloc);
    let reported_as = match run_canon_on(asked.alloc, asked.input, &mut once) {
        Ok(()) => write_canon_twice(asked.alloc, &once, answer),
        Err(fault) => {
            write_outcome(Err(fault), answer);
            Ok(())
        }
    };
    drop(once);
    reported_as
}

fn write_caps(
    asked: CaseInput<'_>,
    sequence: Seq,
    query: &Transcript,
    answer: &mut Transcript,
) -> Answered {
    let query = query.finished_text()?;
    let mut source = Stream::new(asked.input);
    let mut sink = Stream::new(answer.target());
    let outcome = run_caps(
        asked.alloc,
        &mut source,
        &mut sink,
        sequence.number(),
        query,
    );
    drop(sink);
    write_outcome(outcome, answer);
    Ok(())
}

/// `caps SEQ QUERY`: what the command `caps` writes about the input, or its error line. QUERY is
/// spelled with escapes.
pub(crate) fn caps(mut asked: CaseInput<'_>, answer: &mut Transcript) -> Answered {
    let Some(sequence) = Seq::new(asked.words.short()?) else {
        return Err(Unanswered::BadWords);
    };
    let mut query = Transcript::new(asked.alloc);
    let reported_as = match unescape(asked.words.rest(), &mut query) {
        Ok(()) => write_caps(asked, sequence, &query, answer),
        Err(unanswered) => Err(unanswered),
    };
    drop(query);
    reported_as
}
