//! Command lines.
use crate::recorder::{Recorder, folder_with};
use clap::Error;
use std::alloc::Global;
use wf_commands::{Ending, rejection_status, run_words};
use wf_farm::Carrier;
use wf_line::{Format, Line, Service, line};
use wf_store::MemoryFolder;
use wf_stream::Stream;
use wf_test_table::{Answered, CaseInput, Transcript, Unanswered, unescape};

fn write_service(service: Service<'_>, answer: &mut Transcript) {
    answer.text("serve ");
    answer.value(service.nodes);
    answer.text(" ");
    answer.value(service.port);
    answer.text(" ");
    answer.value(service.requests);
    answer.text(", kept ");
    answer.value(service.cache);
    if let Some(folder) = service.state {
        write_bracketed(folder, answer);
    }
    if service.log {
        answer.text(", log");
    }
    answer.line("");
}

pub(crate) fn write_bracketed(text: &str, answer: &mut Transcript) {
    answer.texts(&[" [", text, "]"]);
}

fn write_line(asked_for: Line<'_>, answer: &mut Transcript) {
    match asked_for {
        Line::Canon => answer.line("canon"),
        Line::Check {
            format: Format::Text,
        } => answer.line("check"),
        Line::Check {
            format: Format::Json,
        } => answer.line("check json"),
        Line::Run => answer.line("run"),
        Line::Wire => answer.line("wire"),
        Line::Tape { file, map } => {
            answer.text("tape");
            write_bracketed(file, answer);
            if let Some(sequence) = map {
                answer.text(" map ");
                answer.value(sequence);
            }
            answer.line("");
        }
        Line::Serve(service) => write_service(service, answer),
        Line::Caps { seq, query } => {
            answer.text("caps ");
            answer.value(seq);
            write_bracketed(query, answer);
            answer.line("");
        }
        Line::Draw { query } => {
            answer.text("draw");
            write_bracketed(query, answer);
            answer.line("");
        }
    }
}

// The exit status of a rejected command line, whose text is printed.
pub(crate) fn status_of(error: Error) -> u8 {
    let status = rejection_status(error.kind(), true);
    drop(error);
    status
}

pub(crate) fn write_rejection(status: u8, answer: &mut Transcript) {
    answer.text("rejected with status ");
    answer.value(status);
    answer.line("");
}

// The words between the separators; none where there is nothing.
pub(crate) fn words_of<'a>(
    alloc: Global,
    text: &'a str,
    separator: char,
) -> Result<Vec<&'a str>, Unanswered> {
    let mut words = Vec::new(alloc);
    if !text.is_empty() {
        for word in text.split(separator) {
            if words.push(word).is_err() {
                return Err(Unanswered::Memory);
            }
        }
    }
    Ok(words)
}

// The words of a text with a word a line, with or without the last line feed.
fn words_of_lines<'a>(alloc: Global, text: &'a str) -> Result<Vec<&'a str>, Unanswered> {
    words_of(alloc, text.strip_suffix('\n').unwrap_or(text), '\n')
}

fn write_words(alloc: Global, words: &[&str], answer: &mut Transcript) {
    match line(alloc, words) {
        Ok(asked_for) => write_line(asked_for, answer),
        Err(error) => write_rejection(status_of(error), answer),
    }
}

/// `line`: what a command line asks for, or that it is rejected. Its words have spaces between;
/// `line in lines` has a word a line.
pub(crate) fn line_of(asked: CaseInput<'_>, answer: &mut Transcript) -> Answered {
    let text = asked.text()?;
    let words = match asked.words.rest() {
        "" => words_of(asked.alloc, text, ' ')?,
        "in lines" => words_of_lines(asked.alloc, text)?,
        _ => return Err(Unanswered::BadWords),
    };
    write_words(asked.alloc, &words, answer);
    drop(words);
    Ok(())
}

fn write_ending(ending: Ending, answer: &mut Transcript) {
    if let Some(fault) = ending.reported {
        answer.value(fault);
        answer.line("");
    }
    if ending.status != 0 {
        answer.text("status ");
        answer.value(ending.status);
        answer.line("");
    }
}

// Runs what a command line asks for. In place of serving nodes a line tells what is to be served.
fn write_run<C: Carrier>(
    asked: CaseInput<'_>,
    folder: &MemoryFolder,
    carrier: &mut C,
    words: &[&str],
    answer: &mut Transcript,
) {
    let mut source = Stream::new(asked.input);
    let mut sink = Stream::new(answer.target());
    let server = Recorder {
        alloc: asked.alloc,
        tape: asked.input,
        folder,
    };
    let outcome = run_words(asked.alloc, words, &mut source, &mut sink, &server, carrier);
    drop(sink);
    match outcome {
        Ok(ending) => write_ending(ending, answer),
        Err(error) => write_rejection(status_of(error), answer),
    }
}

/// `run WORDS`: what the program writes about the input, its error line, and the exit status if
/// that isn't 0. WORDS are the command line's, spelled with escapes, with `\n` between. The input
/// is also the file `node-0.tape`, the only one that there is, and each of two tapes in the folder
/// `farm`. The messages of `wire` come by the carrier.
pub(crate) fn run<C: Carrier>(
    asked: CaseInput<'_>,
    carrier: &mut C,
    answer: &mut Transcript,
) -> Answered {
    let mut text = Transcript::new(asked.alloc);
    let reported_as = match unescape(asked.words.rest(), &mut text) {
        Ok(()) => run_text(asked, carrier, &text, answer),
        Err(unanswered) => Err(unanswered),
    };
    drop(text);
    reported_as
}

fn run_text<C: Carrier>(
    asked: CaseInput<'_>,
    carrier: &mut C,
    text: &Transcript,
    answer: &mut Transcript,
) -> Answered {
    let Ok(text) = str::from_utf8(text.finished_text()?) else {
        return Err(Unanswered::BadWords);
    };
    let words = words_of(asked.alloc, text, '\n')?;
    let folder = folder_with(asked.alloc, asked.input)?;
    write_run(asked, &folder, carrier, &words, answer);
    drop(folder);
    drop(words);
    Ok(())
}
