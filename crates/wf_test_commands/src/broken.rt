//! The command `canon` between a reader and a writer, of which one fails at one of its calls.
use crate::commands::write_outcome;
use std::alloc::Global;
use std::io;
use std::io::{ErrorKind, Read, Write};
use wf_commands::{RunFault, run_canon};
use wf_stream::Stream;
use wf_test_table::{Answered, CaseInput, Transcript, Unanswered};

/// A mapfile: 63 bytes.
const MAPFILE: &[u8] = b"MAP NAME \"a\" EXTENT 0 0 4 4 PROJECTION \"init=epsg:4326\" END END";

/// Its canonical text: 164 bytes.
const CANONICAL: &[u8] =
    b"MAP\nNAME \"a\"\nEXTENT 0 0 4 4\nPROJECTION\n\"init=epsg:4326\"\nEND\nWEB\nMETADATA\n\"wms_title\" \"a\"\n\"wms_abstract\" \"\"\n\"wms_onlineresource\" \"http://localhost/wms?\"\nEND\nEND\nEND\n";

/// Gives 7 bytes a call, and fails at one of the calls.
#[derive(Drop)]
struct Pieces {
    rest: &'static [u8],
    calls: u64,
    failing: u64,
}

impl Read for Pieces {
    fn read(&mut self, buf: &mut [u8]) -> io::Result<usize> {
        if self.calls == self.failing {
            return Err(io::Error::from(ErrorKind::ConnectionReset));
        }
        self.calls = self.calls.saturating_add(1);
        let count = 7usize.min(self.rest.len()).min(buf.len());
        let (piece, rest) = self.rest.split_at(count);
        buf[..count].copy_from_slice(piece);
        self.rest = rest;
        Ok(count)
    }
}

/// Takes 41 bytes a call, if they are the expected ones, and fails at one of the calls.
#[derive(Drop)]
struct CheckedSink {
    awaited: &'static [u8],
    calls: u64,
    failing: u64,
}

impl Write for CheckedSink {
    fn write(&mut self, buf: &[u8]) -> io::Result<usize> {
        if self.calls == self.failing {
            return Err(io::Error::from(ErrorKind::BrokenPipe));
        }
        self.calls = self.calls.saturating_add(1);
        let count = 41usize.min(self.awaited.len()).min(buf.len());
        let (piece, rest) = self.awaited.split_at(count);
        if piece != &buf[..count] {
            return Ok(0);
        }
        self.awaited = rest;
        Ok(count)
    }

    fn flush(&mut self) -> io::Result<()> {
        Ok(())
    }
}

/// The outcome of a run whose reader and writer fail at these calls, and how many bytes weren't
/// written.
fn run_broken(
    alloc: Global,
    failing_read: u64,
    failing_write: u64,
) -> (Result<(), RunFault>, usize) {
    let mut reader = Pieces {
        rest: MAPFILE,
        calls: 0,
        failing: failing_read,
    };
    let mut writer = CheckedSink {
        awaited: CANONICAL,
        calls: 0,
        failing: failing_write,
    };
    let outcome = run_canon(
        alloc,
        &mut Stream::new(&mut reader),
        &mut Stream::new(&mut writer),
    );
    (outcome, writer.awaited.len())
}

/// A call that doesn't come.
const NEVER: u64 = 1_000;

/// The number of the call that fails: `-` where none does.
fn failing(word: &str) -> Result<u64, Unanswered> {
    match word {
        "-" => Ok(NEVER),
        _ => match word.parse::<u64>() {
            Ok(number) => Ok(number),
            Err(_) => Err(Unanswered::BadWords),
        },
    }
}

/// `canon_broken`: how `canon` ends, and how many bytes of the canonical text aren't written, where
/// a call of its reader and a call of its writer fail. The input is their numbers, counted from 0.
pub(crate) fn canon_broken(asked: CaseInput<'_>, answer: &mut Transcript) -> Answered {
    let (read, write) = asked.text()?.split_once(' ').unwrap_or(("", ""));
    let (outcome, left) = run_broken(asked.alloc, failing(read)?, failing(write)?);
    answer.count(left);
    answer.text(" bytes left: ");
    match outcome {
        Ok(()) => answer.line("done"),
        Err(fault) => write_outcome(Err(fault), answer),
    }
    Ok(())
}
