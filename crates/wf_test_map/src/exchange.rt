//! How a request is read and its response written; and a request that is read, or answered at once.
use crate::failing_streams::{FailingCalls, Failure, Faltering, Taking};
use std::alloc::Global;
use std::io::ErrorKind;
use wf_edge::{Outcome, Request, RequestedResource as Resource, write_error};
use wf_stream::Stream;
use wf_test_table::{Answered, CaseInput, CaseWords, Transcript, Unanswered};

/// More bytes than any request or response of a case has.
const ALL: usize = 4_194_304;

/// How a request is read and its response written.
#[derive(Clone, Copy)]
pub(crate) struct Exchange {
    // how many bytes a read gives at most
    piece: usize,
    // which reads fail, and how
    failure: Option<Failure>,
    // how many bytes the writer takes
    room: usize,
    // how the writer is called, where that is told
    writing: Option<Writing>,
}

/// How many bytes a write takes at most, and which writes fail.
#[derive(Clone, Copy)]
struct Writing {
    piece: usize,
    failure: Option<Failure>,
}

impl Exchange {
    // A request that comes in one piece, and a response that is taken whole.
    const WHOLE: Exchange = Exchange {
        piece: ALL,
        failure: None,
        room: ALL,
        writing: None,
    };

    /// The way that words name; without words the request comes in one piece, and the response is
    /// taken whole.
    pub(crate) fn read(mut words: CaseWords<'_>) -> Result<Exchange, Unanswered> {
        match words.word() {
            "" => Ok(Exchange::WHOLE),
            "by" => Exchange::read_piece(words),
            "room" => Ok(Exchange {
                room: words.count()?,
                ..Exchange::WHOLE
            }),
            "writing" => Exchange::read_writing(words),
            _ => Err(Unanswered::UnknownQuestion),
        }
    }

    // Reads `N` or `N HOW WHICH`: so these calls of the reader fail.
    fn read_piece(mut words: CaseWords<'_>) -> Result<Exchange, Unanswered> {
        let piece = words.count()?;
        let failure = read_failure(words)?;
        Ok(Exchange {
            piece,
            failure,
            ..Exchange::WHOLE
        })
    }

    // Reads the same of the writer.
    fn read_writing(mut words: CaseWords<'_>) -> Result<Exchange, Unanswered> {
        let piece = words.count()?;
        let failure = read_failure(words)?;
        Ok(Exchange {
            writing: Some(Writing { piece, failure }),
            ..Exchange::WHOLE
        })
    }

    /// The reader that gives a request in this way.
    pub(crate) fn reader(self, input: &[u8]) -> Result<Stream<Faltering<'_>>, Unanswered> {
        if self.piece == 0 {
            return Err(Unanswered::BadWords);
        }
        Ok(Stream::new(Faltering::new(input, self.piece, self.failure)))
    }

    /// The writer that takes a response in this way.
    pub(crate) fn writer(self, alloc: Global) -> Stream<Taking> {
        let Writing { piece, failure } = self.writing.unwrap_or(Writing {
            piece: ALL,
            failure: None,
        });
        Stream::new(Taking::new(alloc, self.room, piece, failure))
    }

    /// Appends how many reads there were, where more than one may have failed.
    fn write_reads(self, reader: &Faltering<'_>, answer: &mut Transcript) {
        if self.failure.is_some_and(|failure| failure.is_repeated()) {
            answer.value(reader.calls());
            answer.line(" reads");
        }
    }

    /// Appends what was written, in whole lines, and by how many writes, where that is told.
    pub(crate) fn write_written(self, writer: &Taking, answer: &mut Transcript) {
        write_lines(writer.bytes(), answer);
        if self.writing.is_some() {
            answer.value(writer.calls());
            answer.line(" writes");
        }
    }
}

// Reads `HOW WHICH`, or nothing.
fn read_failure(mut words: CaseWords<'_>) -> Result<Option<Failure>, Unanswered> {
    let kind = match words.word() {
        "" => return Ok(None),
        "failing" => ErrorKind::ConnectionReset,
        "interrupted" => ErrorKind::Interrupted,
        "timed-out" => ErrorKind::TimedOut,
        "out-of-memory" => ErrorKind::OutOfMemory,
        _ => return Err(Unanswered::BadWords),
    };
    let calls = read_calls(words)?;
    Ok(Some(Failure { calls, kind }))
}

// Reads `at K`, where the K-th call fails, counted from 1; `each K`, where K calls fail before each
// one that doesn't; or `always`.
fn read_calls(mut words: CaseWords<'_>) -> Result<FailingCalls, Unanswered> {
    match words.word() {
        "at" => Ok(FailingCalls::One(words.count()?.saturating_sub(1) as u64)),
        "each" => match u32::try_from(words.count()?) {
            Ok(count) => Ok(FailingCalls::BeforeEach(count)),
            Err(_) => Err(Unanswered::BadWords),
        },
        "always" => Ok(FailingCalls::All),
        _ => Err(Unanswered::BadWords),
    }
}

fn write_counted(what: &str, status: u16, count: u64, answer: &mut Transcript) {
    answer.text(what);
    answer.value(status);
    answer.text(", ");
    answer.value(count);
    answer.line(" bytes");
}

/// Appends what became of a request.
pub(crate) fn write_outcome(outcome: Outcome, answer: &mut Transcript) {
    match outcome {
        Outcome::Sent(status, count) => write_counted("sent ", status, count, answer),
        Outcome::WriteFailed(status, count) => write_counted("cut ", status, count, answer),
        Outcome::ReadFailed => answer.line("read failed"),
        Outcome::NoRequest => answer.line("no request"),
    }
}

fn name(resource: Resource) -> &'static str {
    match resource {
        Resource::Wms => "heard wms, query [",
        Resource::Status => "heard status, query [",
        Resource::Publish(_) => "heard publish, query [",
    }
}

// Appends what a request asks for, its query and the length of its body.
fn write_request(request: &Request, answer: &mut Transcript) {
    answer.text(name(request.resource()));
    answer.bytes(request.query());
    answer.text("], body ");
    answer.count(request.body().len());
    answer.line(" bytes");
}

// Appends what was written, in whole lines.
fn write_lines(written: &[u8], answer: &mut Transcript) {
    answer.bytes(written);
    match written.last() {
        Some(last) if *last != b'\n' => answer.line(""),
        _ => {}
    }
}

/// Appends what was read of a request in this way, or the outcome, and what was written.
pub(crate) fn write_received(
    asked: CaseInput<'_>,
    way: Exchange,
    answer: &mut Transcript,
) -> Answered {
    let mut reader = way.reader(asked.input)?;
    let mut writer = way.writer(asked.alloc);
    match Request::read(asked.alloc, &mut reader) {
        Ok(request) => {
            write_request(&request, answer);
            drop(request);
        }
        Err(fault) => write_outcome(write_error(&mut writer, fault), answer),
    }
    way.write_written(writer.inner(), answer);
    way.write_reads(reader.inner(), answer);
    drop(writer);
    drop(reader);
    Ok(())
}
