//! Names of the map service, and of its answers over HTTP.

use wf_edge::{
    Bytes, Inbox, InboxFault, Outcome, Output, Served, Sink, Source, Stream, serve_one,
    serve_one_cached,
};
use wf_tape::MemoryTape;
use wf_wms::{Answer, Cache, Exception, Kind, answer, answer_cached, describe};

/// The calls.
pub fn calls() {
    let _ = answer;
    let _ = answer_cached;
    let _ = describe;
    let _ = Cache::new;
    let _ = serve_one::<Bytes<'_>, Output, MemoryTape>;
    let _ = serve_one_cached::<Bytes<'_>, Output, MemoryTape>;
    let _ = Inbox::new;
    let _ = Inbox::feed;
}

/// The calls of a reader and a writer.
pub fn stream_calls<S: Source, K: Sink>() {
    let _ = S::read;
    let _ = K::write;
}

/// A reader or a writer of the system's.
pub struct Connection<'a, S> {
    pub stream: &'a Stream<S>,
}

/// The fields of an answer.
pub fn fields(answer: &Answer) -> (&'static str, &[u8]) {
    (answer.media, &answer.bytes)
}

/// The kinds of answer.
pub fn kind(kind: Kind) -> Option<Exception> {
    match kind {
        Kind::Capabilities | Kind::Map => None,
        Kind::Exception(exception) => Some(exception),
    }
}

/// What serving a request came to.
pub fn outcome(served: &Served) -> (u16, u64, usize) {
    match served.outcome {
        Outcome::Sent(status, count) => (status, count, served.messages.len()),
        Outcome::WriteFailed(status, count) => (status, count, served.messages.len()),
        Outcome::ReadFailed => (1, 0, served.messages.len()),
        Outcome::NoRequest => (0, 0, served.messages.len()),
    }
}

/// An error of an inbox.
pub fn is_short(fault: InboxFault) -> bool {
    match fault {
        InboxFault::Short => true,
        _ => false,
    }
}
