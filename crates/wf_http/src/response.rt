//! Responses, and how they are written.
ghost use Rattle.std.specs.Prelude.{◌≡◌, ◌≤◌, ◌++◌, ℕ, false, List, [], length, take, IfOk, IfErr, OnOk, OnErr};
ghost use Rattle.std.specs.Io.KnownBytes.{Appends};
ghost use Rattle.wf_stream.specs.Effects.{Rises};
ghost use Rattle.wf_http.specs.WriteEnd.{BreaksOff, IsWriting};
ghost use Rattle.wf_http.specs.Response.{reason, allow_line, head_bytes, response_bytes, IsCount, WritesPart};

use crate::gathered::Gathered;
use crate::http_error::Allowed;
use http::StatusCode;
use itoa::Buffer;
use std::marker::Model;
use wf_stream::{Sink, write_all};

/// A writer failed. This many bytes were written before.
#[derive(Clone, Copy)]
pub struct CutShort {
    pub written: u64,
}

// The progress of writing a response.
#[derive(Drop)]
struct WriteProgress {
    // the number of bytes written
    written: u64,
    // the writer has failed, and nothing more is written
    failed: bool,
}

impl WriteProgress {
    // Nothing is written yet.
    fn start() -> Self
        ensures { result ≡ record { written = 0; failed = false } }
    {
        WriteProgress {
            written: 0,
            failed: false,
        }
    }
}

// Writes one more piece, unless the writer has failed.
fn put<K: Sink>(sink: &mut K, progress: &mut WriteProgress, piece: &[u8])
    ensures { (first : K) (bytes : List ℕ) →
        IsWriting K.Sink first bytes sink.old progress.old.written progress.old.failed →
        IsWriting K.Sink first (bytes ++ piece.now)
        sink.new progress.new.written progress.new.failed }
{
    if progress.failed {
        return;
    }
    match write_all(sink, piece) {
        Ok(()) => progress.written = progress.written.saturating_add(piece.len() as u64),
        Err(count) => {
            progress.written = progress.written.saturating_add(count as u64);
            progress.failed = true;
        }
    }
}

// Writes two more pieces, in one call where the writer takes both, unless it has failed.
fn put_pair<K: Sink>(sink: &mut K, progress: &mut WriteProgress, one: &[u8], two: &[u8])
    ensures { (first : K) (bytes : List ℕ) →
        IsWriting K.Sink first bytes sink.old progress.old.written progress.old.failed →
        IsWriting K.Sink first (bytes ++ (one.now ++ two.now))
        sink.new progress.new.written progress.new.failed }
{
    if progress.failed {
        return;
    }
    match sink.write_pair(one, two) {
        Ok(count) => {
            progress.written = progress.written.saturating_add(count as u64);
            put_rest(sink, progress, one, two, count);
        }
        Err(_) => progress.failed = true,
    }
}

// Writes what is left of two pieces after so many bytes of them.
fn put_rest<K: Sink>(
    sink: &mut K,
    progress: &mut WriteProgress,
    one: &[u8],
    two: &[u8],
    count: usize,
)
    requires { count ≤ length (one.now ++ two.now) }
    ensures { (first : K) (bytes : List ℕ) →
        IsWriting K.Sink first (bytes ++ take count (one.now ++ two.now))
        sink.old progress.old.written progress.old.failed →
        IsWriting K.Sink first (bytes ++ (one.now ++ two.now))
        sink.new progress.new.written progress.new.failed }
{
    if count < one.len() {
        put(sink, progress, one.split_at(count).1);
        put(sink, progress, two);
    } else {
        put(sink, progress, two.split_at(count - one.len()).1);
    }
}

// The phrase of a status.
#[tactic(auto, unfolding(crate::specs::Response::reason))]
fn reason(status: StatusCode) -> &'static str
    ensures { result.now ≡ reason status }
{
    match status.canonical_reason() {
        Some(phrase) => phrase,
        None => "",
    }
}

// Writes the line with the allowed method, if there is one.
fn put_allow_line<K: Sink>(sink: &mut K, progress: &mut WriteProgress, allowed: Option<Allowed>)
    ensures { (first : K) (bytes : List ℕ) →
        IsWriting K.Sink first bytes sink.old progress.old.written progress.old.failed →
        IsWriting K.Sink first (bytes ++ allow_line allowed)
        sink.new progress.new.written progress.new.failed }
{
    if let Some(allowed) = allowed {
        let method = allowed.method();
        put(sink, progress, b"Allow: ");
        put(sink, progress, method.as_str().as_bytes());
        put(sink, progress, b"\r\n");
    }
}

/// A response.
#[derive(Drop)]
pub struct Response<'b> {
    status: StatusCode,
    media: &'b str,
    allowed: Option<Allowed>,
    body: &'b [u8],
}

impl<'b> Model for Response<'b> {
    ghost use Rattle.wf_http.specs.Response.{Response as ResponseValue};

    ghost Value = { ResponseValue };

    ghost view = { λ r.
        record { status = r.status; media = r.media.now; allowed = r.allowed; body = r.body.now } };
}

impl<'b> Response<'b> {
    /// A response with a status, and a body of a media type; with status 405 the allowed method.
    pub fn new(status: StatusCode, media: &'b str, allowed: Option<Allowed>, body: &'b [u8]) -> Self
        ensures { result
            ≡ record { status = status; media = media.now; allowed = allowed; body = body.now } }
    {
        Response {
            status,
            media,
            allowed,
            body,
        }
    }

    /// The status code.
    pub fn status(&self) -> u16
        ensures { result ≡ self.now.status }
    {
        self.status.as_u16()
    }

    // Writes the lines before the body.
    fn put_lines<K: Sink>(&self, sink: &mut K, progress: &mut WriteProgress)
        ensures { (first : K) →
            IsWriting K.Sink first [] sink.old progress.old.written progress.old.failed →
            IsWriting K.Sink first (head_bytes self.now)
            sink.new progress.new.written progress.new.failed }
    {
        let mut digits = Buffer::new();
        put(sink, progress, b"HTTP/1.1 ");
        put(sink, progress, self.status.as_str().as_bytes());
        put(sink, progress, b" ");
        put(sink, progress, reason(self.status).as_bytes());
        put(sink, progress, b"\r\nContent-Type: ");
        put(sink, progress, self.media.as_bytes());
        put(sink, progress, b"\r\nContent-Length: ");
        put(sink, progress, digits.format(self.body.len()).as_bytes());
        put(sink, progress, b"\r\n");
        put_allow_line(sink, progress, self.allowed);
        put(sink, progress, b"Connection: close\r\n\r\n");
    }

    // Writes the lines before the body, gathered if they fit the buffer, and the body with them.
    fn put_all<K: Sink>(&self, sink: &mut K, progress: &mut WriteProgress)
        ensures { (first : K) →
            IsWriting K.Sink first [] sink.old progress.old.written progress.old.failed →
            IsWriting K.Sink first (response_bytes self.now)
            sink.new progress.new.written progress.new.failed }
    {
        let mut head = Gathered::new();
        let mut gathering = WriteProgress::start();
        self.put_lines(&mut head, &mut gathering);
        if gathering.failed {
            self.put_lines(sink, progress);
            put(sink, progress, self.body);
        } else {
            put_pair(sink, progress, head.bytes(), self.body);
        }
    }

    /// Writes the response without allocating, its head and its body in one call where the writer
    /// takes both, and returns its number of bytes. If the writer fails, a prefix of the response
    /// is written, and the failed call is the last.
    pub fn write<K: Sink>(&self, sink: &mut K) -> Result<u64, CutShort>
        ensures whole { OnOk result
            (Appends (K.written sink.old) (K.written sink.new) (response_bytes self.now)) }
        ensures count { IfOk result (IsCount (length (response_bytes self.now))) }
        ensures part { IfErr result (λ cut. WritesPart
            (response_bytes self.now) (K.written sink.old) (K.written sink.new) cut.written) }
        ensures calm { OnOk result (K.failures sink.new ≡ K.failures sink.old) }
        ensures cause { OnErr result (Rises (K.failures sink.old) (K.failures sink.new)) }
        // No call comes after one that failed.
        ensures last { IfErr result (λ cut.
            BreaksOff K.Sink (response_bytes self.now) sink.old sink.new cut.written) }
    {
        let mut progress = WriteProgress::start();
        self.put_all(sink, &mut progress);
        if progress.failed {
            Err(CutShort {
                written: progress.written,
            })
        } else {
            Ok(progress.written)
        }
    }
}
