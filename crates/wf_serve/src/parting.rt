//! Closing a connection after its response.

use crate::timed_reader::TimedReader;
use std::net::{Shutdown, TcpStream};
use std::time::{Clock, Duration};
use wf_edge::Outcome;
use wf_stream::Source;

/// The time for which a client may go on sending after its response, in seconds.
const LINGER_SECONDS: u64 = 1;

/// The number of further reads then, and the size of each.
const MOST_PIECES: u32 = 128;

const PIECE_BYTES: usize = 8_192;

/// The least status of a rejection.
const LEAST_REJECTION: u16 = 400;

/// Ends the response, and drops what the client still sends, until it closes or its time is over:
/// if the connection were closed with unread bytes, the system could discard the rest of the
/// response. A client that has sent nothing after its request isn't waited for, unless the request
/// was rejected: then it may still be sending it.
pub(crate) fn part<R: Clock>(clock: &R, stream: &TcpStream, outcome: Outcome) {
    let may_send = is_rejection(outcome) || has_more(stream);
    if may_send && stream.shutdown(Shutdown::Write).is_ok() {
        let time = Duration::from_secs(LINGER_SECONDS);
        drop_all(&mut TimedReader::new(clock, stream, time));
    }
}

/// Whether the request was rejected; then it may not have been read completely.
fn is_rejection(outcome: Outcome) -> bool {
    match outcome {
        Outcome::Sent(status, _) => LEAST_REJECTION <= status,
        Outcome::WriteFailed(..) | Outcome::ReadFailed | Outcome::NoRequest => false,
    }
}

/// Whether there are unread bytes; doesn't wait for any.
fn has_more(stream: &TcpStream) -> bool {
    if stream.set_nonblocking(true).is_err() {
        return false;
    }
    let is_found = matches!(stream.peek(&mut [0u8]), Ok(1));
    is_found && stream.set_nonblocking(false).is_ok()
}

/// Reads to the end, or a limited number of pieces, and drops them.
fn drop_all<S: Source>(source: &mut S) {
    let mut piece = [0u8; PIECE_BYTES];
    for _ in 0..MOST_PIECES {
        match source.read(&mut piece) {
            Ok(0) | Err(_) => return,
            Ok(_) => {}
        }
    }
}
