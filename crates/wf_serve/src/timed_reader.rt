//! The request of a connection.
ghost use Rattle.std.specs.Prelude.{◌≡◌, IfOk};
ghost use Rattle.wf_stream.specs.Effects.{Counts};

use crate::limited::TimeLimited;
use crate::noted::Noted;
use std::io;
use std::io::ErrorKind;
use std::net::TcpStream;
use std::time::{Clock, Duration};
use wf_stream::Source;

/// What a client sends, within a time limit. At its end the input counts as ended, so that a client
/// that stays gets the response to what it has sent. Its first bytes are kept for the log.
#[derive(Drop)]
pub(crate) struct TimedReader<'a, R: Clock> {
    peer: TimeLimited<'a, R>,
    noted: Noted,
    failures: u64,
}

impl<'a, R: Clock> TimedReader<'a, R> {
    /// None of it is read yet.
    pub(crate) fn new(clock: &'a R, stream: &'a TcpStream, time: Duration) -> Self {
        TimedReader {
            peer: TimeLimited::new(clock, stream, time),
            noted: Noted::new(),
            failures: 0,
        }
    }

    /// Its first bytes.
    pub(crate) fn first(&self) -> &[u8] {
        self.noted.bytes()
    }

    /// What a failed read returns: the end if the time is over, otherwise its error.
    fn fail(&mut self, error: io::Error) -> io::Result<usize>
        ensures end { IfOk result (λ count. count ≡ 0) }
        ensures cause { Counts result self.old.failures self.new.failures }
    {
        if is_timeout(error.kind()) {
            return Ok(0);
        }
        self.failures = self.failures.saturating_add(1);
        Err(error)
    }
}

/// Whether an error says that the time has ended: the system reports it in one of two ways.
fn is_timeout(kind: ErrorKind) -> bool {
    matches!(kind, ErrorKind::TimedOut | ErrorKind::WouldBlock)
}

impl<'a, R: Clock> Source for TimedReader<'a, R> {
    ghost failures = { λ incoming. incoming.failures };

    fn read(&mut self, buf: &mut [u8]) -> io::Result<usize> {
        match self.peer.read(buf) {
            Ok(count) => {
                self.noted.note(&buf[..count]);
                Ok(count)
            }
            Err(error) => self.fail(error),
        }
    }
}
