//! The response of a connection.
ghost use Rattle.std.specs.Prelude.{IsErr};
ghost use Rattle.wf_stream.specs.Effects.{IsOneMore};

use crate::limited::TimeLimited;
use crate::noted::Noted;
use std::io;
use std::io::ErrorKind;
use std::net::TcpStream;
use std::time::{Clock, Duration};
use wf_stream::Sink;

/// What is sent to a client, within a time limit; a write after its end fails. Two buffers are
/// written in one call of the system. The first bytes are kept for the log.
#[derive(Drop)]
pub(crate) struct TimedWriter<'a, R: Clock> {
    peer: TimeLimited<'a, R>,
    noted: Noted,
    failures: u64,
}

impl<'a, R: Clock> TimedWriter<'a, R> {
    /// None of it is written yet.
    pub(crate) fn new(clock: &'a R, stream: &'a TcpStream, time: Duration) -> Self {
        TimedWriter {
            peer: TimeLimited::new(clock, stream, time),
            noted: Noted::new(),
            failures: 0,
        }
    }

    /// Its first bytes.
    pub(crate) fn first(&self) -> &[u8] {
        self.noted.bytes()
    }

    /// What a failed write returns: its error.
    fn fail(&mut self, error: io::Error) -> io::Result<usize>
        ensures error { IsErr result }
        ensures cause { IsOneMore self.old.failures self.new.failures }
    {
        self.failures = self.failures.saturating_add(1);
        Err(error)
    }
}

impl<'a, R: Clock> Sink for TimedWriter<'a, R> {
    ghost failures = { λ outgoing. outgoing.failures };

    // one more failed call
    ghost fails = { λ before after. IsOneMore before.failures after.failures };

    fn write(&mut self, buf: &[u8]) -> io::Result<usize> {
        self.write_pair(&[], buf)
    }

    fn write_pair(&mut self, one: &[u8], two: &[u8]) -> io::Result<usize> {
        match self.peer.write(one, two) {
            // A peer that takes no byte has failed.
            Ok(0) if !(one.is_empty() && two.is_empty()) => {
                self.fail(io::Error::from(ErrorKind::WriteZero))
            }
            Ok(count) => {
                self.noted.note_pair(one, two, count);
                Ok(count)
            }
            Err(error) => self.fail(error),
        }
    }
}
