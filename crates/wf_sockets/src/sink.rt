//! Connections as sinks.
ghost use Rattle.std.specs.Prelude.{◌≡◌, Some};
ghost use Rattle.wf_sockets.specs.ConnectionSink.{connection_of, failures_of};
ghost use Rattle.wf_stream.specs.Effects.{IsOneMore};

use crate::connection::Connection;
use crate::moved::Moved;
use std::io;
use std::io::ErrorKind;
use wf_stream::Sink;

/// A connection as a sink, with a count of its failed writes. One that takes no byte now fails by
/// `WouldBlock`.
#[derive(Drop)]
pub struct ConnectionSink<'a, C> {
    connection: &'a mut C,
    failures: u64,
}

impl<'a, C> ConnectionSink<'a, C> {
    /// A sink without failed writes.
    pub fn new(connection: &'a mut C) -> Self
        ensures connection { connection_of result ≡ connection.old }
        ensures failures { failures_of result ≡ 0 }
    {
        ConnectionSink {
            connection,
            failures: 0,
        }
    }
}

/// Why no byte was taken.
fn error_of(moved: Moved) -> io::Error {
    let kind = match moved {
        Moved::Blocked => ErrorKind::WouldBlock,
        Moved::Bytes(_) | Moved::Closed | Moved::Failed => ErrorKind::BrokenPipe,
    };
    io::Error::from(kind)
}

impl<'a, C: Connection> Sink for ConnectionSink<'a, C> {
    ghost written = { λ sink. Some (C.sent sink.connection.now) };

    ghost failures = { λ sink. sink.failures };

    // one more failed write, and no byte sent
    ghost fails = { λ before after. IsOneMore before.failures after.failures × (C.sent after.connection.now ≡ C.sent before.connection.now) };

    fn write(&mut self, buf: &[u8]) -> io::Result<usize> {
        if buf.is_empty() {
            return Ok(0);
        }
        match self.connection.write(buf) {
            Moved::Bytes(count) => Ok(count),
            moved => {
                self.failures = self.failures.saturating_add(1);
                Err(error_of(moved))
            }
        }
    }
}
