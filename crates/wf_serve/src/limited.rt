//! A peer with a time limit.
ghost use Rattle.std.specs.Prelude.{◌<◌, ◌++◌, IfOk};
ghost use Rattle.std.specs.Duration.{as_nanos};
ghost use Rattle.std.specs.Io.{ReadsAtMost, WritesAtMost};

use std::io;
use std::io::{ErrorKind, IoSlice, Read};
use std::net::TcpStream;
use std::time::{Clock, Duration, Instant};

/// One direction of a connection, with one time limit for all its reads or writes together. The
/// time starts with the first call, and a call still waiting at its end is given up.
#[derive(Drop)]
pub(crate) struct TimeLimited<'a, R: Clock> {
    clock: &'a R,
    stream: &'a TcpStream,
    time: Duration,
    end: Option<Instant>,
}

impl<'a, R: Clock> TimeLimited<'a, R> {
    /// A direction not used yet.
    pub(crate) fn new(clock: &'a R, stream: &'a TcpStream, time: Duration) -> Self {
        TimeLimited {
            clock,
            stream,
            time,
            end: None,
        }
    }

    /// Reads once, and again if a signal interrupted it. `TimedOut` or `WouldBlock` if the time
    /// ends before bytes come.
    pub(crate) fn read(&mut self, buf: &mut [u8]) -> io::Result<usize>
        ensures { ReadsAtMost result buf.new }
    {
        for _ in 0..u64::MAX {
            match self.read_once(buf) {
                Err(error) if error.kind() == ErrorKind::Interrupted => {}
                outcome => return outcome,
            }
        }
        Err(io::Error::from(ErrorKind::TimedOut))
    }

    /// Writes once, some bytes from the front of two buffers, and again if a signal interrupted it.
    /// `TimedOut` or `WouldBlock` if the time ends before the peer takes any.
    pub(crate) fn write(&mut self, one: &[u8], two: &[u8]) -> io::Result<usize>
        ensures { WritesAtMost result (one.now ++ two.now) }
    {
        for _ in 0..u64::MAX {
            match self.write_once(one, two) {
                Err(error) if error.kind() == ErrorKind::Interrupted => {}
                outcome => return outcome,
            }
        }
        Err(io::Error::from(ErrorKind::TimedOut))
    }

    /// Sets what is left of the time, and reads: two calls of the system.
    fn read_once(&mut self, buf: &mut [u8]) -> io::Result<usize>
        ensures { ReadsAtMost result buf.new }
    {
        let left = self.left()?;
        self.stream.set_read_timeout(Some(left))?;
        let mut stream = self.stream;
        stream.read(buf)
    }

    /// Sets what is left of the time, and writes both buffers at once: two calls of the system.
    fn write_once(&mut self, one: &[u8], two: &[u8]) -> io::Result<usize>
        ensures { WritesAtMost result (one.now ++ two.now) }
    {
        let left = self.left()?;
        self.stream.set_write_timeout(Some(left))?;
        self.stream
            .write_vectored(&[IoSlice::new(one), IoSlice::new(two)])
    }

    /// The remaining time. `TimedOut` if there is none.
    fn left(&mut self) -> io::Result<Duration>
        ensures { IfOk result (λ left. 0 < as_nanos left) }
    {
        let now = Instant::now(self.clock)?;
        match self.end_from(now) {
            Some(end) => time_between(now, end),
            None => Err(io::Error::from(ErrorKind::TimedOut)),
        }
    }

    /// When the time ends; it starts now if it hasn't yet. None if the clock can't represent the
    /// end.
    fn end_from(&mut self, now: Instant) -> Option<Instant> {
        if self.end.is_none() {
            self.end = now.checked_add(self.time);
        }
        self.end
    }
}

/// The time from now to `end`. `TimedOut` if that is reached.
fn time_between(now: Instant, end: Instant) -> io::Result<Duration>
    ensures { IfOk result (λ left. 0 < as_nanos left) }
{
    let left = end.saturating_duration_since(now);
    if left.is_zero() {
        return Err(io::Error::from(ErrorKind::TimedOut));
    }
    Ok(left)
}
