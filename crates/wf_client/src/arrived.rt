//! A reader of what has come of a request.
ghost use Rattle.std.specs.Prelude.{◌≡◌, length, min, take, drop};

use std::io;
use std::io::ErrorKind;
use wf_stream::Source;

/// A reader of the bytes that have come. At their end it fails with `WouldBlock` if more may come;
/// if the client has closed its side, that is the end of the input.
#[derive(Drop)]
pub struct Arrived<'b> {
    rest: &'b [u8],
    is_closed: bool,
    failures: u64,
}

impl<'b> Arrived<'b> {
    ghost use Rattle.wf_client.specs.Arrived.{failures_of, is_closed_of, rest_of};

    /// A reader of these bytes.
    pub fn new(bytes: &'b [u8], is_closed: bool) -> Self
        ensures rest { rest_of result ≡ bytes.now }
        ensures closed { is_closed_of result ≡ is_closed }
        ensures failures { failures_of result ≡ 0 }
    {
        Arrived {
            rest: bytes,
            is_closed,
            failures: 0,
        }
    }

    // Returns the next bytes.
    fn give(&mut self, buf: &mut [u8]) -> usize
        ensures count { result ≡ min (length (rest_of self.old)) (length buf.old) }
        ensures given { take result buf.new ≡ take result (rest_of self.old) }
        ensures rest { rest_of self.new ≡ drop result (rest_of self.old) }
        ensures closed { is_closed_of self.new ≡ is_closed_of self.old }
        ensures failures { failures_of self.new ≡ failures_of self.old }
    {
        let count = self.rest.len().min(buf.len());
        let (front, rest) = self.rest.split_at(count);
        buf[..count].copy_from_slice(front);
        self.rest = rest;
        count
    }
}

impl<'b> Source for Arrived<'b> {
    ghost use Rattle.std.specs.Prelude.{None, Some, IsErr};
    ghost use Rattle.std.specs.Io.{ReadsAtMost};
    ghost use Rattle.std.specs.Io.KnownBytes.{ReadConsumes};
    ghost use Rattle.wf_client.specs.Arrived.{MayComeMore, failures_of, is_closed_of, rest_of};
    ghost use Rattle.wf_stream.specs.Effects.{Counts, GivesUpTo};

    ghost left = { λ a. Some a.rest.now };

    ghost piece = { λ _. None };

    ghost failures = { λ a. a.failures };

    fn read(&mut self, buf: &mut [u8]) -> io::Result<usize>
        ensures bound { ReadsAtMost result buf.new }
        ensures bytes { ReadConsumes (Some (rest_of self.old))
            (Some (rest_of self.new)) result buf.new }
        ensures most { GivesUpTo None None result }
        ensures cause { Counts result (failures_of self.old) (failures_of self.new) }
        // It fails exactly at the end of what has come, as long as more may come.
        ensures waits { MayComeMore (rest_of self.old) (is_closed_of self.old) buf.old →
            IsErr result }
        ensures gives { IsErr result →
            MayComeMore (rest_of self.old) (is_closed_of self.old) buf.old }
    {
        if self.rest.is_empty() && !self.is_closed && !buf.is_empty() {
            self.failures = self.failures.saturating_add(1);
            return Err(io::Error::from(ErrorKind::WouldBlock));
        }
        Ok(self.give(buf))
    }
}
