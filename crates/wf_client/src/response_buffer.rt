//! An answer, and how much of it was taken.
ghost use Rattle.std.specs.Prelude.{◌≡◌, ◌≤◌, ◌<◌, ◌+◌, ◌-◌, ◌↔◌, [], length, IsTrue};
ghost use Rattle.wf_client.specs.ResponseBuffer.{FailsOnce, rest_of, IsTakenUp};

use std::alloc::Global;
use std::io;
use std::io::ErrorKind;
use std::marker::Model;
use wf_stream::Sink;

/// An answer, and how many of its bytes were taken. It is written into as a [`Sink`].
#[derive(Drop)]
pub struct Outgoing {
    bytes: Vec<u8>,
    done: usize,
    failures: u64,
}

impl Model for Outgoing {
    ghost use Rattle.std.specs.Prelude.{◌≤◌, length};
    ghost use Rattle.wf_client.specs.ResponseBuffer.{Outgoing as OutgoingValue};

    ghost Value = { OutgoingValue };

    ghost view = { λ o. record { bytes = o.bytes.items; done = o.done; failures = o.failures } };

    ghost invariant = { λ o. o.done ≤ length o.bytes.items };
}

impl Outgoing {
    /// No answer yet.
    pub fn new(alloc: Global) -> Self
        ensures { result ≡ record { bytes = []; done = 0; failures = 0 } }
    {
        Outgoing {
            bytes: Vec::new(alloc),
            done: 0,
            failures: 0,
        }
    }

    /// The number of bytes still to be taken.
    pub fn remaining(&self) -> usize
        ensures { result ≡ length (rest_of self.now) }
    {
        self.bytes.len() - self.done
    }

    /// The bytes still to be taken.
    pub fn rest(&self) -> &[u8]
        ensures { result.now ≡ rest_of self.now }
    {
        self.bytes.as_slice().split_at(self.done).1
    }

    /// The bytes of the whole answer.
    pub fn bytes(&self) -> &[u8]
        ensures { result.now ≡ self.now.bytes }
    {
        self.bytes.as_slice()
    }

    /// The client has taken the next bytes.
    pub fn advance(&mut self, count: usize)
        requires { count ≤ length (rest_of self.old) }
        ensures { IsTakenUp count self.old self.new }
    {
        self.done += count;
    }

    /// Nothing of it is taken yet.
    pub fn restart(&mut self)
        ensures { self.new ≡ record self.old { done = 0 } }
    {
        self.done = 0;
    }

    /// Whether all of it was taken.
    pub fn is_taken(&self) -> bool
        ensures { IsTrue result ↔ (length (rest_of self.now) ≡ 0) }
    {
        self.remaining() == 0
    }

    // A failed write.
    fn fail(&mut self) -> io::Error
        ensures { FailsOnce self.old self.new }
    {
        self.failures = self.failures.saturating_add(1);
        io::Error::from(ErrorKind::OutOfMemory)
    }
}

impl Sink for Outgoing {
    ghost use Rattle.std.specs.Prelude.{Some};

    ghost written = { λ o. Some o.bytes };

    ghost failures = { λ o. o.failures };

    ghost fails = { λ before after. FailsOnce before after };

    fn write(&mut self, buf: &[u8]) -> io::Result<usize> {
        match self.bytes.extend_from_slice(buf) {
            Ok(()) => Ok(buf.len()),
            Err(_) => Err(self.fail()),
        }
    }
}
