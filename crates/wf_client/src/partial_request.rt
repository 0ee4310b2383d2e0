//! What has come of a request.
ghost use Rattle.std.specs.Prelude.{◌≡◌, ◌↔◌, ◌+◌, ◌<◌, ◌++◌, [], false, length, true, IsTrue, OnErr, OnOk};
ghost use Rattle.wf_client.specs.PartialRequest.{MayBeWhole};
ghost use Rattle.wf_client.specs.Arrived.{failures_of, is_closed_of, rest_of};

use crate::arrived::Arrived;
use std::alloc::{AllocError, Global};
use std::marker::Model;

/// What has come of a request: its bytes, whether the client has closed its side, and how many
/// bytes it needs at least.
#[derive(Drop)]
pub struct Incoming {
    bytes: Vec<u8>,
    needed: usize,
    is_closed: bool,
}

impl Model for Incoming {
    ghost use Rattle.wf_client.specs.PartialRequest.{Incoming as IncomingValue};

    ghost Value = { IncomingValue };

    ghost view = { λ i. record { bytes = i.bytes.items; needed = i.needed; is_closed = i.is_closed } };
}

impl Incoming {
    /// Nothing has come.
    pub fn new(alloc: Global) -> Self
        ensures { result ≡ record { bytes = []; needed = 1; is_closed = false } }
    {
        Incoming {
            bytes: Vec::new(alloc),
            needed: 1,
            is_closed: false,
        }
    }

    /// The number of bytes that have come.
    pub fn len(&self) -> usize
        ensures { result ≡ length self.now.bytes }
    {
        self.bytes.len()
    }

    /// The bytes that have come.
    pub fn bytes(&self) -> &[u8]
        ensures { result.now ≡ self.now.bytes }
    {
        self.bytes.as_slice()
    }

    /// Whether no more will come.
    pub fn is_closed(&self) -> bool
        ensures { result ≡ self.now.is_closed }
    {
        self.is_closed
    }

    /// Takes in bytes that came after the others. An error changes nothing.
    pub fn take_in(&mut self, piece: &[u8]) -> Result<(), AllocError>
        ensures ok { OnOk result
            (self.new ≡ record self.old { bytes = self.old.bytes ++ piece.now }) }
        ensures err { OnErr result (self.new ≡ self.old) }
    {
        self.bytes.extend_from_slice(piece)
    }

    /// The client has closed its side, or its time is over: no more bytes count.
    pub fn close(&mut self)
        ensures { self.new ≡ record self.old { is_closed = true } }
    {
        self.is_closed = true;
    }

    /// Whether it is worth reading: as many bytes as are needed have come, or no more will.
    pub fn may_be_whole(&self) -> bool
        ensures { IsTrue result ↔ MayBeWhole self.now }
    {
        self.is_closed || self.needed <= self.bytes.len()
    }

    /// Reading it has failed at its end, and it lacks at least that many bytes.
    pub fn lack(&mut self, count: usize)
        ensures needed { count + length self.old.bytes < 18446744073709551616 →
            self.new.needed ≡ length self.old.bytes + count }
        ensures bytes { self.new.bytes ≡ self.old.bytes }
        ensures closed { self.new.is_closed ≡ self.old.is_closed }
    {
        self.needed = self.bytes.len().saturating_add(count);
    }

    /// A reader of the bytes that have come.
    pub fn reader(&self) -> Arrived<'_>
        ensures rest { rest_of result ≡ self.now.bytes }
        ensures closed { is_closed_of result ≡ self.now.is_closed }
        ensures failures { failures_of result ≡ 0 }
    {
        Arrived::new(self.bytes.as_slice(), self.is_closed)
    }

    /// Drops the bytes.
    pub fn clear(&mut self, alloc: Global)
        ensures bytes { self.new.bytes ≡ [] }
        ensures closed { self.new.is_closed ≡ self.old.is_closed }
    {
        self.bytes = Vec::new(alloc);
    }
}
