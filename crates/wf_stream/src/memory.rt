//! A reader and a writer over memory.
ghost use Rattle.std.specs.Prelude.{◌≡◌, ◌<◌, [], length, min, take, drop, Some};
ghost use Rattle.wf_stream.specs.Memory.{FailsOnce, is_due, one_fewer};

use crate::stream::{Sink, Source};
use std::alloc::Global;
use std::io;
use std::io::ErrorKind;
use std::marker::Model;

/// A reader of bytes in memory, which returns them in pieces. From a given call on, every call may
/// fail.
#[derive(Drop)]
pub struct Bytes<'b> {
    rest: &'b [u8],
    piece: usize,
    until_failure: Option<u64>,
    failures: u64,
}

impl<'b> Model for Bytes<'b> {
    ghost use Rattle.std.specs.Prelude.{◌<◌};
    ghost use Rattle.wf_stream.specs.Memory.{Reader};

    ghost Value = { Reader };

    ghost view = { λ b. record { left = b.rest.now; piece = b.piece; until_failure = b.until_failure; failures = b.failures } };

    ghost invariant = { λ b. 0 < b.piece };
}

impl<'b> Bytes<'b> {
    /// A reader that returns at most `piece` bytes a call. With `until_failure`, each call after
    /// that many fails.
    pub fn new(bytes: &'b [u8], piece: usize, until_failure: Option<u64>) -> Self
        requires { 0 < piece }
        ensures { result ≡ record {
          left = bytes.now;
          piece = piece;
          until_failure = until_failure;
          failures = 0;
        } }
    {
        Bytes {
            rest: bytes,
            piece,
            until_failure,
            failures: 0,
        }
    }

    // Whether this call fails; counts the call.
    fn fails(&mut self) -> bool
        ensures fails { result ≡ is_due self.old.until_failure }
        ensures counts { self.new.until_failure ≡ one_fewer self.old.until_failure }
        ensures left { self.new.left ≡ self.old.left }
        ensures piece { self.new.piece ≡ self.old.piece }
        ensures failures { self.new.failures ≡ self.old.failures }
    {
        match self.until_failure {
            Some(0) => true,
            Some(calls) => {
                self.until_failure = Some(calls - 1);
                false
            }
            None => false,
        }
    }

    // Returns the next piece.
    fn give(&mut self, buf: &mut [u8]) -> usize
        ensures count { result ≡ min (min (length self.old.left) (length buf.old)) self.old.piece }
        ensures given { take result buf.new ≡ take result self.old.left }
        ensures left { self.new.left ≡ drop result self.old.left }
        ensures piece { self.new.piece ≡ self.old.piece }
        ensures failures { self.new.failures ≡ self.old.failures }
    {
        let count = self.rest.len().min(buf.len()).min(self.piece);
        let (front, rest) = self.rest.split_at(count);
        buf[..count].copy_from_slice(front);
        self.rest = rest;
        count
    }
}

impl<'b> Source for Bytes<'b> {
    ghost left = { λ b. Some b.left };

    ghost piece = { λ b. Some b.piece };

    ghost failures = { λ b. b.failures };

    fn read(&mut self, buf: &mut [u8]) -> io::Result<usize> {
        if self.fails() {
            self.failures = self.failures.saturating_add(1);
            return Err(io::Error::from(ErrorKind::Other));
        }
        Ok(self.give(buf))
    }
}

/// A writer into memory, which accepts a number of bytes and then fails.
#[derive(Drop)]
pub struct Output {
    bytes: Vec<u8>,
    room: usize,
    failures: u64,
}

impl Model for Output {
    ghost use Rattle.wf_stream.specs.Memory.{Writer};

    ghost Value = { Writer };

    ghost view = { λ o. record { written = o.bytes.items; room = o.room; failures = o.failures } };
}

impl Output {
    /// A writer that accepts `room` bytes.
    pub fn new(alloc: Global, room: usize) -> Self
        ensures { result ≡ record { written = []; room = room; failures = 0 } }
    {
        Output {
            bytes: Vec::new(alloc),
            room,
            failures: 0,
        }
    }

    /// The bytes written.
    pub fn bytes(&self) -> &[u8]
        ensures { result.now ≡ self.now.written }
    {
        &self.bytes
    }

    fn fail(&mut self, kind: ErrorKind) -> io::Error
        ensures { FailsOnce self.old self.new }
    {
        self.failures = self.failures.saturating_add(1);
        io::Error::from(kind)
    }
}

impl Sink for Output {
    ghost written = { λ o. Some o.written };

    ghost failures = { λ o. o.failures };

    ghost fails = { λ before after. FailsOnce before after };

    fn write(&mut self, buf: &[u8]) -> io::Result<usize> {
        let count = buf.len().min(self.room);
        if count == 0 && !buf.is_empty() {
            return Err(self.fail(ErrorKind::WriteZero));
        }
        match self.bytes.extend_from_slice(buf.split_at(count).0) {
            Ok(()) => {
                self.room -= count;
                Ok(count)
            }
            Err(_) => Err(self.fail(ErrorKind::OutOfMemory)),
        }
    }
}
