//! A reader and a writer some of whose calls fail.
use std::alloc::Global;
use std::io;
use std::io::{ErrorKind, Read, Write};

/// Which calls fail.
#[derive(Clone, Copy)]
pub(crate) enum FailingCalls {
    /// The one after so many.
    One(u64),
    /// So many before each one that doesn't.
    BeforeEach(u32),
    All,
}

/// Which calls fail, and with which error.
#[derive(Clone, Copy)]
pub(crate) struct Failure {
    pub(crate) calls: FailingCalls,
    pub(crate) kind: ErrorKind,
}

impl Failure {
    /// Whether more than one call may fail.
    pub(crate) fn is_repeated(self) -> bool {
        !matches!(self.calls, FailingCalls::One(_))
    }

    // The error of the call after so many, if it fails.
    fn error_after(self, calls: u64) -> Option<ErrorKind> {
        let fails = match self.calls {
            FailingCalls::One(before) => calls == before,
            FailingCalls::BeforeEach(count) => { calls % (u64::from(count) + 1) < u64::from(count) }
            FailingCalls::All => true,
        };
        fails.then_some(self.kind)
    }
}

/// A reader of bytes in pieces that counts its calls. Calls after one that failed continue: so a
/// retry can be observed.
#[derive(Drop)]
pub(crate) struct Faltering<'b> {
    rest: &'b [u8],
    piece: usize,
    failure: Option<Failure>,
    calls: u64,
}

impl<'b> Faltering<'b> {
    /// A reader that returns at most `piece` bytes a call.
    pub(crate) fn new(bytes: &'b [u8], piece: usize, failure: Option<Failure>) -> Self {
        Faltering {
            rest: bytes,
            piece,
            failure,
            calls: 0,
        }
    }

    /// The number of calls, failed ones included.
    pub(crate) fn calls(&self) -> u64 {
        self.calls
    }
}

impl<'b> Read for Faltering<'b> {
    fn read(&mut self, buf: &mut [u8]) -> io::Result<usize> {
        let before = self.calls;
        self.calls = before.saturating_add(1);
        if let Some(kind) = self.failure.and_then(|failure| failure.error_after(before)) {
            return Err(io::Error::from(kind));
        }
        let count = self.piece.min(self.rest.len()).min(buf.len());
        let (piece, rest) = self.rest.split_at(count);
        buf[..count].copy_from_slice(piece);
        self.rest = rest;
        Ok(count)
    }
}

/// A writer into memory that counts its calls. Calls after one that failed continue: so a retry can
/// be observed.
#[derive(Drop)]
pub(crate) struct Taking {
    bytes: Vec<u8>,
    /// The number of bytes that it takes in all.
    room: usize,
    piece: usize,
    failure: Option<Failure>,
    calls: u64,
}

impl Taking {
    /// A writer that takes `room` bytes, at most `piece` a call.
    pub(crate) fn new(alloc: Global, room: usize, piece: usize, failure: Option<Failure>) -> Self {
        Taking {
            bytes: Vec::new(alloc),
            room,
            piece,
            failure,
            calls: 0,
        }
    }

    /// The bytes written.
    pub(crate) fn bytes(&self) -> &[u8] {
        &self.bytes
    }

    /// The number of calls, failed ones included.
    pub(crate) fn calls(&self) -> u64 {
        self.calls
    }
}

impl Write for Taking {
    fn write(&mut self, buf: &[u8]) -> io::Result<usize> {
        let before = self.calls;
        self.calls = before.saturating_add(1);
        if let Some(kind) = self.failure.and_then(|failure| failure.error_after(before)) {
            return Err(io::Error::from(kind));
        }
        let count = self.piece.min(self.room).min(buf.len());
        self.bytes.extend_from_slice(&buf[..count])?;
        self.room -= count;
        Ok(count)
    }

    fn flush(&mut self) -> io::Result<()> {
        Ok(())
    }
}
