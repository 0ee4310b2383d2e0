//! One direction of a connection.
ghost use Rattle.std.specs.Prelude.{◌≡◌, ◌≢◌, ◌-◌, ◌≤◌, ◌++◌, [], length, take};
ghost use Rattle.wf_sockets.specs.Moved.{moved, IsNone, IsWithin};
ghost use Rattle.wf_simulation.specs.Pipe.{IsFrontOf, KeepsBytes};

use std::alloc::Global;
use std::collections::VecDeque;
use std::io::{Read, Write};
use std::marker::Model;
use wf_sockets::{Moved, Trail};

/// One direction of a connection: what was written at one end and not yet read at the other, in a
/// bounded buffer. A part of it, at the front, has arrived. Model: all bytes that were taken at the
/// one end, all that were read at the other, and how many wait at most.
#[derive(Drop)]
pub struct Pipe {
    waiting: VecDeque<u8>,
    // how many of those that wait are in flight no more, how many of these may be read, and how
    // many that were read still take room, since the writer doesn't know of it
    arrived: usize,
    readable: usize,
    unconfirmed: usize,
    limit: usize,
    // whether the writer has ended, and whether the reader has come to know of it
    is_ended: bool,
    has_end_arrived: bool,
    // whether each end has come to know that the connection has failed: what arrives then is never
    // read
    has_reader_failed: bool,
    has_writer_failed: bool,
    sent: Trail,
    came: Trail,
}

impl Model for Pipe {
    ghost use Rattle.wf_simulation.specs.Pipe.{PipeState, IsPipe};

    ghost Value = { PipeState };

    ghost view = { λ p. record { sent = p.sent.bytes; came = p.came.bytes; limit = p.limit } };

    ghost invariant = { λ p. IsPipe p.sent.bytes p.came.bytes p.waiting.items p.limit };
}

impl Pipe {
    /// A pipe in which at most that many bytes wait.
    #[tactic(auto, using(crate::proofs::Pipes::new_pipe))]
    pub fn new(alloc: Global, limit: usize) -> Pipe
        ensures sent { result.sent ≡ [] }
        ensures came { result.came ≡ [] }
        ensures limit { result.limit ≡ limit }
    {
        Pipe {
            waiting: VecDeque::new(alloc),
            arrived: 0,
            readable: 0,
            unconfirmed: 0,
            limit,
            is_ended: false,
            has_end_arrived: false,
            has_reader_failed: false,
            has_writer_failed: false,
            sent: Trail::new(),
            came: Trail::new(),
        }
    }

    /// Takes bytes at the writer's end, as many as there is room for. `Failed` once the writer has
    /// ended or failed, or if an allocation fails.
    #[tactic(auto, using(crate::proofs::Pipes::written))]
    pub fn write(&mut self, bytes: &[u8]) -> Moved
        ensures sent { self.new.sent ≡ self.old.sent ++ moved result bytes.now }
        ensures came { self.new.came ≡ self.old.came }
        ensures limit { self.new.limit ≡ self.old.limit }
        ensures within { IsWithin (length bytes.now) result }
        ensures empty { length bytes.now ≡ 0 → result ≡ Moved.Blocked }
        ensures open { result ≢ Moved.Closed }
    {
        if bytes.is_empty() {
            return Moved::Blocked;
        }
        if !self.is_open() {
            return Moved::Failed;
        }
        let room = room_of(self.limit, &self.waiting, self.unconfirmed);
        let count = bytes.len().min(room);
        if count == 0 {
            return Moved::Blocked;
        }
        let (taken, _) = bytes.split_at(count);
        match self.waiting.write(taken) {
            Ok(_) => {
                self.sent.add(taken);
                Moved::Bytes(count)
            }
            Err(_) => Moved::Failed,
        }
    }

    /// Reads at the reader's end what has arrived. Once that was read: `Closed` if the end has
    /// arrived, `Failed` if the reader has failed.
    #[tactic(auto, using(crate::proofs::Pipes::was_read))]
    pub fn read(&mut self, buf: &mut [u8]) -> Moved
        ensures came { self.new.came ≡ self.old.came ++ moved result buf.new }
        ensures sent { self.new.sent ≡ self.old.sent }
        ensures limit { self.new.limit ≡ self.old.limit }
        ensures within { IsWithin (length buf.old) result }
        ensures empty { length buf.old ≡ 0 → result ≡ Moved.Blocked }
    {
        if buf.is_empty() {
            return Moved::Blocked;
        }
        let count = take_front(&mut self.waiting, buf, self.readable);
        if count == 0 {
            return self.at_end();
        }
        self.came.add(buf.split_at(count).0);
        self.arrived = self.arrived.saturating_sub(count);
        self.readable = self.readable.saturating_sub(count);
        self.unconfirmed = self.unconfirmed.saturating_add(count);
        Moved::Bytes(count)
    }

    /// What a read finds where nothing that has arrived is left.
    fn at_end(&self) -> Moved
        ensures { IsNone result }
    {
        if self.has_end_arrived {
            Moved::Closed
        } else if self.has_reader_failed {
            Moved::Failed
        } else {
            Moved::Blocked
        }
    }

    /// What was read is a beginning of what was sent, always: no byte is changed, skipped, repeated
    /// or invented. The call does nothing.
    #[tactic(auto, using(crate::proofs::Pipes::carries))]
    pub fn always_carries(&self)
        ensures { IsFrontOf self.now.came self.now.sent }
    {
        let _ = &self.limit;
    }

    /// How many more bytes a write takes.
    pub fn room(&self) -> usize
        ensures { result ≤ self.now.limit }
    {
        room_of(self.limit, &self.waiting, self.unconfirmed)
    }

    /// How many bytes are in flight.
    pub fn in_flight(&self) -> usize {
        self.waiting.len().saturating_sub(self.arrived)
    }

    /// Whether bytes have arrived that weren't read.
    pub fn has_unread(&self) -> bool {
        self.readable != 0
    }

    /// Whether the end was sent, and hasn't arrived. At a reader that has failed it never does.
    pub fn has_end_in_flight(&self) -> bool {
        self.is_ended && !self.has_end_arrived && !self.has_reader_failed
    }

    /// Whether the writer doesn't know yet that bytes were read.
    pub fn has_unconfirmed(&self) -> bool {
        self.unconfirmed != 0
    }

    /// Whether a read finds something: bytes, the end or a failure.
    pub fn is_readable(&self) -> bool {
        self.has_unread() || self.has_end_arrived || self.has_reader_failed
    }

    /// Whether a write finds something: room or a failure.
    pub fn is_writable(&self) -> bool {
        !self.is_open() || self.room() != 0
    }

    /// Whether the writer may still write.
    pub fn is_open(&self) -> bool {
        !self.is_ended && !self.has_writer_failed
    }

    /// Whether the reader knows that the connection has failed.
    pub fn has_reader_failed(&self) -> bool {
        self.has_reader_failed
    }

    /// So many bytes more arrive, if so many are in flight. A reader that has failed never reads
    /// them.
    pub fn arrive(&mut self, count: usize)
        ensures { KeepsBytes self.old self.new }
    {
        let count = count.min(self.in_flight());
        self.arrived = self.arrived.saturating_add(count);
        if !self.has_reader_failed {
            self.readable = self.readable.saturating_add(count);
        }
    }

    /// The writer comes to know how many bytes were read.
    pub fn confirm(&mut self)
        ensures { KeepsBytes self.old self.new }
    {
        self.unconfirmed = 0;
    }

    /// The writer ends: it sends nothing more.
    pub fn end(&mut self)
        ensures { KeepsBytes self.old self.new }
    {
        self.is_ended = true;
    }

    /// The end arrives, if it was sent and all bytes have arrived.
    pub fn arrive_end(&mut self)
        ensures { KeepsBytes self.old self.new }
    {
        self.has_end_arrived = self.is_ended && self.in_flight() == 0 && !self.has_reader_failed;
    }

    /// The reader comes to know that the connection has failed. What has arrived and wasn't read is
    /// lost, unless it is kept.
    pub fn fail_reader(&mut self, keeps: bool)
        ensures { KeepsBytes self.old self.new }
    {
        if !keeps {
            self.readable = 0;
        }
        self.has_reader_failed = true;
    }

    /// The writer comes to know that the connection has failed.
    pub fn fail_writer(&mut self)
        ensures { KeepsBytes self.old self.new }
    {
        self.has_writer_failed = true;
    }
}

/// How many more bytes there is room for.
fn room_of(limit: usize, waiting: &VecDeque<u8>, unconfirmed: usize) -> usize
    ensures { result ≤ limit - length waiting.now.items }
{
    limit
        .saturating_sub(waiting.len())
        .saturating_sub(unconfirmed)
}

/// Moves bytes from the front to a buffer, at most so many, and returns how many.
fn take_front(waiting: &mut VecDeque<u8>, buf: &mut [u8], most: usize) -> usize
    ensures bytes { waiting.old.items ≡ take result buf.new ++ waiting.new.items }
    ensures within { result ≤ length buf.old }
{
    let (front, _) = buf.split_at_mut(most.min(buf.len()));
    match waiting.read(front) {
        Ok(count) => count,
        Err(_) => 0,
    }
}
