ghost use Rattle.std.specs.Prelude.{◌≡◌, ◌+◌, ◌<◌, ◌≤◌, ◌++◌, ℕ, List, [], length, take, IfOk, OnErr, OnOk, IsErrOf};
ghost use Rattle.std.specs.Io.KnownBytes.{Appends, Keeps};
ghost use Rattle.wf_codec.specs.Message.{view};
ghost use Rattle.wf_codec.specs.Encoding.{spelling};
ghost use Rattle.wf_mail.specs.Mail.{spelled, AreMessages};
ghost use Rattle.wf_mail.specs.Outbox.{IsAdvanced, IsPut, IsSameOutbox};
ghost use Rattle.wf_stream.specs.Effects.{Counts};

use crate::dropped::Dropped;
use crate::queue::{append, skip, take_turn};
use std::alloc::Global;
use std::io;
use std::marker::Model;
use wf_codec::Message;
use wf_past::Past;
use wf_stream::Sink;

/// The sending end of a connection, bounded in bytes. Model: the messages that were put in, and of
/// their encodings the bytes that were written out and those that wait.
#[derive(Drop)]
pub struct Outbox {
    // the bytes to be written next, of which the first `done` are
    front: Vec<u8>,
    done: usize,
    // the bytes behind them
    queue: Vec<u8>,
    limit: usize,
    log: Past<Message, usize>,
}

impl Model for Outbox {
    ghost use Rattle.std.specs.Prelude.{◌-◌, vec_capacity, vec_len};
    ghost use Rattle.wf_mail.specs.Outbox.{OutboxState, state_of, logged, IsOutbox};

    ghost Value = { OutboxState };

    ghost view = { λ o. state_of o.log.items o.front.items o.done o.queue.items o.limit (vec_capacity o.queue - vec_len o.queue) };

    ghost invariant = { λ o. IsOutbox (logged o.log.items) o.front.items o.done o.queue.items o.limit };
}

impl Outbox {
    /// An outbox in which at most that many bytes wait.
    pub fn new(alloc: Global, limit: usize) -> Outbox
        ensures put { result.put ≡ [] }
        ensures written { result.written ≡ [] }
        ensures waiting { result.waiting ≡ [] }
        ensures limit { result.limit ≡ limit }
    {
        Outbox {
            front: Vec::new(alloc),
            done: 0,
            queue: Vec::new(alloc),
            limit,
            log: Past::new(),
        }
    }

    /// Puts the whole message in, or drops it. A message is dropped if there is no room for it, or
    /// if an allocation fails, which needs more bytes than are spare; nothing else changes then.
    pub fn put(&mut self, message: &Message) -> Result<(), Dropped>
        ensures ok { OnOk result (IsPut self.old (view message.now) self.new) }
        ensures dropped { OnErr result (IsSameOutbox self.old self.new) }
        ensures no_room { IsErrOf result Dropped.NoRoom →
            self.old.limit < length self.old.waiting + length (spelling (view message.now)) }
        ensures memory { IsErrOf result Dropped.Memory →
            self.old.spare < length (spelling (view message.now)) }
    {
        let room = self.limit - (self.front.len() - self.done) - self.queue.len();
        let count = append(&mut self.queue, message, room)?;
        self.log = self.log.and(message, &count);
        take_turn(&mut self.front, &mut self.done, &mut self.queue);
        Ok(())
    }

    /// The number of bytes that wait.
    pub fn remaining(&self) -> usize
        ensures value { result ≡ length self.now.waiting }
        ensures most { result ≤ self.now.limit }
    {
        self.front.len() - self.done + self.queue.len()
    }

    /// The next bytes to write: the first of those that wait, and none only if none wait.
    pub fn chunk(&self) -> &[u8]
        ensures front { (rest : List ℕ) × (result.now ++ rest ≡ self.now.waiting) }
        ensures some { result.now ≡ [] → self.now.waiting ≡ [] }
    {
        self.front.split_at(self.done).1
    }

    /// Takes the first bytes that wait as written out.
    pub fn advance(&mut self, count: usize)
        requires { count ≤ length self.old.waiting }
        ensures { IsAdvanced count self.old self.new }
    {
        skip(&mut self.front, &mut self.done, &mut self.queue, count);
    }

    /// Writes once, and returns how many bytes were written: none only if none wait. After a failed
    /// write nothing has changed.
    pub fn write_to<S: Sink>(&mut self, sink: &mut S) -> io::Result<usize>
        ensures within { IfOk result (λ count. count ≤ length self.old.waiting) }
        ensures some { IfOk result (λ count. 0 < length self.old.waiting → 0 < count) }
        ensures bytes { IfOk result (λ count.
            Appends (S.written sink.old) (S.written sink.new) (take count self.old.waiting)) }
        ensures advanced { IfOk result (λ count. IsAdvanced count self.old self.new) }
        ensures unchanged { OnErr result (self.new ≡ self.old) }
        ensures kept { OnErr result (Keeps (S.written sink.old) (S.written sink.new)) }
        ensures cause { Counts result (S.failures sink.old) (S.failures sink.new) }
        ensures failed { OnErr result (S.fails sink.old sink.new) }
    {
        let count = sink.write(self.chunk())?;
        self.advance(count);
        Ok(count)
    }

    /// What was written out, and then what waits, is the encodings of what was put in, always. The
    /// call does nothing.
    pub fn always_spells(&self)
        ensures messages { AreMessages self.now.put }
        ensures spells { self.now.written ++ self.now.waiting ≡ spelled self.now.put }
        ensures bounded { length self.now.waiting ≤ self.now.limit }
    {
        let _ = &self.front;
    }
}
