//! How readers come, ask, are replied to and go.
ghost use Rattle.std.specs.Prelude.{◌≡◌, [], IfOk, IfSome};
ghost use Rattle.wf_readers_port.specs.Exchanges.{AreExchangesOf, HasReplied};
ghost use Rattle.wf_readers_port.specs.Readers.{AreReplied};
ghost use Rattle.wf_readers_port.specs.ReadersPort.{exchanges_of};

use crate::event::ReaderEvent;
use crate::port::{Difference, PortView, ReadersPort};
use crate::reader::Reader;
use crate::slots::{free_slots, put_in, slot_index, take_out};
use crate::turn::ReaderTurn;
use std::alloc::{AllocError, Global};
use std::time::Clock;
use wf_past::Past;
use wf_reader::QuestionRejection;
use wf_sockets::{Connection, Network};
use wf_visitors::Context;

/// The most connections accepted in one turn.
const MOST_ACCEPTED: usize = 64;

/// For how long it is told that a reader's history differed, in milliseconds.
const DIFFERS_MILLIS: u64 = 60_000;

impl<N: Network> ReadersPort<N> {
    /// That many free slots, with the tokens from the first one on. The only error is allocation
    /// failure.
    pub fn new(
        alloc: Global,
        count: usize,
        listener: Option<N::Listener>,
        first: usize,
    ) -> Result<Self, AllocError>
        ensures { IfOk result (λ port. exchanges_of port ≡ []) }
    {
        let slots = free_slots(alloc, count)?;
        Ok(ReadersPort {
            listener,
            slots,
            first,
            difference: None,
            exchanges: Past::new(),
        })
    }

    /// The number of readers.
    pub fn reader_count(&self) -> usize {
        self.slots.iter().filter(|slot| slot.is_some()).count()
    }

    /// The sequence up to which a reader's history differed, in the last minute.
    pub fn differs(&self, time: u64) -> Option<u16> {
        match self.difference {
            Some(difference) if time.saturating_sub(difference.time) < DIFFERS_MILLIS => {
                Some(difference.sequence)
            }
            _ => None,
        }
    }

    /// Always, of each reader: what came on its connection is questions that it asked, one after
    /// the other, and what came of the next one. What was sent on it, with what is still to be
    /// taken, is the replies to those questions, one after the other. Each question with its reply
    /// is in the port's log. The call does nothing.
    pub fn always_replied(&self)
        ensures { AreReplied N.Connection.Connection (exchanges_of self.now) self.now.slots.items }
    {
        let _ = &self.exchanges;
    }

    /// Accepts connections, as long as there are some.
    pub fn accept<R: Clock + Eprint + AllocGlobal>(&mut self, context: &Context<'_, '_, R, N>)
        ensures { exchanges_of self.new ≡ exchanges_of self.old }
    {
        for _ in 0..MOST_ACCEPTED {
            let Some(connection) = self.accept_one(context.network) else {
                return;
            };
            self.admit(context, connection);
        }
    }

    /// Closes the port: nobody is accepted any more, and whoever is there is closed.
    pub fn close(&mut self)
        ensures { exchanges_of self.new ≡ exchanges_of self.old }
    {
        self.listener = None;
        self.dismiss();
    }

    /// Closes whoever is there. The port stays open.
    pub fn dismiss(&mut self)
        ensures { exchanges_of self.new ≡ exchanges_of self.old }
    {
        for index in 0..self.slots.len() {
            drop(self.take(index));
        }
    }

    /// The next connection, if there is one.
    fn accept_one(&mut self, network: &N) -> Option<N::Connection>
        ensures exchanges { exchanges_of self.new ≡ exchanges_of self.old }
        ensures came { IfSome result (λ connection. N.Connection.came connection ≡ []) }
        ensures sent { IfSome result (λ connection. N.Connection.sent connection ≡ []) }
    {
        match &mut self.listener {
            Some(listener) => match network.accept(listener) {
                Ok((connection, _)) => Some(connection),
                Err(_) => None,
            },
            None => None,
        }
    }

    /// Puts a newcomer into a free slot, else into that of the reader that has waited longest.
    #[tactic(auto, using(crate::proofs::Replied::among_none))]
    fn admit<R: Clock + Eprint + AllocGlobal>(
        &mut self,
        context: &Context<'_, '_, R, N>,
        mut connection: N::Connection,
    )
        requires came { N.Connection.came connection ≡ [] }
        requires sent { N.Connection.sent connection ≡ [] }
        ensures { exchanges_of self.new ≡ exchanges_of self.old }
    {
        let Some(index) = slot_index(self.slots.as_slice()) else {
            return;
        };
        if self.take(index).is_some() {
            context.log.write(&ReaderEvent::Replaced);
        }
        connection.send_at_once();
        if context.network.watch(&mut connection, self.token(index)) {
            self.put(
                index,
                Reader::new(context.alloc(), connection, context.time),
            );
        }
    }

    /// The token of the socket in a slot.
    fn token(&self, index: usize) -> usize {
        self.first.saturating_add(index)
    }

    /// Takes the reader out of a slot.
    fn take(&mut self, index: usize) -> Option<Reader<N::Connection>>
        ensures exchanges { exchanges_of self.new ≡ exchanges_of self.old }
        ensures among { IfSome result (λ reader.
            AreExchangesOf (exchanges_of self.old) reader.exchanges.items) }
    {
        take_out(&mut self.slots, index)
    }

    /// Puts a reader into a slot.
    fn put(&mut self, index: usize, reader: Reader<N::Connection>)
        requires { AreExchangesOf (exchanges_of self.old) reader.exchanges.items }
        ensures { exchanges_of self.new ≡ exchanges_of self.old }
    {
        put_in(&mut self.slots, index, reader);
    }

    /// Answers the reader in a slot, a bounded number of its questions. Each of them, with its
    /// reply, comes into the log.
    #[tactic(auto, using(crate::proofs::Replied::none_replied_to, crate::proofs::Replied::has_replied_between))]
    pub fn on_ready<R: Clock + Eprint + AllocGlobal>(
        &mut self,
        context: &Context<'_, '_, R, N>,
        published: &PortView<'_>,
        index: usize,
    )
        ensures { HasReplied
            published.now.own.now published.now.history.now.definitions published.now.digests.now
            (exchanges_of self.old) (exchanges_of self.new) }
    {
        let Some(mut reader) = self.take(index) else {
            return;
        };
        match self.converse(context.alloc(), published, &mut reader, context.time) {
            ReaderTurn::Here => self.put(index, reader),
            ReaderTurn::Busy => {
                reader.watch(context.network, self.token(index));
                self.put(index, reader);
            }
            ReaderTurn::Gone => {}
            ReaderTurn::Rejected(why) => {
                self.note(&why, context.time);
                context.log.write(&ReaderEvent::Rejected(why));
            }
            ReaderTurn::Malformed => context.log.write(&ReaderEvent::Malformed),
        }
    }

    /// Answers a reader that was taken out of its slot.
    #[tactic(auto, using(crate::proofs::Replied::has_replied))]
    fn converse(
        &mut self,
        alloc: Global,
        published: &PortView<'_>,
        reader: &mut Reader<N::Connection>,
        time: u64,
    ) -> ReaderTurn
        requires { AreExchangesOf (exchanges_of self.old) reader.old.exchanges.items }
        ensures replied { HasReplied
            published.now.own.now published.now.history.now.definitions published.now.digests.now
            (exchanges_of self.old) (exchanges_of self.new) }
        ensures among { AreExchangesOf (exchanges_of self.new) reader.new.exchanges.items }
    {
        reader.turn(alloc, published, time, &mut self.exchanges)
    }

    /// Notes that a reader's history differs.
    fn note(&mut self, why: &QuestionRejection, time: u64)
        ensures { exchanges_of self.new ≡ exchanges_of self.old }
    {
        if let QuestionRejection::OtherHistory(seq) = why {
            self.difference = Some(Difference {
                sequence: seq.number(),
                time,
            });
        }
    }

    /// Closes the readers that have asked nothing for too long.
    pub fn tick(&mut self, time: u64)
        ensures { exchanges_of self.new ≡ exchanges_of self.old }
    {
        for index in 0..self.slots.len() {
            self.close_silent(index, time);
        }
    }

    /// Closes the reader in a slot if it has asked nothing for too long.
    fn close_silent(&mut self, index: usize, time: u64)
        ensures { exchanges_of self.new ≡ exchanges_of self.old }
    {
        if self.is_silent(index, time) {
            drop(self.take(index));
        }
    }

    /// Whether the reader in a slot has asked nothing for too long.
    fn is_silent(&self, index: usize, time: u64) -> bool {
        match self.slots.get(index) {
            Some(Some(reader)) => reader.is_silent(time),
            _ => false,
        }
    }
}
