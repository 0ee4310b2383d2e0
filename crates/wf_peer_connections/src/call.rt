//! The connection to a peer begins, opens, is written on and ends.
ghost use Rattle.std.specs.Prelude.{◌≡◌, None, length, map};
ghost use Rattle.wf_codec.specs.Message.{view};
ghost use Rattle.wf_peer_connections.specs.Dials.{AreOfferedIf, AreOfferedOn, ArePosted, can_send, waiting_on};

use crate::dial::{Dial, DialTurn};
use crate::event::PeerEnd;
use crate::token::dial_token;
use std::alloc::Global;
use std::mem::replace;
use std::net::{Net, SocketAddr};
use wf_peer::{Greeting, GreetingFault, GreetingReply, decode_reply, reply_length};
use wf_sockets::{Connection, Moved, Network};
use wf_timing::{Alarm, Backoff, is_silent};
use wf_visitors::Context;
use wf_wire::{Post, ToPeer};

/// The most reads of one turn.
const MOST_READS: u32 = 8;

/// The most writes of one turn.
const MOST_WRITES: u32 = 4_096;

/// The most bytes of a read. No reply has more.
const PIECE_BYTES: usize = 1_536;

/// The least time between two attempts to connect, in milliseconds.
const LEAST_WAIT: u64 = 50;

/// The greatest time between two attempts to connect, in milliseconds.
const MOST_WAIT: u64 = 800;

/// The time for a connection to open, in milliseconds.
const OPENING_MILLIS: u64 = 1_000;

/// The time for the peer's reply to come after that, in milliseconds.
const REPLY_MILLIS: u64 = 3_000;

/// The time between two lines of the log for one cause, in milliseconds.
const MINUTE: u64 = 60_000;

impl<C: Connection + Drop> Dial<C> {
    /// No connection yet.
    pub(crate) fn new(alloc: Global, address: SocketAddr) -> Self
        ensures { result.to ≡ None }
    {
        Dial {
            address,
            to: None,
            reply: Vec::new(alloc),
            is_established: false,
            since: 0,
            last: 0,
            told: None,
            written: 0,
            posted: 0,
            dropped: 0,
            due: Alarm { due: 0 },
            backoff: Backoff::new(LEAST_WAIT, MOST_WAIT),
        }
    }

    /// The peer's address.
    pub(crate) fn address(&self) -> SocketAddr {
        self.address
    }

    /// Whether messages can be sent on it.
    pub fn is_open(&self) -> bool
        ensures { result ≡ can_send self.now.to }
    {
        match &self.to {
            Some(to) => to.is_open(),
            None => false,
        }
    }

    /// Since when it is being opened, is established, or is open.
    pub(crate) fn since(&self) -> u64 {
        self.since
    }

    /// How many bytes of messages were written to the peer, on all its connections.
    pub(crate) fn byte_count(&self) -> u64 {
        self.written
    }

    /// How many messages to the peer were put into outboxes, since the run began.
    pub(crate) fn post_count(&self) -> u64 {
        self.posted
    }

    /// How many messages to the peer were dropped, since a connection was last opened.
    pub(crate) fn drop_count(&self) -> u64 {
        self.dropped
    }

    /// A run of the node begins: it has posted nothing yet.
    pub(crate) fn begin_run(&mut self) {
        self.posted = 0;
    }

    /// It is open from now on, if all of the greeting was sent. Returns whether it is.
    pub(crate) fn open(&mut self, alloc: Global, now: u64) -> bool
        ensures { result ≡ can_send self.new.to }
    {
        let is_open = match &mut self.to {
            Some(to) => to.open(alloc),
            None => false,
        };
        if is_open {
            self.dropped = 0;
            self.since = now;
            self.last = now;
            self.told = None;
            self.backoff.reset();
        }
        is_open
    }

    /// Whether the connection is there.
    pub fn is_established(&self) -> bool {
        self.to.is_some() && self.is_established
    }

    /// Whether the log is to tell why it ended: once a minute for one cause, unless it was open.
    pub(crate) fn is_to_be_told(&mut self, why: PeerEnd, now: u64) -> bool {
        if let Some((told, since)) = self.told {
            if told == why && now.saturating_sub(since) < MINUTE {
                return false;
            }
        }
        self.told = Some((why, now));
        true
    }

    /// Whether there is no connection, and it is time to connect.
    pub(crate) fn is_due(&self, now: u64) -> bool {
        self.to.is_none() && self.due.is_due(now)
    }

    /// Connects, in the place of an older connection.
    pub(crate) fn connect<R: Net + AllocGlobal, N: Network<Connection = C>>(
        &mut self,
        context: &Context<'_, '_, R, N>,
        index: usize,
        greeting: &Greeting,
    ) {
        drop(self.to.take());
        drop(replace(&mut self.reply, Vec::new(context.alloc())));
        self.is_established = false;
        self.since = context.time;
        match begin_connection(context, self.address, index, greeting) {
            Some(to) => drop(replace(&mut self.to, Some(to))),
            None => self.postpone(context.time),
        }
    }

    /// Tries again later.
    fn postpone(&mut self, now: u64)
        ensures { self.new.to ≡ self.old.to }
    {
        self.due = Alarm::after(now, self.backoff.wait());
    }

    /// Whether it takes too long: to open, to be replied to, or, once it is open, until something
    /// comes on it. What comes on the peer's own connection says nothing of this one.
    pub(crate) fn is_late(&self, now: u64) -> bool {
        if self.to.is_none() {
            return false;
        }
        if self.is_open() {
            return is_silent(self.last, now);
        }
        let most = if self.is_established {
            REPLY_MILLIS
        } else {
            OPENING_MILLIS
        };
        most <= now.saturating_sub(self.since)
    }

    /// Ends the connection.
    pub(crate) fn end(&mut self, now: u64)
        ensures { self.new.to ≡ None }
    {
        drop(self.to.take());
        self.is_established = false;
        self.postpone(now);
    }

    /// Writes the rest of the greeting, and reads what came.
    pub fn hear(&mut self, now: u64) -> DialTurn {
        match self.greet(now) {
            Some(why) => DialTurn::Ended(why),
            None => self.handle(now),
        }
    }

    /// Writes the rest of the greeting.
    fn greet(&mut self, now: u64) -> Option<PeerEnd> {
        let Some(to) = &mut self.to else {
            return None;
        };
        for _ in 0..u64::MAX {
            if to.is_greeted() {
                return None;
            }
            match to.greet() {
                Moved::Bytes(_) => {
                    self.is_established = true;
                    self.since = now;
                }
                Moved::Blocked => return None,
                Moved::Closed => return Some(PeerEnd::Closed),
                Moved::Failed => return Some(PeerEnd::Failed),
            }
        }
        None
    }

    /// Reads the peer's reply, or its greeting again; nothing else may come.
    fn handle(&mut self, now: u64) -> DialTurn {
        let mut piece = [0u8; PIECE_BYTES];
        for _ in 0..MOST_READS {
            let room = reply_length(self.reply.as_slice()).saturating_sub(self.reply.len());
            let room = room.min(piece.len());
            match self.read(&mut piece[..room]) {
                Moved::Bytes(count) => {
                    self.last = now;
                    let count = count.min(room);
                    match self.take_in(&piece[..count]) {
                        DialTurn::Same => {}
                        turned => return turned,
                    }
                }
                Moved::Blocked => return DialTurn::Same,
                Moved::Closed => return DialTurn::Ended(PeerEnd::Closed),
                Moved::Failed => return DialTurn::Ended(PeerEnd::Failed),
            }
        }
        DialTurn::Same
    }

    /// Reads once, to the front of a buffer, if there is a connection.
    fn read(&mut self, buf: &mut [u8]) -> Moved {
        match &mut self.to {
            Some(to) => to.read(buf),
            None => Moved::Blocked,
        }
    }

    /// Takes in a piece of the reply. Once it is whole another one may come.
    fn take_in(&mut self, piece: &[u8]) -> DialTurn {
        if self.reply.extend_from_slice(piece).is_err() {
            return DialTurn::Ended(PeerEnd::Memory);
        }
        match decode_reply(self.reply.as_slice()) {
            Ok(reply) => {
                self.reply.clear();
                DialTurn::Answered(reply)
            }
            Err(GreetingFault::Short) => DialTurn::Same,
            Err(fault) => DialTurn::Ended(PeerEnd::BadGreeting(fault)),
        }
    }

    /// Puts messages into the outbox, each whole, or drops them, and counts both. Where it isn't
    /// open nothing happens.
    pub fn post(&mut self, post: &Post)
        ensures { AreOfferedOn (map view post.now.messages.items) self.old.to self.new.to }
    {
        if let Some(to) = &mut self.to {
            let count = to.post(post);
            self.posted = self.posted.saturating_add(count.put);
            self.dropped = self.dropped.saturating_add(count.dropped);
        }
    }

    /// Posts messages, if they are for the peer.
    fn post_if(&mut self, post: &Post, are_for: bool)
        ensures { AreOfferedIf are_for (map view post.now.messages.items) self.old self.new }
    {
        if are_for {
            self.post(post);
        }
    }

    /// How many bytes of messages wait.
    pub fn remaining(&self) -> usize
        ensures { result ≡ length (waiting_on self.now.to) }
    {
        match &self.to {
            Some(to) => to.remaining(),
            None => 0,
        }
    }

    /// Writes what waits, if messages can be sent: nothing is read. Some: the connection has ended.
    pub fn send(&mut self) -> Option<PeerEnd> {
        let Some(to) = &mut self.to else {
            return None;
        };
        for _ in 0..MOST_WRITES {
            if to.remaining() == 0 {
                return None;
            }
            match to.send() {
                Moved::Bytes(count) => self.written = self.written.saturating_add(count as u64),
                Moved::Blocked => return None,
                Moved::Closed | Moved::Failed => return Some(PeerEnd::Failed),
            }
        }
        None
    }
}

/// A connection to an address, in progress, on which a greeting is sent first. None: it can't
/// begin, or an allocation failed.
fn begin_connection<R: Net + AllocGlobal, N: Network>(
    context: &Context<'_, '_, R, N>,
    address: SocketAddr,
    index: usize,
    greeting: &Greeting,
) -> Option<ToPeer<N::Connection>> {
    let mut connection = context.network.connect(context.rt, address)?;
    connection.send_at_once();
    if context.network.watch(&mut connection, dial_token(index)) {
        ToPeer::new(context.alloc(), connection, greeting)
    } else {
        None
    }
}

/// Posts messages on the connection to each node that they are for.
pub(crate) fn post_to_all<C: Connection + Drop>(dials: &mut Vec<Dial<C>>, post: &Post)
    ensures { ArePosted post.now.target (map view post.now.messages.items) dials.old.items
        dials.new.items }
{
    for index in 0..dials.len() {
        let are_for = post.target().includes(index);
        dials[index].post_if(post, are_for);
    }
}
