//! What comes on a connection from a peer is taken in, and its greeting is answered.
ghost use Rattle.std.specs.Prelude.{◌≡◌, ◌∷◌, [], List, IfSome, None, true};
ghost use Rattle.wf_codec.specs.declared.message.Message as code;
ghost use Rattle.wf_peer_connections.specs.Inbound.{messages_in, peer_on};
ghost use Rattle.wf_wire.specs.FromPeer.{peer_of};

use crate::event::PeerEnd;
use crate::inbound::{Came, Inbound};
use std::alloc::Global;
use std::mem::replace;
use std::net::SocketAddr;
use wf_ballot::NodeId;
use wf_client::Outgoing;
use wf_codec::Message;
use wf_peer::{Greeting, PeerRejection, Progress, encode, encode_rejection};
use wf_sockets::{Connection, Moved, Network};
use wf_stream::Sink;
use wf_timing::is_silent;
use wf_wire::{FromPeer, PeerMessage, Received, ReceptionFault};

impl<C: Connection + Drop> Inbound<C> {
    /// A connection that was accepted now, on which nothing was read.
    pub(crate) fn new(alloc: Global, connection: C, address: SocketAddr, now: u64) -> Self
        requires { C.came connection ≡ [] }
        ensures waiting { messages_in result ≡ [] }
        ensures peer { peer_on result ≡ None }
    {
        Inbound {
            peer: FromPeer::new(alloc, connection),
            address,
            reply: Outgoing::new(alloc),
            last: now,
        }
    }

    /// The peer, once it is let in.
    pub(crate) fn from(&self) -> Option<NodeId>
        ensures { result ≡ peer_on self.now }
    {
        self.peer.from()
    }

    /// The address from which it came.
    pub fn address(&self) -> SocketAddr
        ensures { result ≡ self.now.address }
    {
        self.address
    }

    /// Watches the connection under a token. Returns whether it is watched.
    pub(crate) fn watch<N: Network<Connection = C>>(&mut self, network: &N, token: usize) -> bool
        ensures waiting { messages_in self.new ≡ messages_in self.old }
        ensures peer { peer_on self.new ≡ peer_on self.old }
    {
        self.peer.watch(network, token)
    }

    /// Whether nothing came for too long.
    pub(crate) fn is_silent(&self, now: u64) -> bool {
        is_silent(self.last, now)
    }

    /// Lets the peer in that has greeted: from now on its messages come. Some: the connection has
    /// ended.
    pub fn let_in(&mut self, alloc: Global, own: &Greeting) -> Option<PeerEnd>
        ensures waiting { messages_in self.new ≡ messages_in self.old }
        ensures peer { peer_on self.new ≡ peer_of self.old.peer.said true }
    {
        self.peer.let_in();
        self.greet(alloc, own)
    }

    /// Greets the peer that was let in again, unless an earlier greeting still waits. What can't be
    /// written is written by a later turn.
    pub(crate) fn greet_again(&mut self, alloc: Global, own: &Greeting)
        ensures waiting { messages_in self.new ≡ messages_in self.old }
        ensures peer { peer_on self.new ≡ peer_on self.old }
    {
        if self.peer.from().is_some() && self.reply.is_taken() {
            let _ = self.greet(alloc, own);
        }
    }

    /// Greets the peer.
    fn greet(&mut self, alloc: Global, own: &Greeting) -> Option<PeerEnd>
        ensures waiting { messages_in self.new ≡ messages_in self.old }
        ensures peer { peer_on self.new ≡ peer_on self.old }
    {
        let Some(reply) = reply_by(alloc, own) else {
            return Some(PeerEnd::Memory);
        };
        drop(replace(&mut self.reply, reply));
        self.send()
    }

    /// Says why the peer isn't let in, and what is remembered of it.
    pub(crate) fn reject(
        &mut self,
        alloc: Global,
        why: PeerRejection,
        remembered: &Option<Progress>,
    )
        ensures waiting { messages_in self.new ≡ messages_in self.old }
        ensures peer { peer_on self.new ≡ peer_on self.old }
    {
        let mut bytes = Vec::new(alloc);
        if encode_rejection(why, remembered, &mut bytes).is_ok()
            && self.reply.write(&bytes).is_ok()
        {
            let _ = self.send();
        }
    }

    /// Writes the rest of the answer to the greeting.
    pub fn send(&mut self) -> Option<PeerEnd>
        ensures waiting { messages_in self.new ≡ messages_in self.old }
        ensures peer { peer_on self.new ≡ peer_on self.old }
    {
        for _ in 0..u64::MAX {
            if self.reply.is_taken() {
                return None;
            }
            match self.peer.write(self.reply.rest()) {
                Moved::Bytes(count) => {
                    let count = count.min(self.reply.remaining());
                    self.reply.advance(count);
                }
                Moved::Blocked => return None,
                Moved::Closed => return Some(PeerEnd::Closed),
                Moved::Failed => return Some(PeerEnd::Failed),
            }
        }
        None
    }

    /// Reads once, by way of a buffer: a piece of the greeting, or once the peer is let in a piece
    /// of its messages. Those that are whole then wait, in the place of those before.
    pub fn handle(&mut self, piece: &mut [u8], now: u64) -> Came {
        match self.peer.receive(piece) {
            Ok(Received::Nothing) => Came::Nothing,
            Ok(received) => {
                self.last = now;
                self.came(received)
            }
            Err(fault) => Came::Ended(end_by(fault)),
        }
    }

    /// What came in a piece, and of whom.
    fn came(&self, received: Received) -> Came {
        match received {
            Received::Nothing => Came::Nothing,
            Received::Part => Came::Part,
            Received::Greeting => match self.peer.said() {
                Some(greeting) => Came::Greeting(greeting),
                None => Came::Part,
            },
            Received::Messages(count) => match self.peer.from() {
                Some(peer) => Came::Messages(peer, count),
                None => Came::Part,
            },
        }
    }

    /// The first of the messages that wait.
    pub fn first(&self) -> Option<&Message>
        ensures { IfSome result (λ m. (rest : List code.Message) ×
            (messages_in self.now ≡ m.now ∷ rest)) }
    {
        self.peer.first()
    }

    /// Takes out the first of the messages that wait.
    pub fn pop(&mut self) -> Option<PeerMessage>
        ensures { IfSome result (λ m. messages_in self.old ≡ m.message ∷ messages_in self.new) }
    {
        self.peer.pop()
    }
}

/// Why a connection ends from which nothing more can be taken in.
fn end_by(fault: ReceptionFault) -> PeerEnd {
    match fault {
        ReceptionFault::Closed => PeerEnd::Closed,
        ReceptionFault::Failed => PeerEnd::Failed,
        ReceptionFault::Memory => PeerEnd::Memory,
        ReceptionFault::BadGreeting(fault) => PeerEnd::BadGreeting(fault),
        ReceptionFault::BadMessage => PeerEnd::BadMessage,
    }
}

/// The reply that is this greeting. None: an allocation failed.
fn reply_by(alloc: Global, greeting: &Greeting) -> Option<Outgoing> {
    let mut bytes = Vec::new(alloc);
    let mut reply = Outgoing::new(alloc);
    let is_written = encode(greeting, &mut bytes).is_ok() && reply.write(&bytes).is_ok();
    drop(bytes);
    if is_written {
        Some(reply)
    } else {
        drop(reply);
        None
    }
}

/// Closes the connection in a slot, if there is one.
pub(crate) fn close<C: Connection + Drop>(slot: &mut Option<Inbound<C>>) {
    drop(slot.take());
}
