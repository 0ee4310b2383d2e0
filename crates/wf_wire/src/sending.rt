//! What is sent on a connection to a peer.
ghost use Rattle.std.specs.Prelude.{◌≡◌, ◌≢◌, ◌↔◌, ◌++◌, ◌∷◌, [], ℕ, List, IfSome, IsTrue, None, is_some, length, map, true};
ghost use Rattle.wf_client.specs.ResponseBuffer.{rest_of};
ghost use Rattle.wf_codec.specs.Message.{view};
ghost use Rattle.wf_peer.specs.Greeting.{greeting_bytes};
ghost use Rattle.wf_sockets.specs.Moved.{IsWithin, moved};
ghost use Rattle.wf_wire.specs.Offer.{AreOffered, AreTallied, IsPutOr};
ghost use Rattle.wf_wire.specs.Sending.{HasStillToSend};
ghost use Rattle.wf_wire.specs.ToPeer.{AreReturned, IsGreetingOf, IsOpenedAs, IsSentAs, put_into, waiting_for};

use crate::post::Post;
use crate::to_peer::ToPeer;
use std::alloc::Global;
use wf_client::Outgoing;
use wf_codec::Message;
use wf_mail::{MESSAGE_BYTES, Outbox};
use wf_past::Past;
use wf_peer::{Greeting, decode, encode, greeting_length};
use wf_sockets::{Connection, Moved, Network};
use wf_stream::write_all;

/// The most bytes that wait for a peer: a whole answer to an Ask fits, eight of the longest
/// messages.
pub const OUTBOX_BYTES: usize = 8 * MESSAGE_BYTES;

/// How many of the messages that were posted were put into an outbox, and how many were dropped.
#[derive(Clone, Copy, Debug, PartialEq, Eq)]
pub struct PostCount {
    pub put: u64,
    pub dropped: u64,
}

impl<C: Connection + Drop> ToPeer<C> {
    /// A connection on which nothing was sent, and the greeting that is sent first. None: an
    /// allocation failed, or no peer would take that greeting.
    #[tactic(auto, using(crate::proofs::Sent::sent_nothing, crate::proofs::Sent::returned_nothing, crate::proofs::Sent::all_left))]
    pub fn new(alloc: Global, connection: C, greeting: &Greeting) -> Option<Self>
        requires { C.sent connection ≡ [] }
        ensures greeting { IfSome result (λ to. to.greeting.bytes ≡ greeting_bytes greeting.now) }
        ensures rest { IfSome result (λ to.
            rest_of to.greeting ≡ greeting_bytes greeting.now) }
        ensures connection { IfSome result (λ to. to.connection ≡ connection) }
        ensures closed { IfSome result (λ to. to.outbox ≡ None) }
    {
        match outgoing_of(alloc, greeting) {
            Some(greeting) => Some(ToPeer {
                connection,
                greeting,
                outbox: None,
                posts: Past::new(),
            }),
            None => {
                drop(connection);
                None
            }
        }
    }

    /// Whether all of the greeting was sent.
    #[tactic(auto, using(crate::proofs::Sent::all_greeted))]
    pub fn is_greeted(&self) -> bool
        ensures { IsTrue result ↔ (rest_of self.now.greeting ≡ []) }
    {
        self.greeting.is_taken()
    }

    /// Whether messages are sent on it.
    pub fn is_open(&self) -> bool
        ensures { result ≡ is_some self.now.outbox }
    {
        self.outbox.is_some()
    }

    /// From now on messages are sent on it, if all of the greeting was. Returns whether they are.
    #[tactic(auto, using(crate::proofs::Sent::sent_opened, crate::proofs::Sent::returned_nothing, crate::proofs::Sent::nothing_left, crate::proofs::Sent::new_outbox, crate::proofs::Sent::all_greeted))]
    pub fn open(&mut self, alloc: Global) -> bool
        ensures open { IsTrue result ↔ (rest_of self.old.greeting ≡ []) }
        ensures outbox { IsOpenedAs result self.old.outbox self.new.outbox }
        ensures now { result ≡ is_some self.new.outbox }
        ensures posts { is_some self.old.outbox ≡ true →
            self.new.posts.items ≡ self.old.posts.items }
        ensures greeting { self.new.greeting ≡ self.old.greeting }
        ensures connection { self.new.connection ≡ self.old.connection }
    {
        if self.outbox.is_some() {
            return true;
        }
        if !self.greeting.is_taken() {
            return false;
        }
        self.posts = Past::new();
        self.outbox = Some(Outbox::new(alloc, OUTBOX_BYTES));
        true
    }

    /// Puts messages into the outbox, each whole, or drops them, if there is no room or an
    /// allocation fails. Where it isn't open nothing happens.
    #[tactic(auto, using(crate::proofs::Sent::sent_offered, crate::proofs::Sent::returned_more, crate::proofs::Offers::first_still))]
    pub fn post(&mut self, post: &Post) -> PostCount
        ensures offered { AreOffered (map view post.now.messages.items)
            self.old.outbox self.new.outbox }
        ensures tallied { AreTallied result.put result.dropped (map view post.now.messages.items)
            self.old.outbox self.new.outbox }
        ensures posts { self.new.posts.items ≡ self.old.posts.items ++ (post.now, 0) ∷ [] }
        ensures greeting { self.new.greeting ≡ self.old.greeting }
        ensures connection { self.new.connection ≡ self.old.connection }
    {
        self.posts = self.posts.and(post, &0);
        offer_all(&mut self.outbox, post.messages())
    }

    /// How many bytes of messages wait.
    pub fn remaining(&self) -> usize
        ensures { result ≡ length (waiting_for self.now.outbox) }
    {
        match &self.outbox {
            Some(outbox) => outbox.remaining(),
            None => 0,
        }
    }

    /// Writes the rest of the greeting once.
    #[tactic(auto, using(crate::proofs::Sent::sent_next, crate::proofs::Sent::sent_none, crate::proofs::Sent::same_bytes, crate::proofs::Sent::first_next, crate::proofs::Sent::greeting_left))]
    pub fn greet(&mut self) -> Moved
        ensures sent { C.sent self.new.connection ≡
            C.sent self.old.connection ++ moved result (rest_of self.old.greeting) }
        ensures rest { moved result (rest_of self.old.greeting) ++ rest_of self.new.greeting ≡
            rest_of self.old.greeting }
        ensures within { IsWithin (length (rest_of self.old.greeting)) result }
        ensures open { result ≢ Moved.Closed }
        ensures greeting { self.new.greeting.bytes ≡ self.old.greeting.bytes }
        ensures outbox { self.new.outbox ≡ self.old.outbox }
        ensures posts { self.new.posts.items ≡ self.old.posts.items }
        ensures came { C.came self.new.connection ≡ C.came self.old.connection }
    {
        match self.connection.write(self.greeting.rest()) {
            Moved::Bytes(count) => {
                self.greeting.advance(count);
                Moved::Bytes(count)
            }
            moved => moved,
        }
    }

    /// Writes what waits once.
    pub fn send(&mut self) -> Moved
        ensures sent { C.sent self.new.connection ≡
            C.sent self.old.connection ++ moved result (waiting_for self.old.outbox) }
        ensures rest { moved result (waiting_for self.old.outbox) ++ waiting_for self.new.outbox ≡
            waiting_for self.old.outbox }
        ensures within { IsWithin (length (waiting_for self.old.outbox)) result }
        ensures open { result ≢ Moved.Closed }
        ensures put { put_into self.new.outbox ≡ put_into self.old.outbox }
        ensures outbox { is_some self.new.outbox ≡ is_some self.old.outbox }
        ensures greeting { self.new.greeting ≡ self.old.greeting }
        ensures posts { self.new.posts.items ≡ self.old.posts.items }
        ensures came { C.came self.new.connection ≡ C.came self.old.connection }
    {
        match &mut self.outbox {
            Some(outbox) => send_from(&mut self.connection, outbox),
            None => Moved::Blocked,
        }
    }

    /// Reads once, to the front of a buffer: what the peer replies.
    pub fn read(&mut self, buf: &mut [u8]) -> Moved
        ensures came { C.came self.new.connection ≡
            C.came self.old.connection ++ moved result buf.new }
        ensures within { IsWithin (length buf.old) result }
        ensures sent { C.sent self.new.connection ≡ C.sent self.old.connection }
        ensures kept { HasStillToSend self.old self.new }
    {
        self.connection.read(buf)
    }

    /// Watches the connection under a token. Returns whether it is watched.
    pub fn watch<N: Network<Connection = C>>(&mut self, network: &N, token: usize) -> bool
        ensures came { C.came self.new.connection ≡ C.came self.old.connection }
        ensures sent { C.sent self.new.connection ≡ C.sent self.old.connection }
        ensures kept { HasStillToSend self.old self.new }
    {
        network.watch(&mut self.connection, token)
    }

    /// All bytes that were sent on the connection are a beginning of a greeting and of the
    /// encodings of what was put into the outbox, and each message that was put in was returned by
    /// the node before one of the posts, always. The call does nothing.
    #[tactic(auto, using(crate::proofs::Sent::all_sent, crate::proofs::Sent::none_spelled))]
    pub fn always_sent(&self)
        ensures sent { ∥ IsSentAs (C.sent self.now.connection) (put_into self.now.outbox) ∥₁ }
        ensures returned { ∥ AreReturned (put_into self.now.outbox) self.now.posts.items ∥₁ }
    {
        match &self.outbox {
            Some(outbox) => outbox.always_spells(),
            None => {}
        }
    }
}

/// The bytes of a greeting, to be sent. None: an allocation failed, or no peer would take it.
fn outgoing_of(alloc: Global, greeting: &Greeting) -> Option<Outgoing>
    ensures greeting { IfSome result (λ outgoing. IsGreetingOf outgoing.bytes) }
    ensures bytes { IfSome result (λ outgoing. outgoing.bytes ≡ greeting_bytes greeting.now) }
    ensures whole { IfSome result (λ outgoing. outgoing.done ≡ 0) }
{
    let mut bytes = Vec::new(alloc);
    if encode(greeting, &mut bytes).is_err() || !is_greeting(bytes.as_slice()) {
        return None;
    }
    let mut outgoing = Outgoing::new(alloc);
    match write_all(&mut outgoing, bytes.as_slice()) {
        Ok(()) => {
            outgoing.restart();
            Some(outgoing)
        }
        Err(_) => None,
    }
}

/// Whether these bytes are those of a greeting.
#[tactic(auto, using(crate::proofs::Sent::whole_greeting))]
fn is_greeting(bytes: &[u8]) -> bool
    ensures { IsTrue result → IsGreetingOf bytes.now }
{
    match decode(bytes) {
        Ok(_) => greeting_length(bytes) == bytes.len(),
        Err(_) => false,
    }
}

/// Offers messages to an outbox, one after the other.
fn offer_all(outbox: &mut Option<Outbox>, messages: &[Message]) -> PostCount
    ensures offered { AreOffered (map view messages.now) outbox.old outbox.new }
    ensures tallied { AreTallied result.put result.dropped (map view messages.now)
        outbox.old outbox.new }
{
    let mut count = PostCount { put: 0, dropped: 0 };
    for message in messages {
        let is_open = outbox.is_some();
        if offer(outbox, message) {
            count.put = count.put.saturating_add(u64::from(is_open));
        } else {
            count.dropped = count.dropped.saturating_add(1);
        }
    }
    count
}

/// Puts a message into the outbox, if there is one. Returns whether it wasn't dropped.
#[tactic(auto, using(crate::proofs::Offers::put_or))]
fn offer(outbox: &mut Option<Outbox>, message: &Message) -> bool
    ensures { IsPutOr result (view message.now) outbox.old outbox.new }
{
    match outbox {
        Some(outbox) => outbox.put(message).is_ok(),
        None => true,
    }
}

/// Writes once of what waits in an outbox.
#[tactic(auto, using(crate::proofs::Sent::sent_chunk, crate::proofs::Sent::chunk_front, crate::proofs::Sent::waiting_left))]
fn send_from<C: Connection>(connection: &mut C, outbox: &mut Outbox) -> Moved
    ensures put { outbox.new.put ≡ outbox.old.put }
    ensures sent { (front : List ℕ) → C.sent connection.old ≡ front ++ outbox.old.written
        → C.sent connection.new ≡ front ++ outbox.new.written }
    ensures bytes { C.sent connection.new ≡
        C.sent connection.old ++ moved result outbox.old.waiting }
    ensures rest { moved result outbox.old.waiting ++ outbox.new.waiting ≡ outbox.old.waiting }
    ensures within { IsWithin (length outbox.old.waiting) result }
    ensures open { result ≢ Moved.Closed }
    ensures came { C.came connection.new ≡ C.came connection.old }
{
    match connection.write(outbox.chunk()) {
        Moved::Bytes(count) => {
            outbox.advance(count);
            Moved::Bytes(count)
        }
        moved => moved,
    }
}
