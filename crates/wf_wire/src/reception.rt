//! What comes on a connection from a peer is taken in.
ghost use Rattle.std.specs.Prelude.{◌≡◌, ◌≢◌, ◌∷◌, ◌++◌, ◌⊎◌, [], List, IfErr, IfOk, IfSome, Ok, Err, None, length, false, true};
ghost use Rattle.wf_codec.specs.Message.{view};
ghost use Rattle.wf_codec.specs.declared.message.Message as code;
ghost use Rattle.wf_mail.specs.Mail.{IsFirstPart};
ghost use Rattle.wf_mail.specs.Receiver.{Open};
ghost use Rattle.wf_sockets.specs.Moved.{IsWithin, moved};
ghost use Rattle.wf_wire.specs.FromPeer.{HasComeFrom, bytes_by_then, peer_of};
ghost use Rattle.wf_wire.specs.Reception.{AreLostOn, AreReadOn, HasStillCome, IsLostOn, IsLoss, IsLostBy, IsReadBehind, IsReceivedAs, IsStoppedBy, waiting_in};

use crate::from_peer::FromPeer;
use crate::peer_message::PeerMessage;
use crate::receipt::{Received, ReceptionFault};
use std::alloc::Global;
use std::collections::VecDeque;
use wf_ballot::NodeId;
use wf_codec::{DecodeFault, Message};
use wf_mail::Receiver;
use wf_past::Past;
use wf_peer::{Greeting, GreetingFault, decode, greeting_length};
use wf_sockets::{Connection, Moved, Network};

impl<C: Connection + Drop> FromPeer<C> {
    /// A connection on which nothing came.
    #[tactic(auto, using(crate::proofs::Arrival::nothing_came, crate::proofs::Arrival::taken_none, crate::proofs::Arrival::among_nothing, crate::proofs::Arrival::unsaid, crate::proofs::Arrival::opened))]
    pub fn new(alloc: Global, connection: C) -> Self
        requires { C.came connection ≡ [] }
        ensures waiting { waiting_in result ≡ [] }
        ensures connection { result.connection ≡ connection }
        ensures said { result.said ≡ None }
        ensures let_in { result.is_let_in ≡ false }
        ensures receiver { result.receiver ≡ Open [] [] }
        ensures whole { result.is_whole ≡ true }
    {
        FromPeer {
            connection,
            greeting: Vec::new(alloc),
            said: None,
            is_let_in: false,
            receiver: Receiver::new(alloc),
            messages: VecDeque::new(alloc),
            is_whole: true,
        }
    }

    /// The peer, once it is let in.
    pub fn from(&self) -> Option<NodeId>
        ensures { result ≡ peer_of self.now.said self.now.is_let_in }
    {
        match &self.said {
            Some(said) if self.is_let_in => Some(said.node),
            _ => None,
        }
    }

    /// The peer's greeting, once it is whole.
    pub fn said(&self) -> Option<Greeting>
        ensures { result ≡ self.now.said }
    {
        self.said
    }

    /// The peer is let in: from now on messages come of it.
    pub fn let_in(&mut self)
        ensures let_in { self.new.is_let_in ≡ true }
        ensures said { self.new.said ≡ self.old.said }
        ensures waiting { waiting_in self.new ≡ waiting_in self.old }
        ensures kept { HasStillCome self.old self.new }
        ensures connection { self.new.connection ≡ self.old.connection }
    {
        self.is_let_in = true;
    }

    /// Watches the connection under a token. Returns whether it is watched.
    pub fn watch<N: Network<Connection = C>>(&mut self, network: &N, token: usize) -> bool
        ensures let_in { self.new.is_let_in ≡ self.old.is_let_in }
        ensures said { self.new.said ≡ self.old.said }
        ensures waiting { waiting_in self.new ≡ waiting_in self.old }
        ensures kept { HasStillCome self.old self.new }
        ensures sent { C.sent self.new.connection ≡ C.sent self.old.connection }
    {
        network.watch(&mut self.connection, token)
    }

    /// Writes once, from the front of some bytes: what answers the greeting.
    pub fn write(&mut self, bytes: &[u8]) -> Moved
        ensures sent { C.sent self.new.connection ≡
            C.sent self.old.connection ++ moved result bytes.now }
        ensures within { IsWithin (length bytes.now) result }
        ensures open { result ≢ Moved.Closed }
        ensures let_in { self.new.is_let_in ≡ self.old.is_let_in }
        ensures said { self.new.said ≡ self.old.said }
        ensures waiting { waiting_in self.new ≡ waiting_in self.old }
        ensures kept { HasStillCome self.old self.new }
    {
        self.connection.write(bytes)
    }

    /// Reads once, by way of a buffer. Messages that come then wait, in the place of those before.
    /// Err: nothing more comes.
    pub fn receive(&mut self, buf: &mut [u8]) -> Result<Received, ReceptionFault>
        ensures received { IfOk result (λ received. IsReceivedAs received self.old self.new) }
        ensures stopped { IfErr result (λ fault. IsStoppedBy fault self.old self.new) }
        ensures lost { self.old.is_whole ≡ false → result ≡ Err ReceptionFault.Failed }
        ensures waits { self.old.is_whole ≡ true → self.old.said ≢ None →
            self.old.is_let_in ≡ false → result ≡ Ok Received.Nothing }
        ensures let_in { self.new.is_let_in ≡ self.old.is_let_in }
        ensures sent { C.sent self.new.connection ≡ C.sent self.old.connection }
    {
        if !self.is_whole {
            return Err(ReceptionFault::Failed);
        }
        if self.said.is_none() {
            self.receive_greeting(buf)
        } else if self.is_let_in {
            self.receive_messages(buf)
        } else {
            Ok(Received::Nothing)
        }
    }

    /// Reads a piece of the greeting, and no byte after it.
    #[tactic(auto, using(crate::proofs::Arrival::greeting_came, crate::proofs::Arrival::greeting_lost, crate::proofs::Arrival::now_said, crate::proofs::Arrival::said_now, crate::proofs::Arrival::unsaid, crate::proofs::Arrival::stopped_by))]
    fn receive_greeting(&mut self, buf: &mut [u8]) -> Result<Received, ReceptionFault>
        requires unsaid { self.old.said ≡ None }
        requires whole { self.old.is_whole ≡ true }
        ensures received { IfOk result (λ received. IsReceivedAs received self.old self.new) }
        ensures stopped { IfErr result (λ fault. IsStoppedBy fault self.old self.new) }
        ensures let_in { self.new.is_let_in ≡ self.old.is_let_in }
        ensures sent { C.sent self.new.connection ≡ C.sent self.old.connection }
    {
        let room = greeting_length(self.greeting.as_slice())
            .saturating_sub(self.greeting.len())
            .min(buf.len());
        match read_behind(&mut self.connection, &mut self.greeting, &mut buf[..room]) {
            Ok(0) => Ok(Received::Nothing),
            Ok(_) => match decode(self.greeting.as_slice()) {
                Ok(said) => {
                    self.said = Some(said);
                    Ok(Received::Greeting)
                }
                Err(GreetingFault::Short) => Ok(Received::Part),
                Err(fault) => Err(ReceptionFault::BadGreeting(fault)),
            },
            Err(fault) => {
                self.is_whole = false;
                Err(fault)
            }
        }
    }

    /// Reads a piece of the messages.
    #[tactic(auto, using(crate::proofs::Arrival::messages_came, crate::proofs::Arrival::messages_lost, crate::proofs::Arrival::none_came, crate::proofs::Arrival::among_same, crate::proofs::Arrival::stopped_on))]
    fn receive_messages(&mut self, buf: &mut [u8]) -> Result<Received, ReceptionFault>
        requires said { self.old.said ≢ None }
        requires whole { self.old.is_whole ≡ true }
        ensures received { IfOk result (λ received. IsReceivedAs received self.old self.new) }
        ensures stopped { IfErr result (λ fault. IsStoppedBy fault self.old self.new) }
        ensures let_in { self.new.is_let_in ≡ self.old.is_let_in }
        ensures sent { C.sent self.new.connection ≡ C.sent self.old.connection }
    {
        match read_messages(&mut self.connection, &mut self.receiver, buf) {
            Ok(None) => Ok(Received::Nothing),
            Ok(Some(messages)) => {
                let count = messages.len();
                self.messages = VecDeque::from_vec(messages);
                Ok(Received::Messages(count))
            }
            Err(fault) => {
                self.is_whole = false;
                Err(fault)
            }
        }
    }

    /// The first of the messages that wait.
    pub fn first(&self) -> Option<&Message>
        ensures first { IfSome result (λ m. (rest : List code.Message) ×
            (waiting_in self.now ≡ m.now ∷ rest)) }
        ensures none { result ≡ None → waiting_in self.now ≡ [] }
    {
        self.messages.front()
    }

    /// Takes out the first of the messages that wait. It carries what had come on this connection:
    /// the greeting, and the receiver.
    pub fn pop(&mut self) -> Option<PeerMessage>
        ensures first { IfSome result (λ m.
            waiting_in self.old ≡ m.message ∷ waiting_in self.new) }
        ensures stream { IfSome result (λ m.
            m.stream.items ≡ (self.old.greeting, self.old.receiver) ∷ []) }
        // All bytes that had come by then are a beginning of those that have come.
        ensures came { IfSome result (λ m.
            (come : HasComeFrom m.from m.stream.items (view m.message)) →
            ∥ IsFirstPart (bytes_by_then come) (C.came self.new.connection) ∥₁) }
        ensures none { result ≡ None → (self.old.said ≡ None) ⊎ (waiting_in self.old ≡ []) }
        ensures let_in { self.new.is_let_in ≡ self.old.is_let_in }
        ensures said { self.new.said ≡ self.old.said }
        ensures connection { self.new.connection ≡ self.old.connection }
        ensures greeting { self.new.greeting ≡ self.old.greeting }
        ensures receiver { self.new.receiver ≡ self.old.receiver }
    {
        let Some(said) = self.said else {
            return None;
        };
        self.receiver.always_reads();
        match self.messages.pop_front() {
            Some(message) => Some(PeerMessage {
                message,
                from: said.node,
                stream: Past::new().and(&self.greeting, &self.receiver),
            }),
            None => None,
        }
    }
}

/// What a read that moved no byte means.
fn of_moved(moved: Moved) -> Result<(), ReceptionFault>
    ensures { IfErr result IsLoss }
{
    match moved {
        Moved::Bytes(_) | Moved::Blocked => Ok(()),
        Moved::Closed => Err(ReceptionFault::Closed),
        Moved::Failed => Err(ReceptionFault::Failed),
    }
}

/// Reads a piece, and puts it behind what was read before. Returns how many bytes came. Err:
/// nothing more is read, and what came, if anything did, is lost.
fn read_behind<C: Connection>(
    connection: &mut C,
    read: &mut Vec<u8>,
    piece: &mut [u8],
) -> Result<usize, ReceptionFault>
    ensures more { IfOk result (λ count. IsReadBehind count (length piece.old)
        (C.came connection.old) read.old.items (C.came connection.new) read.new.items) }
    ensures lost { IfErr result (λ _. IsLostOn
        (C.came connection.old) read.old.items (C.came connection.new) read.new.items) }
    ensures end { IfErr result IsLoss }
    ensures sent { C.sent connection.new ≡ C.sent connection.old }
{
    match connection.read(piece) {
        Moved::Bytes(count) => match read.extend_from_slice(&piece[..count]) {
            Ok(()) => Ok(count),
            Err(_) => Err(ReceptionFault::Memory),
        },
        moved => match of_moved(moved) {
            Ok(()) => Ok(0),
            Err(fault) => Err(fault),
        },
    }
}

/// Reads a piece of messages, which a receiver takes in. None: nothing came. Err: nothing more is
/// read.
#[tactic(auto, using(crate::proofs::Arrival::taken_on, crate::proofs::Arrival::closed_on, crate::proofs::Arrival::lost_nothing, crate::proofs::Arrival::some_moved, crate::proofs::Arrival::broken_on, crate::proofs::Arrival::lost_by))]
fn read_messages<C: Connection>(
    connection: &mut C,
    receiver: &mut Receiver,
    buf: &mut [u8],
) -> Result<Option<Vec<Message>>, ReceptionFault>
    ensures read { IfOk result (λ messages. AreReadOn messages
        (C.came connection.old) receiver.old (C.came connection.new) receiver.new) }
    ensures lost { IfErr result (λ _. AreLostOn
        (C.came connection.old) receiver.old (C.came connection.new) receiver.new) }
    ensures fault { IfErr result (λ fault. IsLostBy fault
        (C.came connection.old) receiver.old (C.came connection.new)) }
    ensures sent { C.sent connection.new ≡ C.sent connection.old }
{
    match connection.read(buf) {
        Moved::Bytes(count) => match receiver.receive(&buf[..count]) {
            Ok(messages) => Ok(Some(messages)),
            Err(DecodeFault::Memory) => Err(ReceptionFault::Memory),
            Err(_) => Err(ReceptionFault::BadMessage),
        },
        moved => match of_moved(moved) {
            Ok(()) => Ok(None),
            Err(fault) => Err(fault),
        },
    }
}
