//! A connection from a peer, on which messages come.
ghost use Rattle.std.specs.Prelude.{◌≡◌, [], None, map, true};
ghost use Rattle.wf_codec.specs.Message.{view};
ghost use Rattle.wf_mail.specs.Receiver.{came, taken};
ghost use Rattle.wf_wire.specs.FromPeer.{IsGreetedBy, IsTakenIn, takes_more};
ghost use Rattle.wf_wire.specs.Post.{AreAmong};

use std::collections::VecDeque;
use wf_codec::Message;
use wf_mail::Receiver;
use wf_peer::Greeting;
use wf_sockets::Connection;

/// A connection from a peer: its greeting comes first, and then messages, once it is let in.
#[derive(Drop)]
pub struct FromPeer<C: Connection> {
    pub(crate) connection: C,
    // what came of the greeting
    pub(crate) greeting: Vec<u8>,
    // what it says, once it is whole
    pub(crate) said: Option<Greeting>,
    pub(crate) is_let_in: bool,
    pub(crate) receiver: Receiver,
    // the messages that came last, of which none is taken out yet
    pub(crate) messages: VecDeque<Message>,
    // whether all that came was taken in
    pub(crate) is_whole: bool,
    ghost taken_in: { ∥ IsTakenIn (C.Connection.came connection) greeting.items receiver is_whole ∥₁ },
    ghost is_said: { ∥ IsGreetedBy said greeting.items ∥₁ },
    ghost unread: { said ≡ None → taken receiver ≡ [] },
    ghost unbroken: { is_whole ≡ true → takes_more receiver ≡ true },
    ghost waiting: { ∥ AreAmong (map view messages.items) (came receiver) ∥₁ },
}
