//! A connection to a peer, on which messages are sent.
ghost use Rattle.std.specs.Prelude.{◌≡◌, ◌++◌};
ghost use Rattle.wf_client.specs.ResponseBuffer.{rest_of};
ghost use Rattle.wf_wire.specs.ToPeer.{AreReturned, IsGreetedFirst, IsGreetingOf, put_into, written_of};

use crate::post::Post;
use wf_client::Outgoing;
use wf_mail::Outbox;
use wf_past::Past;
use wf_sockets::Connection;

/// A connection to a peer: this node's greeting is sent first, and then, once it is opened, what is
/// posted. A clause sees a log that only proofs read: what was posted.
#[derive(Drop)]
pub struct ToPeer<C: Connection> {
    pub(crate) connection: C,
    pub(crate) greeting: Outgoing,
    pub(crate) outbox: Option<Outbox>,
    pub(crate) posts: Past<Post, usize>,
    ghost greets: { ∥ IsGreetingOf greeting.bytes ∥₁ },
    ghost sent: { C.Connection.sent connection ++ rest_of greeting
        ≡ greeting.bytes ++ written_of outbox },
    ghost first: { IsGreetedFirst outbox (rest_of greeting) },
    ghost returned: { ∥ AreReturned (put_into outbox) posts.items ∥₁ },
}
