//! A connection from a peer.

use crate::event::PeerEnd;
use std::net::SocketAddr;
use wf_ballot::NodeId;
use wf_client::Outgoing;
use wf_peer::Greeting;
use wf_sockets::Connection;
use wf_wire::FromPeer;

/// A connection from a peer, the address from which it came, what is still to be written of the
/// answer to its greeting, and when something last came.
#[derive(Drop)]
pub struct Inbound<C: Connection> {
    pub(crate) peer: FromPeer<C>,
    pub(crate) address: SocketAddr,
    pub(crate) reply: Outgoing,
    pub(crate) last: u64,
}

/// What came in one piece.
#[derive(Clone, Copy)]
pub enum Came {
    /// Nothing now.
    Nothing,
    /// A part of a greeting.
    Part,
    /// The greeting of a peer.
    Greeting(Greeting),
    /// So many messages of a peer, which wait to be taken out: none if only a part of one came.
    Messages(NodeId, usize),
    /// It has ended.
    Ended(PeerEnd),
}
