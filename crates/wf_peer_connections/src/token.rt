//! The tokens of sockets: which socket an event is about.
ghost use Rattle.std.specs.Prelude.{◌≡◌};
ghost use Rattle.wf_peer_connections.specs.Token.{is_of_peer};

use crate::socket::Socket;
use wf_ports::{FIRST_OWN, PortSocket};

/// The token of the listener for peers.
pub(crate) const LISTEN: usize = FIRST_OWN;

/// The first token of the connections to peers: that of node i is this plus i.
const DIAL: usize = 64;

/// The first token of the connections from peers.
const INBOUND: usize = 128;

/// The token of the connection to a node.
pub(crate) fn dial_token(index: usize) -> usize {
    DIAL.saturating_add(index)
}

/// The token of the connection in a slot, from a peer.
pub(crate) fn inbound_token(index: usize) -> usize {
    INBOUND.saturating_add(index)
}

impl Socket {
    /// The socket of a token.
    pub fn of(token: usize) -> Socket {
        match PortSocket::of(token) {
            Some(port) => Socket::Port(port),
            None => Socket::of_peer(token),
        }
    }

    /// The socket of a token that is of no port.
    fn of_peer(token: usize) -> Socket {
        if INBOUND <= token {
            Socket::Inbound(token - INBOUND)
        } else if DIAL <= token {
            Socket::Dial(token - DIAL)
        } else {
            Socket::Listen
        }
    }

    /// Whether it is a listener for peers, or a connection to or from one.
    pub fn is_of_peer(self) -> bool
        ensures { result ≡ is_of_peer self }
    {
        match self {
            Socket::Listen | Socket::Dial(_) | Socket::Inbound(_) => true,
            Socket::Port(_) => false,
        }
    }
}
