//! The connections of clients.
ghost use Rattle.std.specs.Prelude.{◌≡◌};

use std::net::SocketAddr;
use wf_sockets::{Connection, Network};

/// The connection of a client. It is watched once an event of it is waited for, which a short
/// request never needs.
#[derive(Drop)]
pub(crate) struct ClientConnection<C: Connection> {
    pub(crate) connection: C,
    address: SocketAddr,
    is_watched: bool,
}

impl<C: Connection> ClientConnection<C> {
    /// A connection that was accepted now, from this address.
    pub(crate) fn new(connection: C, address: SocketAddr) -> Self
        ensures { result.connection ≡ connection }
    {
        ClientConnection {
            connection,
            address,
            is_watched: false,
        }
    }

    /// The address from which it came.
    pub(crate) fn address(&self) -> SocketAddr {
        self.address
    }

    /// Watches it, unless it is watched. Returns whether it is now.
    pub(crate) fn watch<N: Network<Connection = C>>(&mut self, network: &N, token: usize) -> bool
        ensures came { C.came self.new.connection ≡ C.came self.old.connection }
        ensures sent { C.sent self.new.connection ≡ C.sent self.old.connection }
    {
        self.is_watched || self.watch_again(network, token)
    }

    /// Watches it, again if it is watched, so that its next event comes although not all was read.
    /// Returns whether it is now.
    pub(crate) fn watch_again<N: Network<Connection = C>>(
        &mut self,
        network: &N,
        token: usize,
    ) -> bool
        ensures came { C.came self.new.connection ≡ C.came self.old.connection }
        ensures sent { C.sent self.new.connection ≡ C.sent self.old.connection }
    {
        self.is_watched = network.watch(&mut self.connection, token);
        self.is_watched
    }
}
