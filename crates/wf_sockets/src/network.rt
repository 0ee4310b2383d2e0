//! Networks.
ghost use Rattle.std.specs.Prelude.{◌≡◌, [], IfOk, IfSome};

use crate::connection::Connection;
use std::net::{Net, SocketAddr};

/// Why no connection is accepted.
#[derive(Clone, Copy, Debug, PartialEq, Eq)]
pub enum NotAccepted {
    /// None waits.
    Blocked,
    /// One may have waited, and is gone or can't be accepted now. Others may wait.
    Failed,
}

/// Why there is no network of the system.
#[derive(Clone, Copy, Debug, PartialEq, Eq)]
pub enum NetworkError {
    /// The system gives no poll.
    Poll,
    /// An allocation failed.
    Memory,
}

/// A network, on which one listens and connects. No call blocks, and none says which sockets are
/// ready: a caller waits for the tokens under which it listens and watches, and may be told of one
/// too often. What opens a socket is given the runtime, which permits it.
pub trait Network {
    /// A connection of it.
    type Connection: Connection + Drop;

    /// A listener of it. The port is closed where it is dropped.
    type Listener: Drop;

    /// Listens at an address, under a token. Port 0 stands for any free one. None: the address is
    /// taken, isn't of this host, or the system doesn't permit it.
    fn listen<R: Net>(&self, rt: &R, address: SocketAddr, token: usize) -> Option<Self::Listener>;

    /// Where a listener listens, with its port. None: the system doesn't say.
    fn address(&self, listener: &Self::Listener) -> Option<SocketAddr>;

    /// The next connection that waits at a listener, and the address from which it came. It isn't
    /// watched yet.
    fn accept(
        &self,
        listener: &mut Self::Listener,
    ) -> Result<(Self::Connection, SocketAddr), NotAccepted>
        ensures came { IfOk result (λ accepted. Self.Connection.came accepted.0 ≡ []) }
        ensures sent { IfOk result (λ accepted. Self.Connection.sent accepted.0 ≡ []) };

    /// Begins to open a connection to an address. Until it is open, its reads and writes are
    /// `Blocked`; once it can't be opened they fail. It isn't watched yet. None: it can't begin.
    fn connect<R: Net>(&self, rt: &R, address: SocketAddr) -> Option<Self::Connection>
        ensures came { IfSome result (λ connection. Self.Connection.came connection ≡ []) }
        ensures sent { IfSome result (λ connection. Self.Connection.sent connection ≡ []) };

    /// Watches a connection under a token, in place of an earlier one: its next event comes
    /// although not all was read or written since its last. Returns whether it is watched.
    fn watch(&self, connection: &mut Self::Connection, token: usize) -> bool
        ensures came { Self.Connection.came connection.new ≡ Self.Connection.came connection.old }
        ensures sent { Self.Connection.sent connection.new ≡ Self.Connection.sent connection.old };
}
