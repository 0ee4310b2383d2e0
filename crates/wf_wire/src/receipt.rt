//! What came on a connection from a peer.

use wf_peer::GreetingFault;

/// What came on a connection from a peer in one piece.
#[derive(Clone, Copy, Debug, PartialEq, Eq)]
pub enum Received {
    /// Nothing now.
    Nothing,
    /// A part of the greeting.
    Part,
    /// The rest of the greeting. Nothing more is read before the peer is let in.
    Greeting,
    /// So many messages, and maybe a part of another one. What waited before is dropped.
    Messages(usize),
}

/// Why nothing more comes on a connection from a peer.
#[derive(Clone, Copy, Debug, PartialEq, Eq)]
pub enum ReceptionFault {
    /// The peer has closed it.
    Closed,
    /// It has failed.
    Failed,
    /// An allocation failed.
    Memory,
    /// What came isn't a greeting.
    BadGreeting(GreetingFault),
    /// What came after the greeting aren't messages.
    BadMessage,
}
