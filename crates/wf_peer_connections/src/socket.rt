//! The sockets of a node.

use wf_ports::PortSocket;

/// A socket.
#[derive(Clone, Copy)]
pub enum Socket {
    /// A socket of a port: of clients, of operators or of readers.
    Port(PortSocket),
    /// The listener for peers.
    Listen,
    /// The connection to the node of this number.
    Dial(usize),
    /// The connection in this slot, from a peer.
    Inbound(usize),
}
