//! The tokens of sockets: which socket an event is about.
ghost use Rattle.std.specs.Prelude.{◌≡◌};
ghost use Rattle.wf_ports.specs.Socket.{connection_at, socket_at};

/// The first token of the sockets that are a process's own; 511 is the last.
pub const FIRST_OWN: usize = 3;

/// The first token of operators.
pub(crate) const OPERATOR: usize = 512;

/// The first token of readers.
pub(crate) const READER: usize = 768;

/// The first token of clients.
pub(crate) const CLIENT: usize = 1_024;

/// A socket of a port.
#[derive(Clone, Copy, Debug, PartialEq, Eq)]
pub enum PortSocket {
    /// The listener for clients.
    Http,
    /// The listener for operators.
    Admin,
    /// The listener for readers.
    Readers,
    /// The operator in this slot.
    Operator(usize),
    /// The reader in this slot.
    Reader(usize),
    /// The client in this slot.
    Client(usize),
}

impl PortSocket {
    /// The token of a listener, or of the connection in a slot.
    pub(crate) fn token(self) -> usize {
        match self {
            PortSocket::Http => 0,
            PortSocket::Admin => 1,
            PortSocket::Readers => 2,
            PortSocket::Operator(index) => OPERATOR.saturating_add(index),
            PortSocket::Reader(index) => READER.saturating_add(index),
            PortSocket::Client(index) => CLIENT.saturating_add(index),
        }
    }

    /// The socket of a token. None: it is one of the process's own.
    pub fn of(token: usize) -> Option<PortSocket>
        ensures { result ≡ socket_at token }
    {
        match token {
            0 => Some(PortSocket::Http),
            1 => Some(PortSocket::Admin),
            2 => Some(PortSocket::Readers),
            _ => PortSocket::of_connection(token),
        }
    }

    /// The connection of a token. None: it is one of the process's own.
    fn of_connection(token: usize) -> Option<PortSocket>
        ensures { result ≡ connection_at token }
    {
        if token < OPERATOR {
            None
        } else if token < READER {
            Some(PortSocket::Operator(token - OPERATOR))
        } else if token < CLIENT {
            Some(PortSocket::Reader(token - READER))
        } else {
            Some(PortSocket::Client(token - CLIENT))
        }
    }
}
