//! A runtime without a network of the system.

use std::io;
use std::io::ErrorKind;
use std::net::{Net, SocketAddr, TcpListener, TcpStream};

/// A runtime without a network of the system: a program that has it opens no socket but those of a
/// simulated network. Each call fails by `Unsupported`.
#[derive(Clone, Copy, Debug)]
pub struct Offline;

impl Net for Offline {
    type Stream = TcpStream;

    type Listener = TcpListener;

    fn bind(&self, _address: SocketAddr) -> io::Result<TcpListener> {
        Err(io::Error::from(ErrorKind::Unsupported))
    }

    fn connect(&self, _address: SocketAddr) -> io::Result<TcpStream> {
        Err(io::Error::from(ErrorKind::Unsupported))
    }
}
