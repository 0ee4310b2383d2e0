//! The network of the system, over mio. That its calls move the bytes that they report is a
//! premise, and this the text to read for it.
ghost use Rattle.std.specs.Prelude.{◌≡◌, ◌≢◌, ◌≤◌, [], length};
ghost use Rattle.wf_sockets.specs.Moved.{IsNone};

use crate::connection::Connection;
use crate::moved::Moved;
use crate::network::{Network, NetworkError, NotAccepted};
use crate::trail::Trail;
use mio::net::{TcpListener, TcpStream};
use mio::{Events, Interest, Poll, Registry, Token};
use std::io;
use std::io::{ErrorKind, Read, Write};
use std::net::{Net, Shutdown, SocketAddr};
use std::time::Duration;

/// A connection of the system.
#[derive(Drop)]
pub struct SystemConnection {
    stream: TcpStream,
    is_watched: bool,
    came: Trail,
    sent: Trail,
}

impl SystemConnection {
    /// A connection on which nothing came or was sent.
    fn new(stream: TcpStream) -> Self
        ensures came { result.came.bytes ≡ [] }
        ensures sent { result.sent.bytes ≡ [] }
    {
        SystemConnection {
            stream,
            is_watched: false,
            came: Trail::new(),
            sent: Trail::new(),
        }
    }

    /// Registers it for both directions, again if it is registered. Returns whether it is now.
    fn register(&mut self, registry: &Registry, token: Token) -> bool
        ensures came { self.new.came.bytes ≡ self.old.came.bytes }
        ensures sent { self.new.sent.bytes ≡ self.old.sent.bytes }
    {
        let interests = Interest::READABLE | Interest::WRITABLE;
        let registered = if self.is_watched {
            registry.reregister(&mut self.stream, token, interests)
        } else {
            registry.register(&mut self.stream, token, interests)
        };
        self.is_watched = registered.is_ok();
        self.is_watched
    }
}

/// What an error of a read or a write means. A connection that is being opened isn't connected yet.
fn of_error(error: io::Error) -> Moved
    ensures bytes { IsNone result }
    ensures open { result ≢ Moved.Closed }
{
    match error.kind() {
        ErrorKind::WouldBlock | ErrorKind::Interrupted | ErrorKind::NotConnected => Moved::Blocked,
        _ => Moved::Failed,
    }
}

impl Connection for SystemConnection {
    ghost came = { λ connection. connection.came.bytes };

    ghost sent = { λ connection. connection.sent.bytes };

    fn read(&mut self, buf: &mut [u8]) -> Moved {
        if buf.is_empty() {
            return Moved::Blocked;
        }
        match self.stream.read(buf) {
            Ok(0) => Moved::Closed,
            Ok(count) => {
                self.came.add(buf.split_at(count).0);
                Moved::Bytes(count)
            }
            Err(error) => of_error(error),
        }
    }

    fn write(&mut self, bytes: &[u8]) -> Moved {
        if bytes.is_empty() {
            return Moved::Blocked;
        }
        match self.stream.write(bytes) {
            Ok(0) => Moved::Blocked,
            Ok(count) => {
                self.sent.add(bytes.split_at(count).0);
                Moved::Bytes(count)
            }
            Err(error) => of_error(error),
        }
    }

    fn send_at_once(&mut self) {
        let _ = self.stream.set_nodelay(true);
    }

    fn end_writing(&mut self) {
        let _ = self.stream.shutdown(Shutdown::Write);
    }
}

/// A listener of the system.
#[derive(Drop)]
pub struct SystemListener {
    listener: TcpListener,
}

/// The most sockets of which one is told at once.
const MOST_EVENTS: usize = 256;

/// The network of the system, and what waits for its sockets.
#[derive(Drop)]
pub struct SystemNetwork {
    poll: Poll,
    events: Events,
}

impl SystemNetwork {
    /// No socket is registered yet. Err: the system gives no poll, or an allocation fails.
    pub fn new<R: Net + AllocGlobal>(rt: &R) -> Result<Self, NetworkError> {
        let Ok(poll) = Poll::new(rt) else {
            return Err(NetworkError::Poll);
        };
        match Events::with_capacity(rt.alloc(), MOST_EVENTS) {
            Ok(events) => Ok(SystemNetwork { poll, events }),
            Err(_) => Err(NetworkError::Memory),
        }
    }

    /// Waits until a socket is ready, for so many milliseconds at most. Puts the tokens of the
    /// sockets that are to the front of the buffer, and returns how many that are: none after a
    /// signal, or where the system can't wait. Those that had no room are told of again only by a
    /// later event.
    pub fn wait(&mut self, millis: u64, tokens: &mut [usize]) -> usize
        ensures { result ≤ length tokens.old }
    {
        let _ = self
            .poll
            .poll(&mut self.events, Some(Duration::from_millis(millis)));
        let mut count = 0;
        for event in self.events.iter() {
            if count < tokens.len() {
                tokens[count] = event.token().0;
                count += 1;
            }
        }
        count
    }
}

impl Network for SystemNetwork {
    type Connection = SystemConnection;

    type Listener = SystemListener;

    fn listen<R: Net>(&self, rt: &R, address: SocketAddr, token: usize) -> Option<SystemListener> {
        let mut listener = TcpListener::bind(rt, address).ok()?;
        match self
            .poll
            .registry()
            .register(&mut listener, Token(token), Interest::READABLE)
        {
            Ok(()) => Some(SystemListener { listener }),
            Err(_) => None,
        }
    }

    fn address(&self, listener: &SystemListener) -> Option<SocketAddr> {
        listener.listener.local_addr().ok()
    }

    fn accept(
        &self,
        listener: &mut SystemListener,
    ) -> Result<(SystemConnection, SocketAddr), NotAccepted> {
        match listener.listener.accept() {
            Ok((stream, address)) => Ok((SystemConnection::new(stream), address)),
            Err(error) if error.kind() == ErrorKind::WouldBlock => Err(NotAccepted::Blocked),
            Err(_) => Err(NotAccepted::Failed),
        }
    }

    fn connect<R: Net>(&self, rt: &R, address: SocketAddr) -> Option<SystemConnection> {
        match TcpStream::connect(rt, address) {
            Ok(stream) => Some(SystemConnection::new(stream)),
            Err(_) => None,
        }
    }

    fn watch(&self, connection: &mut SystemConnection, token: usize) -> bool {
        connection.register(self.poll.registry(), Token(token))
    }
}
