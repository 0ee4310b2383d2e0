//! The port: its listener, and the line that names it.
ghost use Rattle.std.specs.Prelude.{◌≡◌, ◌≢◌, ◌≤◌, IfSome, None};
ghost use Rattle.std.specs.Net.Socket.{socket_port};
ghost use Rattle.std.specs.String.{string_bytes};
ghost use Rattle.wf_serve.specs.StartFault.{CountsWrites};
ghost use Rattle.wf_serve.specs.PortLine.{HasEnded, IsHere, IsPortFor, IsWritingBytes, PrintsPort, port_line};

use crate::fault::ServeFault;
use std::alloc::Global;
use std::io;
use std::net::{Ipv4Addr, Net, SocketAddr, SocketAddrV4, TcpListener, TcpStream};
use wf_stream::{Sink, write_all};

/// Listens at a port of 127.0.0.1, which only this machine can reach; 0 asks for any free port.
/// Err: the system's error, if the port is taken or not permitted.
pub fn listen<R: Net<Listener = TcpListener, Stream = TcpStream>>(
    rt: &R,
    port: u16,
) -> io::Result<TcpListener> {
    TcpListener::bind(rt, address_of(port))
}

/// The address of a port of this machine.
fn address_of(port: u16) -> SocketAddr
    ensures { IsHere port result }
{
    SocketAddr::V4(SocketAddrV4::new(Ipv4Addr::new(127, 0, 0, 1), port))
}

/// Writes the line with the listener's port. Err: `Start`, with nothing written, if it isn't the
/// requested port, the system doesn't report it, or an allocation fails.
pub(crate) fn print_port<K: Sink>(
    alloc: Global,
    listener: &TcpListener,
    asked: u16,
    sink: &mut K,
) -> Result<(), ServeFault>
    ensures { PrintsPort K.Sink asked sink.old sink.new result }
{
    let Ok(address) = listener.local_addr() else {
        return Err(ServeFault::Start);
    };
    let Some(port) = port_of(&address, asked) else {
        return Err(ServeFault::Start);
    };
    let Some(line) = line_of(alloc, port) else {
        return Err(ServeFault::Start);
    };
    let outcome = put(sink, line.as_bytes());
    drop(line);
    outcome
}

/// The port of a listener's address, which isn't 0. None if another one was requested; 0 requests
/// any.
fn port_of(address: &SocketAddr, asked: u16) -> Option<u16>
    ensures own { IfSome result (λ port. port ≡ socket_port address.now) }
    ensures asked { IfSome result (IsPortFor asked) }
    ensures none { result ≡ None → 1 ≤ socket_port address.now → socket_port address.now ≢ asked }
{
    let port = address.port();
    if port != 0 && (asked == 0 || asked == port) {
        Some(port)
    } else {
        None
    }
}

/// The line with a port. None if an allocation fails.
fn line_of(alloc: Global, port: u16) -> Option<String>
    ensures { IfSome result (λ line. string_bytes line ≡ port_line port) }
{
    match format!(in alloc; "listening {port}\n") {
        Ok(line) => Some(line),
        Err(_) => None,
    }
}

/// Writes all the bytes.
fn put<K: Sink>(sink: &mut K, bytes: &[u8]) -> Result<(), ServeFault>
    ensures written { IsWritingBytes bytes.now (K.written sink.old) (K.written sink.new) result }
    ensures writes { CountsWrites result (K.failures sink.old) (K.failures sink.new) }
    ensures last { HasEnded K.Sink bytes.now sink.old sink.new result }
{
    match write_all(sink, bytes) {
        Ok(()) => Ok(()),
        Err(_) => Err(ServeFault::Write),
    }
}
