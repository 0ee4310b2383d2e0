//! Clients that wait at a listener, and what they receive.
use crate::values::unanswered;
use std::alloc::Global;
use std::io::{Read, Write};
use std::net::{Ipv4Addr, Net, TcpListener, TcpStream};
use wf_serve::listen;
use wf_test_table::{Answered, Transcript, Unanswered};

/// A listener, and clients that wait at it.
#[derive(Drop)]
pub(crate) struct Crowd {
    pub(crate) listener: TcpListener,
    pub(crate) clients: Vec<TcpStream>,
}

/// A client that has sent a request.
fn client<R: Net<Stream = TcpStream>>(
    rt: &R,
    port: u16,
    request: &[u8],
) -> Result<TcpStream, Unanswered> {
    match TcpStream::connect(rt, (Ipv4Addr::LOCALHOST, port)) {
        Ok(mut stream) => match stream.write_all(request) {
            Ok(()) => Ok(stream),
            Err(error) => {
                drop(stream);
                Err(unanswered(error))
            }
        },
        Err(error) => Err(unanswered(error)),
    }
}

/// Adds a client that has sent a request.
fn add_client<R: Net<Stream = TcpStream>>(
    rt: &R,
    port: u16,
    request: &[u8],
    clients: &mut Vec<TcpStream>,
) -> Answered {
    let client = client(rt, port, request)?;
    match clients.push(client) {
        Ok(()) => Ok(()),
        Err(_) => Err(Unanswered::Memory),
    }
}

/// Adds clients of whom the first has sent one request, and the others these in turn.
fn add_clients<R: Net<Stream = TcpStream>>(
    rt: &R,
    port: u16,
    first: &[u8],
    requests: &[&[u8]],
    times: usize,
    clients: &mut Vec<TcpStream>,
) -> Answered {
    add_client(rt, port, first, clients)?;
    for _ in 0..times {
        for request in requests {
            add_client(rt, port, request, clients)?;
        }
    }
    Ok(())
}

/// A listener at any port of this machine, and clients of whom the first has sent one request, and
/// the others these in turn.
pub(crate) fn gather<R: Net<Listener = TcpListener, Stream = TcpStream>>(
    rt: &R,
    alloc: Global,
    first: &[u8],
    requests: &[&[u8]],
    times: usize,
) -> Result<Crowd, Unanswered> {
    let listener = match listen(rt, 0) {
        Ok(listener) => listener,
        Err(error) => return Err(unanswered(error)),
    };
    let mut clients = Vec::new(alloc);
    let added = add_clients(rt, port_of(&listener), first, requests, times, &mut clients);
    match added {
        Ok(()) => Ok(Crowd { listener, clients }),
        Err(error) => {
            drop(listener);
            drop(clients);
            Err(error)
        }
    }
}

/// The port of a listener; 0 where the system doesn't report it.
pub(crate) fn port_of(listener: &TcpListener) -> u16 {
    match listener.local_addr() {
        Ok(address) => address.port(),
        Err(_) => 0,
    }
}

/// Appends the response that a client gets. Returns whether it could be read to its end.
pub(crate) fn receive(mut client: TcpStream, response: &mut Transcript) -> bool {
    let read = client.read_to_end(response.target());
    drop(client);
    read.is_ok()
}

/// Appends the response that a client gets, and that it breaks off, if it does.
pub(crate) fn write_response(client: TcpStream, answer: &mut Transcript) {
    if !receive(client, answer) {
        answer.line("broken off");
    }
}

/// Appends the responses that clients get.
pub(crate) fn write_responses(clients: Vec<TcpStream>, answer: &mut Transcript) {
    for client in clients {
        write_response(client, answer);
    }
}
