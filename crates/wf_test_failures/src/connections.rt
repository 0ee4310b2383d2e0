//! Messages that cross a connection of this machine to itself, whose ends note what passes, and
//! connections that can't be opened or take nothing.
use crate::values::{MAP_A, slot, unanswered};
use std::alloc::Global;
use std::cell::Cell;
use std::io;
use std::io::{ErrorKind, Read, Write};
use std::net::{Ipv4Addr, Net, Shutdown, SocketAddr, TcpListener, TcpStream};
use wf_codec::{Message, encode};
use wf_farm::{Carrier, CarrierFault};
use wf_link::{Connection, cross};
use wf_stream::Stream;
use wf_test_calls::canon_of;
use wf_test_table::{Answered, CaseInput, Transcript, Unanswered};

/// An end of a connection, which notes the bytes that pass, and the longest buffer of a call.
#[derive(Drop)]
struct Noting<'s> {
    stream: &'s TcpStream,
    passed: Vec<u8>,
    longest: usize,
}

impl<'s> Noting<'s> {
    fn new(alloc: Global, stream: &'s TcpStream) -> Self {
        Noting {
            stream,
            passed: Vec::new(alloc),
            longest: 0,
        }
    }
}

impl<'s> Read for Noting<'s> {
    fn read(&mut self, buf: &mut [u8]) -> io::Result<usize> {
        let mut stream = self.stream;
        let count = stream.read(buf)?;
        self.passed.extend_from_slice(&buf[..count])?;
        Ok(count)
    }
}

impl<'s> Write for Noting<'s> {
    fn write(&mut self, buf: &[u8]) -> io::Result<usize> {
        let mut stream = self.stream;
        self.longest = self.longest.max(buf.len());
        let count = stream.write(buf)?;
        self.passed.extend_from_slice(&buf[..count])?;
        Ok(count)
    }

    fn flush(&mut self) -> io::Result<()> {
        Ok(())
    }
}

/// Appends what passed an end: the bytes before a text, or that it isn't this text.
fn write_passed(title: &str, noting: &Noting<'_>, text: &[u8], answer: &mut Transcript) {
    answer.text(title);
    match noting.passed.as_slice().strip_suffix(text) {
        Some(front) => {
            for byte in front {
                answer.text(" ");
                answer.value(*byte);
            }
            answer.line(" and the text");
        }
        None => answer.line(" something else"),
    }
}

/// Appends what has come of a message. It isn't used any more.
fn write_arrived(
    alloc: Global,
    arrived: Result<Message, CarrierFault>,
    bytes: &[u8],
    answer: &mut Transcript,
) {
    match arrived {
        Ok(message) => {
            let mut encoding = Vec::new(alloc);
            let is_same = encode(&message, &mut encoding).is_ok() && encoding.as_slice() == bytes;
            drop(encoding);
            drop(message);
            answer.line(if is_same { "it" } else { "another one" });
        }
        Err(fault) => {
            answer.value(fault);
            answer.line("");
        }
    }
}

/// Appends by which bytes a message crosses a connection, and what comes out.
fn write_crossed(
    alloc: Global,
    message: &Message,
    (sender, receiver): (TcpStream, TcpStream),
    text: &[u8],
    answer: &mut Transcript,
) {
    let mut out = Stream::new(Noting::new(alloc, &sender));
    let mut back = Stream::new(Noting::new(alloc, &receiver));
    let arrived = cross(alloc, message, &mut out, &mut back);
    write_passed("sent", out.inner(), text, answer);
    write_passed("received", back.inner(), text, answer);
    answer.text("at most ");
    answer.count(out.inner().longest);
    answer.line(" at once");
    write_arrived(alloc, arrived, &out.inner().passed, answer);
    drop(out);
    drop(back);
    drop(sender);
    drop(receiver);
}

/// The two ends of a connection: what the first sends, the second receives.
fn ends<R: Net<Listener = TcpListener, Stream = TcpStream>>(
    rt: &R,
) -> io::Result<(TcpStream, TcpStream)> {
    let listener = TcpListener::bind(rt, SocketAddr::from((Ipv4Addr::LOCALHOST, 0)))?;
    let sender = TcpStream::connect(rt, listener.local_addr()?)?;
    let (receiver, _) = listener.accept()?;
    Ok((sender, receiver))
}

/// The Chosen of the map of a canonical text for slot 1.
fn chosen(alloc: Global, text: &[u8]) -> Result<Message, Unanswered> {
    Ok(Message::Chosen(slot(1)?, canon_of(alloc, text)?))
}

/// `crossed`: version 2, kind 6, the length of the rest, the slot and the text cross a connection
/// in pieces.
pub(crate) fn crossed<R: Net<Listener = TcpListener, Stream = TcpStream>>(
    rt: &R,
    asked: CaseInput<'_>,
    answer: &mut Transcript,
) -> Answered {
    let message = chosen(asked.alloc, asked.input)?;
    let written = match ends(rt) {
        Ok(ends) => {
            write_crossed(asked.alloc, &message, ends, asked.input, answer);
            Ok(())
        }
        Err(error) => Err(unanswered(error)),
    };
    drop(message);
    written
}

/// A network on which no listener can be bound.
#[derive(Drop)]
struct Unbound;

impl Net for Unbound {
    type Stream = TcpStream;

    type Listener = TcpListener;

    fn bind(&self, _addr: SocketAddr) -> io::Result<TcpListener> {
        Err(io::Error::from(ErrorKind::AddrInUse))
    }

    fn connect(&self, _addr: SocketAddr) -> io::Result<TcpStream> {
        Err(io::Error::from(ErrorKind::ConnectionRefused))
    }
}

/// A network whose first connection takes nothing from the end that opened it.
#[derive(Drop)]
struct MuteOnce<'r, R> {
    rt: &'r R,
    connections: Cell<u32>,
}

impl<'r, R: Net<Listener = TcpListener, Stream = TcpStream>> Net for MuteOnce<'r, R> {
    type Stream = TcpStream;

    type Listener = TcpListener;

    fn bind(&self, addr: SocketAddr) -> io::Result<TcpListener> {
        self.rt.bind(addr)
    }

    fn connect(&self, addr: SocketAddr) -> io::Result<TcpStream> {
        let stream = self.rt.connect(addr)?;
        let number = self.connections.get();
        self.connections.set(number.saturating_add(1));
        if number == 0 {
            stream.shutdown(Shutdown::Write)?;
        }
        Ok(stream)
    }
}

/// The encoding of the Chosen of map `a`.
fn encoding_of_a(alloc: Global) -> Transcript {
    let mut bytes = Transcript::new(alloc);
    bytes.bytes(&[2, 6, 0, 0, 0, 166, 0, 1]);
    bytes.bytes(MAP_A);
    bytes
}

/// Appends what a carrier brings of a message.
fn write_carried<C: Carrier>(
    alloc: Global,
    carrier: &mut C,
    message: &Message,
    answer: &mut Transcript,
) -> Answered {
    let bytes = encoding_of_a(alloc);
    let arrived = carrier.carry(alloc, message);
    let written = match bytes.finished_text() {
        Ok(bytes) => {
            write_arrived(alloc, arrived, bytes, answer);
            Ok(())
        }
        Err(_) => {
            drop(arrived);
            Err(Unanswered::Memory)
        }
    };
    drop(bytes);
    written
}

/// Appends what becomes of a message that a carrier cuts off.
fn write_cut<C: Carrier>(
    alloc: Global,
    carrier: &mut C,
    message: &Message,
    answer: &mut Transcript,
) {
    match carrier.cut(alloc, message, 100) {
        Ok(()) => answer.line("cut off"),
        Err(fault) => {
            answer.value(fault);
            answer.line("");
        }
    }
}

/// `unopened`: a message is lost, also one that is to be cut off.
pub(crate) fn unopened(asked: CaseInput<'_>, answer: &mut Transcript) -> Answered {
    let message = chosen(asked.alloc, MAP_A)?;
    let mut connection = Connection::new(&Unbound);
    let carried = write_carried(asked.alloc, &mut connection, &message, answer);
    write_cut(asked.alloc, &mut connection, &message, answer);
    drop(connection);
    drop(message);
    carried
}

/// Appends what a carrier brings of a message that is sent so often.
fn write_each<C: Carrier>(
    alloc: Global,
    carrier: &mut C,
    message: &Message,
    times: usize,
    answer: &mut Transcript,
) -> Answered {
    for _ in 0..times {
        write_carried(alloc, carrier, message, answer)?;
    }
    Ok(())
}

/// `broken`: a connection that takes nothing is not used again, and the messages after it cross one
/// new connection.
pub(crate) fn broken<R: Net<Listener = TcpListener, Stream = TcpStream>>(
    rt: &R,
    asked: CaseInput<'_>,
    answer: &mut Transcript,
) -> Answered {
    let message = chosen(asked.alloc, MAP_A)?;
    let network = MuteOnce {
        rt,
        connections: Cell::new(0),
    };
    let mut connection = Connection::new(&network);
    let carried = write_each(asked.alloc, &mut connection, &message, 3, answer);
    drop(connection);
    answer.value(network.connections.get());
    answer.line(" connections");
    drop(network);
    drop(message);
    carried
}

/// `cut_off`: messages cross before and after one that is cut off.
pub(crate) fn cut_off<R: Net<Listener = TcpListener, Stream = TcpStream>>(
    rt: &R,
    asked: CaseInput<'_>,
    answer: &mut Transcript,
) -> Answered {
    let message = chosen(asked.alloc, MAP_A)?;
    let mut connection = Connection::new(rt);
    let before = write_each(asked.alloc, &mut connection, &message, 2, answer);
    write_cut(asked.alloc, &mut connection, &message, answer);
    let after = write_each(asked.alloc, &mut connection, &message, 1, answer);
    drop(connection);
    drop(message);
    before?;
    after
}
