//! A TCP connection of this machine to itself, as a carrier.

ghost use Rattle.std.specs.Prelude.{◌≡◌, ◌⊎◌, false, true, Err, IfErr, IfOk, OnErr, OnOk, length};
ghost use Rattle.wf_codec.specs.Message.{view};
ghost use Rattle.wf_codec.specs.Encoding.{spelling};
ghost use Rattle.wf_farm.specs.declared.carrier.CarrierFault.TheVariants as faults;
ghost use Rattle.wf_link.specs.Cause.{BeginsNoMessage, IsOneMessage};
ghost use Rattle.wf_link.specs.Connection.{CameMore, HasCrossed, HasSent, IsNotOver, WasLost};
ghost use Rattle.wf_link.specs.MessageCrossing.{front_of};

use crate::message_crossing::{cross, cut_off};
use std::alloc::Global;
use std::io;
use std::io::ErrorKind;
use std::marker::Model;
use std::net::{Ipv4Addr, Net, OpenListener, OpenStream, SocketAddr, TcpListener, TcpStream};
use std::time::Duration;
use wf_codec::Message;
use wf_farm::{Carrier, CarrierFault};
use wf_stream::{Sink, Source, Stream};

/// The time after which a read or a write fails, in seconds.
const WAIT_SECONDS: u64 = 10;

/// The most connections of others that are closed while the own one is waited for: as many as may
/// wait at a listener.
const MOST_OTHERS: u32 = 128;

/// Lets each message cross a TCP connection of this machine to itself. It is opened for the first
/// message, and after one that was cut off or lost; all others cross it one after the other. Model:
/// whether it is open.
#[derive(Drop)]
pub struct Connection<'r, R: Net> {
    rt: &'r R,
    ends: Option<Ends<Stream<R::Stream>, Stream<R::Stream>>>,
}

impl<'r, R: Net> Model for Connection<'r, R> {
    ghost use Rattle.std.specs.Prelude.{Bool, is_some};

    ghost Value = { Bool };

    ghost view = { λ c. is_some c.ends };
}

/// The two ends of a connection.
#[derive(Drop)]
struct Ends<K, S> {
    sender: K,
    receiver: S,
}

/// The ends of a connection of a network.
type EndsOf<R> = Ends<Stream<<R as Net>::Stream>, Stream<<R as Net>::Stream>>;

impl<'r, R: Net> Connection<'r, R> {
    /// A connection that isn't open yet.
    pub fn new(rt: &'r R) -> Self
        ensures { result ≡ false }
    {
        Connection { rt, ends: None }
    }

    /// The ends of the open connection, or of a new one; the connection is closed then. Err: it was
    /// closed, and no new one opens.
    fn ends(&mut self) -> Result<EndsOf<R>, CarrierFault>
        ensures closed { self.new ≡ false }
        ensures unopened { OnErr result (self.old ≡ false) }
    {
        match self.ends.take() {
            Some(ends) => Ok(ends),
            None => match open(self.rt) {
                Ok(ends) => Ok(ends),
                Err(_) => Err(CarrierFault::Lost),
            },
        }
    }
}

impl<'r, R: Net> Carrier for Connection<'r, R> {
    /// Brings the message over the connection. Err: `Memory` if an allocation failed; `Lost` if no
    /// connection opens, a write or a read failed, or what came isn't one message. The connection
    /// is closed then.
    fn carry(&mut self, alloc: Global, message: &Message) -> Result<Message, CarrierFault>
        // It isn't faithful.
        ensures same { ⊥ → IfOk result (λ brought. brought ≡ message.now) }
        ensures memory { ⊥ → IfErr result (λ fault. fault ≡ faults.Memory) }
        // Its bytes crossed a connection, and what came out is the one message that they are.
        ensures crossed { IfOk result (λ brought.
            HasCrossed ⟦<Stream<R::Stream> as Sink>⟧ ⟦<Stream<R::Stream> as Source>⟧
            (view message.now) (view brought)) }
        // A loss on an open connection has its cause there: it is no allocation failure.
        ensures lost { result ≡ Err faults.Lost → (self.old ≡ false) ⊎
            WasLost ⟦<Stream<R::Stream> as Sink>⟧ ⟦<Stream<R::Stream> as Source>⟧
            (length (spelling (view message.now))) IsOneMessage }
        // The next message crosses the same connection, but what is left of a failure isn't used
        // again.
        ensures kept { OnOk result (self.new ≡ true) }
        ensures closed { OnErr result (self.new ≡ false) }
    {
        match self.ends() {
            Ok(mut ends) => match carry_over(alloc, message, &mut ends) {
                Ok(brought) => {
                    self.ends = Some(ends);
                    Ok(brought)
                }
                Err(fault) => {
                    drop(ends);
                    Err(fault)
                }
            },
            Err(fault) => Err(fault),
        }
    }

    /// Sends the first bytes of the message over the connection, and closes it. Err: `Memory` if an
    /// allocation failed; `Lost` if no connection opens, a write or a read failed, or other bytes
    /// came than were sent.
    fn cut(&mut self, alloc: Global, message: &Message, bytes: usize) -> Result<(), CarrierFault>
        // It isn't faithful.
        ensures memory { ⊥ → IfErr result (λ fault. fault ≡ faults.Memory) }
        // Exactly so many of its bytes were written.
        ensures sent { OnOk result
            (HasSent ⟦<Stream<R::Stream> as Sink>⟧ (front_of (view message.now) bytes)) }
        // A loss on an open connection has its cause there: it is no allocation failure.
        ensures lost { let size = length (front_of (view message.now) bytes) in
            result ≡ Err faults.Lost → (self.old ≡ false) ⊎
            (WasLost ⟦<Stream<R::Stream> as Sink>⟧ ⟦<Stream<R::Stream> as Source>⟧
            size BeginsNoMessage ⊎ CameMore ⟦<Stream<R::Stream> as Source>⟧ size) }
        ensures closed { self.new ≡ false }
    {
        match self.ends() {
            Ok(ends) => cut_over(alloc, message, bytes, ends),
            Err(fault) => Err(fault),
        }
    }
}

/// The message crosses the connection.
fn carry_over<K: Sink, S: Source>(
    alloc: Global,
    message: &Message,
    ends: &mut Ends<K, S>,
) -> Result<Message, CarrierFault>
    ensures crossed { IfOk result (λ brought.
        HasCrossed K.Sink S.Source (view message.now) (view brought)) }
    ensures lost { result ≡ Err faults.Lost →
        WasLost K.Sink S.Source (length (spelling (view message.now))) IsOneMessage }
{
    cross(alloc, message, &mut ends.sender, &mut ends.receiver)
}

/// The first bytes of the message cross the connection, and it closes.
fn cut_over<K: Sink + Drop, S: Source + Drop>(
    alloc: Global,
    message: &Message,
    bytes: usize,
    ends: Ends<K, S>,
) -> Result<(), CarrierFault>
    ensures sent { OnOk result (HasSent K.Sink (front_of (view message.now) bytes)) }
    ensures lost { let size = length (front_of (view message.now) bytes) in
        result ≡ Err faults.Lost →
        WasLost K.Sink S.Source size BeginsNoMessage ⊎ CameMore S.Source size }
{
    let Ends {
        mut sender,
        mut receiver,
    } = ends;
    let cut = cut_off(alloc, message, bytes, &mut sender, &mut receiver);
    drop(sender);
    let end = read_end(&mut receiver);
    drop(receiver);
    match cut {
        Ok(()) => end,
        Err(fault) => Err(fault),
    }
}

/// Reads the reader's end. Err: a read failed, or the reader has more.
fn read_end<S: Source>(source: &mut S) -> Result<(), CarrierFault>
    ensures { OnErr result (IsNotOver (S.failures source.old) (S.failures source.new)
        (S.left source.old) (S.left source.new)) }
{
    match source.read(&mut [0u8]) {
        Ok(0) => Ok(()),
        Ok(_) => Err(CarrierFault::Lost),
        Err(_) => Err(CarrierFault::Lost),
    }
}

/// A new connection to a listener of its own, which nobody can reach from elsewhere.
fn open<R: Net>(rt: &R) -> io::Result<EndsOf<R>> {
    let listener = TcpListener::bind(rt, SocketAddr::from((Ipv4Addr::LOCALHOST, 0)))?;
    let sender = TcpStream::connect(rt, listener.local_addr()?)?;
    let receiver = accept_from(&listener, sender.local_addr()?)?;
    let wait = Some(Duration::from_secs(WAIT_SECONDS));
    receiver.set_read_timeout(wait)?;
    sender.set_write_timeout(wait)?;
    // A message shorter than a packet isn't kept back for the one before it to be acknowledged.
    sender.set_nodelay(true)?;
    Ok(Ends {
        sender: Stream::new(sender),
        receiver: Stream::new(receiver),
    })
}

/// The connection from this address. Others that come to the listener before it are closed.
fn accept_from<L: OpenListener>(listener: &L, address: SocketAddr) -> io::Result<L::Stream> {
    for _ in 0..MOST_OTHERS {
        let (stream, peer) = listener.accept()?;
        if peer == address {
            return Ok(stream);
        }
        drop(stream);
    }
    Err(io::Error::from(ErrorKind::ConnectionRefused))
}
