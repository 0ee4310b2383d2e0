//! A message crosses from a writer to a reader.

ghost use Rattle.std.specs.Prelude.{◌≡◌, ◌-◌, IfErr, IfOk, OnErr, OnOk, length, min, take};
ghost use Rattle.std.specs.Io.KnownBytes.{Appends};
ghost use Rattle.wf_codec.specs.Message.{IsMessage, view};
ghost use Rattle.wf_codec.specs.Encoding.{spelling};
ghost use Rattle.wf_farm.specs.declared.carrier.CarrierFault.TheVariants as faults;
ghost use Rattle.wf_link.specs.Arrival.{Arrives, HaveArrived};
ghost use Rattle.wf_link.specs.Cause.{BeginsNoMessage, CrossesOrFails, IsAny, IsCalm, IsLost, IsOneMessage, IsUnpassed};
ghost use Rattle.wf_link.specs.MessageCrossing.{AppendsPart, ComesOut, IsSentIfLooped, NoneComesOut, front_of};

use crate::receiver::{Arrival, no_message, nothing, only_message, receive};
use std::alloc::Global;
use wf_codec::{Message, encode};
use wf_farm::CarrierFault;
use wf_stream::{Sink, Source, write_all};

/// The most bytes of a piece: a socket's buffers hold them, so a piece can be written before any of
/// it is read.
pub const PIECE_BYTES: usize = 4_096;

/// Writes the message's encoding in pieces, reads as many bytes after each, and returns the message
/// that they are. Err: `Memory` if an allocation failed; `Lost` if a read or write failed, the
/// reader ended, or its bytes aren't exactly one message. A prefix of the encoding is written then.
#[tactic(auto, using(crate::proofs::Crossed::none_written))]
pub fn cross<K: Sink, S: Source>(
    alloc: Global,
    message: &Message,
    sink: &mut K,
    source: &mut S,
) -> Result<Message, CarrierFault>
    ensures written { OnOk result
        (Appends (K.written sink.old) (K.written sink.new) (spelling (view message.now))) }
    ensures part { OnErr result
        (AppendsPart (K.written sink.old) (K.written sink.new) (spelling (view message.now))) }
    ensures arrived { IfOk result (λ arrived.
        ComesOut (view message.now) (S.left source.old) (S.left source.new) (view arrived)) }
    ensures same { IfOk result (λ arrived.
        IsSentIfLooped (view message.now) (S.left source.old) (view arrived)) }
    ensures cause { CrossesOrFails result
        (IsCalm K.Sink S.Source sink.old sink.new source.old source.new)
        (IsLost K.Sink S.Source (length (spelling (view message.now))) IsOneMessage
        sink.old sink.new source.old source.new) }
{
    let bytes = match encode_message(alloc, message) {
        Ok(bytes) => bytes,
        Err(fault) => return Err(fault),
    };
    let passed = pass_all(alloc, &bytes, sink, source);
    drop(bytes);
    match passed {
        Ok(arrival) => only_message(arrival),
        Err(fault) => Err(fault),
    }
}

/// Writes the first bytes of the message in pieces, at most `count` and at most all but the last,
/// and reads as many bytes after each piece. Ok: no message came out. Err: `Memory` if an
/// allocation failed; `Lost` if a read or write failed, the reader ended, or a message or an error
/// came out. A prefix of the bytes is written then.
#[tactic(auto, using(crate::proofs::Crossed::none_written))]
pub fn cut_off<K: Sink, S: Source>(
    alloc: Global,
    message: &Message,
    count: usize,
    sink: &mut K,
    source: &mut S,
) -> Result<(), CarrierFault>
    ensures written { OnOk result
        (Appends (K.written sink.old) (K.written sink.new) (front_of (view message.now) count)) }
    ensures part { OnErr result
        (AppendsPart (K.written sink.old) (K.written sink.new)
        (front_of (view message.now) count)) }
    ensures none { OnOk result
        (NoneComesOut (front_of (view message.now) count) (S.left source.old) (S.left source.new)) }
    ensures cause { CrossesOrFails result
        (IsCalm K.Sink S.Source sink.old sink.new source.old source.new)
        (IsLost K.Sink S.Source (length (front_of (view message.now) count)) BeginsNoMessage
        sink.old sink.new source.old source.new) }
{
    let bytes = match encode_message(alloc, message) {
        Ok(bytes) => bytes,
        Err(fault) => return Err(fault),
    };
    let passed = pass_all(alloc, front(&bytes, count), sink, source);
    drop(bytes);
    match passed {
        Ok(arrival) => no_message(arrival),
        Err(fault) => Err(fault),
    }
}

/// The message's encoding. Err: an allocation failed.
fn encode_message(alloc: Global, message: &Message) -> Result<Vec<u8>, CarrierFault>
    ensures bytes { IfOk result (λ bytes. bytes.items ≡ spelling (view message.now)) }
    ensures is_message { IsMessage (view message.now) }
    ensures memory { IfErr result (λ fault. fault ≡ faults.Memory) }
{
    let mut bytes = Vec::new(alloc);
    match encode(message, &mut bytes) {
        Ok(()) => Ok(bytes),
        Err(_) => Err(CarrierFault::Memory),
    }
}

/// The first bytes, at most `count` and at most all but the last.
fn front(bytes: &[u8], count: usize) -> &[u8]
    ensures { result.now ≡ take (min count (length bytes.now - 1)) bytes.now }
{
    bytes.split_at(count.min(bytes.len().saturating_sub(1))).0
}

/// Writes the bytes in pieces, and reads as many after each. Ok: what has arrived. Err: a prefix of
/// the bytes is written.
#[tactic(auto, using(crate::proofs::Arrived::first_arrived))]
fn pass_all<K: Sink, S: Source>(
    alloc: Global,
    bytes: &[u8],
    sink: &mut K,
    source: &mut S,
) -> Result<Arrival, CarrierFault>
    ensures written { OnOk result (Appends (K.written sink.old) (K.written sink.new) bytes.now) }
    ensures part { OnErr result (AppendsPart (K.written sink.old) (K.written sink.new) bytes.now) }
    ensures arrived { IfOk result (λ arrival.
        HaveArrived (length bytes.now) (S.left source.old) (S.left source.new) arrival) }
    ensures cause { CrossesOrFails result
        (IsCalm K.Sink S.Source sink.old sink.new source.old source.new)
        (IsLost K.Sink S.Source (length bytes.now) IsAny
        sink.old sink.new source.old source.new) }
{
    let mut arrival = nothing(alloc);
    match pass_each(alloc, bytes, sink, source, &mut arrival) {
        Ok(()) => Ok(arrival),
        Err(fault) => {
            drop(arrival);
            Err(fault)
        }
    }
}

/// Writes the bytes in pieces, and reads as many after each into the arrival.
#[tactic(auto, using(crate::proofs::Crossed::all_passed_arrive, crate::proofs::Crossed::all_passed_written, crate::proofs::Crossed::part_passed, crate::proofs::Crossed::piece_passed))]
fn pass_each<K: Sink, S: Source>(
    alloc: Global,
    bytes: &[u8],
    sink: &mut K,
    source: &mut S,
    arrival: &mut Arrival,
) -> Result<(), CarrierFault>
    ensures written { OnOk result (Appends (K.written sink.old) (K.written sink.new) bytes.now) }
    ensures part { OnErr result (AppendsPart (K.written sink.old) (K.written sink.new) bytes.now) }
    ensures arrives { OnOk result (Arrives
        (length bytes.now) (S.left source.old) (S.left source.new) arrival.old arrival.new) }
    ensures cause { CrossesOrFails result
        (IsCalm K.Sink S.Source sink.old sink.new source.old source.new)
        (IsUnpassed (length bytes.now) (K.failures sink.old) (K.failures sink.new) (S.failures source.old)
        (S.failures source.new) (S.left source.old) (S.left source.new) arrival.old) }
{
    let mut rest = bytes;
    while !rest.is_empty() {
        let (piece, after) = rest.split_at(rest.len().min(PIECE_BYTES));
        match pass(alloc, piece, sink, source, arrival) {
            Ok(()) => rest = after,
            Err(fault) => return Err(fault),
        }
    }
    Ok(())
}

/// Writes a piece, and reads as many bytes into the arrival.
#[tactic(auto, using(crate::proofs::Crossed::all_written))]
fn pass<K: Sink, S: Source>(
    alloc: Global,
    piece: &[u8],
    sink: &mut K,
    source: &mut S,
    arrival: &mut Arrival,
) -> Result<(), CarrierFault>
    ensures written { OnOk result (Appends (K.written sink.old) (K.written sink.new) piece.now) }
    ensures part { OnErr result (AppendsPart (K.written sink.old) (K.written sink.new) piece.now) }
    ensures arrives { OnOk result (Arrives
        (length piece.now) (S.left source.old) (S.left source.new) arrival.old arrival.new) }
    ensures cause { CrossesOrFails result
        (IsCalm K.Sink S.Source sink.old sink.new source.old source.new)
        (IsUnpassed (length piece.now) (K.failures sink.old) (K.failures sink.new) (S.failures source.old)
        (S.failures source.new) (S.left source.old) (S.left source.new) arrival.old) }
{
    match write_all(sink, piece) {
        Ok(()) => receive(alloc, piece.len(), source, arrival),
        Err(_) => Err(CarrierFault::Lost),
    }
}
