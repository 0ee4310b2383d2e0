//! The receiving end of a connection.

ghost use Rattle.std.specs.Prelude.{◌<◌, ◌≡◌, ◌≢◌, ◌≤◌, ◌++◌, [], ◌∷◌, ℕ, List, Err, IfErr, IfOk, OnErr, OnOk, length, map};
ghost use Rattle.std.specs.IoError.{error_kind};
ghost use Rattle.wf_codec.specs.Message.{view};
ghost use Rattle.wf_farm.specs.declared.carrier.CarrierFault.TheVariants as faults;
ghost use Rattle.wf_link.specs.Arrival.{Arrives, HasArrived, HasTaken};
ghost use Rattle.wf_link.specs.Cause.{BeginsNoMessage, CrossesOrFails, BreaksArrival, IsOneMessage, IsUnread};
ghost use Rattle.wf_mail.specs.Stream.{Reads};

use std::alloc::Global;
use std::io;
use std::io::ErrorKind;
use wf_codec::{DecodeFault, Message};
use wf_farm::CarrierFault;
use wf_mail::Inbox;
use wf_stream::{Source, read_piece};

/// An inbox, and the messages that came out of it.
#[derive(Drop)]
pub struct Arrival {
    pub inbox: Inbox,
    pub messages: Vec<Message>,
}

/// Nothing has arrived.
#[tactic(auto, using(crate::proofs::Arrived::nothing_received))]
pub fn nothing(alloc: Global) -> Arrival
    ensures { HasArrived [] result }
{
    Arrival {
        inbox: Inbox::new(alloc),
        messages: Vec::new(alloc),
    }
}

/// Reads `count` bytes into the arrival, as they come. Err: an allocation failed; or a read failed,
/// the reader ended, or the bytes aren't messages.
pub fn receive<S: Source>(
    alloc: Global,
    count: usize,
    source: &mut S,
    arrival: &mut Arrival,
) -> Result<(), CarrierFault>
    ensures arrives { OnOk result
        (Arrives count (S.left source.old) (S.left source.new) arrival.old arrival.new) }
    ensures cause { CrossesOrFails result (S.failures source.new ≡ S.failures source.old)
        (IsUnread count (S.failures source.old) (S.failures source.new)
        (S.left source.old) (S.left source.new) arrival.old) }
{
    let mut received = 0;
    while received < count {
        match receive_some(alloc, count - received, source, arrival) {
            Ok(some) => received += some,
            Err(fault) => return Err(fault),
        }
    }
    Ok(())
}

/// Reads once into the arrival, at least one byte and at most `room`, and returns their number.
#[tactic(auto, using(crate::proofs::Arrived::arrived_some))]
fn receive_some<S: Source>(
    alloc: Global,
    room: usize,
    source: &mut S,
    arrival: &mut Arrival,
) -> Result<usize, CarrierFault>
    requires { 0 < room }
    ensures arrives { IfOk result (λ some.
        Arrives some (S.left source.old) (S.left source.new) arrival.old arrival.new) }
    ensures some { IfOk result (λ some. 0 < some) }
    ensures within { IfOk result (λ some. some ≤ room) }
    ensures cause { CrossesOrFails result (S.failures source.new ≡ S.failures source.old)
        (IsUnread room (S.failures source.old) (S.failures source.new)
        (S.left source.old) (S.left source.new) arrival.old) }
{
    let mut piece = Vec::new(alloc);
    match read_piece(source, &mut piece, room) {
        Ok(0) => Err(CarrierFault::Lost),
        Ok(some) => match take(arrival, &piece) {
            Ok(()) => Ok(some),
            Err(fault) => Err(fault),
        },
        Err(error) => Err(why_unread(error)),
    }
}

/// Why a read gave nothing.
fn why_unread(error: io::Error) -> CarrierFault
    ensures memory { result ≡ faults.Memory → error_kind error ≡ ErrorKind.OutOfMemory }
    ensures lost { result ≡ faults.Lost → error_kind error ≢ ErrorKind.OutOfMemory }
{
    match error.kind() {
        ErrorKind::OutOfMemory => CarrierFault::Memory,
        _ => CarrierFault::Lost,
    }
}

/// A piece arrives. Err: an allocation failed, or the bytes aren't messages.
fn take(arrival: &mut Arrival, piece: &[u8]) -> Result<(), CarrierFault>
    ensures taken { OnOk result (HasTaken piece.now arrival.old arrival.new) }
    ensures broken { result ≡ Err faults.Lost → BreaksArrival piece.now arrival.old }
{
    match arrival.inbox.feed(piece) {
        Ok(messages) => keep(&mut arrival.messages, messages),
        Err(fault) => Err(why_unfed(fault)),
    }
}

/// Why an inbox takes no bytes.
fn why_unfed(fault: DecodeFault) -> CarrierFault
    ensures { result ≡ faults.Lost → fault ≢ DecodeFault.Memory }
{
    match fault {
        DecodeFault::Memory => CarrierFault::Memory,
        _ => CarrierFault::Lost,
    }
}

/// Appends the messages that came out.
#[tactic(auto, using(crate::proofs::Arrived::kept))]
fn keep(messages: &mut Vec<Message>, mut more: Vec<Message>) -> Result<(), CarrierFault>
    ensures kept { OnOk result
        (map view messages.new.items ≡ map view messages.old.items ++ map view more.items) }
    ensures memory { IfErr result (λ fault. fault ≡ faults.Memory) }
{
    let kept = messages.append(&mut more);
    drop(more);
    match kept {
        Ok(()) => Ok(()),
        Err(_) => Err(CarrierFault::Memory),
    }
}

/// The message that arrived, if it is one, and nothing behind it.
pub fn only_message(arrival: Arrival) -> Result<Message, CarrierFault>
    ensures one { (bytes : List ℕ) → HasArrived bytes arrival →
        IfOk result (λ message. Reads bytes (view message ∷ []) []) }
    ensures other { (bytes : List ℕ) → HasArrived bytes arrival →
        OnErr result (IsOneMessage bytes → ⊥) }
    ensures lost { IfErr result (λ fault. fault ≡ faults.Lost) }
{
    let Arrival { inbox, messages } = arrival;
    let rest = inbox.pending();
    drop(inbox);
    if rest != 0 {
        drop(messages);
        return Err(CarrierFault::Lost);
    }
    only(messages)
}

/// The message of a list of one.
#[tactic(auto, using(crate::proofs::Arrived::one_left))]
fn only(mut messages: Vec<Message>) -> Result<Message, CarrierFault>
    ensures one { IfOk result (λ message. messages.items ≡ message ∷ []) }
    ensures other { OnErr result (length messages.items ≢ 1) }
    ensures lost { IfErr result (λ fault. fault ≡ faults.Lost) }
{
    let message = messages.pop();
    let left = messages.len();
    drop(messages);
    match message {
        Some(message) if left == 0 => Ok(message),
        Some(message) => {
            drop(message);
            Err(CarrierFault::Lost)
        }
        None => Err(CarrierFault::Lost),
    }
}

/// Err: a message arrived.
#[tactic(auto, using(crate::proofs::Arrived::none_came_out))]
pub fn no_message(arrival: Arrival) -> Result<(), CarrierFault>
    ensures none { (bytes : List ℕ) → HasArrived bytes arrival →
        OnOk result (BeginsNoMessage bytes) }
    ensures other { (bytes : List ℕ) → HasArrived bytes arrival →
        OnErr result (BeginsNoMessage bytes → ⊥) }
    ensures lost { IfErr result (λ fault. fault ≡ faults.Lost) }
{
    let count = arrival.messages.len();
    drop(arrival);
    if count != 0 {
        return Err(CarrierFault::Lost);
    }
    Ok(())
}
