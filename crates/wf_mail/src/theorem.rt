//! Theorems about the two ends of a connection, and examples of it.

ghost use Rattle.std.specs.Prelude.{◌≡◌, ◌<◌, [], ◌∷◌, IfErr, IfOk, OnOk};
ghost use Rattle.wf_codec.specs.Message.{view};
ghost use Rattle.wf_mail.specs.Theorem.{AllSentCome, NeverBreaks, OnlySentCome};
ghost use Rattle.wf_mail.specs.Mail.{IsFirstPart};
ghost use Rattle.wf_mail.specs.Receiver.{came, taken, IsOpen};

use crate::dropped::Dropped;
use crate::inbox::MESSAGE_BYTES;
use crate::outbox::Outbox;
use crate::receiver::Receiver;
use std::alloc::Global;
use wf_codec::{DecodeFault, Message};

/// Of a connection that carries a beginning of what was put in, only messages come that were put
/// in, in order, none skipped, repeated or invented; all of them once all bytes came; and never an
/// error. Theorems about the definitions: the call does nothing.
pub fn only_sent_messages_come()
    ensures only { OnlySentCome }
    ensures all { AllSentCome }
    ensures unbroken { NeverBreaks }
{}

/// The theorem for the ends of one connection. If the receiver took a beginning of what the outbox
/// wrote out, a beginning of the messages that were put in came; and all of them if it took all,
/// and nothing waits. The call does nothing.
pub fn came_of_what_was_put(outbox: &Outbox, receiver: &Receiver)
    ensures only { IsFirstPart (taken receiver.now) outbox.now.written →
        IsFirstPart (came receiver.now) outbox.now.put }
    ensures all { outbox.now.waiting ≡ [] → taken receiver.now ≡ outbox.now.written →
        came receiver.now ≡ outbox.now.put }
{
    outbox.always_spells();
    receiver.always_reads();
}

/// Carries all bytes that wait from an outbox to a receiver of the same process, at most `most` at
/// a time, however that cuts the messages: all that were put in come. Err: an allocation failed,
/// and the receiver is closed.
pub fn carry_over(
    outbox: &mut Outbox,
    receiver: &mut Receiver,
    most: usize,
) -> Result<(), DecodeFault>
    requires some { 0 < most }
    requires open { IsOpen receiver.old }
    requires carried { taken receiver.old ≡ outbox.old.written }
    ensures put { outbox.new.put ≡ outbox.old.put }
    ensures all { OnOk result (came receiver.new ≡ outbox.old.put) }
    ensures memory { IfErr result (λ fault. fault ≡ DecodeFault.Memory) }
{
    while outbox.remaining() > 0 {
        outbox.always_spells();
        let chunk = outbox.chunk();
        let (piece, _) = chunk.split_at(chunk.len().min(most));
        let count = piece.len();
        match receiver.receive(piece) {
            Ok(_) => outbox.advance(count),
            Err(fault) => return Err(fault),
        }
    }
    came_of_what_was_put(outbox, receiver);
    Ok(())
}

/// An example: a message crosses byte by byte, and is what comes.
#[tactic(auto, unfolding(crate::specs::Mail::spelled))]
pub fn cross_by_bytes(alloc: Global, message: &Message) -> Result<Receiver, DecodeFault>
    ensures { IfOk result (λ receiver. came receiver ≡ view message.now ∷ []) }
{
    let mut outbox = Outbox::new(alloc, MESSAGE_BYTES);
    let mut receiver = Receiver::new(alloc);
    match outbox.put(message) {
        Ok(()) => {}
        Err(Dropped::NoRoom) => return Err(DecodeFault::TooLong),
        Err(Dropped::Memory) => return Err(DecodeFault::Memory),
    }
    match carry_over(&mut outbox, &mut receiver, 1) {
        Ok(()) => Ok(receiver),
        Err(fault) => Err(fault),
    }
}
