//! What brings messages to the nodes of a farm.

ghost use Rattle.std.specs.Prelude.{◌≡◌, IfErr, IfOk, IsOk};
ghost use Rattle.wf_farm.specs.declared.carrier.CarrierFault.TheVariants as faults;

use crate::same::is_same_message;
use std::alloc::Global;
use thiserror::Error;
use wf_codec::Message;

/// Why a carrier doesn't bring a message.
#[derive(Clone, Copy, Debug, PartialEq, Eq, Error)]
pub enum CarrierFault {
    /// An allocation failed.
    #[error("out of memory")]
    Memory,
    /// The message isn't brought.
    #[error("not carried")]
    Lost,
}

/// What brings messages to the nodes of a farm, as a connection does. It is the world outside, so
/// it may bring anything, or fail. Only a faithful one, as [`Copies`] is, is known to bring the
/// message itself and to fail for allocations alone; faithfulness is a property of the type.
pub trait Carrier {
    /// The carrier brings what it is given.
    ghost faithful: { Type 0 } = { ⊥ };

    /// Brings the message to a node, and returns what arrives there.
    fn carry(&mut self, alloc: Global, message: &Message) -> Result<Message, CarrierFault>
        ensures same { faithful → IfOk result (λ brought. brought ≡ message.now) }
        ensures memory { faithful → IfErr result (λ fault. fault ≡ faults.Memory) };

    /// Sends the first bytes of the message, and ends there: nothing arrives. These are at most
    /// `bytes`, and never all of the message.
    fn cut(&mut self, alloc: Global, message: &Message, bytes: usize) -> Result<(), CarrierFault>
        ensures memory { faithful → IfErr result (λ fault. fault ≡ faults.Memory) };
}

/// The carrier that brings a copy of each message.
#[derive(Clone, Copy)]
pub struct Copies;

impl Carrier for Copies {
    ghost faithful = { Unit {0} };

    fn carry(&mut self, _alloc: Global, message: &Message) -> Result<Message, CarrierFault> {
        match message.copy() {
            Ok(copy) => Ok(copy),
            Err(_) => Err(CarrierFault::Memory),
        }
    }

    /// Nothing is sent, so nothing arrives.
    fn cut(&mut self, _alloc: Global, _message: &Message, _bytes: usize) -> Result<(), CarrierFault>
        ensures memory { IfErr result (λ fault. fault ≡ faults.Memory) }
        ensures done { IsOk result }
    {
        Ok(())
    }
}

/// What the carrier brings, if that is the message itself. Err: an allocation failed; or the
/// carrier failed, or it brought another message.
pub(crate) fn carry_over<C: Carrier>(
    alloc: Global,
    carrier: &mut C,
    message: &Message,
) -> Result<Message, CarrierFault>
    ensures same { IfOk result (λ brought. brought ≡ message.now) }
    ensures memory { C.faithful → IfErr result (λ fault. fault ≡ faults.Memory) }
{
    match carrier.carry(alloc, message) {
        Ok(brought) => check_same(brought, message),
        Err(fault) => Err(fault),
    }
}

/// What was brought, if it is the message.
fn check_same(brought: Message, message: &Message) -> Result<Message, CarrierFault>
    ensures same { IfOk result (λ checked. checked ≡ message.now) }
    ensures other { IfErr result (λ fault. fault ≡ faults.Lost) }
    ensures all { brought ≡ message.now → IsOk result }
{
    if is_same_message(&brought, message) {
        return Ok(brought);
    }
    drop(brought);
    Err(CarrierFault::Lost)
}
