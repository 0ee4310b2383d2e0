//! Orders that carry messages: deliveries, pumps, and messages that are cut off on their way.

ghost use Rattle.std.specs.Prelude.{◌≡◌, true, IfErr, OnOk};
ghost use Rattle.wf_farm.specs.Carriage.{IsMemory};
ghost use Rattle.wf_farm.specs.declared.carrier.CarrierFault.TheVariants as faults;
ghost use Rattle.wf_play.specs.OrderEffect.{Delivers};
ghost use Rattle.wf_play.specs.Session.{Plays};
ghost use Rattle.wf_play.specs.Report.{IsAppended, pump_line};

use crate::session::Session;
use std::alloc::Global;
use wf_farm::{Carrier, CarrierFault, Farm, FarmFault};

impl<'s> Session<'s> {
    ghost use Rattle.std.specs.Prelude.{false};
    ghost use Rattle.wf_play.specs.OrderEffect.{ArePumped, may_use};
    ghost use Rattle.wf_play.specs.Report.{IsOneAppended, ReportsPump};
    ghost use Rattle.wf_script.specs.Order.{Cut};

    /// The messages go to the node by the carrier, one after the other.
    pub(crate) fn deliver<C: Carrier>(
        &mut self,
        alloc: Global,
        carrier: &mut C,
        node: usize,
        messages: &[usize],
    ) -> Result<(), CarrierFault>
        ensures script { self.new.script ≡ self.old.script }
        ensures does { OnOk result (Delivers node messages.now self.old.farm self.new.farm) }
        ensures faithful { C.faithful → IfErr result (λ fault. fault ≡ faults.Memory) }
        ensures plays { Plays self.old.farm self.new.farm }
    {
        deliver_in_turn(alloc, carrier, &mut self.farm, node, messages)
    }

    /// The messages that aren't pumped yet go to the nodes by the carrier.
    #[tactic(auto, using(crate::proofs::FarmCalls::pump_played, crate::proofs::FarmCalls::pump_part_played))]
    pub(crate) fn pump<C: Carrier>(
        &mut self,
        alloc: Global,
        carrier: &mut C,
        nodes: &[usize],
        out: &mut String,
    ) -> Result<(), CarrierFault>
        ensures script { self.new.script ≡ self.old.script }
        ensures does { OnOk result (ArePumped nodes.now self.old.farm self.new.farm) }
        ensures reports { OnOk result
            (IsOneAppended (ReportsPump nodes.now self.old.farm self.new.farm) out.old out.new) }
        ensures faithful { C.faithful → IfErr result (λ fault. fault ≡ faults.Memory) }
        ensures plays { Plays self.old.farm self.new.farm }
    {
        let stopped = match self.farm.pump_by(alloc, carrier, nodes) {
            Ok(stopped) => stopped,
            Err(fault) => return Err(why_not_carried(fault)),
        };
        write_pump(stopped, out)
    }

    /// The carrier sends the first bytes of the message, if it was sent and the node runs. Nothing
    /// arrives.
    pub(crate) fn cut<C: Carrier>(
        &self,
        alloc: Global,
        carrier: &mut C,
        node: usize,
        message: usize,
        bytes: usize,
    ) -> Result<(), CarrierFault>
        ensures used { IfErr result (λ _. may_use (Cut node message bytes) self.now.farm ≡ true) }
        ensures unused { may_use (Cut node message bytes) self.now.farm ≡ false →
            carrier.new ≡ carrier.old }
        ensures faithful { C.faithful → IfErr result (λ fault. fault ≡ faults.Memory) }
    {
        if self.farm.node(node).is_none() {
            return Ok(());
        }
        match self.farm.sent(message) {
            Some(message) => carrier.cut(alloc, message, bytes),
            None => Ok(()),
        }
    }
}

/// The messages go to the node, one after the other. The farm has all messages.
#[tactic(auto, using(crate::proofs::Carried::at_once_is_memory))]
fn deliver_in_turn<C: Carrier>(
    alloc: Global,
    carrier: &mut C,
    farm: &mut Farm,
    node: usize,
    messages: &[usize],
) -> Result<(), CarrierFault>
    requires { farm.old.complete ≡ true }
    ensures does { OnOk result (Delivers node messages.now farm.old farm.new) }
    ensures faithful { C.faithful → IfErr result (λ fault. fault ≡ faults.Memory) }
    ensures plays { Plays farm.old farm.new }
    ensures complete { farm.new.complete ≡ true }
{
    for message in messages {
        // Theorem: the farm is one world, so what its nodes published then is what they have
        // published now.
        farm.agree();
        if let Err(fault) = farm.deliver_by(alloc, carrier, node, *message) {
            return Err(why_not_carried(fault));
        }
    }
    Ok(())
}

/// Why a delivery of a farm wasn't made.
fn why_not_carried(fault: FarmFault) -> CarrierFault
    ensures { IsMemory fault → result ≡ faults.Memory }
{
    match fault {
        FarmFault::Memory(_) => CarrierFault::Memory,
        FarmFault::NoNode | FarmFault::Carried(_) => CarrierFault::Lost,
    }
}

/// Appends that a pump stopped early, if it did.
fn write_pump(stopped: bool, out: &mut String) -> Result<(), CarrierFault>
    ensures reported { OnOk result (IsAppended (pump_line stopped) out.old out.new) }
    ensures memory { IfErr result (λ fault. fault ≡ faults.Memory) }
{
    if stopped && out.push_str("pump stopped\n").is_err() {
        return Err(CarrierFault::Memory);
    }
    Ok(())
}
