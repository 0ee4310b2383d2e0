//! Playing a script on a farm, order by order.

ghost use Rattle.std.specs.Prelude.{◌≡◌, OnOk};

use crate::event::write_rejected;
use crate::fault::{PlayFault, fault_at_line};
use crate::theorem::farm_obeys_theorems;
use std::alloc::{AllocError, Global};
use std::marker::Model;
use wf_farm::{Carrier, CarrierFault, Event, Farm};
use wf_script::{Order, Script, ScriptFault};

/// The farm on which a script is played. It is changed by the farm's own calls alone.
#[derive(Drop)]
pub struct Session<'s> {
    pub(crate) script: &'s Script,
    pub(crate) farm: Farm,
}

impl<'s> Model for Session<'s> {
    ghost use Rattle.std.specs.Coded.{codes};
    ghost use Rattle.std.specs.FinMap as map;
    ghost use Rattle.std.specs.Prelude.{◌≡◌, true};
    ghost use Rattle.wf_play.specs.Session.{Session};

    ghost Value = { Session };

    ghost coded = { Prim.hlevel (codes, map.code) };

    ghost view = { λ s. record {
      script = s.script.now;
      farm = s.farm;
    } };

    // No order forgets a message of the farm, so it is one world of the model.
    ghost invariant = { λ s. s.farm.complete ≡ true };
}

impl<'s> Session<'s> {
    ghost use Rattle.std.specs.Prelude.{[], ◌∷◌, false, map, IfOk, IfErr};
    ghost use Rattle.wf_farm.specs.Agreement.{HasNoTwoDefinitions, IsOneWorld};
    ghost use Rattle.wf_farm.specs.Event.{view as event_view};
    ghost use Rattle.wf_farm.specs.Farm.{Refines, size};
    ghost use Rattle.wf_farm.specs.declared.carrier.CarrierFault.TheVariants as faults;
    ghost use Rattle.wf_model.specs.World.{start};
    ghost use Rattle.wf_script.specs.Order.{view};
    ghost use Rattle.wf_play.specs.Fault.{IsOrderFault, LosesNone, LosesOnlyOf};
    ghost use Rattle.wf_play.specs.Theorem.{HasKeptPromises, HasOwnBallots, HasPromisedMajorities};
    ghost use Rattle.wf_play.specs.OrderEffect.{DoesOrder, HaveHappened, HappensIf, PerformsOrder, carries, event_at, may_use, may_use_at, order_at};
    ghost use Rattle.wf_play.specs.Session.{Plays};
    ghost use Rattle.wf_play.specs.Report.{IsAppended, WritesReport, ReportsOrder, happened_text, step_rejection_line};

    /// The farm before the script's first order: the model's start. Returns S1 at line 1 where an
    /// allocation failed.
    pub fn new(alloc: Global, script: &'s Script) -> Result<Session<'s>, ScriptFault>
        ensures script { IfOk result (λ session. session.script ≡ script.now) }
        ensures start { IfOk result (λ session. Refines session.farm (start script.now.nodes)) }
        ensures size { IfOk result (λ session. size session.farm ≡ script.now.nodes) }
        ensures fresh { IfOk result (λ session. session.farm.pumped ≡ 0) }
        ensures memory { IfErr result (λ fault. fault ≡ ScriptFault.Memory 1) }
    {
        match Farm::new(alloc, script.nodes()) {
            Ok(farm) => Ok(Session { script, farm }),
            Err(_) => Err(ScriptFault::Memory(1)),
        }
    }

    /// The farm after the orders so far.
    pub fn farm(&self) -> &Farm
        ensures { result.now ≡ self.now.farm }
    {
        &self.farm
    }

    /// Performs the order of that number, counted from 0, and appends its output; nothing where
    /// there is no such order. The carrier brings the messages of a delivery and of a pump to their
    /// nodes, and sends those that are cut off; a step within which a node crashes doesn't use it.
    /// Whatever the order and the carrier, the farm has made some events, and the theorems hold of
    /// it after them.
    ///
    /// Returns S1 at the order's line where an allocation failed, and `Wire` where the carrier
    /// failed, or brought another message: then a part of the order may have happened, or be
    /// written. Of a faithful carrier S1 is the only error.
    pub fn perform<C: Carrier>(
        &mut self,
        alloc: Global,
        carrier: &mut C,
        number: usize,
        out: &mut String,
    ) -> Result<(), PlayFault>
        ensures script { self.new.script ≡ self.old.script }
        ensures does { OnOk result (PerformsOrder number self.old self.new) }
        ensures reports { OnOk result (ReportsOrder number self.old self.new out.old out.new) }
        ensures fault { IfErr result (IsOrderFault (order_at self.old number) self.old.farm) }
        ensures faithful { C.faithful → IfErr result LosesNone }
        ensures unused { may_use_at (order_at self.old number) self.old.farm ≡ false →
            carrier.new ≡ carrier.old }
        ensures plays { Plays self.old.farm self.new.farm }
        ensures agree { HasNoTwoDefinitions self.new.farm }
        ensures world { IsOneWorld self.new.farm }
        ensures ballots { HasOwnBallots self.new.farm }
        ensures promises { HasKeptPromises self.new.farm }
        ensures majorities { HasPromisedMajorities self.new.farm }
    {
        let performed = self.perform_order(alloc, carrier, number, out);
        self.obeys_theorems();
        performed
    }

    /// The theorems about the farm hold of it as it is.
    fn obeys_theorems(&self)
        ensures agree { HasNoTwoDefinitions self.now.farm }
        ensures world { IsOneWorld self.now.farm }
        ensures ballots { HasOwnBallots self.now.farm }
        ensures promises { HasKeptPromises self.now.farm }
        ensures majorities { HasPromisedMajorities self.now.farm }
    {
        farm_obeys_theorems(&self.farm);
    }

    /// Performs the order, if there is one.
    #[tactic(auto, using(crate::proofs::FarmCalls::nothing_played, crate::proofs::OrderEffect::nothing_performed, crate::proofs::Faults::order_fault_there, crate::proofs::Faults::none_lost, crate::proofs::OrderEffect::used_there, crate::proofs::Report::nothing_written))]
    fn perform_order<C: Carrier>(
        &mut self,
        alloc: Global,
        carrier: &mut C,
        number: usize,
        out: &mut String,
    ) -> Result<(), PlayFault>
        ensures script { self.new.script ≡ self.old.script }
        ensures does { OnOk result (PerformsOrder number self.old self.new) }
        ensures reports { OnOk result (ReportsOrder number self.old self.new out.old out.new) }
        ensures fault { IfErr result (IsOrderFault (order_at self.old number) self.old.farm) }
        ensures faithful { C.faithful → IfErr result LosesNone }
        ensures unused { may_use_at (order_at self.old number) self.old.farm ≡ false →
            carrier.new ≡ carrier.old }
        ensures plays { Plays self.old.farm self.new.farm }
    {
        let script = self.script;
        match script.order(number) {
            Some(numbered) => match self.obey(alloc, carrier, &numbered.order, out) {
                Ok(()) => Ok(()),
                Err(fault) => Err(fault_at_line(fault, numbered.line)),
            },
            None => Ok(()),
        }
    }

    /// Performs the order.
    #[tactic(auto, using(crate::proofs::FarmCalls::nothing_played, crate::proofs::Report::nothing_more))]
    fn obey<C: Carrier>(
        &mut self,
        alloc: Global,
        carrier: &mut C,
        order: &Order,
        out: &mut String,
    ) -> Result<(), CarrierFault>
        ensures script { self.new.script ≡ self.old.script }
        ensures does { OnOk result (DoesOrder (view order.now) self.old self.new) }
        ensures reports { OnOk result (WritesReport
            (view order.now) self.old self.new out.old out.new) }
        ensures lost { IfErr result (LosesOnlyOf (view order.now) self.old.farm) }
        ensures faithful { C.faithful → IfErr result (λ fault. fault ≡ faults.Memory) }
        ensures unused { may_use (view order.now) self.old.farm ≡ false →
            carrier.new ≡ carrier.old }
        ensures plays { Plays self.old.farm self.new.farm }
    {
        match order {
            Order::Deliver(node, messages) => self.deliver(alloc, carrier, *node, messages),
            Order::Cut(node, message, bytes) => self.cut(alloc, carrier, *node, *message, *bytes),
            Order::Pump(nodes) => self.pump(alloc, carrier, nodes, out),
            Order::Step(..)
            | Order::Stop(_)
            | Order::Restart(_)
            | Order::Torn(..)
            | Order::Skip
            | Order::Ask(_)
            | Order::Get(..)
            | Order::Equal(..) => self.obey_here(alloc, order, out),
        }
    }

    /// Performs an order that carries no message.
    fn obey_here(
        &mut self,
        alloc: Global,
        order: &Order,
        out: &mut String,
    ) -> Result<(), CarrierFault>
        requires { carries (view order.now) ≡ false }
        ensures script { self.new.script ≡ self.old.script }
        ensures does { OnOk result (DoesOrder (view order.now) self.old self.new) }
        ensures reports { OnOk result (WritesReport
            (view order.now) self.old self.new out.old out.new) }
        ensures memory { IfErr result (λ fault. fault ≡ faults.Memory) }
        ensures plays { Plays self.old.farm self.new.farm }
    {
        match self.act(alloc, order, out) {
            Ok(()) => Ok(()),
            Err(_) => Err(CarrierFault::Memory),
        }
    }

    #[tactic(auto, using(crate::proofs::FarmCalls::nothing_played, crate::proofs::FarmCalls::skipped_played, crate::proofs::Report::just))]
    fn act(&mut self, alloc: Global, order: &Order, out: &mut String) -> Result<(), AllocError>
        requires { carries (view order.now) ≡ false }
        ensures script { self.new.script ≡ self.old.script }
        ensures does { OnOk result (DoesOrder (view order.now) self.old self.new) }
        ensures reports { OnOk result (WritesReport
            (view order.now) self.old self.new out.old out.new) }
        ensures plays { Plays self.old.farm self.new.farm }
    {
        match order {
            Order::Skip => {
                self.farm.skip();
                Ok(())
            }
            Order::Ask(question) => self.answer(*question, out),
            Order::Get(node, query) => self.write_answer(alloc, *node, query, out),
            Order::Equal(node, other, query) => self.write_equal(alloc, *node, *other, query, out),
            Order::Step(..) | Order::Stop(_) | Order::Restart(_) | Order::Torn(..) => self.make(
                alloc, order, out,
            ),
            Order::Deliver(..) | Order::Cut(..) | Order::Pump(_) => unreachable!(),
        }
    }

    /// Makes the event that the order is, if it is one.
    #[tactic(auto, using(crate::proofs::FarmCalls::nothing_played, crate::proofs::OrderEffect::happened, crate::proofs::OrderEffect::unhappened))]
    fn make(&mut self, alloc: Global, order: &Order, out: &mut String) -> Result<(), AllocError>
        ensures script { self.new.script ≡ self.old.script }
        ensures does { OnOk result
            (HappensIf (event_at self.old.script.maps (view order.now))
            self.old.farm self.new.farm) }
        ensures reports { OnOk result (IsAppended
            (happened_text (event_at self.old.script.maps (view order.now)) self.new.farm.refused)
            out.old out.new) }
        ensures plays { Plays self.old.farm self.new.farm }
    {
        match self.event_of(order) {
            Ok(Some(event)) => self.happen(alloc, event, out),
            Ok(None) => Ok(()),
            Err(error) => Err(error),
        }
    }

    /// Makes the events in turn, and appends the rejection of the last one, if it was rejected.
    #[tactic(auto, using(crate::proofs::FarmCalls::run_played, crate::proofs::FarmCalls::part_played))]
    fn run(&mut self, alloc: Global, events: &[Event], out: &mut String) -> Result<(), AllocError>
        ensures script { self.new.script ≡ self.old.script }
        ensures does { OnOk result
            (HaveHappened (map event_view events.now) self.old.farm self.new.farm) }
        ensures reports { OnOk result
            (IsAppended (step_rejection_line self.new.farm.refused) out.old out.new) }
        ensures plays { Plays self.old.farm self.new.farm }
    {
        if self.farm.run(alloc, events).is_err() {
            return Err(AllocError);
        }
        write_rejected(self.farm.refused(), out)
    }

    /// Makes the event, and appends its rejection, if it was rejected.
    fn happen(&mut self, alloc: Global, event: Event, out: &mut String) -> Result<(), AllocError>
        ensures script { self.new.script ≡ self.old.script }
        ensures does { OnOk result (HaveHappened
            (event_view event ∷ []) self.old.farm self.new.farm) }
        ensures reports { OnOk result
            (IsAppended (step_rejection_line self.new.farm.refused) out.old out.new) }
        ensures plays { Plays self.old.farm self.new.farm }
    {
        let events = [event];
        self.run(alloc, &events, out)
    }
}
