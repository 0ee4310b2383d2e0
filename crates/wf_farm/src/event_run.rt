//! Runs of events, of which one may be torn.

ghost use Rattle.std.specs.Prelude.{◌≡◌, ◌<◌, ◌≤◌, length, map, take, None, Some, IfOk, IfErr, OnErr, OnOk};
ghost use Rattle.wf_farm.specs.Allocation.{MayAllocate, MayAllocateAt};
ghost use Rattle.wf_farm.specs.Carriage.{ChangesByEvent};
ghost use Rattle.wf_farm.specs.Cluster.{AreSoundHosts, Between, HoldsIn, KeepMembers, Moves, StayShown};
ghost use Rattle.wf_farm.specs.Event.{view};
ghost use Rattle.wf_farm.specs.Fused.{FailsOnly, AddsEvent, HaveRun, IsArmed, ReportsWhyUnlessTorn};
ghost use Rattle.wf_farm.specs.declared.carrier.CarrierFault.TheVariants as carriers;

use crate::carrier::{Carrier, CarrierFault};
use crate::cluster::Cluster;
use crate::event::Event;
use crate::fate::{CrashWatch, Ran};
use crate::rejection::Rejection;
use std::alloc::Global;
use wf_model::Kept;
use wf_tape::MemoryTape;

impl Cluster<MemoryTape> {
    /// Applies the events in order. Err: the number of events that were applied before one wasn't,
    /// which would have an effect, and why.
    #[tactic(auto, using(crate::proofs::Events::same_members))]
    pub(crate) fn run<C: Carrier>(
        &mut self,
        alloc: Global,
        carrier: &mut C,
        events: &[Event],
        watch: CrashWatch,
    ) -> Result<Ran, (usize, CarrierFault)>
        requires members { AreSoundHosts self.old.hosts.items }
        requires size { length self.old.hosts.items ≤ 64 }
        requires armed { FailsOnly watch.node self.old.hosts.items }
        ensures done { IfOk result (λ ran.
            Between (HaveRun watch.node (map view events.now) ran.torn ran.why)
            self.old self.new) }
        ensures armed { IfOk result (λ ran. IsArmed watch.node ran.torn self.new.hosts.items) }
        ensures most { IfErr result (λ e. e.0 < length events.now) }
        ensures part { watch.node ≡ None → IfErr result (λ e.
            Between (Moves (take e.0 (map view events.now))) self.old self.new) }
        ensures may { watch.node ≡ None → IfErr result (λ e.
            HoldsIn (MayAllocateAt e.0 (map view events.now)) self.old) }
        ensures memory { C.faithful → IfErr result (λ e. e.1 ≡ carriers.Memory) }
        ensures members { KeepMembers self.old.hosts.items self.new.hosts.items }
        ensures grows { length self.old.sent.items ≤ length self.new.sent.items }
    {
        let mut why = None;
        let mut torn = None;
        for done in 0..events.len() {
            match self.go(alloc, carrier, &events[done], done, watch, &mut torn) {
                Ok(rejection) => why = rejection,
                Err(fault) => return Err((done, fault)),
            }
        }
        Ok(Ran { why, torn })
    }

    /// Applies the event, as number `number` of a run, and returns its rejection, if its node
    /// rejects. If the tape of the watched node fails within its step, the tape doesn't fail any
    /// more.
    pub(crate) fn go<C: Carrier>(
        &mut self,
        alloc: Global,
        carrier: &mut C,
        event: &Event,
        number: usize,
        watch: CrashWatch,
        torn: &mut Option<(usize, Kept)>,
    ) -> Result<Option<Rejection>, CarrierFault>
        requires members { AreSoundHosts self.old.hosts.items }
        requires size { length self.old.hosts.items ≤ 64 }
        requires armed { IsArmed watch.node torn.old self.old.hosts.items }
        ensures on { OnOk result (Between
            (AddsEvent watch.node number (view event.now) torn.old torn.new) self.old self.new) }
        ensures why { torn.old ≡ None → IfOk result (λ why.
            HoldsIn (ReportsWhyUnlessTorn (view event.now) torn.new why) self.old) }
        ensures armed { OnOk result (IsArmed watch.node torn.new self.new.hosts.items) }
        ensures same { OnErr result (torn.new ≡ torn.old) }
        ensures err { FailsOnly None self.old.hosts.items →
            OnErr result (Between StayShown self.old self.new) }
        ensures may { OnErr result (HoldsIn (MayAllocate (view event.now)) self.old) }
        ensures idle { ChangesByEvent (view event.now) self.old.hosts.items self.old.sent.items
            carrier.old carrier.new }
        ensures memory { C.faithful → IfErr result (λ fault. fault ≡ carriers.Memory) }
        ensures members { KeepMembers self.old.hosts.items self.new.hosts.items }
        ensures grows { length self.old.sent.items ≤ length self.new.sent.items }
    {
        match self.happen(alloc, carrier, event, watch.keep) {
            Ok(happened) => match happened.torn {
                None => Ok(happened.why),
                Some(kept) => {
                    self.disarm(watch.node);
                    *torn = Some((number, kept));
                    Ok(None)
                }
            },
            Err(fault) => Err(fault),
        }
    }

    /// Sets a failure of a node's tape, if the node exists.
    pub(crate) fn arm(&mut self, node: usize, call: usize, kept: usize)
        requires members { AreSoundHosts self.old.hosts.items }
        ensures only { FailsOnly None self.old.hosts.items →
            FailsOnly (Some node) self.new.hosts.items }
        ensures stays { Between StayShown self.old self.new }
        ensures members { AreSoundHosts self.new.hosts.items }
        ensures size { length self.new.hosts.items ≡ length self.old.hosts.items }
        ensures sent { self.new.sent ≡ self.old.sent }
    {
        if node < self.hosts.len() {
            self.hosts[node].set_fuse(call, kept);
        }
    }

    /// Of this node's tape no failure is set any more.
    pub(crate) fn disarm(&mut self, node: Option<usize>)
        ensures only { FailsOnly node self.old.hosts.items →
            FailsOnly None self.new.hosts.items }
        ensures stays { Between StayShown self.old self.new }
        ensures members { KeepMembers self.old.hosts.items self.new.hosts.items }
        ensures sent { self.new.sent ≡ self.old.sent }
    {
        let Some(node) = node else {
            return;
        };
        if node < self.hosts.len() {
            self.hosts[node].set_fuse(0, 0);
        }
    }
}
