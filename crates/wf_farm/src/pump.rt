//! A pump: each message that isn't pumped yet is delivered to each named node. And a delivery by a
//! carrier.

ghost use Rattle.std.specs.Prelude.{◌≡◌, ◌<◌, ◌≤◌, [], ◌∷◌, length, None, IfOk, IfErr, OnOk, OnErr};
ghost use Rattle.wf_model.specs.Table as table;
ghost use Rattle.wf_model.specs.World.{deliver};
ghost use Rattle.wf_farm.specs.Agreement.{HistoriesGrow};
ghost use Rattle.wf_farm.specs.Allocation.{TakesStep};
ghost use Rattle.wf_farm.specs.Carriage.{ChangesByStep, IsMemory, IsUndelivered};
ghost use Rattle.wf_farm.specs.Cluster.{AreSoundHosts, Between, KeepMembers};
ghost use Rattle.wf_farm.specs.Farm.{IsAtOnce, Runs, size};
ghost use Rattle.wf_farm.specs.Fused.{FailsOnly, HasFaredTo, IsArmed, Stands};
ghost use Rattle.wf_farm.specs.PumpProgress.{IsProgressEnd, IsForMemory, MayEnd};
ghost use Rattle.wf_farm.specs.Pump.{IsPumped, IsPumpedPart};

use crate::carrier::{Carrier, Copies};
use crate::cluster::Cluster;
use crate::event::Event;
use crate::farm::Farm;
use crate::fate::CrashWatch;
use crate::fault::{FarmFault, fault_after};
use crate::progress::{PumpEnd, Pumping, last_end, pump_result};
use crate::targets::targets_of;
use std::alloc::Global;
use wf_delivery::{MOST_DELIVERIES, PumpProgress};
use wf_model::Action;
use wf_tape::MemoryTape;

impl Farm<MemoryTape> {
    /// Delivers message `number` to the node, as the carrier brings it: one event of the model,
    /// whatever the carrier. A delivery without effect (the message isn't sent, or the node is
    /// absent or stopped) is made without the carrier. No delivery is rejected, and the last run's
    /// rejection stands. Err: F1 with 0 if an allocation fails, F3 with 0 if the carrier fails or
    /// brings another message; the world is then unchanged, and the delivery would have an effect.
    /// Of a faithful carrier, F1 is the only error. Each node's published list before is a prefix
    /// of its list afterwards.
    #[tactic(auto, using(crate::proofs::Carried::stays_moves, crate::proofs::Carried::undelivered, crate::proofs::Carried::at_once, crate::proofs::Worlds::members_of, crate::proofs::Worlds::sturdy_of))]
    pub fn deliver_by<C: Carrier>(
        &mut self,
        alloc: Global,
        carrier: &mut C,
        node: usize,
        number: usize,
    ) -> Result<(), FarmFault>
        ensures done { OnOk result (Runs (deliver node number ∷ []) self.old self.new) }
        ensures fault { IfErr result IsUndelivered }
        ensures stays { OnErr result (Runs [] self.old self.new) }
        ensures taken { OnErr result
            (TakesStep node (table.Deliver number) self.old.hosts self.old.sent) }
        ensures idle { ChangesByStep node (table.Deliver number) self.old.hosts self.old.sent
            carrier.old carrier.new }
        ensures faithful { C.faithful → IfErr result IsAtOnce }
        ensures refused { self.new.refused ≡ self.old.refused }
        ensures grows { HistoriesGrow self.old self.new }
        ensures size { size self.new ≡ size self.old }
        ensures pumped { self.new.pumped ≡ self.old.pumped }
        ensures complete { self.new.complete ≡ self.old.complete }
    {
        let event = Event::Act(node, Action::Deliver(number));
        let happened = self.cluster.happen(alloc, carrier, &event, 0);
        drop(event);
        match happened {
            Ok(_) => Ok(()),
            Err(fault) => Err(fault_after(fault, 0)),
        }
    }

    /// Delivers each message not pumped yet, in order of number and including new ones, once to
    /// each named node, ascending; to every node if none is named. A delivery without effect counts
    /// too, even to a node that doesn't exist. A message counts as pumped from its first delivery
    /// on. Returns Ok(true) iff it stopped after 100,000 deliveries with some left. Err: F1 with
    /// the number of deliveries done if an allocation fails; the farm is then the world after
    /// these, and the next delivery would have an effect, unless none is done. Each node's
    /// published list before is a prefix of its list afterwards.
    pub fn pump(&mut self, alloc: Global, nodes: &[usize]) -> Result<bool, FarmFault>
        ensures done { IfOk result (IsPumped nodes.now self.old self.new) }
        ensures part { IfErr result (IsPumpedPart nodes.now self.old self.new) }
        ensures memory { IfErr result IsMemory }
        ensures grows { HistoriesGrow self.old self.new }
        ensures size { size self.new ≡ size self.old }
        ensures refused { self.new.refused ≡ self.old.refused }
        ensures complete { self.new.complete ≡ self.old.complete }
    {
        let mut copies = Copies;
        self.pump_by(alloc, &mut copies, nodes)
    }

    /// A pump by the carrier: each delivery that has an effect is made of what it brings. Err: F1
    /// as for a pump; F3 with the number of deliveries done if the carrier fails or brings another
    /// message: the farm is then the world after these, and the next delivery would have an effect.
    /// Of a faithful carrier, F1 is the only error.
    #[tactic(auto, using(crate::proofs::Carried::pump_for_memory, crate::proofs::Worlds::members_of, crate::proofs::Worlds::sturdy_of))]
    pub fn pump_by<C: Carrier>(
        &mut self,
        alloc: Global,
        carrier: &mut C,
        nodes: &[usize],
    ) -> Result<bool, FarmFault>
        ensures done { IfOk result (IsPumped nodes.now self.old self.new) }
        ensures part { IfErr result (IsPumpedPart nodes.now self.old self.new) }
        ensures memory { C.faithful → IfErr result IsMemory }
        ensures grows { HistoriesGrow self.old self.new }
        ensures size { size self.new ≡ size self.old }
        ensures refused { self.new.refused ≡ self.old.refused }
        ensures complete { self.new.complete ≡ self.old.complete }
    {
        let Ok(targets) = targets_of(alloc, nodes, self.cluster.hosts.len()) else {
            return Err(FarmFault::Memory(0));
        };
        let watch = CrashWatch {
            node: None,
            keep: 0,
        };
        let Pumping {
            progress,
            torn: _,
            end,
        } = self
            .cluster
            .pump(alloc, carrier, &targets, self.pumped, watch);
        self.pumped = progress.pumped(self.pumped);
        pump_result(progress, end)
    }
}

impl Cluster<MemoryTape> {
    /// Delivers the messages from number `first` on to each target by the carrier, until none is
    /// left, the limit of deliveries is reached, or one isn't made.
    #[tactic(auto, using(crate::proofs::Events::same_members))]
    pub(crate) fn pump<C: Carrier>(
        &mut self,
        alloc: Global,
        carrier: &mut C,
        targets: &[usize],
        first: usize,
        watch: CrashWatch,
    ) -> Pumping
        requires members { AreSoundHosts self.old.hosts.items }
        requires size { length self.old.hosts.items ≤ 64 }
        requires some { 0 < length targets.now }
        requires within { first ≤ length self.old.sent.items }
        requires armed { FailsOnly watch.node self.old.hosts.items }
        ensures come { Stands watch.node result.end → Between
            (HasFaredTo watch.node targets.now first result.progress result.torn)
            self.old self.new }
        ensures end { IsProgressEnd first (length self.new.sent.items) result.progress result.end }
        ensures may { watch.node ≡ None → MayEnd targets.now first result.progress
            self.old.hosts.items self.old.sent.items result.end }
        ensures armed { Stands watch.node result.end →
            IsArmed watch.node result.torn self.new.hosts.items }
        ensures memory { C.faithful → IsForMemory result.end }
        ensures members { KeepMembers self.old.hosts.items self.new.hosts.items }
    {
        let mut progress = PumpProgress::start();
        let mut torn = None;
        while progress.done < MOST_DELIVERIES {
            let number = first + progress.whole;
            if number >= self.sent.len() {
                return Pumping {
                    progress,
                    torn,
                    end: PumpEnd::Done,
                };
            }
            let event = Event::Act(targets[progress.some], Action::Deliver(number));
            let gone = self.go(alloc, carrier, &event, progress.done, watch, &mut torn);
            drop(event);
            match gone {
                Ok(_) => progress = progress.next(targets.len()),
                Err(fault) => {
                    return Pumping {
                        progress,
                        torn,
                        end: PumpEnd::Failed(fault),
                    };
                }
            }
        }
        let end = last_end(first + progress.whole < self.sent.len());
        Pumping {
            progress,
            torn,
            end,
        }
    }
}
