//! Farms in memory.

use crate::carrier::Copies;
use crate::cluster::Cluster;
use crate::event::Event;
use crate::fate::{CrashWatch, Ran};
use crate::fault::FarmFault;
use crate::rejection::Rejection;
use std::alloc::Global;
use std::marker::Model;
use wf_codec::Message;
use wf_node::Node;
use wf_tape::{MemoryTape, Tape};

/// A farm: its nodes, running or stopped, over any kind of tape, and the messages that they sent.
/// Every farm over a durable tape, as one in memory is, is reached from the start by some events,
/// so its nodes agree ([`Farm::agree`]).
#[derive(Drop)]
pub struct Farm<T: Tape = MemoryTape> {
    pub(crate) cluster: Cluster<T>,
    // The number of the first message that doesn't count as pumped.
    pub(crate) pumped: usize,
    // The last event's rejection.
    pub(crate) refused: Option<Rejection>,
    // No message was forgotten.
    pub(crate) complete: bool,
}

impl<T: Tape> Model for Farm<T> {
    ghost use Rattle.std.specs.Coded.{codes};
    ghost use Rattle.std.specs.FinMap as map;
    ghost use Rattle.wf_farm.specs.Farm.{Farm, IsSoundFarm};

    ghost Value = { Farm T };

    ghost coded = { Prim.hlevel (codes, map.code) };

    ghost view = { λ f. record {
      hosts = f.cluster.hosts.items;
      sent = f.cluster.sent.items;
      pumped = f.pumped;
      refused = f.refused;
      complete = f.complete;
    } };

    ghost invariant = { λ f. IsSoundFarm T.durable T.images T.never_fails
        f.cluster.hosts.items f.cluster.sent.items f.pumped f.complete };
}

impl<T: Tape> Farm<T> {
    ghost use Rattle.std.specs.Prelude.{◌≡◌, ◌≤◌, length, slice_get};
    ghost use Rattle.std.specs.Option.{option_copied};
    ghost use Rattle.wf_farm.specs.Farm.{running_in, size};

    /// Why the last event of the last run was rejected; None if it wasn't.
    pub fn refused(&self) -> Option<Rejection>
        ensures { result ≡ self.now.refused }
    {
        self.refused
    }

    /// The number of nodes, running and stopped: 1 to 64.
    pub fn size(&self) -> usize
        ensures value { result ≡ size self.now }
        ensures some { 1 ≤ result }
        ensures most { result ≤ 64 }
    {
        self.cluster.hosts.len()
    }

    /// The node of that number, if it exists and runs.
    pub fn node(&self, number: usize) -> Option<&Node<T>>
        ensures { option_copied result ≡ running_in (slice_get self.now.hosts number) }
    {
        self.cluster.hosts.get(number)?.running()
    }

    /// The message of that number, if it was sent and isn't forgotten.
    pub fn sent(&self, number: usize) -> Option<&Message>
        ensures { option_copied result ≡ slice_get self.now.sent number }
    {
        self.cluster.sent.get(number)
    }

    /// The number of messages sent, those that are forgotten apart.
    pub fn sent_count(&self) -> usize
        ensures { result ≡ length self.now.sent }
    {
        self.cluster.sent.len()
    }

    /// Marks all messages so far as pumped. The world is unchanged.
    pub fn skip(&mut self)
        ensures { self.new ≡ record self.old { pumped = length self.old.sent } }
    {
        self.pumped = self.cluster.sent.len();
    }
}

impl Farm<MemoryTape> {
    ghost use Rattle.std.specs.Prelude.{◌≡◌, ◌≤◌, true, map, None, IfOk, IfErr, OnOk, OnErr};
    ghost use Rattle.wf_model.specs.World.{start};
    ghost use Rattle.wf_farm.specs.Agreement.{HasNoTwoDefinitions, HistoriesGrow, IsOneWorld};
    ghost use Rattle.wf_farm.specs.Allocation.{AllocatesAt};
    ghost use Rattle.wf_farm.specs.Cluster.{ReportsWhy, last_rejected};
    ghost use Rattle.wf_farm.specs.Event.{view};
    ghost use Rattle.wf_farm.specs.Farm.{IsAtOnce, Runs, RunsPart, Refines, size};
    ghost use Rattle.wf_delivery.specs.Reachability.{AreFresh};
    ghost use Rattle.wf_farm.specs.Nodes.{AllRun, nodes_in};

    /// Returns a farm of n nodes, all running, with all parts empty: the model's start. Err: F1
    /// with 0 if an allocation fails.
    #[tactic(auto, using(crate::proofs::Worlds::farm_started, crate::proofs::Worlds::fresh_run, crate::proofs::Worlds::fresh_are_new))]
    pub fn new(alloc: Global, n: u8) -> Result<Farm<MemoryTape>, FarmFault>
        requires some { 1 ≤ n }
        requires most { n ≤ 64 }
        ensures start { IfOk result (λ farm. Refines farm (start n)) }
        ensures size { IfOk result (λ farm. size farm ≡ n) }
        ensures fresh { IfOk result (λ farm. (farm.pumped ≡ 0) × (farm.refused ≡ None)) }
        ensures complete { IfOk result (λ farm. farm.complete ≡ true) }
        ensures running { IfOk result (λ farm. AllRun farm.hosts) }
        ensures new { IfOk result (λ farm. AreFresh (nodes_in farm)) }
        ensures memory { IfErr result IsAtOnce }
    {
        match Cluster::new(alloc, n) {
            Ok(cluster) => Ok(Farm {
                cluster,
                pumped: 0,
                refused: None,
                complete: true,
            }),
            Err(_) => Err(FarmFault::Memory(0)),
        }
    }

    /// Applies the events in order: the farm becomes the model's world after them. Err: F1 with the
    /// number of events done if an allocation fails; the farm is then the world after these, and
    /// the next event would have an effect. In either case each node's published list before is a
    /// prefix of its list afterwards.
    #[tactic(auto, using(crate::proofs::Worlds::members_of, crate::proofs::Worlds::sturdy_of))]
    pub fn run(&mut self, alloc: Global, events: &[Event]) -> Result<(), FarmFault>
        ensures done { OnOk result (Runs (map view events.now) self.old self.new) }
        ensures refused { OnOk result
            (ReportsWhy (λ w. last_rejected w (map view events.now)) self.new.refused
            self.old.hosts self.old.sent) }
        ensures part { IfErr result (λ fault.
            RunsPart fault (map view events.now) self.old self.new) }
        ensures may { IfErr result (λ fault.
            AllocatesAt fault (map view events.now) self.old.hosts self.old.sent) }
        ensures none { OnErr result (self.new.refused ≡ None) }
        ensures grows { HistoriesGrow self.old self.new }
        ensures size { size self.new ≡ size self.old }
        ensures pumped { self.new.pumped ≡ self.old.pumped }
        ensures complete { self.new.complete ≡ self.old.complete }
    {
        let watch = CrashWatch {
            node: None,
            keep: 0,
        };
        let mut copies = Copies;
        match self.cluster.run(alloc, &mut copies, events, watch) {
            Ok(Ran { why, torn: _ }) => {
                self.refused = why;
                Ok(())
            }
            Err((done, _)) => {
                self.refused = None;
                Err(FarmFault::Memory(done))
            }
        }
    }

    /// The headline, for the farm that the caller holds: whatever happened to it, no two of its
    /// nodes, running or stopped, publish different definitions under one sequence. And a farm that
    /// has all messages is exactly one world of the model.
    #[tactic(auto, using(crate::proofs::Worlds::agree_reached, crate::proofs::Worlds::one_world))]
    pub fn agree(&self)
        ensures agree { HasNoTwoDefinitions self.now }
        ensures world { self.now.complete ≡ true → IsOneWorld self.now }
    {
        let _ = &self.cluster;
    }
}
