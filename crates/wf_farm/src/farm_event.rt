//! One event of a farm.

ghost use Rattle.std.specs.Prelude.{◌≡◌, ◌<◌, ◌≤◌, ℕ, true, false, is_some, length, None, Some, IfErr, IfOk, OnErr, OnOk};
ghost use Rattle.wf_def.specs.Definition.{Definition};
ghost use Rattle.wf_model.specs.Action.{numbered};
ghost use Rattle.wf_model.specs.Table.{Action as ModelAction};
ghost use Rattle.wf_model.specs.World as world;
ghost use Rattle.wf_node.specs.Input.{view as view_input};
ghost use Rattle.wf_farm.specs.Allocation.{MayAllocate};
ghost use Rattle.wf_farm.specs.Carriage.{ChangesByEvent};
ghost use Rattle.wf_farm.specs.Cluster.{AreSoundHosts, Between, Happens, HoldsIn, KeepMembers, StayShown, input_in};
ghost use Rattle.wf_farm.specs.Event.{view};
ghost use Rattle.wf_farm.specs.Fused.{FailsOnly, IsHappened, TearsAt, TearsOnly};
ghost use Rattle.wf_farm.specs.FallibleStep.{GoesThere, IsIdle, TakesItsStep, ReportsWhyNot, acted, received_as};
ghost use Rattle.wf_farm.specs.declared.carrier.CarrierFault.TheVariants as carriers;

use crate::carrier::{Carrier, CarrierFault, carry_over};
use crate::cluster::{Cluster, NodeHost};
use crate::event::Event;
use crate::fate::{Fate, Happened};
use crate::fault::rejection_in;
use crate::rejection::Rejection;
use std::alloc::Global;
use wf_ballot::NodeId;
use wf_codec::Canon;
use wf_delivery::{MOST_OUTPUTS, send};
use wf_model::{Action, Kept};
use wf_node::{Input, Node, NodeFault};
use wf_tape::{MemoryTape, Tape};

impl Cluster<MemoryTape> {
    /// Applies the event. The message of a delivery is what the carrier brings; it isn't used if
    /// the event has no effect. If the tape of the node fails within its step, the node crashes,
    /// which keeps `keep` unsynced bytes, and is opened again. Err: an allocation failed, or the
    /// carrier failed or brought another message, at an event that would have an effect; if no tape
    /// fails, the world is unchanged.
    #[tactic(auto, using(crate::proofs::Events::same_members))]
    pub(crate) fn happen<C: Carrier>(
        &mut self,
        alloc: Global,
        carrier: &mut C,
        event: &Event,
        keep: usize,
    ) -> Result<Happened, CarrierFault>
        requires members { AreSoundHosts self.old.hosts.items }
        requires size { length self.old.hosts.items ≤ 64 }
        ensures done { IfOk result (λ what.
            Between (IsHappened (view event.now) what) self.old self.new) }
        ensures tears { IfOk result (λ what.
            TearsOnly what.torn (view event.now) self.old.hosts.items) }
        ensures err { FailsOnly None self.old.hosts.items →
            OnErr result (Between StayShown self.old self.new) }
        ensures may { OnErr result (HoldsIn (MayAllocate (view event.now)) self.old) }
        ensures idle { ChangesByEvent (view event.now) self.old.hosts.items self.old.sent.items
            carrier.old carrier.new }
        ensures memory { C.faithful → IfErr result (λ fault. fault ≡ carriers.Memory) }
        ensures members { KeepMembers self.old.hosts.items self.new.hosts.items }
        ensures grows { length self.old.sent.items ≤ length self.new.sent.items }
    {
        match event {
            Event::Act(node, action) => self.act(alloc, carrier, *node, action, None, keep),
            Event::Stop(node) => {
                self.stop(alloc, *node);
                Ok(Happened {
                    why: None,
                    torn: None,
                })
            }
            Event::Restart(node) => self.restart(alloc, *node),
            Event::Torn(node, action, kept) => {
                self.act(alloc, carrier, *node, action, Some(*kept), keep)
            }
        }
    }

    /// Performs a step of a node, if the node takes it: the whole step, or one within which the
    /// node crashes, which leaves `crash`. A step without effect takes precedence over an error.
    #[tactic(auto, using(crate::proofs::Events::same_members))]
    fn act<C: Carrier>(
        &mut self,
        alloc: Global,
        carrier: &mut C,
        node: usize,
        action: &Action<Canon, usize>,
        crash: Option<Kept>,
        keep: usize,
    ) -> Result<Happened, CarrierFault>
        requires members { AreSoundHosts self.old.hosts.items }
        requires size { length self.old.hosts.items ≤ 64 }
        ensures done { IfOk result (λ what. Between
            (IsHappened (acted crash node (numbered action.now)) what) self.old self.new) }
        ensures tears { IfOk result (λ what.
            TearsOnly what.torn (acted crash node (numbered action.now)) self.old.hosts.items) }
        ensures err { FailsOnly None self.old.hosts.items →
            OnErr result (Between StayShown self.old self.new) }
        ensures may { OnErr result (HoldsIn
            (MayAllocate (acted crash node (numbered action.now))) self.old) }
        ensures idle { ChangesByEvent (acted crash node (numbered action.now))
            self.old.hosts.items self.old.sent.items carrier.old carrier.new }
        ensures memory { C.faithful → IfErr result (λ fault. fault ≡ carriers.Memory) }
        ensures members { KeepMembers self.old.hosts.items self.new.hosts.items }
        ensures grows { length self.old.sent.items ≤ length self.new.sent.items }
    {
        match self.takes(node, action) {
            Err(why) => Ok(Happened { why, torn: None }),
            Ok(()) => match crash {
                None => self.give(alloc, carrier, node, action, true, keep),
                Some(kept) => match kept {
                    Kept::After => self.give(alloc, carrier, node, action, false, keep),
                    Kept::Before => {
                        self.hosts[node].stop(alloc);
                        Ok(Happened {
                            why: None,
                            torn: None,
                        })
                    }
                },
            },
        }
    }

    /// Whether a node takes a step: it exists and runs, the step's message was sent, and the node
    /// doesn't reject it. Err: nothing happens, and why the node rejects the step, if it does.
    /// Allocates nothing.
    fn takes(&self, node: usize, action: &Action<Canon, usize>) -> Result<(), Option<Rejection>>
        requires members { AreSoundHosts self.now.hosts.items }
        ensures within { OnOk result (node < length self.now.hosts.items) }
        ensures taken { OnOk result (HoldsIn (TakesItsStep node (numbered action.now)) self.now) }
        ensures idle { IfErr result (λ why.
            HoldsIn (IsIdle node (numbered action.now) why) self.now) }
    {
        match self.hosts.get(node) {
            Some(host) => match host {
                NodeHost::Running(running) => {
                    if !self.is_sent(action) {
                        return Err(None);
                    }
                    match step_rejection(running, action) {
                        Some(fault) => Err(rejection_in(fault)),
                        None => Ok(()),
                    }
                }
                NodeHost::Stopped(_) => Err(None),
            },
            None => Err(None),
        }
    }

    /// Performs a step that the node takes. Its messages are sent if it is heard; else the node
    /// stops after it.
    #[tactic(auto, using(crate::proofs::Events::same_members))]
    fn give<C: Carrier>(
        &mut self,
        alloc: Global,
        carrier: &mut C,
        node: usize,
        action: &Action<Canon, usize>,
        received: bool,
        keep: usize,
    ) -> Result<Happened, CarrierFault>
        requires node { node < length self.old.hosts.items }
        requires taken { HoldsIn (TakesItsStep node (numbered action.now)) self.old }
        requires size { length self.old.hosts.items ≤ 64 }
        ensures done { IfOk result (λ what. Between
            (IsHappened (received_as received node (numbered action.now)) what) self.old self.new) }
        ensures tears { IfOk result (λ what. TearsAt what.torn node self.old.hosts.items) }
        ensures err { FailsOnly None self.old.hosts.items →
            OnErr result (Between StayShown self.old self.new) }
        ensures memory { C.faithful → IfErr result (λ fault. fault ≡ carriers.Memory) }
        ensures members { KeepMembers self.old.hosts.items self.new.hosts.items }
        ensures grows { length self.old.sent.items ≤ length self.new.sent.items }
    {
        match self.input_of(alloc, carrier, action) {
            Ok(input) => self.step(alloc, node, input, received, keep),
            Err(fault) => Err(fault),
        }
    }

    /// Performs the step with this input. Room for its messages is reserved first, since a node
    /// can't undo a step. The only error is allocation failure.
    #[tactic(auto, using(crate::proofs::Events::same_members))]
    fn step(
        &mut self,
        alloc: Global,
        node: usize,
        input: Input,
        received: bool,
        keep: usize,
    ) -> Result<Happened, CarrierFault>
        requires node { node < length self.old.hosts.items }
        requires goes { GoesThere node (view_input input) self.old.hosts.items }
        requires size { length self.old.hosts.items ≤ 64 }
        ensures done { (action : ModelAction Definition ℕ) →
            input_in self.old.sent.items action ≡ Some (view_input input) →
            IfOk result (λ what.
            Between (IsHappened (received_as received node action) what) self.old self.new) }
        ensures tears { IfOk result (λ what. TearsAt what.torn node self.old.hosts.items) }
        ensures err { FailsOnly None self.old.hosts.items →
            OnErr result (Between StayShown self.old self.new) }
        ensures memory { IfErr result (λ fault. fault ≡ carriers.Memory) }
        ensures members { KeepMembers self.old.hosts.items self.new.hosts.items }
        ensures grows { length self.old.sent.items ≤ length self.new.sent.items }
    {
        if self.sent.reserve(MOST_OUTPUTS).is_err() {
            drop(input);
            return Err(CarrierFault::Memory);
        }
        match self.hosts[node].step(alloc, keep, input) {
            Fate::Done(outputs) => {
                if received {
                    send(&mut self.sent, outputs);
                    return Ok(Happened {
                        why: None,
                        torn: None,
                    });
                }
                drop(outputs);
                self.hosts[node].stop(alloc);
                Ok(Happened {
                    why: None,
                    torn: None,
                })
            }
            Fate::Torn(kept) => Ok(Happened {
                why: None,
                torn: Some(kept),
            }),
            Fate::Lost => Err(CarrierFault::Memory),
        }
    }

    /// Stops a node, if it exists.
    #[tactic(auto, using(crate::proofs::Events::same_members))]
    fn stop(&mut self, alloc: Global, node: usize)
        requires members { AreSoundHosts self.old.hosts.items }
        ensures done { Between (Happens (world.Stop node) None) self.old self.new }
        ensures members { KeepMembers self.old.hosts.items self.new.hosts.items }
        ensures grows { length self.old.sent.items ≤ length self.new.sent.items }
    {
        if node < self.hosts.len() {
            self.hosts[node].stop(alloc);
        }
    }

    /// Restarts a stopped node, if it exists. The only error is allocation failure.
    #[tactic(auto, using(crate::proofs::Events::same_members))]
    fn restart(&mut self, alloc: Global, node: usize) -> Result<Happened, CarrierFault>
        requires members { AreSoundHosts self.old.hosts.items }
        requires size { length self.old.hosts.items ≤ 64 }
        ensures done { OnOk result (Between (Happens (world.Restart node) None) self.old self.new) }
        ensures none { IfOk result (λ what. what ≡ record { why = None; torn = None }) }
        ensures err { OnErr result (Between StayShown self.old self.new) }
        ensures may { OnErr result (HoldsIn (MayAllocate (world.Restart node)) self.old) }
        ensures memory { IfErr result (λ fault. fault ≡ carriers.Memory) }
        ensures members { KeepMembers self.old.hosts.items self.new.hosts.items }
        ensures grows { length self.old.sent.items ≤ length self.new.sent.items }
    {
        let n = self.hosts.len();
        if node >= n {
            return Ok(Happened {
                why: None,
                torn: None,
            });
        }
        // There are at most 64 nodes, so each index is a node number.
        let id = NodeId::new(node as u8).unwrap();
        match self.hosts[node].restart(alloc, id, n as u8) {
            Ok(()) => Ok(Happened {
                why: None,
                torn: None,
            }),
            Err(_) => Err(CarrierFault::Memory),
        }
    }

    /// Whether the action has an input: if it is a delivery, whether its message was sent.
    #[tactic(auto, unfolding(wf_model::specs::World::input_of, wf_model::specs::World::delivered))]
    fn is_sent(&self, action: &Action<Canon, usize>) -> bool
        ensures { result ≡ is_some (input_in self.now.sent.items (numbered action.now)) }
    {
        match action {
            Action::Propose(_) => true,
            Action::Retry => true,
            Action::CatchUp => true,
            Action::Deliver(number) => *number < self.sent.len(),
        }
    }

    /// The input of an action that has one. The message of a delivery is what the carrier brings.
    #[tactic(auto, using(wf_delivery::proofs::Runs::sent_message), unfolding(wf_model::specs::World::input_of, wf_model::specs::World::delivered))]
    fn input_of<C: Carrier>(
        &self,
        alloc: Global,
        carrier: &mut C,
        action: &Action<Canon, usize>,
    ) -> Result<Input, CarrierFault>
        requires sent { is_some (input_in self.now.sent.items (numbered action.now)) ≡ true }
        ensures input { IfOk result (λ input.
            input_in self.now.sent.items (numbered action.now) ≡ Some (view_input input)) }
        ensures memory { C.faithful → IfErr result (λ fault. fault ≡ carriers.Memory) }
    {
        match action {
            Action::Propose(canon) => match canon.copy() {
                Ok(own) => Ok(Input::Propose(own)),
                Err(_) => Err(CarrierFault::Memory),
            },
            Action::Retry => Ok(Input::Retry),
            Action::CatchUp => Ok(Input::CatchUp),
            Action::Deliver(number) => match self.sent.get(*number) {
                Some(message) => match carry_over(alloc, carrier, message) {
                    Ok(brought) => Ok(Input::Deliver(brought)),
                    Err(fault) => Err(fault),
                },
                None => unreachable!(),
            },
        }
    }
}

/// The error with which a node that runs would reject a step now; None if it would be done.
/// Allocates nothing.
#[tactic(auto, using(crate::proofs::Idle::reports_question, crate::proofs::Idle::reports_delivery))]
fn step_rejection<T: Tape>(node: &Node<T>, action: &Action<Canon, usize>) -> Option<NodeFault>
    ensures { node.now.halted ≡ false → ReportsWhyNot node.now (numbered action.now) result }
{
    match action {
        Action::Propose(_) => node.proposal_step_rejection(),
        Action::Retry => node.retry_step_rejection(),
        Action::CatchUp => None,
        Action::Deliver(_) => None,
    }
}
