//! The effect of an event on one node.

ghost use Rattle.std.specs.Prelude.{◌≡◌, ◌<◌, ◌≤◌, Option, OnErr, OnOk, IfOk, IfErr};
ghost use Rattle.wf_def.specs.Definition.{Definition};
ghost use Rattle.wf_model.specs.DurableState.{Record, DurableState};
ghost use Rattle.wf_node.specs.Input.{view};
ghost use Rattle.wf_tape.specs.MemoryTape.{NeverFails};
ghost use Rattle.wf_farm.specs.Allocation.{IsStopped};
ghost use Rattle.wf_farm.specs.NodeHost.{IsHostOf, KeepsMember, KeepsSturdy, Restarts, HostStays, Stops, tape_in, with_fuse_in};
ghost use Rattle.wf_farm.specs.FallibleStep.{Fares, Goes, IsCutTape, IsFew, IsTornTo, kept_beyond};
ghost use Rattle.wf_farm.specs.declared.cluster.NodeHost.TheVariants.{Running, Stopped};

use crate::cluster::NodeHost;
use crate::fate::Fate;
use std::alloc::{AllocError, Global};
use std::mem::replace;
use wf_ballot::NodeId;
use wf_delivery::{Outputs, consume, is_halted};
use wf_journal::OpenFault;
use wf_model::Kept;
use wf_node::{Input, Node};
use wf_tape::MemoryTape;

impl NodeHost<MemoryTape> {
    /// A step that the node takes. If its tape fails within the step, the node crashes, which keeps
    /// `keep` of the bytes that aren't synced, and is opened again.
    pub(crate) fn step(&mut self, alloc: Global, keep: usize, input: Input) -> Fate
        requires goes { Goes (view input) self.old }
        ensures fares { Fares (view input) result self.old self.new }
        ensures few { IsFew result }
        ensures member { KeepsMember self.old self.new }
        ensures sturdy { KeepsSturdy self.old self.new }
    {
        let before = replace(self, NodeHost::blank(alloc));
        match before {
            NodeHost::Running(node) => {
                let (after, fate) = step_running(alloc, node, keep, input);
                drop(replace(self, after));
                fate
            }
            NodeHost::Stopped(_) => unreachable!(),
        }
    }

    /// Stops the node: only its tape is left. A stopped node stays stopped.
    pub(crate) fn stop(&mut self, alloc: Global)
        ensures stopped { Stops self.old self.new }
        ensures sturdy { KeepsSturdy self.old self.new }
    {
        let before = replace(self, NodeHost::blank(alloc));
        match before {
            NodeHost::Running(node) => drop(replace(self, NodeHost::Stopped(node.close()))),
            NodeHost::Stopped(tape) => drop(replace(self, NodeHost::Stopped(tape))),
        }
    }

    /// Restarts a stopped node from its tape, as node `id` of n; if the tape fails, it is opened
    /// again. A running node is unchanged. An allocation failure leaves the node, which is stopped
    /// then, with what it had stored.
    pub(crate) fn restart(&mut self, alloc: Global, id: NodeId, n: u8) -> Result<(), AllocError>
        requires nodes { n ≤ 64 }
        requires member { id < n }
        ensures restarted { OnOk result (Restarts self.old self.new) }
        ensures err { OnErr result (HostStays self.old self.new) }
        ensures stopped { OnErr result (IsStopped self.old) }
        ensures member { IsHostOf n id self.old → IsHostOf n id self.new }
        ensures sturdy { KeepsSturdy self.old self.new }
    {
        let before = replace(self, NodeHost::blank(alloc));
        match before.reopen_node(alloc, id, n) {
            Ok(after) => {
                drop(replace(self, after));
                Ok(())
            }
            Err(after) => {
                drop(replace(self, after));
                Err(AllocError)
            }
        }
    }

    /// The entry with its node restarted as node `id` of n; if an allocation fails, the entry with
    /// its tape returned.
    #[tactic(auto, using(crate::proofs::Steps::opened, crate::proofs::Steps::not_opened, crate::proofs::Steps::still_running, crate::proofs::Steps::opened_member, crate::proofs::Allocation::stopped_there))]
    fn reopen_node(
        self,
        alloc: Global,
        id: NodeId,
        n: u8,
    ) -> Result<NodeHost<MemoryTape>, NodeHost<MemoryTape>>
        requires nodes { n ≤ 64 }
        requires member { id < n }
        ensures restarted { IfOk result (Restarts self) }
        ensures err { IfErr result (HostStays self) }
        ensures stopped { OnErr result (IsStopped self) }
        ensures member { IfOk result (λ after. IsHostOf n id self → IsHostOf n id after) }
        ensures err_member { IfErr result (IsHostOf n id) }
        ensures sturdy { IfOk result (KeepsSturdy self) }
        ensures err_sturdy { IfErr result (KeepsSturdy self) }
    {
        match self {
            NodeHost::Running(node) => Ok(NodeHost::Running(node)),
            NodeHost::Stopped(tape) => match Node::open(alloc, tape, id, n) {
                Ok(node) => Ok(NodeHost::Running(node)),
                Err((tape, why)) => open_again(alloc, tape, why, id, n),
            },
        }
    }

    /// Sets a failure of the tape (`MemoryTape::set_fuse`), and changes nothing else.
    pub(crate) fn set_fuse(&mut self, call: usize, kept: usize)
        ensures { self.new ≡ with_fuse_in call kept self.old }
    {
        match self {
            NodeHost::Running(node) => node.set_fuse(call, kept),
            NodeHost::Stopped(tape) => tape.set_fuse(call, kept),
        }
    }

    /// The placeholder of an entry while its node is moved: an empty tape. Allocates nothing.
    fn blank(alloc: Global) -> NodeHost<MemoryTape> {
        NodeHost::Stopped(MemoryTape::new(Vec::new(alloc)))
    }
}

/// The entry of a running node after a step that it takes, and what became of the step.
fn step_running(
    alloc: Global,
    node: Node<MemoryTape>,
    keep: usize,
    input: Input,
) -> (NodeHost<MemoryTape>, Fate)
    requires goes { Goes (view input) (Running node) }
    ensures fares { Fares (view input) result.1 (Running node) result.0 }
    ensures few { IsFew result.1 }
    ensures member { KeepsMember (Running node) result.0 }
    ensures sturdy { KeepsSturdy (Running node) result.0 }
{
    let mut node = node;
    let long = node.tape().bytes().len();
    let Outputs { messages, lost } = consume(alloc, &mut node, input);
    if is_halted(&node) {
        drop(messages);
        // A tape in memory fails once.
        node.set_fuse(0, 0);
        return crash(alloc, node, long, keep);
    }
    if lost {
        drop(messages);
        return (NodeHost::Running(node), Fate::Lost);
    }
    (NodeHost::Running(node), Fate::Done(messages))
}

/// The entry of a node after its tape failed within a step: the node crashes, which keeps so many
/// unsynced bytes, and is opened again. Before the step its tape was so many bytes long.
fn crash(
    alloc: Global,
    node: Node<MemoryTape>,
    long: usize,
    keep: usize,
) -> (NodeHost<MemoryTape>, Fate)
    requires most { node.n ≤ 64 }
    requires within { node.id < node.n }
    requires fuse { NeverFails node.tape }
    ensures torn { (entry : Option (Record Definition)) (before after : DurableState Definition) →
        IsCutTape long entry before after node.tape → IsTornTo before after result.1 result.0 }
    ensures few { IsFew result.1 }
    ensures member { IsHostOf node.n node.id result.0 }
    ensures sturdy { NeverFails (tape_in result.0) }
{
    let id = node.id();
    let n = node.n();
    let mut tape = node.close();
    tape.crash(keep);
    match Node::open(alloc, tape, id, n) {
        Ok(again) => {
            let now = again.tape().bytes().len();
            (NodeHost::Running(again), Fate::Torn(kept_beyond(long, now)))
        }
        Err((tape, _)) => (NodeHost::Stopped(tape), Fate::Lost),
    }
}

/// What a crash kept, by the number of bytes on the tape before the step and now: its record is
/// there if the tape is longer.
fn kept_beyond(long: usize, now: usize) -> Kept
    ensures { result ≡ kept_beyond long now }
{
    if long < now {
        Kept::After
    } else {
        Kept::Before
    }
}

/// The entry of node `id` of n whose tape was rejected: if the tape failed, it is opened again. A
/// tape in memory that a node left is rejected otherwise only for allocation failure: the entry is
/// returned with it.
#[tactic(auto, using(crate::proofs::Tried::stays_itself))]
fn open_again(
    alloc: Global,
    tape: MemoryTape,
    why: OpenFault,
    id: NodeId,
    n: u8,
) -> Result<NodeHost<MemoryTape>, NodeHost<MemoryTape>>
    requires nodes { n ≤ 64 }
    requires member { id < n }
    ensures restarted { IfOk result (Restarts (Stopped tape)) }
    ensures err { IfErr result (HostStays (Stopped tape)) }
    ensures member { IfOk result (IsHostOf n id) }
    ensures err_member { IfErr result (IsHostOf n id) }
    ensures sturdy { IfOk result (KeepsSturdy (Stopped tape)) }
    ensures err_sturdy { IfErr result (KeepsSturdy (Stopped tape)) }
{
    match why {
        OpenFault::TapeFailed => open_whole(alloc, tape, id, n),
        OpenFault::BadRecord(_) | OpenFault::Memory => Err(NodeHost::Stopped(tape)),
    }
}

/// The entry of node `id` of n, opened from a tape that no longer fails; if an allocation fails,
/// the entry with its tape returned.
fn open_whole(
    alloc: Global,
    tape: MemoryTape,
    id: NodeId,
    n: u8,
) -> Result<NodeHost<MemoryTape>, NodeHost<MemoryTape>>
    requires nodes { n ≤ 64 }
    requires member { id < n }
    ensures restarted { IfOk result (Restarts (Stopped tape)) }
    ensures err { IfErr result (HostStays (Stopped tape)) }
    ensures member { IfOk result (IsHostOf n id) }
    ensures err_member { IfErr result (IsHostOf n id) }
    ensures sturdy { IfOk result (KeepsSturdy (Stopped tape)) }
    ensures err_sturdy { IfErr result (KeepsSturdy (Stopped tape)) }
{
    let mut tape = tape;
    tape.set_fuse(0, 0);
    match Node::open(alloc, tape, id, n) {
        Ok(node) => Ok(NodeHost::Running(node)),
        Err((tape, _)) => Err(NodeHost::Stopped(tape)),
    }
}
