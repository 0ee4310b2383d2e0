//! One run of a process: its node opens, and takes steps.

ghost use Rattle.std.specs.Prelude.{◌≡◌, ◌<◌, ◌≤◌, true, false, Err, IfOk};
ghost use Rattle.wf_execution.specs.Run.{IsAct, IsOpenedFromTape};
ghost use Rattle.wf_delivery.specs.NodeInput.{Takes};
ghost use Rattle.wf_delivery.specs.Reachability.{outputs_by};
ghost use Rattle.wf_delivery.specs.Outcome.{is_lost};
ghost use Rattle.wf_node.specs.Fault.{rejected_by};
ghost use Rattle.wf_node.specs.Input.{view};
ghost use Rattle.wf_node.specs.Step.{step_rejection_at, TakesMemory};

use std::alloc::Global;
use wf_ballot::NodeId;
use wf_codec::Message;
use wf_journal::OpenFault;
use wf_node::{Input, Node, NodeFault};
use wf_tape::Tape;

/// Node `id` of `n`, opened from its tape, as a run begins. What was read of the tape, whatever
/// tape it is, stands for what the node has stored. Errors are those of [`Node::open`].
pub fn open<T: Tape>(alloc: Global, tape: T, id: NodeId, n: u8) -> Result<Node<T>, (T, OpenFault)>
    requires nodes { n ≤ 64 }
    requires member { id < n }
    ensures { IfOk result (IsOpenedFromTape T.Tape n id tape) }
{
    Node::open(alloc, tape, id, n)
}

/// One step of the node, as a run goes on. Returns the messages that it sends; errors are those of
/// [`Node::step`], and then it sends none: N5 from a halted node, the table's rejection, N1 if
/// allocation failed, N6 if the tape did.
pub fn act<T: Tape>(
    alloc: Global,
    node: &mut Node<T>,
    input: Input,
) -> Result<Vec<Message>, NodeFault>
    ensures act { IsAct T.Tape node.old
        (record { input = input; outputs = outputs_by result; after = node.new }) }
    ensures takes { Takes T.Tape (is_lost result) (view input) node.old node.new
        (outputs_by result) }
    ensures halted { node.old.halted ≡ true → result ≡ Err NodeFault.Halted }
    ensures refused { node.old.halted ≡ false →
        rejected_by result ≡ step_rejection_at node.old (view input) }
    ensures memory { result ≡ Err NodeFault.Memory → TakesMemory node.old (view input) }
{
    node.step(alloc, input)
}
