//! A node's tape is shortened once it has opened.
ghost use Rattle.std.specs.Prelude.{◌≡◌, ◌<◌, ◌≤◌, false, IfErr, IfOk};
ghost use Rattle.wf_node.specs.Images.{AllStandFor};
ghost use Rattle.wf_node.specs.Node.{stored_of};
ghost use Rattle.wf_serve.specs.OpenedNodes.{WasRead};
ghost use Rattle.wf_serve.specs.Compaction.{IsTapeLeft, IsOpenOnTape, IsShort};

use std::alloc::Global;
use wf_ballot::NodeId;
use wf_node::{Node, NodeFault};
use wf_tape::Tape;

/// Node `id` of `n`, opened from its tape, which is shortened then. Returns also whether it is: if
/// an allocation fails in shortening, the node is open on the tape as it was.
///
/// Err: the tape, if the node doesn't open, or the tape fails in shortening. What a crash leaves of
/// it then reads as what it held, or stands for what the node had stored.
pub fn open_shortened<T: Tape>(
    alloc: Global,
    tape: T,
    id: NodeId,
    n: u8,
) -> Result<(Node<T>, bool), T>
    requires nodes { n ≤ 64 }
    requires member { id < n }
    ensures id { IfOk result (λ x. x.0.id ≡ id) }
    ensures n { IfOk result (λ x. x.0.n ≡ n) }
    ensures opened { IfOk result (λ x. IsOpenOnTape T.Tape tape x.0 x.1) }
    ensures read { IfOk result (λ x. WasRead x.0) }
    ensures left { T.durable → IfErr result (IsTapeLeft T.Tape tape) }
{
    match Node::open(alloc, tape, id, n) {
        Ok(node) => shorten(alloc, node),
        Err((tape, _)) => Err(tape),
    }
}

/// Shortens the tape of a node.
fn shorten<T: Tape>(alloc: Global, mut node: Node<T>) -> Result<(Node<T>, bool), T>
    requires { node.halted ≡ false }
    ensures same { IfOk result (λ x.
        x.0 ≡ record node { tape = x.0.tape; failed = x.0.failed }) }
    ensures short { T.durable → IfOk result (λ x. IsShort T.Tape x.0 x.1) }
    ensures stands { T.durable →
        IfOk result (λ x. AllStandFor (stored_of node) (T.images x.0.tape)) }
    ensures left { T.durable → IfErr result (λ tape. AllStandFor (stored_of node) (T.images tape)) }
{
    match node.shorten(alloc) {
        Ok(()) => Ok((node, true)),
        Err(NodeFault::Memory) => Ok((node, false)),
        Err(_) => Err(node.close()),
    }
}
