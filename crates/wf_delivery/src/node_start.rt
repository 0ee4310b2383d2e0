//! A node in memory that is opened on an empty tape, and one that is closed and opened again.

ghost use Rattle.std.specs.Prelude.{◌≡◌, ◌<◌, ◌≤◌, false, IfErr, IfOk};
ghost use Rattle.wf_delivery.specs.Reachability.{IsFresh};
ghost use Rattle.wf_delivery.specs.ReopenedNodes.{IsReopened};
ghost use Rattle.wf_node.specs.Images.{AllStandFor};
ghost use Rattle.wf_node.specs.Node.{stored_of};
ghost use Rattle.wf_tape.specs.MemoryTape.{IsImageNow, NeverFails};

use std::alloc::{AllocError, Global};
use wf_ballot::NodeId;
use wf_node::Node;
use wf_tape::MemoryTape;

/// Returns node `id` of n, on an empty tape in memory: it runs, with all parts empty. Err if an
/// allocation fails.
#[tactic(auto, using(crate::proofs::Stored::opened_fresh))]
pub fn open_fresh(alloc: Global, id: NodeId, n: u8) -> Result<Node<MemoryTape>, AllocError>
    requires most { n ≤ 64 }
    requires member { id < n }
    ensures fresh { IfOk result IsFresh }
    ensures id { IfOk result (λ node. node.id ≡ id) }
    ensures n { IfOk result (λ node. node.n ≡ n) }
    ensures fuse { IfOk result (λ node. NeverFails node.tape) }
{
    match Node::open(alloc, MemoryTape::new(Vec::new(alloc)), id, n) {
        Ok(node) => Ok(node),
        // An empty tape is rejected only for allocation failure.
        Err((tape, _)) => {
            drop(tape);
            Err(AllocError)
        }
    }
}

/// Closes a node in memory and opens it again from its tape, as the same one of n nodes: it stops
/// and restarts. Err if an allocation fails: the tape is returned, and stands for what the node had
/// stored.
pub fn reopen(alloc: Global, node: Node<MemoryTape>, n: u8) -> Result<Node<MemoryTape>, MemoryTape>
    requires most { n ≤ 64 }
    requires member { node.id < n }
    ensures again { IfOk result (IsReopened node.tape.bytes node) }
    ensures id { IfOk result (λ again. again.id ≡ node.id) }
    ensures n { IfOk result (λ again. again.n ≡ n) }
    ensures kept { IfErr result (λ tape.
        node.halted ≡ false → AllStandFor (stored_of node) (IsImageNow tape)) }
{
    let id = node.id();
    match Node::open(alloc, node.close(), id, n) {
        Ok(again) => Ok(again),
        // A tape in memory that a node left, and that has no fuse, is rejected only for allocation
        // failure.
        Err((tape, _)) => Err(tape),
    }
}
