//! An example, which shows that a farm's premises can be met by nodes that a program has opened.

ghost use Rattle.std.specs.Prelude.{◌<◌, ◌≤◌, [], IfOk};
ghost use Rattle.wf_execution.specs.Processes.{ThreeProcesses};
ghost use Rattle.wf_execution.specs.Run.{IsOpenedFrom};

use crate::run::open;
use std::alloc::{AllocError, Global};
use wf_ballot::NodeId;
use wf_delivery::{a_step_is_answered, new_nodes_publish};
use wf_journal::records_are_read_one_way;
use wf_node::Node;
use wf_tape::{MemoryTape, Tape};

/// Node `id` of `n` on an empty tape in memory, as the first run of its process begins. Err if an
/// allocation fails.
#[tactic(auto, using(crate::proofs::Start::first_run))]
pub fn open_first(alloc: Global, id: NodeId, n: u8) -> Result<Node<MemoryTape>, AllocError>
    requires nodes { n ≤ 64 }
    requires member { id < n }
    ensures { IfOk result (IsOpenedFrom n id []) }
{
    match open(alloc, MemoryTape::new(Vec::new(alloc)), id, n) {
        Ok(node) => Ok(node),
        Err((tape, _)) => {
            drop(tape);
            Err(AllocError)
        }
    }
}

/// Three processes that begin so are a farm; it stays one when one of them proposes a map and
/// `wf_delivery::deliver_all` delivers the messages, and when one ends and starts again; and then
/// all three have published the map. A theorem: the call does nothing.
pub fn three_processes_publish<T: Tape>()
    ensures { ThreeProcesses T.Tape }
{
    // A tape stands for one durable state; a step is answered; and what one of three new nodes
    // proposes, all publish.
    records_are_read_one_way();
    a_step_is_answered::<T>();
    new_nodes_publish::<T>();
}
