//! Theorems about nodes that a caller holds: whatever happens to them, step by step, is one run of
//! the model, and nodes reached from the model's start agree.

ghost use Rattle.wf_delivery.specs.Delivery.{AnyPart};
ghost use Rattle.wf_delivery.specs.Reachability.{AreReachable, BothAreOutput, DeliveriesAreReachable, FreshAreReachable, FreshOnTape, HaveOneAnswer, HaveOneHistory, HaveOneMapAnswer, NothingIsOutput, NothingIsReachable, ReachableStaysReachable, ReachableOnTape, StepIsReachable, ReachableIsTransitive, UnheardIsReachable};
ghost use Rattle.wf_delivery.specs.ReopenedNodes.{ReopenedAreReachable, ReopenedOnTape};

use wf_node::Node;
use wf_tape::Tape;
use wf_wms::each_query_has_one_answer;

/// A step Propose, Retry or CatchUp of a node leads the nodes on, whatever it returns, and sends
/// exactly the messages that it returns. A theorem: the call does nothing.
pub fn a_step_is_reachable<T: Tape>()
    ensures { StepIsReachable T.Tape }
{}

/// Nodes to which sent messages are delivered by [`deliver_all`](crate::deliver_all) are led on,
/// however many messages were sent before. A theorem: the call does nothing.
pub fn deliveries_are_reachable<T: Tape>()
    ensures { DeliveriesAreReachable T.Tape }
{}

/// The empty run leads nodes to themselves; two runs in turn are one run; and messages sent need
/// not be delivered. A theorem: the call does nothing.
pub fn reachability_goes_on<T: Tape>()
    ensures still { NothingIsReachable T.Tape }
    ensures again { ReachableIsTransitive T.Tape }
    ensures quiet { NothingIsOutput T.Tape }
    ensures more { BothAreOutput T.Tape }
    ensures lost { UnheardIsReachable T.Tape }
{}

/// Nodes led on from nodes that are reached from the model's start are reached. Over a durable tape
/// that also holds for whatever bytes a crash leaves of the tapes that failed. A theorem: the call
/// does nothing.
pub fn reachable_stays<T: Tape>()
    ensures any { ReachableStaysReachable T.Tape }
    ensures on_tape { ReachableOnTape T.Tape }
{}

/// Nodes with all parts empty are the model's start. A theorem: the call does nothing.
pub fn fresh_nodes_are_reachable<T: Tape>()
    ensures any { FreshAreReachable T }
    ensures on_tape { FreshOnTape T }
{}

/// Nodes opened again from what reached nodes left on their tapes are reached: they stopped and
/// restarted. If the tape of a node had failed, it may be opened from any bytes that a crash left
/// of it. A theorem: the call does nothing.
pub fn reopened_nodes_are_reachable<T: Tape, U: Tape>()
    ensures any { ReopenedAreReachable T U }
    ensures on_tape { ReopenedOnTape T U }
{}

/// The headline, for the nodes that a caller holds, over any kind of tape: if they are reached from
/// the model's start, no two of them, running or halted, have published different maps under one
/// sequence. The call does nothing.
pub fn reachable_nodes_agree<T: Tape>(nodes: &[Node<T>])
    ensures { AreReachable AnyPart nodes.now → HaveOneHistory nodes.now }
{
    let _ = nodes;
}

/// The headline's second half, for the nodes that a caller holds, over any kind of tape: if they
/// are reached from the model's start, two of them with the same last published sequence answer the
/// same query with the same bytes, the same kind and the same media type. So do two asked for the
/// same map (OGC 06-042, 7.3), whatever their last published sequences. The call does nothing.
pub fn reachable_nodes_answer_alike<T: Tape>(nodes: &[Node<T>])
    ensures proposal_state { AreReachable AnyPart nodes.now → HaveOneAnswer nodes.now }
    ensures map { AreReachable AnyPart nodes.now → HaveOneMapAnswer nodes.now }
{
    reachable_nodes_agree(nodes);
    each_query_has_one_answer();
}
