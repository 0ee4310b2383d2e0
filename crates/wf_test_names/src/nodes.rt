//! Names of a node and its parts.

use wf_acceptor::Acceptor;
use wf_learner::History;
use wf_node::{Input, Node, NodeFault};
use wf_proposer::{Next, ProposalState, Proposer, StepRejection};
use wf_tape::MemoryTape;

/// The calls.
pub fn calls() {
    let _ = Acceptor::new;
    let _ = Acceptor::on_prepare;
    let _ = Acceptor::on_accept;
    let _ = Acceptor::apply;
    let _ = Proposer::new;
    let _ = Proposer::start;
    let _ = Proposer::retry;
    let _ = Proposer::on_promise;
    let _ = Proposer::on_accepted;
    let _ = Proposer::on_nack;
    let _ = Proposer::commit;
    let _ = Proposer::on_published;
    let _ = History::new;
    let _ = History::get;
    let _ = History::published;
    let _ = History::make_room;
    let _ = History::learn;
    let _ = History::answer_ask;
    let _ = Node::<MemoryTape>::open;
    let _ = Node::<MemoryTape>::close;
    let _ = Node::<MemoryTape>::step;
    let _ = Node::<MemoryTape>::shorten;
    let _ = Node::<MemoryTape>::published;
    let _ = Node::<MemoryTape>::history;
    let _ = Node::<MemoryTape>::definition;
    let _ = Node::<MemoryTape>::proposal;
    let _ = Node::<MemoryTape>::set_fuse;
}

/// What a proposer's call is to lead to.
pub struct Step<'a> {
    pub next: &'a Next,
}

/// The inputs of a step.
pub fn input(input: &Input) -> u8 {
    match input {
        Input::Propose(_canon) => 1,
        Input::Retry => 2,
        Input::Deliver(_message) => 3,
        Input::CatchUp => 4,
    }
}

/// The errors of a step.
pub fn node_fault(fault: NodeFault) -> u8 {
    match fault {
        NodeFault::Memory => 1,
        NodeFault::Busy => 2,
        NodeFault::SequenceFull => 3,
        NodeFault::RoundsFull => 4,
        NodeFault::Halted => 5,
        NodeFault::TapeFailed => 6,
        NodeFault::Nothing => 7,
    }
}

/// Why a proposer rejects.
pub fn step_rejection(rejection: StepRejection) -> u8 {
    match rejection {
        StepRejection::Memory => 1,
        StepRejection::Busy => 2,
        StepRejection::RoundsFull => 4,
        StepRejection::Nothing => 7,
    }
}

/// The states of a proposal.
pub fn proposal(proposal: ProposalState) -> u8 {
    match proposal {
        ProposalState::None => 0,
        ProposalState::Running => 1,
        ProposalState::Published(_sequence) => 2,
        ProposalState::Overtaken(_sequence) => 3,
    }
}
