ghost use Rattle.std.specs.Prelude.{◌≡◌, Option};
ghost use Rattle.wf_model.specs.Table as table;
ghost use Rattle.wf_node.specs.Fault.{IsWhyNot, fault_of};
ghost use Rattle.wf_proposer.specs.StepRejection as proposer;

use std::alloc::{AllocError, AllocFailed};
use thiserror::Error;
use wf_proposer::StepRejection;

/// Why a step failed.
#[derive(Clone, Copy, Debug, PartialEq, Eq, Error)]
pub enum NodeFault {
    /// N1: allocation failed. Nothing has changed, nor has the tape.
    #[error("N1: out of memory")]
    Memory,
    /// N2: a proposal was requested while one is running.
    #[error("N2: a proposal runs")]
    Busy,
    /// N3: a proposal was requested, and the last sequence, 4,096, is published.
    #[error("N3: the last sequence is published")]
    SequenceFull,
    /// N4: a proposal would begin in a new round, and there is none above those tried and reported.
    #[error("N4: no higher round")]
    RoundsFull,
    /// N5: the node is halted, since its tape failed.
    #[error("N5: the node is halted")]
    Halted,
    /// N6: the tape failed. The node is halted; the step's record is on the tape or not.
    #[error("N6: the tape failed")]
    TapeFailed,
    /// N7: a retry was requested while no proposal is running.
    #[error("N7: no proposal runs")]
    Nothing,
}

impl From<AllocError> for NodeFault {
    ghost use Rattle.std.specs.Prelude.{◌≡◌};
    ghost use Rattle.wf_node.specs.declared.fault.NodeFault.TheVariants.{Memory};

    ghost from_gives = { λ _ fault. fault ≡ Memory };

    fn from(_: AllocError) -> Self {
        NodeFault::Memory
    }
}

impl<T: Drop> From<AllocFailed<T>> for NodeFault {
    ghost use Rattle.std.specs.Prelude.{◌≡◌};
    ghost use Rattle.wf_node.specs.declared.fault.NodeFault.TheVariants.{Memory};

    ghost from_gives = { λ _ fault. fault ≡ Memory };

    fn from(_: AllocFailed<T>) -> Self {
        NodeFault::Memory
    }
}

/// The node's error for its proposer's rejection.
pub(crate) fn fault_of(step_rejection: StepRejection) -> NodeFault
    ensures { result ≡ fault_of step_rejection }
{
    match step_rejection {
        StepRejection::Busy => NodeFault::Busy,
        StepRejection::Nothing => NodeFault::Nothing,
        StepRejection::RoundsFull => NodeFault::RoundsFull,
        StepRejection::Memory => NodeFault::Memory,
    }
}

/// The node's error for its proposer's rejection, if there is one.
pub(crate) fn fault_for(step_rejection: Option<StepRejection>) -> Option<NodeFault>
    ensures { (why : Option table.StepRejection) → proposer.IsWhyStepRejected why step_rejection →
        IsWhyNot why result }
{
    match step_rejection {
        Some(step_rejection) => Some(fault_of(step_rejection)),
        None => None,
    }
}
