//! Errors of a farm, and the rejections of a node that it reports.

ghost use Rattle.std.specs.Prelude.{◌≡◌};
ghost use Rattle.wf_farm.specs.Carriage.{fault_after};
ghost use Rattle.wf_farm.specs.NodeHost.{rejection_in};

use crate::carrier::CarrierFault;
use crate::rejection::Rejection;
use thiserror::Error;
use wf_node::NodeFault;

/// Why a farm's operation fails.
#[derive(Clone, Copy, Debug, PartialEq, Eq, Error)]
pub enum FarmFault {
    /// F1: an allocation failed, after this number of events, or of deliveries of a pump.
    #[error("F1: out of memory after {0}")]
    Memory(usize),
    /// F2: the node doesn't exist or is stopped.
    #[error("F2: no such node runs")]
    NoNode,
    /// F3: a message wasn't carried to its node, after this number of deliveries of a pump.
    #[error("F3: not carried after {0}")]
    Carried(usize),
}

/// The error after this number of deliveries, by why the next one wasn't made.
pub(crate) fn fault_after(fault: CarrierFault, done: usize) -> FarmFault
    ensures { result ≡ fault_after fault done }
{
    match fault {
        CarrierFault::Memory => FarmFault::Memory(done),
        CarrierFault::Lost => FarmFault::Carried(done),
    }
}

/// The rejection that a node's error is; None for an error that isn't a rejection of the step
/// table.
pub(crate) fn rejection_in(fault: NodeFault) -> Option<Rejection>
    ensures { result ≡ rejection_in fault }
{
    match fault {
        NodeFault::Busy => Some(Rejection::Busy),
        NodeFault::SequenceFull => Some(Rejection::SequenceFull),
        NodeFault::RoundsFull => Some(Rejection::RoundsFull),
        NodeFault::Nothing => Some(Rejection::NothingToRetry),
        NodeFault::Memory => None,
        NodeFault::Halted => None,
        NodeFault::TapeFailed => None,
    }
}
