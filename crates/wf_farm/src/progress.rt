ghost use Rattle.std.specs.Prelude.{◌≡◌};
ghost use Rattle.wf_farm.specs.PumpProgress.{last_end, outcome};

use crate::carrier::CarrierFault;
use crate::fault::{FarmFault, fault_after};
use wf_delivery::PumpProgress;
use wf_model::Kept;

/// How a pump ended.
#[derive(Clone, Copy)]
pub enum PumpEnd {
    /// Each message was delivered to each target.
    Done,
    /// The limit of deliveries was reached, and some are left.
    Stopped,
    /// A delivery wasn't made, for this reason.
    Failed(CarrierFault),
}

/// How far a pump has come, which delivery was torn, and how it ended.
#[derive(Clone, Copy)]
pub struct Pumping {
    pub progress: PumpProgress,
    pub torn: Option<(usize, Kept)>,
    pub end: PumpEnd,
}

/// The result of a pump that has come so far.
pub(crate) fn pump_result(progress: PumpProgress, end: PumpEnd) -> Result<bool, FarmFault>
    ensures { result ≡ outcome progress end }
{
    match end {
        PumpEnd::Done => Ok(false),
        PumpEnd::Stopped => Ok(true),
        PumpEnd::Failed(fault) => Err(fault_after(fault, progress.done)),
    }
}

/// The end once the limit is reached, by whether some deliveries are left.
pub(crate) fn last_end(left: bool) -> PumpEnd
    ensures { result ≡ last_end left }
{
    if left {
        PumpEnd::Stopped
    } else {
        PumpEnd::Done
    }
}
