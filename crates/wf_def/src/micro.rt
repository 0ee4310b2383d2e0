//! What is known of a coordinate.
ghost use Rattle.wf_text.specs.Number.{IsMicro};

use wf_text::Micro;

/// Makes it known to the prover that a coordinate is within its limit.
pub(crate) fn know_coordinate(coordinate: Micro)
    ensures { IsMicro coordinate }
{
    let _ = coordinate.millionths();
}
