//! Writing a response, and its outcome.
ghost use Rattle.wf_edge.specs.ResponseEnd.{IsEnded, IsFaultEnded};
ghost use Rattle.wf_edge.specs.Completion.{IsCompleted, IsErrorCompleted, CountsCompleting};

use crate::error_report::respond_to_error;
use crate::error_response::ErrorResponse;
use crate::outcome::Outcome;
use wf_http::{RequestFault, Response};
use wf_stream::Sink;

/// Writes a response: all of it if `Sent`, otherwise a prefix, and no call comes after the failed
/// one. Both report the response's status and the number of bytes written.
pub fn write_response<K: Sink>(sink: &mut K, response: &Response<'_>) -> Outcome
    ensures completion { IsCompleted response.now (K.written sink.old) (K.written sink.new) result }
    ensures writes { CountsCompleting result (K.failures sink.old) (K.failures sink.new) }
    ensures last { IsEnded K.Sink response.now sink.old sink.new result }
{
    match response.write(sink) {
        Ok(count) => Outcome::Sent(response.status(), count),
        Err(cut) => Outcome::WriteFailed(response.status(), cut.written),
    }
}

/// Responds if there is no request: writes the rejection, or 503 if an allocation failed. The
/// writer isn't called if the input is empty or a read failed. Allocates nothing.
#[tactic(auto, using(wf_stream::specs::KnownTheorems::keeps_same))]
pub fn write_error<K: Sink>(sink: &mut K, fault: RequestFault) -> Outcome
    ensures completion { IsErrorCompleted fault (K.written sink.old) (K.written sink.new) result }
    ensures writes { CountsCompleting result (K.failures sink.old) (K.failures sink.new) }
    ensures last { IsFaultEnded K.Sink fault sink.old sink.new result }
{
    match fault {
        RequestFault::NoRequest => Outcome::NoRequest,
        RequestFault::ReadFailed => Outcome::ReadFailed,
        RequestFault::Memory => write_response(sink, &respond_to_error(ErrorResponse::Unavailable)),
        RequestFault::Rejected(http_error) => write_response(
            sink,
            &respond_to_error(ErrorResponse::Rejected(http_error)),
        ),
    }
}
