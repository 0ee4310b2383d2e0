//! Requests about one map definition.
ghost use Rattle.std.specs.Prelude.{◌≡◌, ◌≤◌, IfOk, option_map};
ghost use Rattle.wf_ballot.specs.Sequence.{last_sequence};
ghost use Rattle.wf_wms.specs.Answer.{check_service, check_sequence, description, metadata_answer, metadata_fault, operation_of};

use crate::checks::WmsOperation;
use crate::comparison::Comparison;
use crate::exception::{Exception, Parameter};
use crate::query::Query;
use crate::response::Answer;
use crate::update_sequence::comparison;
use std::alloc::{AllocError, Global};
use wf_def::MapDef;

/// The operation that REQUEST names (OGC 06-042, 7.1).
pub(crate) fn operation(request: Option<&str>) -> Result<WmsOperation, Exception>
    ensures { result ≡ operation_of (option_map (λ text. text.now) request.entry) }
{
    match request {
        None => Err(Exception::MissingParameter(Parameter::Request)),
        Some("GetCapabilities") => Ok(WmsOperation::Capabilities),
        Some("GetMap") => Ok(WmsOperation::Map),
        Some(_) => Err(Exception::OperationNotSupported),
    }
}

fn check_service(service: Option<&str>) -> Option<Exception>
    ensures { result ≡ check_service (option_map (λ text. text.now) service.entry) }
{
    match service {
        None => Some(Exception::MissingParameter(Parameter::Service)),
        Some("WMS") => None,
        Some(_) => Some(Exception::BadValue(Parameter::Service)),
    }
}

fn check_sequence(comparison: Comparison) -> Option<Exception>
    ensures { result ≡ check_sequence comparison }
{
    match comparison {
        Comparison::Absent | Comparison::Below => None,
        Comparison::Equal => Some(Exception::CurrentUpdateSequence),
        Comparison::NoNumber | Comparison::Above => Some(Exception::InvalidUpdateSequence),
    }
}

// The exception of the first check of GetCapabilities that fails.
#[tactic(auto, unfolding(crate::specs::Answer::metadata_fault))]
fn metadata_fault(query: &Query, seq: u16) -> Option<Exception>
    ensures { result ≡ metadata_fault seq query.now }
{
    check_service(query.parameter("SERVICE")).or_else(|| check_sequence(comparison(
        query.parameter("UPDATESEQUENCE"),
        seq,
    )))
}

/// The answer to GetCapabilities (OGC 06-042, 7.2).
#[tactic(auto, unfolding(crate::specs::Answer::metadata_answer))]
pub(crate) fn metadata_answer(
    alloc: Global,
    seq: u16,
    map: &MapDef,
    query: &Query,
) -> Result<Answer, AllocError>
    ensures { IfOk result (λ answer. answer ≡ metadata_answer seq map.now query.now) }
{
    match metadata_fault(query, seq) {
        Some(exception) => Answer::rejection(alloc, exception),
        None => Answer::metadata(alloc, seq, map),
    }
}

/// The answer about one map definition at an update sequence: GetCapabilities is answered (OGC
/// 06-042, 7.2), GetMap isn't supported. Returns Ok unless allocation fails.
#[tactic(auto, unfolding(crate::specs::Answer::description))]
pub fn describe(alloc: Global, seq: u16, map: &MapDef, query: &[u8]) -> Result<Answer, AllocError>
    requires { seq ≤ last_sequence }
    ensures { IfOk result (λ answer. answer ≡ description seq map.now query.now) }
{
    let query = Query::read(alloc, query)?;
    match operation(query.parameter("REQUEST")) {
        Err(exception) => Answer::rejection(alloc, exception),
        Ok(WmsOperation::Capabilities) => metadata_answer(alloc, seq, map, &query),
        Ok(WmsOperation::Map) => Answer::rejection(alloc, Exception::OperationNotSupported),
    }
}
