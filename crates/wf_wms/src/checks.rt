//! Checks of a query.
ghost use Rattle.std.specs.Prelude.{◌≡◌, ◌≤◌, Ok, Some, IfOk, length};
ghost use Rattle.wf_def.specs.Definition.{Definition};
ghost use Rattle.wf_learner.specs.History.{map_at};
ghost use Rattle.wf_wms.specs.Answer.{IsAnswerOf, IsAnswerOn, IsMapAnswer};
ghost use Rattle.wf_wms.specs.Plan.{IsPlanned, wanted_in};
ghost use Rattle.wf_wms.specs.MapRequest.{map_sequence, picture_in};
ghost use Rattle.wf_wms.specs.Requested.{requested, wanted_at, wanted_of};
ghost use Rattle.wf_wms.specs.declared.checks.WmsOperation.TheVariants.{Map};

use crate::description::{metadata_answer, operation};
use crate::map_request::map_request;
use crate::map_sequence::map_sequence;
use crate::maps::MapSource;
use crate::plan::{Plan, QueriedPicture};
use crate::query::Query;
use crate::response::Answer;
use std::alloc::{AllocError, Global};

/// The operations of this server (OGC 06-042, 7.1).
#[derive(Clone, Copy)]
pub(crate) enum WmsOperation {
    /// GetCapabilities: the service metadata.
    Capabilities,
    /// GetMap: a picture of the map.
    Map,
}

/// Checks a query at an update sequence that the maps have: its answer, or the picture that it
/// requests. Returns Ok unless allocation fails.
pub(crate) fn plan<M: MapSource>(
    alloc: Global,
    seq: u16,
    maps: &M,
    query: &[u8],
) -> Result<Plan, AllocError>
    requires { seq ≤ length (M.definitions maps.now) }
    ensures plan { IfOk result (λ plan. IsPlanned
        (M.definitions maps.now) (IsAnswerOf seq (M.definitions maps.now) query.now) plan) }
    ensures wanted { IfOk result
        (λ plan. wanted_in plan ≡ requested seq (M.definitions maps.now) query.now) }
{
    let query = Query::read(alloc, query)?;
    match operation(query.parameter("REQUEST")) {
        Err(exception) => Ok(Plan::Ready(Answer::rejection(alloc, exception)?)),
        Ok(WmsOperation::Capabilities) => {
            let map = maps.published_map(seq);
            Ok(Plan::Ready(metadata_answer(alloc, seq, map, &query)?))
        }
        Ok(WmsOperation::Map) => map_plan(alloc, seq, maps, &query),
    }
}

/// Checks a GetMap query (OGC 06-042, 7.3): its answer, or the picture that it requests. Returns Ok
/// unless allocation fails.
fn map_plan<M: MapSource>(
    alloc: Global,
    seq: u16,
    maps: &M,
    query: &Query,
) -> Result<Plan, AllocError>
    requires { seq ≤ length (M.definitions maps.now) }
    ensures plan { IfOk result (λ plan. IsPlanned (M.definitions maps.now)
        (IsAnswerOn (Ok Map) seq (M.definitions maps.now) query.now) plan) }
    ensures wanted { IfOk result (λ plan. wanted_in plan
        ≡ wanted_at (map_sequence seq query.now) (M.definitions maps.now) query.now) }
{
    match map_sequence(query, seq) {
        Err(exception) => Ok(Plan::Ready(Answer::rejection(alloc, exception)?)),
        Ok(number) => picture_plan(alloc, number, maps, query),
    }
}

/// Checks the parameters of a GetMap query after MAPSEQ, for the map of this sequence. Returns Ok
/// unless allocation fails.
fn picture_plan<M: MapSource>(
    alloc: Global,
    sequence: u16,
    maps: &M,
    query: &Query,
) -> Result<Plan, AllocError>
    requires { sequence ≤ length (M.definitions maps.now) }
    ensures plan { IfOk result
        (λ plan. (map : Definition) → map_at (M.definitions maps.now) sequence ≡ Some map →
        IsPlanned (M.definitions maps.now) (IsMapAnswer map (picture_in map query.now)) plan) }
    ensures wanted { IfOk result (λ plan. wanted_in plan
        ≡ wanted_of sequence (map_at (M.definitions maps.now) sequence) query.now) }
{
    let map = maps.published_map(sequence);
    match map_request(alloc, map, query)? {
        Ok(request) => Ok(Plan::Picture(QueriedPicture { sequence, request })),
        Err(exception) => Ok(Plan::Ready(Answer::rejection(alloc, exception)?)),
    }
}
