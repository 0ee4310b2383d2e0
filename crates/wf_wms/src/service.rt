//! Requests to a server that publishes a history.
ghost use Rattle.std.specs.Prelude.{◌≡◌, ◌≤◌, ◌∷◌, [], IfOk, OnErr, OnOk, length};
ghost use Rattle.wf_wms.specs.Answer.{IsAnswerOf};
ghost use Rattle.wf_wms.specs.CachedPictures.{AllCached, IsCacheAfter};

use crate::cache::Cache;
use crate::checks::plan;
use crate::drawing::{draw_by, draw_uncached};
use crate::maps::MapSource;
use crate::only_map::OnlyMap;
use crate::plan::Plan;
use crate::response::Answer;
use std::alloc::{AllocError, Global};
use wf_def::MapDef;
use wf_learner::History;

/// The answer to a query at an update sequence of the history: the service metadata (OGC 06-042,
/// 7.2), a picture of the map that MAPSEQ names (7.3), or the exception of the first check that
/// fails. Returns Ok unless allocation fails.
pub fn answer(
    alloc: Global,
    seq: u16,
    history: &History,
    query: &[u8],
) -> Result<Answer, AllocError>
    requires { seq ≤ length history.now.definitions }
    ensures { IfOk result (λ answer. IsAnswerOf seq history.now.definitions query.now answer) }
{
    answer_from(alloc, seq, history, query)
}

/// Answers with a cache of pictures of the history's maps, as without it. A tile is cut out of its
/// kept picture, which is the most recently used then; one that isn't kept is drawn and kept, in
/// place of the least recently used if the cache is full. If an allocation to keep it fails, the
/// answer is the same. What is no tile leaves the cache as it was. Returns Ok unless allocation
/// fails; an error leaves the cache unchanged.
pub fn answer_cached(
    alloc: Global,
    cache: &mut Cache,
    seq: u16,
    history: &History,
    query: &[u8],
) -> Result<Answer, AllocError>
    requires seq { seq ≤ length history.now.definitions }
    requires cached { AllCached history.now.definitions cache.old }
    ensures answer { IfOk result
        (λ answer. IsAnswerOf seq history.now.definitions query.now answer) }
    ensures cached { AllCached history.now.definitions cache.new }
    ensures used { OnOk result
        (IsCacheAfter seq history.now.definitions query.now cache.old cache.new) }
    ensures unchanged { OnErr result (cache.new ≡ cache.old) }
    ensures capacity { cache.new.cap ≡ cache.old.cap }
{
    match plan(alloc, seq, history, query)? {
        Plan::Ready(answer) => Ok(answer),
        Plan::Picture(asked) => draw_by(alloc, cache, history, asked),
    }
}

/// The answer of a server that has published only this map, at sequence 1: a preview. MAPSEQ may
/// also name sequence 0, the empty map. Returns Ok unless allocation fails.
pub fn preview(alloc: Global, map: &MapDef, query: &[u8]) -> Result<Answer, AllocError>
    ensures { IfOk result (λ answer. IsAnswerOf 1 (map.now ∷ []) query.now answer) }
{
    let only = OnlyMap::new(alloc, map)?;
    let answer = answer_from(alloc, 1, &only, query);
    drop(only);
    answer
}

// The answer to a query at an update sequence that the maps have, without a cache.
fn answer_from<M: MapSource>(
    alloc: Global,
    seq: u16,
    maps: &M,
    query: &[u8],
) -> Result<Answer, AllocError>
    requires { seq ≤ length (M.definitions maps.now) }
    ensures { IfOk result (λ answer. IsAnswerOf seq (M.definitions maps.now) query.now answer) }
{
    match plan(alloc, seq, maps, query)? {
        Plan::Ready(answer) => Ok(answer),
        Plan::Picture(asked) => draw_uncached(alloc, maps, asked),
    }
}
