//! Draws the requested picture, or cuts it out of a kept one.
ghost use Rattle.std.specs.Prelude.{◌≡◌, IfOk, OnErr, OnOk, Some};
ghost use Rattle.wf_wms.specs.Plan.{IsPictureAskedOf, IsPictureFor};
ghost use Rattle.wf_wms.specs.CachedPictures.{AllCached, IsNextCache};

use crate::cache::{Cache, Key};
use crate::maps::MapSource;
use crate::plan::QueriedPicture;
use crate::response::Answer;
use std::alloc::{AllocError, Global};
use wf_geometry::GridCell;
use wf_learner::History;
use wf_picture::{draw, view_of};

/// The answer with the picture, drawn without a cache.
pub(crate) fn draw_uncached<M: MapSource>(
    alloc: Global,
    maps: &M,
    asked: QueriedPicture,
) -> Result<Answer, AllocError>
    requires { IsPictureAskedOf (M.definitions maps.now) asked }
    ensures { IfOk result (λ answer. IsPictureFor (M.definitions maps.now) asked answer) }
{
    let map = maps.published_map(asked.sequence);
    Ok(Answer::picture(draw(alloc, map, &asked.request)?))
}

/// Draws with a cache. A tile of the map's grid is cut out of the cache's picture, which is drawn
/// if it isn't kept yet; another picture is drawn beside the cache. An error leaves the cache
/// unchanged.
pub(crate) fn draw_by(
    alloc: Global,
    cache: &mut Cache,
    history: &History,
    asked: QueriedPicture,
) -> Result<Answer, AllocError>
    requires asked { IsPictureAskedOf history.now.definitions asked }
    requires cached { AllCached history.now.definitions cache.old }
    ensures answer { IfOk result (λ answer. IsPictureFor history.now.definitions asked answer) }
    ensures cached { AllCached history.now.definitions cache.new }
    ensures used { OnOk result (IsNextCache history.now.definitions
        (Some (asked.sequence, asked.request)) cache.old cache.new) }
    ensures unchanged { OnErr result (cache.new ≡ cache.old) }
    ensures capacity { cache.new.cap ≡ cache.old.cap }
{
    let map = history.published_map(asked.sequence);
    let request = &asked.request;
    let size = request.size();
    match GridCell::of(map.extent(), request.bbox(), size.width, size.height) {
        Some(cell) => {
            let view = view_of(map, request);
            let key = Key::of(asked, cell);
            Ok(Answer::picture(cache.tile(alloc, history, key, &view)?))
        }
        None => draw_uncached(alloc, history, asked),
    }
}
