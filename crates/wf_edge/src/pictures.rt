//! Where the pictures of a node's maps come from.
ghost use Rattle.std.specs.Prelude.{◌≡◌, ℕ, List, length, IfOk, OnErr, OnOk};
ghost use Rattle.wf_def.specs.Definition.{Definition};
ghost use Rattle.wf_edge.specs.Page.{IsLastAnswer};
ghost use Rattle.wf_wms.specs.CachedPictures.{AllCached, IsCacheAfter};

use std::alloc::{AllocError, Global};
use wf_learner::History;
use wf_wms::{Answer, Cache, answer, answer_cached};

/// Where the pictures of a node's maps come from.
pub trait Pictures {
    /// The pictures that are cached are those of these maps.
    ghost cached: { Self → List Definition → Type 0 };

    /// The number of pictures that can be cached.
    ghost capacity: { Self → ℕ };

    /// What the answer to a query does to them, by these maps: those before, and those after.
    ghost changes: { List Definition → List ℕ → Self → Self → Type 0 };

    /// The map service's answer to a query, at the last published sequence. An error leaves the
    /// pictures unchanged.
    fn answer(
        &mut self,
        alloc: Global,
        history: &History,
        query: &[u8],
    ) -> Result<Answer, AllocError>
        requires { cached self.old history.now.definitions }
        ensures answer { IfOk result (IsLastAnswer history.now.definitions query.now) }
        ensures cached { cached self.new history.now.definitions }
        ensures changed { OnOk result
            (changes history.now.definitions query.now self.old self.new) }
        ensures unchanged { OnErr result (self.new ≡ self.old) }
        ensures capacity { capacity self.new ≡ capacity self.old };
}

/// No cache: each picture is drawn when it is requested.
#[derive(Clone, Copy)]
pub struct Uncached;

impl Pictures for Uncached {
    ghost cached = { λ _ _. Unit {0} };

    ghost capacity = { λ _. 0 };

    ghost changes = { λ _ _ old new. new ≡ old };

    fn answer(
        &mut self,
        alloc: Global,
        history: &History,
        query: &[u8],
    ) -> Result<Answer, AllocError> {
        answer(alloc, history.published().number(), history, query)
    }
}

impl Pictures for Cache {
    ghost cached = { λ cache history. AllCached history cache };

    ghost capacity = { λ cache. cache.cap };

    ghost changes = { λ history query old new. IsCacheAfter (length history) history query old new };

    fn answer(
        &mut self,
        alloc: Global,
        history: &History,
        query: &[u8],
    ) -> Result<Answer, AllocError> {
        answer_cached(alloc, self, history.published().number(), history, query)
    }
}
