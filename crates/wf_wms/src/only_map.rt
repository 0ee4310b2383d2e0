//! The maps of a server with one published map.

use crate::maps::MapSource;
use std::alloc::{AllocError, Global};
use std::marker::Model;
use wf_def::MapDef;

/// The maps of a server that has published only this one, as sequence 1.
#[derive(Drop)]
pub(crate) struct OnlyMap<'a> {
    map: &'a MapDef,
    // The map of sequence 0.
    empty: MapDef,
}

impl<'a> Model for OnlyMap<'a> {
    ghost use Rattle.std.specs.Prelude.{◌≡◌, List, [], ◌∷◌};
    ghost use Rattle.wf_def.specs.Definition.{Definition, empty_map};

    ghost Value = { List Definition };

    ghost view = { λ maps. maps.map.now ∷ [] };

    ghost invariant = { λ maps. maps.empty ≡ empty_map };
}

impl<'a> OnlyMap<'a> {
    ghost use Rattle.std.specs.Prelude.{◌≡◌, IfOk, [], ◌∷◌};

    /// Returns Ok unless allocation fails.
    pub(crate) fn new(alloc: Global, map: &'a MapDef) -> Result<Self, AllocError>
        ensures { IfOk result (λ maps. maps ≡ map.now ∷ []) }
    {
        Ok(OnlyMap {
            map,
            empty: MapDef::empty(alloc)?,
        })
    }
}

#[tactic(auto, using(crate::proofs::HistoryTheorem::empty_there, crate::proofs::HistoryTheorem::only_there))]
impl<'a> MapSource for OnlyMap<'a> {
    ghost definitions = { λ maps. maps };

    fn published_map(&self, seq: u16) -> &MapDef {
        if seq == 0 {
            return &self.empty;
        }
        self.map
    }
}
