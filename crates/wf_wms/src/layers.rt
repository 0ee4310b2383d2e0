//! The parameter LAYERS (OGC 06-042, 7.3.3.3).
ghost use Rattle.std.specs.Prelude.{◌≡◌, ◌<◌, ◌≤◌, IfOk, IfErr, Some, None, filter_map, is_none, length, position};
ghost use Rattle.std.specs.Result.{result_map_both};
ghost use Rattle.wf_wms.specs.Limit.{most_entries};
ghost use Rattle.wf_wms.specs.MapRequest.{AreLayersOf, check_layers, entries, layer_of, named_layers};

use crate::entries::count_entries;
use crate::exception::{Exception, Parameter};
use crate::limits::MOST_ENTRIES;
use std::alloc::{AllocError, Global};
use wf_def::MapDef;

/// The layers that the list names, by their indices in the map, in the list's order: at most
/// [`MOST_ENTRIES`], each a layer of the map. A name may occur twice.
#[tactic(auto, unfolding(crate::specs::MapRequest::named_layers, crate::specs::MapRequest::check_layers))]
pub(crate) fn named_layers(
    alloc: Global,
    map: &MapDef,
    names: &str,
) -> Result<Result<Vec<usize>, Exception>, AllocError>
    ensures value { IfOk result (λ found. result_map_both (λ layers. layers.items) (λ e. e) found
        ≡ named_layers map.now (entries names.now)) }
    ensures count { IfOk result
        (λ found. IfOk found (λ layers. length layers.items ≡ length (entries names.now))) }
    ensures within { IfOk result
        (λ found. IfOk found (λ layers. AreLayersOf map.now layers.items)) }
{
    if count_entries(names) > MOST_ENTRIES {
        return Ok(Err(Exception::BadValue(Parameter::Layers)));
    }
    match layer_indices(alloc, map, names)? {
        Ok(indices) => Ok(Ok(indices)),
        Err(index) => Ok(Err(Exception::LayerNotDefined(index + 1))),
    }
}

/// The indices of the named layers in the map, in the order of the list; or the index of the first
/// name that isn't a layer's.
fn layer_indices(
    alloc: Global,
    map: &MapDef,
    names: &str,
) -> Result<Result<Vec<usize>, usize>, AllocError>
    requires { length (entries names.now) ≤ most_entries }
    ensures indices { IfOk result (λ found.
        IfOk found (λ indices. indices.items ≡ filter_map (layer_of map.now) (entries names.now))) }
    ensures known { IfOk result (λ found. IfOk found
        (λ all. position (λ name. is_none (layer_of map.now name)) (entries names.now) ≡ None)) }
    ensures count { IfOk result
        (λ found. IfOk found (λ indices. length indices.items ≡ length (entries names.now))) }
    ensures within { IfOk result
        (λ found. IfOk found (λ indices. AreLayersOf map.now indices.items)) }
    ensures unknown { IfOk result (λ found. IfErr found (λ index.
        position (λ name. is_none (layer_of map.now name)) (entries names.now) ≡ Some index)) }
    ensures index { IfOk result (λ found. IfErr found (λ index. index < most_entries)) }
{
    let mut indices = Vec::new(alloc);
    for name in names.as_bytes().split(|byte| *byte == b',') {
        match map.layer_index(name) {
            Some(index) => indices.push(index)?,
            None => return Ok(Err(indices.len())),
        }
    }
    Ok(Ok(indices))
}
