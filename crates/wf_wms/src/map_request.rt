//! The GetMap request (OGC 06-042, 7.3.2 and 7.3.3): the parameters after MAPSEQ.
ghost use Rattle.std.specs.Prelude.{◌≡◌, IfOk, ok_or, option_map};
ghost use Rattle.std.specs.Result.{result_map_both};
ghost use Rattle.wf_wms.specs.MapRequest.{AreLayersOf, entries, layers_in, listed_names, picture_in, request_in, styled_layers};

use crate::background::background;
use crate::bounding_box::bounding_box;
use crate::crs::axes;
use crate::exception::{Exception, Parameter};
use crate::format::check_format;
use crate::layers::named_layers;
use crate::query::Query;
use crate::size::picture_size;
use crate::styles::check_styles;
use std::alloc::{AllocError, Global};
use wf_def::{MapDef, Projection};
use wf_picture::PictureRequest;

/// The picture of a map that a query requests, or the exception of the first check that fails.
#[tactic(auto, unfolding(crate::specs::MapRequest::picture_in))]
pub(crate) fn map_request(
    alloc: Global,
    map: &MapDef,
    query: &Query,
) -> Result<Result<PictureRequest, Exception>, AllocError>
    ensures value { IfOk result (λ asked. asked ≡ picture_in map.now query.now) }
    ensures within { IfOk result
        (λ asked. IfOk asked (λ request. AreLayersOf map.now request.layers)) }
{
    match layers(alloc, map, query)? {
        Ok(layers) => Ok(request_of(layers, map.projection(), query)),
        Err(exception) => Ok(Err(exception)),
    }
}

/// The requested layers by their indices in the map, the lowest in the picture first: from the
/// parameters up to STYLES.
#[tactic(auto, unfolding(crate::specs::MapRequest::layers_in))]
fn layers(
    alloc: Global,
    map: &MapDef,
    query: &Query,
) -> Result<Result<Vec<usize>, Exception>, AllocError>
    ensures value { IfOk result (λ asked. result_map_both (λ layers. layers.items) (λ e. e) asked
        ≡ layers_in map.now query.now) }
    ensures within { IfOk result
        (λ asked. IfOk asked (λ layers. AreLayersOf map.now layers.items)) }
{
    match listed_names(query) {
        Ok(names) => styled_layers(alloc, map, names, query.parameter("STYLES")),
        Err(exception) => Ok(Err(exception)),
    }
}

/// The value of LAYERS; FORMAT is checked first.
#[tactic(auto, unfolding(crate::specs::MapRequest::listed_names))]
fn listed_names(query: &Query) -> Result<&str, Exception>
    ensures { result_map_both (λ names. names.now) (λ e. e) result ≡ listed_names query.now }
{
    check_format(query.parameter("FORMAT"))?;
    layer_list(query.parameter("LAYERS"))
}

fn layer_list(value: Option<&str>) -> Result<&str, Exception>
    ensures { result_map_both (λ names. names.now) (λ e. e) result
        ≡ ok_or (option_map (λ text. text.now) value.entry)
        (Exception.MissingParameter Parameter.Layers) }
{
    value.ok_or(Exception::MissingParameter(Parameter::Layers))
}

/// The layers of these names, if STYLES has an entry for each.
#[tactic(auto, unfolding(crate::specs::MapRequest::styled_layers))]
fn styled_layers(
    alloc: Global,
    map: &MapDef,
    names: &str,
    styles: Option<&str>,
) -> Result<Result<Vec<usize>, Exception>, AllocError>
    ensures value { IfOk result (λ asked. result_map_both (λ layers. layers.items) (λ e. e) asked
        ≡ styled_layers map.now (entries names.now) (option_map (λ text. text.now) styles.entry)) }
    ensures within { IfOk result
        (λ asked. IfOk asked (λ layers. AreLayersOf map.now layers.items)) }
{
    match named_layers(alloc, map, names)? {
        Ok(layers) => match check_styles(layers.len(), styles) {
            Ok(()) => Ok(Ok(layers)),
            Err(exception) => Ok(Err(exception)),
        },
        Err(exception) => Ok(Err(exception)),
    }
}

/// The request for these layers: from the parameters after STYLES.
#[tactic(auto, unfolding(crate::specs::MapRequest::request_in))]
fn request_of(
    layers: Vec<usize>,
    projection: Projection,
    query: &Query,
) -> Result<PictureRequest, Exception>
    ensures value { result ≡ request_in layers.items projection query.now }
    ensures layers { IfOk result (λ request. request.layers ≡ layers.items) }
{
    let axes = axes(projection, query.parameter("CRS"))?;
    let bbox = bounding_box(axes, query.parameter("BBOX"))?;
    let size = picture_size(query)?;
    let background = background(query.parameter("BGCOLOR"))?;
    Ok(PictureRequest::new(layers, bbox, size, background))
}
