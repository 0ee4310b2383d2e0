//! Scans a map.

ghost use Rattle.std.specs.Prelude.{◌≡◌, ◌<◌, ◌∷◌, ◌++◌, [], true, length, sum_by, IfSome};
ghost use Rattle.std.specs.List.{flat_map};
ghost use Rattle.wf_def.specs.Limits.{IsWithinLimits, points_of_feature};
ghost use Rattle.wf_def.specs.Limit.{most_layers};
ghost use Rattle.wf_block.specs.Spelling.{text_of};
ghost use Rattle.wf_spelling.specs.Canon.{heading_lines, projection_lines, web_lines, layer_lines, canon};
ghost use Rattle.wf_spelling.specs.Scan.{Scans, web_lines_of};

use crate::scan::cursor::Cursor;
use crate::scan::layer::scan_layer;
use crate::scan::line::{scan_alone, scan_quoted, scan_with_extent, scan_with_key, scan_with_text};
use crate::writer::projection_text;
use std::alloc::Global;
use wf_def::{MapDef, Projection, Text};
use wf_feature::{LayerRead, Layers};

/// The coordinate system whose line is ahead; any, if none is.
fn projection_ahead(cursor: &Cursor<'_>) -> Projection {
    if cursor.is_at(b"\"init=epsg:4326\"") {
        Projection::Epsg4326
    } else {
        Projection::Epsg3857
    }
}

/// Scans the block of the coordinate system.
#[tactic(auto, unfolding(wf_block::specs::Spelling::line))]
fn scan_projection(cursor: &mut Cursor<'_>) -> Projection
    ensures { Scans cursor.old (text_of (projection_lines result)) cursor.new }
{
    scan_alone(cursor, "PROJECTION");
    let projection = projection_ahead(cursor);
    scan_quoted(cursor, projection_text(projection).as_bytes());
    cursor.take(b"\n");
    scan_alone(cursor, "END");
    projection
}

/// The texts of a map's WEB block.
#[derive(Drop)]
struct WebTexts {
    title: Text,
    abstract_text: Text,
    address: Text,
}

/// Scans a map's WEB block.
fn scan_web(cursor: &mut Cursor<'_>) -> Option<WebTexts>
    ensures { IfSome result (λ s. Scans cursor.old
        (text_of (web_lines_of s.title s.abstract_text s.address)) cursor.new) }
{
    scan_alone(cursor, "WEB");
    scan_alone(cursor, "METADATA");
    let title = scan_with_key(cursor, "wms_title")?;
    let Some(abstract_text) = scan_with_key(cursor, "wms_abstract") else {
        drop(title);
        return None;
    };
    let Some(address) = scan_with_key(cursor, "wms_onlineresource") else {
        drop(title);
        drop(abstract_text);
        return None;
    };
    scan_alone(cursor, "END");
    scan_alone(cursor, "END");
    Some(WebTexts {
        title,
        abstract_text,
        address,
    })
}

/// Scans the lines of a map before its layers.
fn scan_heading(cursor: &mut Cursor<'_>) -> Option<MapDef>
    ensures scanned { IfSome result
        (λ map. Scans cursor.old
        (text_of (heading_lines map ++ projection_lines map.projection ++ web_lines map))
        cursor.new) }
    ensures empty { IfSome result (λ map. map.layers ≡ []) }
{
    scan_alone(cursor, "MAP");
    let name = scan_with_text(cursor, "NAME")?;
    let Some(extent) = scan_with_extent(cursor, "EXTENT") else {
        drop(name);
        return None;
    };
    let projection = scan_projection(cursor);
    let Some(service) = scan_web(cursor) else {
        drop(name);
        return None;
    };
    let WebTexts {
        title,
        abstract_text,
        address,
    } = service;
    Some(MapDef::new(
        cursor.alloc(),
        name,
        title,
        abstract_text,
        address,
        extent,
        projection,
    ))
}

/// Appends a layer, unless its name is repeated, there is no room for its features and points, or
/// allocation fails.
fn push_layer(layers: &mut Layers, read: LayerRead) -> bool
    requires room { length layers.old < most_layers }
    requires counted { read.points ≡ sum_by points_of_feature read.layer.features }
    ensures { result ≡ true → layers.new ≡ layers.old ++ (read.name, read.layer) ∷ [] }
{
    let features = read.layer.features().len();
    if layers.has_layer(&read.name) {
        drop(read);
        return false;
    }
    if features > layers.features_left() {
        drop(read);
        return false;
    }
    if read.points > layers.points_left() {
        drop(read);
        return false;
    }
    match layers.push(read) {
        Ok(()) => true,
        Err(_) => false,
    }
}

/// Scans the layers of a map.
fn scan_layers(cursor: &mut Cursor<'_>) -> Option<Layers>
    ensures { IfSome result (λ layers. Scans cursor.old (text_of (flat_map layer_lines layers))
        cursor.new) }
{
    let mut layers = Layers::new(cursor.alloc());
    for _ in 0..cursor.len() {
        if !cursor.is_at(b"LAYER") {
            break;
        }
        if layers.is_full() {
            break;
        }
        let Some(read) = scan_layer(cursor) else {
            drop(layers);
            return None;
        };
        if !push_layer(&mut layers, read) {
            drop(layers);
            return None;
        }
    }
    Some(layers)
}

/// The map, without the memory that it doesn't need: a list of layers has room for nine at first,
/// and most maps have fewer.
fn fit(map: MapDef) -> MapDef
    ensures { result ≡ map }
{
    let mut whole = map;
    whole.shrink_to_fit();
    whole
}

/// Scans a map.
fn scan_map(cursor: &mut Cursor<'_>) -> Option<MapDef>
    ensures { IfSome result (λ map. Scans cursor.old (canon map) cursor.new) }
{
    let map = scan_heading(cursor)?;
    let Some(layers) = scan_layers(cursor) else {
        drop(map);
        return None;
    };
    scan_alone(cursor, "END");
    match layers.into_map(map) {
        Ok(map) => Some(fit(map)),
        Err(_) => None,
    }
}

/// The map whose canonical text these bytes are. `None` if they are no canonical text, and where
/// the general reader has to decide: if allocation fails, for one.
pub fn scan_text(alloc: Global, bytes: &[u8]) -> Option<MapDef>
    ensures value { IfSome result (λ map. canon map ≡ bytes.now) }
    ensures within { IfSome result IsWithinLimits }
{
    let mut cursor = Cursor::new(alloc, bytes);
    let map = scan_map(&mut cursor)?;
    let _ = map.name();
    if !cursor.is_done() {
        drop(map);
        return None;
    }
    Some(map)
}
