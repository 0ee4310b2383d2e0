//! Appends the canonical text of a map.

ghost use Rattle.std.specs.Prelude.{◌≡◌};
ghost use Rattle.std.specs.List.{flat_map};
ghost use Rattle.wf_def.specs.Limits.{IsWithinLimits};
ghost use Rattle.wf_spelling.specs.Canon.{projection_text, heading_lines, projection_lines, web_lines, layer_lines, canon};
ghost use Rattle.wf_block.specs.Spelling.{text_of};
ghost use Rattle.wf_spelling.specs.Draft.{Writes};
ghost use Rattle.wf_spelling.specs.Opening.{opening_lines};

use crate::draft::Draft;
use crate::layer::push_layer;
use crate::line::{push_alone, push_quoted, push_with_extent, push_with_key, push_with_text};
use wf_def::{MapDef, Projection};

/// The text of a coordinate system.
pub fn projection_text(projection: Projection) -> &'static str
    ensures { result.now ≡ projection_text projection }
{
    match projection {
        Projection::Epsg4326 => "init=epsg:4326",
        Projection::Epsg3857 => "init=epsg:3857",
    }
}

/// Writes the block of the coordinate system.
#[tactic(auto, unfolding(wf_block::specs::Spelling::line))]
fn push_projection(out: &mut Draft, projection: Projection)
    ensures { Writes out.old (text_of (projection_lines projection)) out.new }
{
    push_alone(out, "PROJECTION");
    push_quoted(out, projection_text(projection).as_bytes());
    out.push(b"\n");
    push_alone(out, "END");
}

/// Writes a map's WEB block.
fn push_web(out: &mut Draft, map: &MapDef)
    ensures { Writes out.old (text_of (web_lines map.now)) out.new }
{
    push_alone(out, "WEB");
    push_alone(out, "METADATA");
    push_with_key(out, "wms_title", map.title().as_bytes());
    push_with_key(out, "wms_abstract", map.abstract_text().as_bytes());
    push_with_key(out, "wms_onlineresource", map.address().as_bytes());
    push_alone(out, "END");
    push_alone(out, "END");
}

/// Writes the lines before the first block.
fn push_heading(out: &mut Draft, map: &MapDef)
    ensures written { Writes out.old (text_of (heading_lines map.now)) out.new }
    ensures within { IsWithinLimits map.now }
{
    push_alone(out, "MAP");
    push_with_text(out, "NAME", map.name().as_bytes());
    push_with_extent(out, "EXTENT", map.extent());
}

/// Writes a map's layers, one after the other.
fn push_layers(out: &mut Draft, map: &MapDef)
    ensures { Writes out.old (text_of (flat_map layer_lines map.now.layers)) out.new }
{
    for index in 0..map.layer_count() {
        let (name, layer) = map.layer(index);
        push_layer(out, name, layer);
    }
}

/// Writes a map as far as its layers.
fn push_opening(out: &mut Draft, map: &MapDef)
    ensures written { Writes out.old (text_of (opening_lines map.now)) out.new }
    ensures within { IsWithinLimits map.now }
{
    push_heading(out, map);
    push_projection(out, map.projection());
    push_web(out, map);
}

/// Writes a map.
pub(crate) fn push_map(out: &mut Draft, map: &MapDef)
    ensures written { Writes out.old (canon map.now) out.new }
    ensures within { IsWithinLimits map.now }
{
    push_opening(out, map);
    push_layers(out, map);
    push_alone(out, "END");
}
