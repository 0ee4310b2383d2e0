//! Appends the canonical text of a layer with its classes and its features.

ghost use Rattle.std.specs.Prelude.{◌≡◌, ◌++◌, codes};
ghost use Rattle.std.specs.List.{flat_map};
ghost use Rattle.wf_spelling.specs.Canon.{kind_word, with_text, metadata_lines, feature_lines, class_lines, layer_lines};
ghost use Rattle.wf_block.specs.Spelling.{line, text_of};
ghost use Rattle.wf_spelling.specs.Draft.{Writes};
ghost use Rattle.wf_spelling.specs.Opening.{layer_opening_lines};

use crate::class::push_class;
use crate::draft::Draft;
use crate::feature::push_feature;
use crate::line::{push_alone, push_with_key, push_with_text, push_with_word, quote_for};
use wf_def::{Class, Feature, Layer, LayerKind, Text};

/// The word of a layer's kind.
pub fn kind_word(kind: LayerKind) -> &'static str
    ensures { result.now ≡ kind_word kind }
{
    match kind {
        LayerKind::Points => "POINT",
        LayerKind::Lines => "LINE",
        LayerKind::Polygons => "POLYGON",
    }
}

/// Writes the line of the names of a layer's attributes.
#[tactic(auto, unfolding(wf_block::specs::Spelling::line))]
fn push_attribute_names(out: &mut Draft, names: &[u8])
    ensures { Writes out.old (line (with_text (codes "PROCESSING") (codes "ITEMS=" ++ names.now)))
        out.new }
{
    let quote = quote_for(names);
    out.push(b"PROCESSING ");
    out.push(&[quote]);
    out.push(b"ITEMS=");
    out.push(names);
    out.push(&[quote]);
    out.push(b"\n");
}

/// Writes a layer's METADATA block.
fn push_metadata(out: &mut Draft, title: &[u8])
    ensures { Writes out.old (text_of (metadata_lines title.now)) out.new }
{
    push_alone(out, "METADATA");
    push_with_key(out, "wms_title", title);
    push_alone(out, "END");
}

/// Writes classes, one after the other.
fn push_classes(out: &mut Draft, classes: &[Class])
    ensures { Writes out.old (text_of (flat_map class_lines classes.now)) out.new }
{
    for class in classes {
        push_class(out, class);
    }
}

/// Writes features, one after the other.
pub fn push_features(out: &mut Draft, features: &[Feature])
    ensures { Writes out.old (text_of (flat_map feature_lines features.now)) out.new }
{
    for feature in features {
        push_feature(out, feature);
    }
}

/// Writes a layer with its name as far as its features.
fn push_layer_opening(out: &mut Draft, name: &Text, layer: &Layer)
    ensures { Writes out.old (text_of (layer_opening_lines (name.now, layer.now))) out.new }
{
    push_alone(out, "LAYER");
    push_with_text(out, "NAME", name.as_bytes());
    push_with_word(out, "TYPE", kind_word(layer.kind()));
    push_with_text(out, "CLASSITEM", layer.class_item().as_bytes());
    push_with_text(out, "LABELITEM", layer.label_item().as_bytes());
    push_attribute_names(out, layer.items().as_bytes());
    push_metadata(out, layer.title().as_bytes());
    push_classes(out, layer.classes());
}

/// Writes a layer with its name.
pub fn push_layer(out: &mut Draft, name: &Text, layer: &Layer)
    ensures { Writes out.old (text_of (layer_lines (name.now, layer.now))) out.new }
{
    push_layer_opening(out, name, layer);
    push_features(out, layer.features());
    push_alone(out, "END");
}
