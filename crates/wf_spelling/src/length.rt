//! Lengths of canonical texts, also of those that are over the limit.

ghost use Rattle.std.specs.Prelude.{◌≡◌, length};
ghost use Rattle.std.specs.List.{flat_map};
ghost use Rattle.wf_spelling.specs.Canon.{canon, counted, feature_lines, layer_lines};
ghost use Rattle.wf_block.specs.Spelling.{text_of};

use crate::draft::Draft;
use crate::layer::{push_features, push_layer};
use crate::writer::push_map;
use std::alloc::Global;
use wf_def::{Feature, Layer, MapDef, Text};

/// The number of bytes of a map's canonical text, up to 2^64 - 1. It is counted as it is written,
/// and allocates nothing.
#[tactic(auto, using(crate::proofs::WriteSequences::whole_text))]
pub fn text_length(alloc: Global, map: &MapDef) -> usize
    ensures { result ≡ counted (length (canon map.now)) }
{
    let mut draft = Draft::counting(alloc);
    push_map(&mut draft, map);
    draft.length()
}

/// The number of bytes of a layer with its name in a canonical text, up to 2^64 - 1.
#[tactic(auto, using(crate::proofs::WriteSequences::whole_text))]
pub fn layer_length(alloc: Global, name: &Text, layer: &Layer) -> usize
    ensures { result ≡ counted (length (text_of (layer_lines (name.now, layer.now)))) }
{
    let mut draft = Draft::counting(alloc);
    push_layer(&mut draft, name, layer);
    draft.length()
}

/// The number of bytes of features in a canonical text, up to 2^64 - 1.
#[tactic(auto, using(crate::proofs::WriteSequences::whole_text))]
pub fn features_length(alloc: Global, features: &[Feature]) -> usize
    ensures { result ≡ counted (length (text_of (flat_map feature_lines features.now))) }
{
    let mut draft = Draft::counting(alloc);
    push_features(&mut draft, features);
    draft.length()
}
