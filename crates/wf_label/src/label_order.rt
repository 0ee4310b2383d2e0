//! All labels of a map, in their order.
ghost use Rattle.std.specs.Prelude.{◌≡◌, ◌++◌, ◌<◌, length, IfOk, OnOk};
ghost use Rattle.std.specs.List.{All};
ghost use Rattle.std.specs.Option.{option_map};
ghost use Rattle.wf_def.specs.Attribute.{class_of};
ghost use Rattle.wf_geometry.specs.Operation.{class_at};
ghost use Rattle.wf_label.specs.Label.{candidates, class_label};
ghost use Rattle.wf_label.specs.Placed.{placed_values};
ghost use Rattle.wf_label.specs.Walk.{candidate_of, candidate_value, candidate_values, chosen, layer_candidates, walk};

use crate::feature_anchor::anchor_of;
use crate::placed::Placed;
use crate::position::at_anchor;
use crate::text::text_of;
use std::alloc::{AllocError, Global};
use wf_def::{Feature, Label, Layer, MOST_PRIORITY, MapDef};
use wf_geometry::View;

/// A label with its position in a view, and its priority: the higher is placed first.
#[derive(Clone, Copy)]
pub(crate) struct Candidate<'a> {
    pub(crate) priority: u8,
    pub(crate) label: Placed<'a>,
}

/// The labels of the map's layers at these indices, placed or not, in label order (MapServer
/// mapfile reference, LABEL PRIORITY): the higher priority first; within a priority the layer that
/// is listed later first; within a layer the features in their order. Positions are in pixels of
/// the view. Allocation failure is the only error.
#[tactic(auto, unfolding(crate::specs::Label::candidates))]
pub fn candidates<'a>(
    alloc: Global,
    map: &'a MapDef,
    layers: &[usize],
    view: &View,
) -> Result<Vec<Placed<'a>>, AllocError>
    requires { All (λ i. i < length map.now.layers) layers.now }
    ensures { IfOk result
        (λ labels. placed_values labels.items ≡ candidates map.now layers.now view.now) }
{
    let walked = walk(alloc, map, layers, view)?;
    let mut labels = Vec::new(alloc);
    for lower in (0..MOST_PRIORITY).rev() {
        push_priority(&mut labels, &walked, lower + 1)?;
    }
    Ok(labels)
}

/// Adds the labels of a priority, in their order.
#[tactic(auto, unfolding(crate::specs::Walk::chosen))]
fn push_priority<'a>(
    labels: &mut Vec<Placed<'a>>,
    walked: &[Candidate<'a>],
    priority: u8,
) -> Result<(), AllocError>
    ensures { OnOk result (placed_values labels.new.items
        ≡ placed_values labels.old.items ++ chosen priority (candidate_values walked.now)) }
{
    for candidate in walked {
        if candidate.priority == priority {
            labels.push(candidate.label)?;
        }
    }
    Ok(())
}

/// The labels in the order of one walk: the layer that is listed later first; within a layer the
/// features in their order.
#[tactic(auto, unfolding(crate::specs::Walk::walk))]
fn walk<'a>(
    alloc: Global,
    map: &'a MapDef,
    layers: &[usize],
    view: &View,
) -> Result<Vec<Candidate<'a>>, AllocError>
    requires { All (λ i. i < length map.now.layers) layers.now }
    ensures { IfOk result
        (λ walked. candidate_values walked.items ≡ walk map.now layers.now view.now) }
{
    let mut walked = Vec::new(alloc);
    for index in (0..layers.len()).rev() {
        let (_, layer) = map.layer(layers[index]);
        push_layer(&mut walked, view, layer)?;
    }
    Ok(walked)
}

/// Adds a layer's labels.
#[tactic(auto, unfolding(crate::specs::Walk::layer_candidates))]
fn push_layer<'a>(
    walked: &mut Vec<Candidate<'a>>,
    view: &View,
    layer: &'a Layer,
) -> Result<(), AllocError>
    ensures { OnOk result (candidate_values walked.new.items
        ≡ candidate_values walked.old.items ++ layer_candidates view.now layer.now) }
{
    for feature in layer.features() {
        match candidate_of(view, layer, feature) {
            Some(candidate) => walked.push(candidate)?,
            None => {}
        }
    }
    Ok(())
}

/// The label of a feature, if it has one.
#[tactic(auto, unfolding(crate::specs::Walk::candidate_of))]
fn candidate_of<'a>(view: &View, layer: &Layer, feature: &'a Feature) -> Option<Candidate<'a>>
    ensures { option_map candidate_value result ≡ candidate_of view.now layer.now feature.now }
{
    let label = label_of(layer, feature)?;
    let text = text_of(layer, feature);
    if text.is_empty() {
        return None;
    }
    let anchor = anchor_of(view, feature.parts())?;
    Some(Candidate {
        priority: label.priority.get(),
        label: at_anchor(&label, text, anchor),
    })
}

/// The label style of the feature's class, if it has one.
fn label_of(layer: &Layer, feature: &Feature) -> Option<Label>
    ensures { result ≡ class_label (class_at layer.now (class_of layer.now feature.now)) }
{
    let class = layer.class_of(feature)?;
    layer.classes()[class].label()
}
