//! Layers.
ghost use Rattle.std.specs.Prelude.{◌≡◌, ◌↔◌, IsTrue};
ghost use Rattle.std.specs.List.{list_all};
ghost use Rattle.wf_def.specs.Layer.{EnoughPointsAreTested, layer_of, has_enough_points};
ghost use Rattle.wf_def.specs.Limits.{IsLayer, IsLayerName, least_points};

use crate::choice::LayerKind;
use crate::class::Class;
use crate::feature::Feature;
use crate::limits::{MOST_CLASSES, MOST_ITEMS_BYTES};
use crate::members::{Capped, Members};
use crate::text::{clone_both, know_text};
use std::alloc::AllocError;
use std::marker::Model;
use wf_text::Text;

/// The classes of a layer, in the order in which they are tried: at most 16.
pub type Classes = Capped<Class, MOST_CLASSES>;

/// The features of a layer, in the order in which they are drawn: each over the one before it.
pub type Features = Members<Feature>;

/// Features of one kind and how they are drawn; the layer's name is in the map (MapServer mapfile
/// reference, LAYER).
pub struct Layer {
    kind: LayerKind,
    title: Text,
    class_item: Text,
    label_item: Text,
    items: Text,
    classes: Classes,
    features: Features,
}

// Written by hand: callers then prove one call where they drop a layer, not one for each part.
impl Drop for Layer {
    fn drop(self) {
        let Layer {
            kind: _,
            title,
            class_item,
            label_item,
            items,
            classes,
            features,
        } = self;
        drop(title);
        drop(class_item);
        drop(label_item);
        drop(items);
        drop(classes);
        drop(features);
    }
}

impl Model for Layer {
    ghost use Rattle.wf_def.specs.Definition.{LayerDefinition};
    ghost use Rattle.wf_def.specs.Limits.{IsLayer};

    ghost Value = { LayerDefinition };

    ghost view = { λ l. record { kind = l.kind; title = l.title; class_item = l.class_item; label_item = l.label_item; items = l.items; classes = l.classes; features = l.features } };

    ghost invariant = { λ l. IsLayer (record { kind = l.kind; title = l.title; class_item = l.class_item; label_item = l.label_item; items = l.items; classes = l.classes; features = l.features }) };
}

impl Layer {
    /// The layer of these parts; `items` are the names of the attributes, between commas. `None` if
    /// they are over 994 bytes, or if a part of a feature has fewer points than the kind needs: 1
    /// for points, 2 for lines, 3 for polygons.
    #[tactic(auto, unfolding(crate::specs::Layer::layer_of))]
    pub fn new(
        kind: LayerKind,
        title: Text,
        class_item: Text,
        label_item: Text,
        items: Text,
        classes: Classes,
        features: Features,
    ) -> Option<Self>
        ensures { result ≡ layer_of kind title class_item label_item items classes features }
    {
        know_text(&title);
        know_text(&class_item);
        know_text(&label_item);
        let _ = classes.as_slice();
        if items.as_bytes().len() > MOST_ITEMS_BYTES {
            return None;
        }
        if !all_have_enough_points(kind, features.as_slice()) {
            return None;
        }
        Some(Layer {
            kind,
            title,
            class_item,
            label_item,
            items,
            classes,
            features,
        })
    }

    /// The kind of features (TYPE).
    pub fn kind(&self) -> LayerKind
        ensures value { result ≡ self.now.kind }
        ensures within { IsLayer self.now }
    {
        self.kind
    }

    /// The human-readable title (OGC 06-042 7.2.4.6.2).
    pub fn title(&self) -> &Text
        ensures value { result.now ≡ self.now.title }
        ensures within { IsLayer self.now }
    {
        &self.title
    }

    /// The name of the attribute that the classes' expressions are compared with; empty if there is
    /// none (CLASSITEM).
    pub fn class_item(&self) -> &Text
        ensures value { result.now ≡ self.now.class_item }
        ensures within { IsLayer self.now }
    {
        &self.class_item
    }

    /// The name of the attribute whose value is the label's text; empty if there is none
    /// (LABELITEM).
    pub fn label_item(&self) -> &Text
        ensures value { result.now ≡ self.now.label_item }
        ensures within { IsLayer self.now }
    {
        &self.label_item
    }

    /// The names of the features' attributes, between commas (PROCESSING "ITEMS=..").
    pub fn items(&self) -> &Text
        ensures value { result.now ≡ self.now.items }
        ensures within { IsLayer self.now }
    {
        &self.items
    }

    /// The classes: a feature is in the first that it matches (CLASS).
    pub fn classes(&self) -> &[Class]
        ensures value { result.now ≡ self.now.classes }
        ensures within { IsLayer self.now }
    {
        self.classes.as_slice()
    }

    /// The features, each drawn over those before it (FEATURE).
    pub fn features(&self) -> &[Feature]
        ensures value { result.now ≡ self.now.features }
        ensures within { IsLayer self.now }
    {
        self.features.as_slice()
    }
}

/// Whether the text may be a layer's name: it isn't empty and has no comma, since names are listed
/// between commas.
pub fn is_layer_name(name: &Text) -> bool
    ensures { IsTrue result ↔ IsLayerName name.now }
{
    let bytes = name.as_bytes();
    !bytes.is_empty() && !bytes.contains(&b',')
}

/// Whether each part of each feature has the points that the kind needs.
fn all_have_enough_points(kind: LayerKind, features: &[Feature]) -> bool
    ensures { result ≡ list_all (has_enough_points kind) features.now }
{
    features.iter().all(|f| has_enough_points(kind, f))
}

/// Whether each part has the points that the kind needs.
fn has_enough_points(kind: LayerKind, feature: &Feature) -> bool
    ensures { result ≡ has_enough_points kind feature.now }
{
    let least = least_points(kind);
    feature.parts().iter().all(|part| part.len() >= least)
}

/// The Boolean test for enough points is true iff each part has the points that the kind needs. A
/// theorem about the definitions: the call does nothing.
pub fn enough_points_are_tested()
    ensures { EnoughPointsAreTested }
{}

/// The least number of points of a part: a ring needs three.
fn least_points(kind: LayerKind) -> usize
    ensures { result ≡ least_points kind }
{
    match kind {
        LayerKind::Points => 1,
        LayerKind::Lines => 2,
        LayerKind::Polygons => 3,
    }
}

impl Clone for Layer {
    ghost is_clone = { λ layer copy. copy ≡ layer };

    fn clone(&self) -> Result<Self, AllocError> {
        let (title, class_item) = clone_both(&self.title, &self.class_item)?;
        let (label_item, items) = clone_both(&self.label_item, &self.items)?;
        Ok(Layer {
            kind: self.kind,
            title,
            class_item,
            label_item,
            items,
            classes: self.classes.clone()?,
            features: self.features.clone()?,
        })
    }
}
