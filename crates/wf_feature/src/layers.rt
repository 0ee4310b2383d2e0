//! The layers of a map while it is read.
ghost use Rattle.std.specs.Prelude.{◌≡◌, ◌<◌, ◌≤◌, ◌↔◌, [], ◌∷◌, ◌++◌, IfOk, IsTrue, OnErr, OnOk, Some, None, if◌then◌else◌, false, length, sum_by};
ghost use Rattle.wf_def.specs.Limits.{has_layer, points_of_feature, IsLayerName};
ghost use Rattle.wf_feature.specs.Layers.{LayerNamesAreTested, features_left, is_layer_name, points_left};
ghost use Rattle.wf_def.specs.Limit.{most_layers};

use std::alloc::{AllocError, Global};
use std::marker::Model;
use wf_def::{
    Layer, LayerFault, MOST_FEATURES, MOST_LAYERS, MOST_POINTS, MapDef, Text, is_layer_name,
};

/// The Boolean test of layer names is true iff the text may be a layer's name. A theorem about the
/// definitions: the call does nothing.
pub fn layer_names_are_tested()
    ensures { LayerNamesAreTested }
{}

/// A layer's name: a text that isn't empty and has no comma.
#[derive(Drop)]
pub struct LayerName {
    text: Text,
}

impl Model for LayerName {
    ghost use Rattle.std.specs.Prelude.{ℕ, List};
    ghost use Rattle.wf_def.specs.Limits.{IsLayerName};

    ghost Value = { List ℕ };

    ghost view = { λ n. n.text };

    ghost invariant = { λ n. IsLayerName n.text };
}

impl LayerName {
    /// The text as a name, if it may be one.
    pub fn new(text: Text) -> Option<Self>
        ensures { result ≡ (if is_layer_name text then Some text else None) }
    {
        let _ = text.as_bytes();
        if is_layer_name(&text) {
            Some(LayerName { text })
        } else {
            None
        }
    }

    /// The name's text.
    pub fn text(&self) -> &Text
        ensures value { result.now ≡ self.now }
        ensures within { IsLayerName self.now }
    {
        &self.text
    }

    /// The name as a text.
    pub fn into_text(self) -> Text
        ensures value { result ≡ self }
        ensures within { IsLayerName self }
    {
        let LayerName { text } = self;
        text
    }
}

/// A layer as it was read.
#[derive(Drop)]
pub struct LayerRead {
    /// Its name.
    pub name: LayerName,
    /// The layer.
    pub layer: Layer,
    /// The number of its points.
    pub points: usize,
}

/// The layers so far, in order.
#[derive(Drop)]
pub struct Layers {
    entries: Vec<(LayerName, Layer)>,
    /// How many more features the map may have.
    features: usize,
    /// How many more points the map may have.
    points: usize,
}

impl Model for Layers {
    ghost use Rattle.std.specs.Prelude.{ℕ, List};
    ghost use Rattle.wf_def.specs.Definition.{LayerDefinition};
    ghost use Rattle.wf_feature.specs.Layers.{AreGathered};

    ghost Value = { List (List ℕ × LayerDefinition) };

    ghost view = { λ l. l.entries.items };

    ghost invariant = { λ l. AreGathered l.entries.items l.features l.points };
}

impl Layers {
    /// No layers.
    pub fn new(alloc: Global) -> Self
        ensures { result ≡ [] }
    {
        Layers {
            entries: Vec::new(alloc),
            features: MOST_FEATURES,
            points: MOST_POINTS,
        }
    }

    /// Whether there is no room for another layer.
    pub fn is_full(&self) -> bool
        ensures { IsTrue result ↔ (most_layers ≤ length self.now) }
    {
        self.entries.len() >= MOST_LAYERS
    }

    /// How many more features the map may have.
    #[tactic(auto, unfolding(crate::specs::Layers::features_left))]
    pub fn features_left(&self) -> usize
        ensures { result ≡ features_left self.now }
    {
        self.features
    }

    /// How many more points the map may have.
    #[tactic(auto, unfolding(crate::specs::Layers::points_left))]
    pub fn points_left(&self) -> usize
        ensures { result ≡ points_left self.now }
    {
        self.points
    }

    /// Whether a layer has that name.
    pub fn has_layer(&self, name: &LayerName) -> bool
        ensures { result ≡ has_layer self.now name.now }
    {
        let entries = self.entries.as_slice();
        for (other, _) in entries {
            if name.text() == other.text() {
                return true;
            }
        }
        false
    }

    /// Appends a layer that may follow the others. After allocation failure they are unchanged.
    #[tactic(auto, unfolding(crate::specs::Layers::features_left, crate::specs::Layers::points_left))]
    pub fn push(&mut self, read: LayerRead) -> Result<(), AllocError>
        requires room { length self.old < most_layers }
        requires new { has_layer self.old read.name ≡ false }
        requires features { length read.layer.features ≤ features_left self.old }
        requires counted { read.points ≡ sum_by points_of_feature read.layer.features }
        requires points { read.points ≤ points_left self.old }
        ensures pushed { OnOk result (self.new ≡ self.old ++ (read.name, read.layer) ∷ []) }
        ensures unchanged { OnErr result (self.new ≡ self.old) }
    {
        let LayerRead {
            name,
            layer,
            points,
        } = read;
        let _ = name.text();
        let features = layer.features().len();
        self.entries.push((name, layer))?;
        self.features -= features;
        self.points -= points;
        Ok(())
    }

    /// A map without layers, with these added.
    pub fn into_map(self, map: MapDef) -> Result<MapDef, AllocError>
        requires { map.layers ≡ [] }
        ensures { IfOk result (λ whole. whole ≡ record map { layers = self }) }
    {
        let Layers {
            entries,
            features: _,
            points: _,
        } = self;
        let mut all = map;
        for entry in entries {
            let (name, layer) = entry;
            match all.add_layer(name.into_text(), layer) {
                Ok(()) => {}
                Err(LayerFault::OutOfMemory) => return Err(AllocError),
                Err(LayerFault::Repeated) => unreachable!(),
            }
        }
        Ok(all)
    }
}
