//! Map definitions.
ghost use Rattle.std.specs.Prelude.{◌≡◌, ◌+◌, ◌<◌, ◌≤◌, false, [], ◌∷◌, ◌++◌, length, position, slice_get, Some, IfSome, IfOk, IfErr, OnOk, OnErr};
ghost use Rattle.std.specs.Str.{bytes_eq};
ghost use Rattle.wf_def.specs.Definition.{Definition, empty_map};
ghost use Rattle.wf_def.specs.Limits.{IsWithinLimits, IsLayer, IsLayerName, points_of_layer, feature_count, point_count, has_layer, is_repeated, layer_names};
ghost use Rattle.wf_def.specs.Limit.{most_features, most_layers, most_points};

mod equality;

use crate::choice::Projection;
use crate::extent::Extent;
use crate::fault::LayerFault;
use crate::layer::Layer;
use crate::layer_name::LayerName;
use crate::text::{clone_both, know_text};
use indexmap::IndexMap;
use std::alloc::{AllocError, Global};
use std::marker::Model;
use wf_text::{Micro, Text};

/// The content of a mapfile, within the limits (MapServer mapfile reference, MAP).
pub struct MapDef {
    name: Text,
    title: Text,
    abstract_text: Text,
    address: Text,
    extent: Extent,
    projection: Projection,
    layers: IndexMap<Text, Layer>,
}

// Written by hand: callers then prove one call where they drop a map, not one for each part.
impl Drop for MapDef {
    fn drop(self) {
        let MapDef {
            name,
            title,
            abstract_text,
            address,
            extent: _,
            projection: _,
            layers,
        } = self;
        drop(name);
        drop(title);
        drop(abstract_text);
        drop(address);
        drop(layers);
    }
}

impl Model for MapDef {
    ghost use Rattle.wf_def.specs.Definition.{Definition};
    ghost use Rattle.wf_def.specs.Limits.{IsWithinLimits};

    ghost Value = { Definition };

    ghost view = { λ m. record { name = m.name; title = m.title; abstract_text = m.abstract_text; address = m.address; extent = m.extent; projection = m.projection; layers = m.layers.entries } };

    ghost invariant = { λ m. IsWithinLimits (record { name = m.name; title = m.title; abstract_text = m.abstract_text; address = m.address; extent = m.extent; projection = m.projection; layers = m.layers.entries }) };
}

impl MapDef {
    /// A map without layers. The title, the abstract and the address are those of the WEB block's
    /// metadata.
    pub fn new(
        alloc: Global,
        name: Text,
        title: Text,
        abstract_text: Text,
        address: Text,
        extent: Extent,
        projection: Projection,
    ) -> Self
        ensures { result ≡ record {
          name = name;
          title = title;
          abstract_text = abstract_text;
          address = address;
          extent = extent;
          projection = projection;
          layers = [];
        } }
    {
        know_text(&name);
        know_text(&title);
        know_text(&abstract_text);
        know_text(&address);
        let _ = extent.minx();
        MapDef {
            name,
            title,
            abstract_text,
            address,
            extent,
            projection,
            layers: IndexMap::new(alloc),
        }
    }

    /// The map of sequence 0, before the first published one: named `empty`, from 0 0 to 1 1
    /// degrees, without layers.
    pub fn empty(alloc: Global) -> Result<Self, AllocError>
        ensures { IfOk result (λ map. map ≡ empty_map) }
    {
        Ok(MapDef::new(
            alloc,
            Text::from_str(alloc, "empty")?,
            Text::from_str(alloc, "empty")?,
            Text::from_str(alloc, "")?,
            Text::from_str(alloc, "http://localhost/wms?")?,
            unit_extent(),
            Projection::Epsg4326,
        ))
    }

    /// Appends a layer. A name that the map already has is rejected; after an error the map is
    /// unchanged.
    pub fn add_layer(&mut self, name: Text, layer: Layer) -> Result<(), LayerFault>
        requires is_name { IsLayerName name }
        requires room { length self.old.layers < most_layers }
        requires features { feature_count self.old.layers + length layer.features ≤ most_features }
        requires points { point_count self.old.layers + points_of_layer layer ≤ most_points }
        ensures added { OnOk result
            (self.new ≡ record self.old { layers = self.old.layers ++ (name, layer) ∷ [] }) }
        ensures new_name { OnOk result (has_layer self.old.layers name ≡ false) }
        ensures unchanged { OnErr result (self.new ≡ self.old) }
        ensures repeated { IfErr result
            (λ fault. has_layer self.old.layers name ≡ is_repeated fault) }
    {
        let _ = layer.kind();
        if self.layers.contains_key(&name) {
            // Each value is dropped by one call: if its fields were dropped at each exit, the proof
            // would be long.
            drop((name, layer));
            return Err(LayerFault::Repeated);
        }
        let refused = match self.layers.insert(name, layer) {
            Ok(old) => {
                drop(old);
                return Ok(());
            }
            Err(refused) => refused,
        };
        drop(refused);
        Err(LayerFault::OutOfMemory)
    }

    /// Gives back the memory that the list of layers doesn't need, if no more will come.
    pub fn shrink_to_fit(&mut self)
        ensures { self.new ≡ self.old }
    {
        self.layers.shrink_to_fit();
    }

    /// The number of layers.
    pub fn layer_count(&self) -> usize
        ensures value { result ≡ length self.now.layers }
        ensures within { IsWithinLimits self.now }
    {
        self.layers.len()
    }

    /// The layer at this index, with its name; layers are drawn in order, each over those before
    /// it.
    pub fn layer(&self, index: usize) -> (&Text, &Layer)
        requires { index < length self.now.layers }
        ensures value { slice_get self.now.layers index ≡ Some (result.0.now, result.1.now) }
        ensures named { IsLayerName result.0.now }
        ensures layer { IsLayer result.1.now }
        ensures points { points_of_layer result.1.now ≤ most_points }
        ensures within { IsWithinLimits self.now }
    {
        self.layers.get_index(index).unwrap()
    }

    /// The index of the layer of this name. None: the map has no such layer.
    pub fn layer_index(&self, name: &[u8]) -> Option<usize>
        ensures value { result ≡ position (bytes_eq name.now) (layer_names self.now.layers) }
        ensures within { IfSome result (λ index. index < length self.now.layers) }
    {
        self.layers.get_index_of(&LayerName::new(name))
    }

    /// The name of the map.
    pub fn name(&self) -> &Text
        ensures value { result.now ≡ self.now.name }
        ensures within { IsWithinLimits self.now }
    {
        &self.name
    }

    /// The human-readable title of the service (OGC 06-042 7.2.4.2).
    pub fn title(&self) -> &Text
        ensures value { result.now ≡ self.now.title }
        ensures within { IsWithinLimits self.now }
    {
        &self.title
    }

    /// A short description of the service (OGC 06-042 7.2.4.2).
    pub fn abstract_text(&self) -> &Text
        ensures value { result.now ≡ self.now.abstract_text }
        ensures within { IsWithinLimits self.now }
    {
        &self.abstract_text
    }

    /// The address that requests are sent to (OGC 06-042 7.2.4.2, OnlineResource).
    pub fn address(&self) -> &Text
        ensures value { result.now ≡ self.now.address }
        ensures within { IsWithinLimits self.now }
    {
        &self.address
    }

    /// The box that the map covers, in the units of its projection.
    pub fn extent(&self) -> Extent
        ensures value { result ≡ self.now.extent }
        ensures within { IsWithinLimits self.now }
    {
        self.extent
    }

    /// The coordinate system of the extent and of all points.
    pub fn projection(&self) -> Projection
        ensures value { result ≡ self.now.projection }
        ensures within { IsWithinLimits self.now }
    {
        self.projection
    }
}

/// The box from 0 0 to 1 1.
fn unit_extent() -> Extent
    ensures { result ≡ empty_map.extent }
{
    let zero = Micro::from_millionths(0).unwrap();
    let one = Micro::from_millionths(1_000_000).unwrap();
    Extent::new(zero, zero, one, one).unwrap()
}

impl Clone for MapDef {
    ghost is_clone = { λ map copy. copy ≡ map };

    fn clone(&self) -> Result<Self, AllocError> {
        let (name, title) = clone_both(&self.name, &self.title)?;
        let (abstract_text, address) = clone_both(&self.abstract_text, &self.address)?;
        Ok(MapDef {
            name,
            title,
            abstract_text,
            address,
            extent: self.extent,
            projection: self.projection,
            layers: self.layers.clone()?,
        })
    }
}
