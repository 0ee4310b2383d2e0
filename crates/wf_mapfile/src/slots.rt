//! The slots that the keywords of the blocks fill. A dropped keyword's slot says only that it came.

use wf_def::{Classes, Extent, Features, LayerKind, Projection};
use wf_feature::{LayerName, Layers};
use wf_text::Text;

/// LAYER.
#[derive(Drop)]
pub struct LayerSlots {
    /// How features are drawn.
    pub classes: Classes,
    /// The shapes.
    pub features: Features,
    /// The keywords that come at most once.
    pub single: LayerOnce,
}

/// The keywords of LAYER that come at most once.
#[derive(Default, Drop)]
pub struct LayerOnce {
    /// The name.
    pub name: Option<LayerName>,
    /// The kind of features.
    pub kind: Option<LayerKind>,
    /// The attribute that chooses a feature's class.
    pub class_item: Option<Text>,
    /// The attribute that is a feature's label.
    pub label_item: Option<Text>,
    /// The names of the features' attributes.
    pub items: Option<Text>,
    /// The pairs that are kept.
    pub metadata: Option<Metadata>,
    /// The dropped keywords.
    pub dropped: LayerDropped,
}

/// The dropped keywords of LAYER: whether each came.
#[derive(Default, Drop)]
pub struct LayerDropped {
    /// Whether the layer is on.
    pub status: Option<()>,
    /// The units of coordinates.
    pub units: Option<()>,
    /// The template of answers about features.
    pub template: Option<()>,
}

/// MAP.
#[derive(Drop)]
pub struct MapSlots {
    /// The layers.
    pub layers: Layers,
    /// The keywords that come at most once.
    pub single: MapOnce,
}

/// The keywords of MAP that come at most once.
#[derive(Default, Drop)]
pub struct MapOnce {
    /// The name.
    pub name: Option<Text>,
    /// The box that the map covers.
    pub extent: Option<Extent>,
    /// The coordinate system of the extent.
    pub projection: Option<Projection>,
    /// The texts of the service.
    pub web: Option<Metadata>,
    /// The dropped keywords.
    pub dropped: MapDropped,
}

/// The dropped keywords of MAP: whether each came.
#[derive(Default, Drop)]
pub struct MapDropped {
    /// The size of a picture.
    pub size: Option<()>,
    /// The colour of a background.
    pub image_color: Option<()>,
    /// The units of coordinates.
    pub units: Option<()>,
    /// Whether the map is on.
    pub status: Option<()>,
    /// The format of a picture.
    pub image_type: Option<()>,
    /// The directory of data.
    pub shape_path: Option<()>,
}

/// The values of METADATA that are kept (OGC 06-042 7.2.4.2).
#[derive(Drop)]
pub struct Metadata {
    /// The human-readable title of the service.
    pub title: Option<Text>,
    /// A short description of the service.
    pub abstract_text: Option<Text>,
    /// The address that requests are sent to.
    pub address: Option<Text>,
}

/// WEB.
#[derive(Default, Drop)]
pub struct WebSlots {
    /// The pairs that are kept.
    pub metadata: Option<Metadata>,
    /// The directory of pictures.
    pub image_path: Option<()>,
    /// The address of pictures.
    pub image_url: Option<()>,
}
