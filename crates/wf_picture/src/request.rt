//! Requests for pictures.
ghost use Rattle.std.specs.Prelude.{◌≡◌};
ghost use Rattle.wf_picture.specs.Request.{IsSize, IsLargeEnough, IsRequest};

use std::marker::Model;
use wf_def::{Color, Extent};

/// How wide and how high a picture is, in pixels.
#[derive(Clone, Copy, PartialEq, Eq)]
pub struct Size {
    pub width: u32,
    pub height: u32,
}

/// What a picture of a map shows and how large it is: the layers as indices into the map's, the
/// lowest first; the box, in the axes of the map's EXTENT, with sides of at least a thousandth of a
/// unit; the size, 1 to 1,024 pixels each way; and the colour of what no layer covers.
#[derive(Drop)]
pub struct PictureRequest {
    layers: Vec<usize>,
    bbox: Extent,
    size: Size,
    background: Color,
}

impl Model for PictureRequest {
    ghost use Rattle.wf_picture.specs.Request.{RequestValue, IsRequest};

    ghost Value = { RequestValue };

    ghost view = { λ r. record {
      layers = r.layers.items;
      bbox = r.bbox;
      size = r.size;
      background = r.background;
    } };

    ghost invariant = { λ r. IsRequest (record {
      layers = r.layers.items;
      bbox = r.bbox;
      size = r.size;
      background = r.background;
    }) };
}

impl PictureRequest {
    /// The request of these parts.
    pub fn new(layers: Vec<usize>, bbox: Extent, size: Size, background: Color) -> Self
        requires size { IsSize size }
        requires bbox { IsLargeEnough bbox }
        ensures { result
            ≡ record { layers = layers.items; bbox = bbox; size = size; background = background } }
    {
        PictureRequest {
            layers,
            bbox,
            size,
            background,
        }
    }

    /// The layers as indices into the map's, the lowest in the picture first.
    pub fn layers(&self) -> &[usize]
        ensures value { result.now ≡ self.now.layers }
        ensures within { IsRequest self.now }
    {
        &self.layers
    }

    /// The layers alone.
    pub fn into_layers(self) -> Vec<usize>
        ensures { result.items ≡ self.layers }
    {
        let PictureRequest { layers, .. } = self;
        layers
    }

    /// The box.
    pub fn bbox(&self) -> Extent
        ensures value { result ≡ self.now.bbox }
        ensures within { IsRequest self.now }
    {
        self.bbox
    }

    /// The size.
    pub fn size(&self) -> Size
        ensures value { result ≡ self.now.size }
        ensures within { IsRequest self.now }
    {
        self.size
    }

    /// The colour of what no layer covers.
    pub fn background(&self) -> Color
        ensures value { result ≡ self.now.background }
        ensures within { IsRequest self.now }
    {
        self.background
    }
}
