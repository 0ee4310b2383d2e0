//! Map definitions: the content of a mapfile as a plain value.
//!
//! A map definition is a mapfile without its comments, letter case and keyword order. Two are equal
//! iff all fields are equal. A [`MapDef`] has layers under distinct names. A [`Layer`] has classes
//! (which features are drawn by which styles and label) and features (shapes with attributes).
//! Model: each type is a record of `specs/Definition.antt`, with coordinates as integers in
//! millionths, texts as bytes, lists in order, and a map's layers as pairs of name and layer.
//!
//! Promises: every value is within the limits of `specs/Limits.antt`; accessors ensure the value
//! and its limits, and plain data (styles, labels) has fields whose types are within them. Where
//! the caller can know that there is room, room is a precondition; a constructor returns `None` if
//! the parts don't fit together (too few points for the layer's kind); a repeated name is rejected.
//! After allocation failure a value is unchanged. Re-exports the texts and numbers of wf_text. Not
//! here: mapfiles, pictures and HTTP.
#![tactic(auto)]

mod attribute;
mod choice;
mod class;
mod color;
mod equality;
mod expression;
mod extent;
mod fault;
mod feature;
mod held;
mod label;
mod layer;
mod layer_name;
mod limits;
mod map;
mod members;
mod micro;
mod point;
mod style;
mod text;

pub use attribute::attribute_value;
pub use choice::{LabelPosition, LabelSize, LayerKind, Projection};
pub use class::{Class, Styles};
pub use color::Color;
pub use expression::Expression;
pub use extent::Extent;
pub use fault::LayerFault;
pub use feature::{Feature, Part, ShapeParts};
pub use label::Label;
pub use layer::{Classes, Features, Layer, enough_points_are_tested, is_layer_name};
pub use limits::{
    MOST_BUFFER, MOST_CLASSES, MOST_FEATURES, MOST_LAYERS, MOST_POINTS, MOST_PRIORITY, MOST_SIZE,
    MOST_STYLES, MOST_WIDTH, constants_are_the_limits,
};
pub use map::MapDef;
pub use point::Point;
pub use style::Style;
pub use wf_text::{Micro, Text, ValueList, Whole, check_list};
