//! The slots that the keywords of FEATURE fill.

use wf_def::{ShapeParts, Text};

/// FEATURE.
#[derive(Drop)]
pub struct FeatureSlots {
    /// The parts of the shape.
    pub parts: ShapeParts,
    /// The keywords that come at most once.
    pub single: FeatureOnce,
}

/// The keywords of FEATURE that come at most once.
#[derive(Default, Drop)]
pub struct FeatureOnce {
    /// The values of the attributes.
    pub items: Option<Text>,
    /// The text of the label.
    pub text: Option<Text>,
}
