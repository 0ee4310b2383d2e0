//! Features.
ghost use Rattle.std.specs.Prelude.{◌≡◌};
ghost use Rattle.wf_def.specs.Layer.{feature_of};
ghost use Rattle.wf_def.specs.Limits.{IsFeature};

use crate::members::{Limited, Members};
use crate::point::Point;
use crate::text::know_text;
use std::alloc::AllocError;
use std::marker::Model;
use wf_text::Text;

/// A part of a shape: points, in order.
pub type Part = Members<Point>;

/// The parts of a shape, in order.
pub type ShapeParts = Members<Part>;

/// A shape with its attributes and its label's text (MapServer mapfile reference, FEATURE).
pub struct Feature {
    parts: ShapeParts,
    items: Text,
    text: Text,
}

// Written by hand: callers then prove one call where they drop a feature, not one for each part.
impl Drop for Feature {
    fn drop(self) {
        let Feature { parts, items, text } = self;
        drop(parts);
        drop(items);
        drop(text);
    }
}

impl Model for Feature {
    ghost use Rattle.wf_def.specs.Definition.{FeatureDefinition};
    ghost use Rattle.wf_def.specs.Limits.{IsFeature};

    ghost Value = { FeatureDefinition };

    ghost view = { λ f. record { parts = f.parts; items = f.items; text = f.text } };

    ghost invariant = { λ f. IsFeature (record { parts = f.parts; items = f.items; text = f.text }) };
}

impl Feature {
    /// The feature of these parts, its attributes' values between semicolons, and its label's text.
    /// `None` if there are no parts.
    #[inline]
    #[tactic(auto, unfolding(crate::specs::Layer::feature_of))]
    pub fn new(parts: ShapeParts, items: Text, text: Text) -> Option<Self>
        ensures { result ≡ feature_of parts items text }
    {
        know_text(&items);
        know_text(&text);
        if parts.is_empty() {
            return None;
        }
        Some(Feature { parts, items, text })
    }

    /// The parts of the shape (POINTS).
    pub fn parts(&self) -> &[Part]
        ensures value { result.now ≡ self.now.parts }
        ensures within { IsFeature self.now }
    {
        self.parts.as_slice()
    }

    /// The values of the attributes, between semicolons (ITEMS).
    pub fn items(&self) -> &Text
        ensures value { result.now ≡ self.now.items }
        ensures within { IsFeature self.now }
    {
        &self.items
    }

    /// The text of the label (TEXT).
    pub fn text(&self) -> &Text
        ensures value { result.now ≡ self.now.text }
        ensures within { IsFeature self.now }
    {
        &self.text
    }
}

impl Clone for Feature {
    ghost is_clone = { λ feature copy. copy ≡ feature };

    fn clone(&self) -> Result<Self, AllocError> {
        Ok(Feature {
            parts: self.parts.clone()?,
            items: self.items.clone()?,
            text: self.text.clone()?,
        })
    }
}

impl Limited for Feature {
    ghost use Rattle.wf_def.specs.Limits.{IsFeature};
    ghost use Rattle.wf_def.specs.EqualityTheorems.{feature_eq-Decides};

    ghost IsWithin = { IsFeature };

    fn know(&self) {
        let _ = self.text();
    }

    ghost copies = { λ _ _ same. same };

    ghost decides = { feature_eq-Decides };
}
