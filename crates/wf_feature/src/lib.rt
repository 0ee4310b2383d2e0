//! Features of a mapfile, FEATURE with POINTS, and the layers so far, which say how many more
//! features and points may come.
//!
//! A feature is a shape, the values of its attributes and the text of its label; a shape has parts,
//! each a list of points (MapServer mapfile reference, FEATURE, POINTS). A map may have a number of
//! features and points in all its layers. Model: `feature` of `specs/Feature.antt`, a function from
//! the most points that may come and a list of tokens to the feature at its front and the tokens
//! after it, or none; [`Layers`] is the list of the layers so far with their names.
//!
//! Promises: [`read_feature`] returns the feature that the tokens mean, with the number of its
//! points, which are no more than may come; an error other than allocation failure is returned only
//! if the tokens mean nothing. `Layers` are within the limits of a map, under distinct names, and
//! tell how many features and points are left; after allocation failure they are unchanged. Which
//! error, and its byte offset, is tested and not proved. Not here: how a block is read keyword by
//! keyword (wf_block), and LAYER itself (wf_mapfile).
#![tactic(auto)]

mod feature;
mod layers;
mod slots;

pub use feature::read_feature;
pub use layers::{LayerName, LayerRead, Layers, layer_names_are_tested};
