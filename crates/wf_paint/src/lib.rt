//! Paints a map: gives each pixel its colour, in exact integer arithmetic.
//!
//! `wf_geometry` says which operations a map's layers give in a view, and which pixels each covers.
//! [`paint`] goes from the last operation to the first, row by row, and writes only pixels that are
//! still free, which a bit for each pixel tells: so hidden operations cost little. It skips
//! operations that later ones hide: those of a layer that is listed again later; a fill of a
//! feature that a later style fills; a line of a feature, if a later style has one at least as wide
//! along the same segments. Of a shape's many segments it draws equal ones once, and fills between
//! those that are there an odd number of times. Where blocks of 16 by 16 pixels are painted, a line
//! passes 16 rows at once. Contracts model a picture as the record of `specs/Pixmap.antt`.
//!
//! It promises: each pixel of a painted picture has the colour of the last operation in painter's
//! order that covers it, else the background; the only error is allocation failure.
//!
//! It draws no labels, and writes no image format: a picture is three bytes a pixel, the top row
//! first.
#![tactic(auto)]

mod about;
mod along;
mod canvas;
mod edges;
mod inside;
mod painter;
mod pixels;
mod pixmap;
mod segments;
mod strip;

pub use canvas::ones;
pub use painter::{paint, paint_after};
pub use pixmap::Pixmap;
pub use wf_geometry::{GridCell, View, covers};
