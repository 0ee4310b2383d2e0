//! The geometry of a painted map: where each point of it lies in a picture, and which pixels each
//! shape covers, in exact integers.
//!
//! A [`View`] is the part of the map that a picture shows, with the picture's size: 1 to 1,024
//! pixels on each side. It maps a coordinate to a [`Position`] in sixteenths of a pixel, rounded
//! down, also below zero. A map's layers, features and styles give a list of operations in
//! painter's order (`specs/Operation.antt`). An operation is a shape in a colour: the inside of
//! edges, a line of a width along segments, or a square about a point. A fill or a line covers a
//! pixel iff it covers its centre (`specs/Coverage.antt`); a square consists of whole pixels
//! (`specs/Square.antt`). Contracts model positions and views as records of `specs/`.
//!
//! [`covers`] tests one pixel. A painter goes row by row: [`span_about`] has the columns or rows of
//! a square; [`strip_of`] has a line as a [`Strip`], and [`ends_in`] and [`row_within`] where a
//! row's pixels begin and end; [`find_reaches`] has the columns before which a row crosses edges.
//!
//! It promises:
//! - a request that is a tile of the map's grid has a view that sixteen tiles share, any other that
//!   of its box; it is a tile of at most one cell ([`there_is_one_cell`])
//! - all tiles of a level are parts of one drawing ([`tiles_are_parts_of_one_drawing`])
//! - a shape's rows have exactly the pixels that it covers
//!
//! It paints nothing, and knows no projection but the map's own. Only [`find_reaches`] allocates.
#![tactic(auto)]

mod axis;
mod coverage;
mod exact;
mod grid;
mod level;
mod levels;
mod limits;
mod line;
mod operation;
mod position;
mod reach;
mod row;
mod square;
mod steps;
mod theorem;
mod tile;
mod view;

pub use coverage::covers;
pub use grid::GridCell;
pub use level::Span;
pub use levels::{Levels, Strip};
pub use limits::{
    HALF_SIDE, LEAST_CELL, MOST_LEVEL, MOST_PIXELS, PIXEL_SIDE, SHARED_TILES, TILE_PIXELS,
    constants_are_the_limits,
};
pub use line::strip_of;
pub use operation::{Operation, Pixel, Segment, Shape};
pub use position::Position;
pub use reach::find_reaches;
pub use row::{Quotient, RowEnds, ends_in, leap, row_within};
pub use square::span_about;
pub use steps::{centres_below, multiples_up_to, quotient_sum};
pub use theorem::{
    each_request_has_a_view, segments_have_no_direction, there_is_one_cell,
    tiles_are_parts_of_one_drawing,
};
pub use view::{Corner, View};
