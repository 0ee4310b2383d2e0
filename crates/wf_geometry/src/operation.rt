//! Paint operations: a shape in a colour.

use crate::position::Position;
use wf_def::Color;

/// The straight line between two positions.
#[derive(Clone, Copy)]
pub struct Segment {
    pub from: Position,
    pub to: Position,
}

/// The shape that an operation paints.
#[derive(Clone, Copy)]
pub enum Shape<'a> {
    /// The inside of these edges: the positions from which a ray to the right meets an odd number
    /// of them.
    Fill { edges: &'a [Segment] },
    /// A line of `width` pixels along each segment.
    Line { width: u8, segments: &'a [Segment] },
    /// A square of `size` pixels about a position.
    Square { size: u8, position: Position },
}

/// A shape in a colour.
#[derive(Clone, Copy)]
pub struct Operation<'a> {
    pub shape: Shape<'a>,
    pub color: Color,
}

/// A pixel of a view: columns from the left, rows from the bottom.
#[derive(Clone, Copy, PartialEq, Eq)]
pub struct Pixel {
    pub column: u32,
    pub row: u32,
}
