//! Positions in a view.
ghost use Rattle.std.specs.Prelude.{◌≡◌, pos};
ghost use Rattle.wf_geometry.specs.Near.{IsNear};
ghost use Rattle.wf_geometry.specs.Position.{IsPosition, middle, centre, turned};

use crate::limits::{HALF_SIDE, PIXEL_SIDE};
use std::marker::Model;

/// A position in a view, in sixteenths of a pixel from its left side and its bottom. It may lie
/// outside the view.
#[derive(Clone, Copy)]
pub struct Position {
    x: i64,
    y: i64,
}

impl Model for Position {
    ghost use Rattle.wf_geometry.specs.Position.{PositionValue, IsPosition};

    ghost Value = { PositionValue };

    ghost view = { λ p. record { x = p.x; y = p.y } };

    ghost invariant = { λ p. IsPosition (record { x = p.x; y = p.y }) };

    ghost inverse = { λ v. record { x = v.x; y = v.y } };
}

impl Position {
    /// The position at these sixteenths of a pixel.
    pub(crate) fn new(x: i64, y: i64) -> Self
        requires x { IsNear x }
        requires y { IsNear y }
        ensures { result ≡ record { x = x; y = y } }
    {
        Position { x, y }
    }

    /// Sixteenths of a pixel from the left.
    pub fn x(self) -> i64
        ensures value { result ≡ self.x }
        ensures within { IsPosition self }
    {
        self.x
    }

    /// Sixteenths of a pixel from the bottom.
    pub fn y(self) -> i64
        ensures value { result ≡ self.y }
        ensures within { IsPosition self }
    {
        self.y
    }

    /// The position with its axes exchanged.
    pub(crate) fn exchange_axes(self) -> Self
        ensures { result ≡ turned self }
    {
        Position {
            x: self.y,
            y: self.x,
        }
    }

    /// The centre of the pixel in a column and a row; rows count from the bottom.
    pub(crate) fn centre(column: u32, row: u32) -> Self
        ensures { result ≡ centre (pos column) (pos row) }
    {
        Position {
            x: middle(column),
            y: middle(row),
        }
    }
}

/// The centre of a pixel on one axis, in sixteenths of a pixel.
#[tactic(auto, unfolding(crate::specs::Exact::plus, crate::specs::Exact::product))]
fn middle(pixel: u32) -> i64
    ensures value { result ≡ middle (pos pixel) }
    ensures within { IsNear result }
{
    PIXEL_SIDE * i64::from(pixel) + HALF_SIDE
}
