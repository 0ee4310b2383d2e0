//! Views: the part of the map that a picture shows, and the picture's size.
ghost use Rattle.std.specs.Prelude.{◌≡◌, ◌≤◌};
ghost use Rattle.wf_geometry.specs.Limit.{most_pixels};
ghost use Rattle.wf_geometry.specs.View.{position_of, IsAxis, IsView};

use crate::axis::Axis;
use crate::position::Position;
use std::marker::Model;
use wf_def::Point;

/// The lower left pixel of a picture cut out of a view: columns from the left, rows from the
/// bottom.
#[derive(Clone, Copy, PartialEq, Eq)]
pub struct Corner {
    pub column: u32,
    pub row: u32,
}

/// The part of the map that a picture shows, and the picture's size.
#[derive(Clone, Copy)]
pub struct View {
    width: u32,
    height: u32,
    x: Axis,
    y: Axis,
    corner: Option<Corner>,
}

impl Model for View {
    ghost use Rattle.wf_geometry.specs.View.{ViewValue, IsView};

    ghost Value = { ViewValue };

    ghost view = { λ v.
        record { width = v.width; height = v.height; x = v.x; y = v.y; corner = v.corner } };

    ghost invariant = { λ v. IsView
        (record { width = v.width; height = v.height; x = v.x; y = v.y; corner = v.corner }) };

    ghost inverse = { λ v.
        record { width = v.width; height = v.height; x = v.x; y = v.y; corner = v.corner } };
}

impl View {
    /// The view with these fields.
    pub(crate) fn new(width: u32, height: u32, x: Axis, y: Axis, corner: Option<Corner>) -> Self
        requires width_least { 1 ≤ width }
        requires width_most { width ≤ most_pixels }
        requires height_least { 1 ≤ height }
        requires height_most { height ≤ most_pixels }
        requires x { IsAxis x }
        requires y { IsAxis y }
        ensures { result
            ≡ record { width = width; height = height; x = x; y = y; corner = corner } }
    {
        View {
            width,
            height,
            x,
            y,
            corner,
        }
    }

    /// The view's width in pixels.
    pub fn width(&self) -> u32
        ensures value { result ≡ self.now.width }
        ensures within { IsView self.now }
    {
        self.width
    }

    /// The view's height in pixels.
    pub fn height(&self) -> u32
        ensures value { result ≡ self.now.height }
        ensures within { IsView self.now }
    {
        self.height
    }

    /// For a tile, its lower left pixel: the picture is the part of the view of 256 by 256 pixels
    /// that starts there. None if the picture is the whole view.
    pub fn corner(&self) -> Option<Corner>
        ensures value { result ≡ self.now.corner }
        ensures within { IsView self.now }
    {
        self.corner
    }

    /// The position of a point of the map in the view.
    pub fn position(&self, point: &Point) -> Position
        ensures { result ≡ position_of self.now point.now }
    {
        Position::new(self.x.position(point.x), self.y.position(point.y))
    }
}
