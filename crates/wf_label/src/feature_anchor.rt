//! Where a feature's label is anchored.
ghost use Rattle.std.specs.Prelude.{◌≡◌, IfSome};
ghost use Rattle.std.specs.Int.{int_max, int_min};
ghost use Rattle.wf_geometry.specs.Near.{IsNear};
ghost use Rattle.wf_label.specs.Anchor.{IsAnchor, IsBounds, anchor_of, part_anchor, bounds_of, middle_of, middle, pixel_of};

use wf_def::{Part, Point};
use wf_geometry::{PIXEL_SIDE, Position, View};

/// The box around some positions, in sixteenths of a pixel: the least and the greatest on each
/// axis.
#[derive(Clone, Copy, PartialEq, Eq)]
pub struct Bounds {
    pub left: i64,
    pub right: i64,
    pub bottom: i64,
    pub top: i64,
}

/// The pixel beside which a feature's label is placed: its column from the left of the view and its
/// row from the bottom. It may lie outside the view.
#[derive(Clone, Copy, PartialEq, Eq)]
pub struct Anchor {
    pub column: i64,
    pub row: i64,
}

/// The pixel in the middle of the box around the points of the first part, as the view shows them;
/// none where there is no point.
pub(crate) fn anchor_of(view: &View, parts: &[Part]) -> Option<Anchor>
    ensures value { result ≡ anchor_of view.now parts.now }
    ensures within { IfSome result IsAnchor }
{
    match parts {
        [first, ..] => part_anchor(view, first.as_slice()),
        [] => None,
    }
}

/// The pixel in the middle of the box around the points of a part, as the view shows them; none
/// where there is no point.
fn part_anchor(view: &View, points: &[Point]) -> Option<Anchor>
    ensures value { result ≡ part_anchor view.now points.now }
    ensures within { IfSome result IsAnchor }
{
    match points {
        [first, rest @ ..] => Some(middle_of(bounds_of(view, first, rest))),
        [] => None,
    }
}

/// The box around the points, as the view shows them.
fn bounds_of(view: &View, first: &Point, rest: &[Point]) -> Bounds
    ensures value { result ≡ bounds_of view.now first.now rest.now }
    ensures within { IsBounds result }
{
    let mut bounds = about(view.position(first));
    for point in rest {
        bounds = widen(bounds, view.position(point));
    }
    bounds
}

/// The box around one position.
fn about(position: Position) -> Bounds
    ensures value { result
        ≡ record { left = position.x; right = position.x; bottom = position.y; top = position.y } }
    ensures within { IsBounds result }
{
    Bounds {
        left: position.x(),
        right: position.x(),
        bottom: position.y(),
        top: position.y(),
    }
}

/// The smallest box around this box and one more position.
fn widen(bounds: Bounds, position: Position) -> Bounds
    requires { IsBounds bounds }
    ensures left { result.left ≡ int_min bounds.left position.x }
    ensures right { result.right ≡ int_max bounds.right position.x }
    ensures bottom { result.bottom ≡ int_min bounds.bottom position.y }
    ensures top { result.top ≡ int_max bounds.top position.y }
    ensures within { IsBounds result }
{
    Bounds {
        left: lesser(bounds.left, position.x()),
        right: greater(bounds.right, position.x()),
        bottom: lesser(bounds.bottom, position.y()),
        top: greater(bounds.top, position.y()),
    }
}

/// The lesser of two positions on an axis.
fn lesser(a: i64, b: i64) -> i64
    requires a { IsNear a }
    requires b { IsNear b }
    ensures value { result ≡ int_min a b }
    ensures within { IsNear result }
{
    a.min(b)
}

/// The greater of two positions on an axis.
fn greater(a: i64, b: i64) -> i64
    requires a { IsNear a }
    requires b { IsNear b }
    ensures value { result ≡ int_max a b }
    ensures within { IsNear result }
{
    a.max(b)
}

/// The pixel in the middle of a box.
fn middle_of(bounds: Bounds) -> Anchor
    requires { IsBounds bounds }
    ensures value { result ≡ middle_of bounds }
    ensures within { IsAnchor result }
{
    Anchor {
        column: pixel_of(middle(bounds.left, bounds.right)),
        row: pixel_of(middle(bounds.bottom, bounds.top)),
    }
}

/// Halfway between two positions on an axis, rounded down.
#[tactic(auto, unfolding(crate::specs::Anchor::middle, wf_geometry::specs::Exact::plus, wf_geometry::specs::Exact::quotient))]
fn middle(low: i64, high: i64) -> i64
    requires low { IsNear low }
    requires high { IsNear high }
    ensures value { result ≡ middle low high }
    ensures within { IsNear result }
{
    (low + high).div_euclid(2)
}

/// The pixel that holds a position on one axis.
#[tactic(auto, unfolding(crate::specs::Anchor::pixel_of, wf_geometry::specs::Exact::quotient))]
fn pixel_of(position: i64) -> i64
    requires { IsNear position }
    ensures value { result ≡ pixel_of position }
    ensures within { IsNear result }
{
    position.div_euclid(PIXEL_SIDE)
}
