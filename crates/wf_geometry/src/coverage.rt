//! Which pixels a shape covers.
ghost use Rattle.std.specs.Prelude.{◌≡◌, ◌≤◌, ◌^◌, nat_abs, pos};
ghost use Rattle.wf_geometry.specs.Near.{IsDistance, IsArea};
ghost use Rattle.wf_geometry.specs.Coverage.{run, rise, is_left_of, is_beside, meets, crosses, is_inside, deviation, margin, is_along, is_in_band, is_across, is_on_flat, is_steep, is_on, is_on_any};
ghost use Rattle.wf_geometry.specs.Operation.{covers, operation_value};

use crate::exact::{area_difference, difference, is_less, is_less_area, opposite, product};
use crate::limits::HALF_SIDE;
use crate::operation::{Operation, Pixel, Segment, Shape};
use crate::position::Position;
use crate::square::is_in_square;

/// Whether the operation's shape covers the pixel.
#[tactic(auto, unfolding(crate::specs::Operation::covers))]
pub fn covers(operation: &Operation, pixel: Pixel) -> bool
    ensures { result ≡ covers (operation_value operation.now) (pos pixel.column) (pos pixel.row) }
{
    match operation.shape {
        Shape::Fill { edges } => is_inside(Position::centre(pixel.column, pixel.row), edges),
        Shape::Line { width, segments } => {
            is_on_any(width, Position::centre(pixel.column, pixel.row), segments)
        }
        Shape::Square { size, position } => is_in_square(size, position, pixel),
    }
}

/// The x offset of the second position from the first.
#[tactic(auto, unfolding(crate::specs::Coverage::run))]
pub(crate) fn run(from: Position, to: Position) -> i64
    ensures value { result ≡ run from to }
    ensures within { IsDistance result }
{
    difference(to.x(), from.x())
}

/// The y offset of the second position from the first.
#[tactic(auto, unfolding(crate::specs::Coverage::rise))]
pub(crate) fn rise(from: Position, to: Position) -> i64
    ensures value { result ≡ rise from to }
    ensures within { IsDistance result }
{
    difference(to.y(), from.y())
}

/// Whether the position is left of an edge that goes up from `low` to `high`.
#[tactic(auto, unfolding(crate::specs::Coverage::is_left_of))]
fn is_left_of(position: Position, low: Position, high: Position) -> bool
    ensures { result ≡ is_left_of position low high }
{
    let across = product(run(low, position), rise(low, high));
    let along = product(rise(low, position), run(low, high));
    is_less_area(across, along)
}

/// Whether the position's y is between those of the ends: the lower end counts, the upper doesn't.
#[tactic(auto, unfolding(crate::specs::Coverage::is_beside))]
fn is_beside(position: Position, low: Position, high: Position) -> bool
    ensures { result ≡ is_beside position low high }
{
    !is_less(position.y(), low.y()) && is_less(position.y(), high.y())
}

/// Whether the ray from the position to the right meets the edge from `low` up to `high`.
#[tactic(auto, unfolding(crate::specs::Coverage::meets))]
fn meets(position: Position, low: Position, high: Position) -> bool
    ensures { result ≡ meets position low high }
{
    is_beside(position, low, high) && is_left_of(position, low, high)
}

/// Whether the ray from the position to the right meets the segment.
#[tactic(auto, unfolding(crate::specs::Coverage::crosses))]
fn crosses(position: Position, edge: &Segment) -> bool
    ensures { result ≡ crosses position edge.now }
{
    meets(position, edge.from, edge.to) || meets(position, edge.to, edge.from)
}

/// Whether the ray from the position to the right meets an odd number of the edges.
#[tactic(auto, unfolding(crate::specs::Coverage::is_inside))]
fn is_inside(position: Position, edges: &[Segment]) -> bool
    ensures { result ≡ is_inside position edges.now }
{
    edges.iter().filter(|edge| crosses(position, edge)).count() % 2 == 1
}

/// How far the position lies above the line from `left` to `right`, times the line's x length.
#[tactic(auto, unfolding(crate::specs::Coverage::deviation))]
pub(crate) fn deviation(position: Position, left: Position, right: Position) -> i128
    ensures value { result ≡ deviation position left right }
    ensures within { nat_abs result ≤ 2 ^ 109 }
{
    let risen = product(rise(left, position), run(left, right));
    let expected = product(run(left, position), rise(left, right));
    area_difference(risen, expected)
}

/// Half the line's width in sixteenths of a pixel, times its x length.
#[tactic(auto, unfolding(crate::specs::Coverage::margin))]
pub(crate) fn margin(width: u8, left: Position, right: Position) -> i128
    ensures value { result ≡ margin width left right }
    ensures within { IsArea result }
{
    product(HALF_SIDE * i64::from(width), run(left, right))
}

/// Whether the position's x is between those of the ends, both included.
#[tactic(auto, unfolding(crate::specs::Coverage::is_along))]
fn is_along(position: Position, left: Position, right: Position) -> bool
    ensures { result ≡ is_along position left right }
{
    !is_less(position.x(), left.x()) && !is_less(right.x(), position.x())
}

/// Whether the position lies within half the width above or below the line; the lower border
/// counts, the upper doesn't.
#[tactic(auto, unfolding(crate::specs::Coverage::is_in_band))]
fn is_in_band(width: u8, position: Position, left: Position, right: Position) -> bool
    ensures { result ≡ is_in_band width position left right }
{
    let margin = margin(width, left, right);
    let deviation = deviation(position, left, right);
    !is_less_area(deviation, opposite(margin)) && is_less_area(deviation, margin)
}

/// Whether the line from `left` to `right` covers the position.
#[tactic(auto, unfolding(crate::specs::Coverage::is_across))]
fn is_across(width: u8, position: Position, left: Position, right: Position) -> bool
    ensures { result ≡ is_across width position left right }
{
    is_along(position, left, right) && is_in_band(width, position, left, right)
}

/// Whether the line between two positions, in either order, covers the position.
#[tactic(auto, unfolding(crate::specs::Coverage::is_on_flat))]
fn is_on_flat(width: u8, position: Position, from: Position, to: Position) -> bool
    ensures { result ≡ is_on_flat width position from to }
{
    if is_less(to.x(), from.x()) {
        is_across(width, position, to, from)
    } else {
        is_across(width, position, from, to)
    }
}

/// Whether the line between two positions is longer along y than along x.
#[tactic(auto, unfolding(crate::specs::Coverage::is_steep))]
pub(crate) fn is_steep(from: Position, to: Position) -> bool
    ensures { result ≡ is_steep from to }
{
    run(from, to).unsigned_abs() < rise(from, to).unsigned_abs()
}

/// Whether the line of `width` pixels along the segment covers the position.
#[tactic(auto, unfolding(crate::specs::Coverage::is_on))]
fn is_on(width: u8, position: Position, segment: &Segment) -> bool
    ensures { result ≡ is_on width position segment.now }
{
    let (from, to) = (segment.from, segment.to);
    if is_steep(from, to) {
        is_on_flat(
            width,
            position.exchange_axes(),
            from.exchange_axes(),
            to.exchange_axes(),
        )
    } else {
        is_on_flat(width, position, from, to)
    }
}

/// Whether a line of `width` pixels along one of the segments covers the position.
#[tactic(auto, unfolding(crate::specs::Coverage::is_on_any))]
fn is_on_any(width: u8, position: Position, segments: &[Segment]) -> bool
    ensures { result ≡ is_on_any width position segments.now }
{
    segments
        .iter()
        .any(|segment| is_on(width, position, segment))
}
