//! How far the columns of a row reach that lie left of an edge.
ghost use Rattle.std.specs.Prelude.{◌≡◌, ℕ, ◌<◌, ◌≤◌, ◌&&◌, nat_lt, true, pos, OnOk};
ghost use Rattle.std.specs.List.{All, count_by};
ghost use Rattle.wf_geometry.specs.Near.{IsNear};
ghost use Rattle.wf_geometry.specs.Exact.{difference, product};
ghost use Rattle.wf_geometry.specs.Position.{middle, centre};
ghost use Rattle.wf_geometry.specs.Coverage.{is_left_of, is_beside, crosses};
ghost use Rattle.wf_geometry.specs.Limit.{half_side, pixel_side};

use crate::exact::{area_difference, difference, is_less, product};
use crate::limits::{HALF_SIDE, PIXEL_SIDE};
use crate::operation::Segment;
use crate::position::Position;
use crate::steps::steps_below;
use std::alloc::AllocError;

/// Fills the list, cleared first, with the number of columns left of each edge that crosses the
/// row, if at least one: a ray to the right from a column's centre meets as many edges as there are
/// numbers above the column's. Returns Ok unless allocation fails; then the list has some of the
/// numbers.
pub fn find_reaches(
    edges: &[Segment],
    row: u32,
    width: u32,
    reaches: &mut Vec<u32>,
) -> Result<(), AllocError>
    ensures within { OnOk result (All (λ reach. reach ≤ width) reaches.new.items) }
    ensures count { OnOk result ((u : ℕ) → u < width → count_by (nat_lt u) reaches.new.items
        ≡ count_by (crosses (centre (pos u) (pos row))) edges.now) }
{
    reaches.clear();
    let level = Position::centre(0, row).y();
    for edge in edges {
        let reach = reach(level, width, edge);
        if reach > 0 {
            reaches.push(reach)?;
        }
    }
    Ok(())
}

/// The number of leading columns of the row at this level from which a ray to the right meets the
/// edge.
fn reach(level: i64, width: u32, edge: &Segment) -> u32
    requires { IsNear level }
    ensures within { result ≤ width }
    ensures crossed { (u : ℕ) →
        u < width → crosses (record { x = middle (pos u); y = level }) edge.now ≡ nat_lt u result }
{
    let (from, to) = (edge.from, edge.to);
    if is_between(level, from, to) {
        reach_of_rising(level, width, from, to)
    } else if is_between(level, to, from) {
        reach_of_rising(level, width, to, from)
    } else {
        0
    }
}

/// Whether a level lies between the ends of an edge: the lower end counts, the upper doesn't.
#[tactic(auto, unfolding(crate::specs::Coverage::is_beside))]
fn is_between(level: i64, low: Position, high: Position) -> bool
    ensures { result ≡ is_beside (record { x = pos 0; y = level }) low high }
{
    !is_less(level, low.y()) && is_less(level, high.y())
}

/// The number of leading columns of the row at this level that lie left of an edge from `low` up to
/// `high`.
fn reach_of_rising(level: i64, width: u32, low: Position, high: Position) -> u32
    requires near { IsNear level }
    requires rising { is_beside (record { x = pos 0; y = level }) low high ≡ true }
    ensures within { result ≤ width }
    ensures left { (u : ℕ) → u < width →
        is_left_of (record { x = middle (pos u); y = level }) low high ≡ nat_lt u result }
{
    steps_below(step(low, high), upper_bound(level, low, high), width)
}

/// The change of the compared products from one column to the next.
fn step(low: Position, high: Position) -> i128
    ensures { result ≡ product (pos pixel_side) (difference high.y low.y) }
{
    product(PIXEL_SIDE, difference(high.y(), low.y()))
}

/// How far the first column at this level lies left of the edge, as a difference of the compared
/// products.
fn upper_bound(level: i64, low: Position, high: Position) -> i128
    requires { IsNear level }
    ensures { result ≡ difference (product (difference level low.y) (difference high.x low.x))
        (product (difference (pos half_side) low.x) (difference high.y low.y)) }
{
    let risen = product(difference(level, low.y()), difference(high.x(), low.x()));
    let start = product(
        difference(HALF_SIDE, low.x()),
        difference(high.y(), low.y()),
    );
    area_difference(risen, start)
}
