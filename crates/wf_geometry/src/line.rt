//! Lines of a given width along segments: each is a strip of the picture.
ghost use Rattle.std.specs.Prelude.{◌≡◌, ℕ, ◌*◌, ◌≤◌, ◌<◌, ◌^◌, ◌≤ℤ◌, false, pos, nat_abs};
ghost use Rattle.wf_geometry.specs.Near.{IsNear, IsDistance, IsArea};
ghost use Rattle.wf_geometry.specs.Exact.{plus, difference, opposite, is_less};
ghost use Rattle.wf_geometry.specs.Limit.{half_side};
ghost use Rattle.wf_geometry.specs.Level.{level_at, is_in_margin};
ghost use Rattle.wf_geometry.specs.Position.{PositionValue, centre, turned};
ghost use Rattle.wf_geometry.specs.Coverage.{deviation, margin, is_along, is_across, is_on_flat, is_on};
ghost use Rattle.wf_geometry.specs.Span.{IsSpanOf};
ghost use Rattle.wf_geometry.specs.Strip.{is_in_strip};

use crate::coverage::{deviation, is_steep, margin, rise, run};
use crate::exact::is_less;
use crate::level::{Span, centres_between};
use crate::levels::{Levels, Strip};
use crate::limits::HALF_SIDE;
use crate::operation::Segment;
use crate::position::Position;
use crate::steps::centres_below;

/// The line of `width` pixels along the segment, as a strip of a picture of this size in pixels: it
/// has exactly the pixels whose centre the line covers. Its levels don't fall from column to
/// column, and are near enough to 0 for sums over a picture's rows.
pub fn strip_of(width: u8, segment: &Segment, wide: u32, high: u32) -> Strip
    ensures origin { nat_abs result.levels.origin ≤ 2 ^ 110 }
    ensures across { IsDistance result.levels.across }
    ensures rising { pos 0 ≤ℤ result.levels.across }
    ensures up { IsDistance result.levels.up }
    ensures margin { IsArea result.levels.margin }
    ensures rows { result.rows.to ≤ high }
    ensures columns { result.columns.to ≤ wide }
    ensures shown { (u v : ℕ) → u < wide → v < high →
        is_in_strip result.levels result.rows result.columns u v
        ≡ is_on width (centre (pos u) (pos v)) segment.now }
{
    let (from, to) = (segment.from, segment.to);
    if is_steep(from, to) {
        upward(
            width,
            in_order(from.exchange_axes(), to.exchange_axes()),
            wide,
            high,
        )
    } else {
        rightward(width, in_order(from, to), wide, high)
    }
}

/// The line between two positions that isn't longer along y than along x, from left to right.
fn in_order(from: Position, to: Position) -> Segment
    ensures { (width : ℕ) (c : PositionValue) →
        is_across width c result.from result.to ≡ is_on_flat width c from to }
{
    if is_less(to.x(), from.x()) {
        Segment { from: to, to: from }
    } else {
        Segment { from, to }
    }
}

/// The line from left to right, as a strip of a picture of this size.
fn rightward(width: u8, line: Segment, wide: u32, high: u32) -> Strip
    ensures origin { nat_abs result.levels.origin ≤ 2 ^ 110 }
    ensures across { IsDistance result.levels.across }
    ensures rising { pos 0 ≤ℤ result.levels.across }
    ensures up { IsDistance result.levels.up }
    ensures margin { IsArea result.levels.margin }
    ensures rows { result.rows.to ≤ high }
    ensures columns { result.columns.to ≤ wide }
    ensures shown { (u v : ℕ) → u < wide → v < high →
        is_in_strip result.levels result.rows result.columns u v
        ≡ is_across width (centre (pos u) (pos v)) line.from line.to }
{
    let (left, right) = (line.from, line.to);
    Strip {
        levels: not_falling(deviations(width, left, right)),
        rows: rows_near(width, left, right, high),
        columns: span_along(left, right, wide),
    }
}

/// The line from its lower to its upper end, whose positions have their axes exchanged, as a strip
/// of a picture of this size.
fn upward(width: u8, line: Segment, wide: u32, high: u32) -> Strip
    ensures origin { nat_abs result.levels.origin ≤ 2 ^ 110 }
    ensures across { IsDistance result.levels.across }
    ensures rising { pos 0 ≤ℤ result.levels.across }
    ensures up { IsDistance result.levels.up }
    ensures margin { IsArea result.levels.margin }
    ensures rows { result.rows.to ≤ high }
    ensures columns { result.columns.to ≤ wide }
    ensures shown { (u v : ℕ) → u < wide → v < high →
        is_in_strip result.levels result.rows result.columns u v
        ≡ is_across width (turned (centre (pos u) (pos v))) line.from line.to }
{
    let (lower, upper) = (line.from, line.to);
    Strip {
        levels: not_falling(turned_deviations(width, lower, upper)),
        rows: span_along(lower, upper, high),
        columns: rows_near(width, lower, upper, wide),
    }
}

/// Levels that lie within the margin exactly where these do, and don't fall from column to column.
fn not_falling(levels: Levels) -> Levels
    requires origin { nat_abs levels.origin ≤ 2 ^ 109 }
    requires across { IsDistance levels.across }
    requires up { IsDistance levels.up }
    ensures origin { nat_abs result.origin ≤ 2 ^ 110 }
    ensures across { IsDistance result.across }
    ensures rising { pos 0 ≤ℤ result.across }
    ensures up { IsDistance result.up }
    ensures margin { result.margin ≡ levels.margin }
    ensures same { (u v : ℕ) → is_in_margin levels.margin (level_at result u v)
        ≡ is_in_margin levels.margin (level_at levels u v) }
{
    if levels.across < 0 {
        mirror(levels)
    } else {
        levels
    }
}

/// Levels that lie within a margin exactly where these do, and fall where these rise.
fn mirror(levels: Levels) -> Levels
    requires origin { nat_abs levels.origin ≤ 2 ^ 109 }
    requires across { IsDistance levels.across }
    requires up { IsDistance levels.up }
    ensures origin { nat_abs result.origin ≤ 2 ^ 110 }
    ensures across { result.across ≡ opposite levels.across }
    ensures up { IsDistance result.up }
    ensures margin { result.margin ≡ levels.margin }
    ensures value { (u v : ℕ) →
        level_at result u v ≡ difference (opposite (level_at levels u v)) (pos 1) }
{
    Levels {
        origin: -levels.origin - 1,
        across: -levels.across,
        up: -levels.up,
        margin: levels.margin,
    }
}

/// How far each pixel's centre lies above the line from `left` to `right`, times the line's x
/// length; the margin is half the width of the line in the same measure.
fn deviations(width: u8, left: Position, right: Position) -> Levels
    ensures origin { nat_abs result.origin ≤ 2 ^ 109 }
    ensures across { IsDistance result.across }
    ensures up { IsDistance result.up }
    ensures margin { result.margin ≡ margin width left right }
    ensures margin_within { IsArea result.margin }
    ensures value { (u v : ℕ) →
        level_at result u v ≡ deviation (centre (pos u) (pos v)) left right }
{
    Levels {
        origin: deviation(Position::centre(0, 0), left, right),
        across: rise(right, left),
        up: run(left, right),
        margin: margin(width, left, right),
    }
}

/// How far each pixel's centre lies from the line, with the axes of both exchanged.
fn turned_deviations(width: u8, low: Position, high: Position) -> Levels
    ensures origin { nat_abs result.origin ≤ 2 ^ 109 }
    ensures across { IsDistance result.across }
    ensures up { IsDistance result.up }
    ensures margin { result.margin ≡ margin width low high }
    ensures margin_within { IsArea result.margin }
    ensures value { (u v : ℕ) →
        level_at result u v ≡ deviation (turned (centre (pos u) (pos v))) low high }
{
    Levels {
        origin: deviation(Position::centre(0, 0).exchange_axes(), low, high),
        across: run(low, high),
        up: rise(high, low),
        margin: margin(width, low, high),
    }
}

/// The columns, of the first `most`, between the ends of the line from `left` to `right`: the same
/// in each row. With the axes exchanged, the rows.
fn span_along(left: Position, right: Position, most: u32) -> Span
    ensures { (v : ℕ) → IsSpanOf (λ u. is_along (centre (pos u) (pos v)) left right) most result }
{
    centres_between(left.x(), right.x(), most)
}

/// Rows, of the first `most`, outside which the line from `left` to `right` covers nothing. With
/// the axes exchanged, columns.
fn rows_near(width: u8, left: Position, right: Position, most: u32) -> Span
    ensures within { result.to ≤ most }
    ensures below { (u v : ℕ) →
        v < most → v < result.from → is_across width (centre (pos u) (pos v)) left right ≡ false }
    ensures above { (u v : ℕ) →
        v < most → result.to ≤ v → is_across width (centre (pos u) (pos v)) left right ≡ false }
{
    let bottom = lower_border(width, lesser(left.y(), right.y()));
    let top = upper_border(width, greater(left.y(), right.y()));
    Span {
        from: centres_below(bottom, most),
        to: centres_below(top, most),
    }
}

/// The lesser of two positions on an axis.
#[tactic(auto, unfolding(crate::specs::Exact::is_less))]
fn lesser(a: i64, b: i64) -> i64
    requires a { IsNear a }
    requires b { IsNear b }
    ensures first { is_less a result ≡ false }
    ensures second { is_less b result ≡ false }
    ensures within { IsNear result }
{
    if a < b { a } else { b }
}

/// The greater of two positions on an axis.
#[tactic(auto, unfolding(crate::specs::Exact::is_less))]
fn greater(a: i64, b: i64) -> i64
    requires a { IsNear a }
    requires b { IsNear b }
    ensures first { is_less result a ≡ false }
    ensures second { is_less result b ≡ false }
    ensures within { IsNear result }
{
    if a < b { b } else { a }
}

/// The position half the width of a line below this one.
#[tactic(auto, unfolding(crate::specs::Exact::difference))]
fn lower_border(width: u8, position: i64) -> i64
    requires { IsNear position }
    ensures { result ≡ difference position (pos (half_side * width)) }
{
    position - HALF_SIDE * i64::from(width)
}

/// The position half the width of a line above this one.
#[tactic(auto, unfolding(crate::specs::Exact::plus))]
fn upper_border(width: u8, position: i64) -> i64
    requires { IsNear position }
    ensures { result ≡ plus position (pos (half_side * width)) }
{
    position + HALF_SIDE * i64::from(width)
}
