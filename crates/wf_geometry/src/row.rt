//! Rows of a strip: where their pixels begin and end. The ends of a row are those of the row
//! before, moved by a constant, so no row but the first takes a division.
ghost use Rattle.std.specs.Prelude.{◌≡◌, ◌+◌, ◌*◌, ◌^◌, ◌<◌, ◌≤◌, nat_abs, pos, ◌≤ℤ◌, IfSome, IfNone};
ghost use Rattle.wf_geometry.specs.Near.{IsDistance, IsArea};
ghost use Rattle.wf_geometry.specs.Exact.{plus, difference, product, opposite, number_of};
ghost use Rattle.wf_geometry.specs.Level.{level_at, row_level, is_in_margin};
ghost use Rattle.wf_geometry.specs.Span.{IsSpanOf};
ghost use Rattle.wf_geometry.specs.Strip.{AreEnds, HasNoEnds, IsFar};
ghost use Rattle.wf_geometry.specs.Limit.{most_pixels, pixel_side};

use crate::exact::{opposite, product};
use crate::level::{Span, level_within};
use crate::levels::Levels;
use crate::limits::PIXEL_SIDE;
use crate::steps::{quotient, steps_below};

/// A number as a multiple of a divisor and a rest: `whole * divisor + rest`.
#[derive(Clone, Copy)]
pub struct Quotient {
    pub whole: i64,
    pub rest: u64,
}

/// The ends of a row's pixels, as quotients by `step`: the whole part of an end counts the columns
/// up to it. The lower end is `low`, the upper one lies `gap` after it, and both change by `change`
/// from a row to the next one.
#[derive(Clone, Copy)]
pub struct RowEnds {
    pub low: Quotient,
    pub gap: Quotient,
    pub change: Quotient,
    pub step: u64,
}

/// How many rows a leap passes.
const LEAP_ROWS: i64 = 16;

/// The ends of the pixels of a row whose level lies within the margin about 0, and how they change
/// from row to row. None if levels don't change from column to column, or if 64 bits don't hold the
/// quotients.
pub fn ends_in(levels: Levels, row: u32) -> Option<RowEnds>
    requires origin { nat_abs levels.origin ≤ 2 ^ 110 }
    requires across { IsDistance levels.across }
    requires rising { pos 0 ≤ℤ levels.across }
    requires up { IsDistance levels.up }
    requires margin { IsArea levels.margin }
    requires row { row ≤ most_pixels }
    ensures value { IfSome result (AreEnds levels row) }
    ensures none { IfNone result (HasNoEnds levels row) }
{
    if levels.across == 0 {
        return None;
    }
    let step = step(levels.across);
    let start = row_level(levels, row);
    let Some(low) = quotient(room(opposite(levels.margin), start), step) else {
        return None;
    };
    let Some(gap) = quotient(double(levels.margin), step) else {
        return None;
    };
    let Some(change) = quotient(opposite(product(PIXEL_SIDE, levels.up)), step) else {
        return None;
    };
    Some(RowEnds {
        low,
        gap,
        change,
        step,
    })
}

/// How an end of a row's pixels changes over 16 rows, as a quotient by `step`. None if 64 bits
/// don't hold it.
pub fn leap(levels: Levels, step: u64) -> Option<Quotient>
    requires up { IsDistance levels.up }
    requires step { 1 ≤ step }
    ensures value { IfSome result (λ q. number_of step q
        ≡ opposite (product (pos (16 * pixel_side)) levels.up)) }
    ensures rest { IfSome result (λ q. q.rest < step) }
    ensures within { IfSome result (λ q. nat_abs q.whole ≤ 2 ^ 50) }
    ensures none { IfNone result
        (IsFar (opposite (product (pos (16 * pixel_side)) levels.up)) (pos step)) }
{
    quotient(opposite(product(LEAP_ROWS * PIXEL_SIDE, levels.up)), step)
}

/// Twice the margin.
#[tactic(auto, unfolding(crate::specs::Exact::plus))]
fn double(margin: i128) -> i128
    requires { IsArea margin }
    ensures value { result ≡ plus margin margin }
    ensures within { nat_abs result ≤ 2 ^ 112 }
{
    2 * margin
}

/// The pixels, of the first `most` of a row, whose level lies within the margin about 0.
pub fn row_within(levels: Levels, row: u32, most: u32) -> Span
    requires origin { nat_abs levels.origin ≤ 2 ^ 110 }
    requires across { IsDistance levels.across }
    requires rising { pos 0 ≤ℤ levels.across }
    requires up { IsDistance levels.up }
    requires margin { IsArea levels.margin }
    requires row { row ≤ most_pixels }
    ensures { IsSpanOf (λ u. is_in_margin levels.margin (level_at levels u row)) most result }
{
    if levels.across == 0 {
        level_within(row_level(levels, row), levels.margin, most)
    } else {
        rising_within(levels, row, most)
    }
}

/// The pixels, of the first `most` of a row, whose level lies within the margin about 0, if levels
/// rise from column to column.
fn rising_within(levels: Levels, row: u32, most: u32) -> Span
    requires origin { nat_abs levels.origin ≤ 2 ^ 110 }
    requires across { IsDistance levels.across }
    requires rising { pos 1 ≤ℤ levels.across }
    requires up { IsDistance levels.up }
    requires margin { IsArea levels.margin }
    requires row { row ≤ most_pixels }
    ensures { IsSpanOf (λ u. is_in_margin levels.margin (level_at levels u row)) most result }
{
    let step = i128::from(step(levels.across));
    let start = row_level(levels, row);
    Span {
        from: steps_below(step, gap(opposite(levels.margin), start), most),
        to: steps_below(step, gap(levels.margin, start), most),
    }
}

/// The change of a level from one column to the next.
#[tactic(auto, unfolding(crate::specs::Exact::product))]
fn step(across: i64) -> u64
    requires reach { IsDistance across }
    requires rising { pos 1 ≤ℤ across }
    ensures value { pos result ≡ product (pos pixel_side) across }
    ensures least { 1 ≤ result }
    ensures most { result ≤ 2 ^ 60 }
{
    PIXEL_SIDE as u64 * across.unsigned_abs()
}

/// The level in the first column of a row.
fn row_level(levels: Levels, row: u32) -> i128
    requires origin { nat_abs levels.origin ≤ 2 ^ 110 }
    requires up { IsDistance levels.up }
    requires row { row ≤ most_pixels }
    ensures value { result ≡ row_level levels row }
    ensures within { nat_abs result ≤ 2 ^ 111 }
{
    levels.origin + product(sixteenths(row), levels.up)
}

/// A number of pixels in sixteenths of a pixel.
fn sixteenths(pixels: u32) -> i64
    requires { pixels ≤ most_pixels }
    ensures value { result ≡ pos (pixel_side * pixels) }
    ensures within { IsDistance result }
{
    PIXEL_SIDE * i64::from(pixels)
}

/// The greatest number that, added to the level, is below the bound.
#[tactic(auto, unfolding(crate::specs::Exact::difference))]
fn room(bound: i128, level: i128) -> i128
    requires bound { IsArea bound }
    requires level { nat_abs level ≤ 2 ^ 111 }
    ensures value { result ≡ difference (difference bound level) (pos 1) }
    ensures within { nat_abs result ≤ 2 ^ 112 }
{
    bound - level - 1
}

/// How far the bound lies above the level.
#[tactic(auto, unfolding(crate::specs::Exact::difference))]
fn gap(bound: i128, level: i128) -> i128
    requires bound { IsArea bound }
    requires level { nat_abs level ≤ 2 ^ 111 }
    ensures { result ≡ difference bound level }
{
    bound - level
}
