//! Strips, painted row by row. The ends of a row's pixels are those of the row before, moved by a
//! constant, so no row but the first takes a division. Only lines whose numbers are too large for
//! it take one in each row.
ghost use Rattle.std.specs.Prelude.{◌≡◌, ℕ, ◌+◌, ◌*◌, ◌^◌, ◌<◌, ◌≤◌, nat_abs, pos, ◌≤ℤ◌, ◌<ℤ◌, true, false};
ghost use Rattle.wf_geometry.specs.Near.{IsDistance, IsArea};
ghost use Rattle.wf_geometry.specs.Exact.{plus, product, opposite};
ghost use Rattle.wf_paint.specs.Canvas.{IsBoxPainted};
ghost use Rattle.wf_paint.specs.Shown.{IsColored};
ghost use Rattle.wf_geometry.specs.Span.{shared};
ghost use Rattle.wf_geometry.specs.Strip.{is_in_strip, AreEnds, IsStripEnd};
ghost use Rattle.wf_paint.specs.RowPart.{most_between, IsRowPart, IsBetween, IsHiddenBlock, StaysBetween};
ghost use Rattle.wf_geometry.specs.Limit.{most_pixels, pixel_side};

use crate::canvas::{BLOCK_SIDE, Canvas};
use wf_def::Color;
use wf_geometry::{
    Quotient, RowEnds, Span, Strip, ends_in, leap, multiples_up_to, quotient_sum, row_within,
};

/// Paints the strip's pixels, 16 rows at a time.
pub(crate) fn draw_strip(canvas: &mut Canvas, strip: Strip, color: Color)
    requires origin { nat_abs strip.levels.origin ≤ 2 ^ 110 }
    requires across { IsDistance strip.levels.across }
    requires rising { pos 0 ≤ℤ strip.levels.across }
    requires up { IsDistance strip.levels.up }
    requires margin { IsArea strip.levels.margin }
    requires rows { strip.rows.to ≤ canvas.old.height }
    requires columns { strip.columns.to ≤ canvas.old.width }
    ensures { IsColored (is_in_strip strip.levels strip.rows strip.columns) color
        canvas.old canvas.new }
{
    canvas.sides_are_limited();
    if is_empty(strip) {
        return;
    }
    let Some(ends) = ends_in(strip.levels, strip.rows.from) else {
        return draw_far(canvas, strip, color);
    };
    let blocks = (strip.rows.to - strip.rows.from) / BLOCK_SIDE;
    if blocks == 0 {
        return draw_cut(canvas, strip, ends, color);
    }
    let Some(leap) = leap(strip.levels, ends.step) else {
        return draw_cut(canvas, strip, ends, color);
    };
    let mut low = ends.low;
    for index in 0..blocks {
        let from = strip.rows.from + BLOCK_SIDE * index;
        let rows = Span {
            from,
            to: from + BLOCK_SIDE,
        };
        let next = quotient_sum(low, leap, ends.step);
        draw_block(
            canvas,
            Strip { rows, ..strip },
            RowEnds { low, ..ends },
            next,
            color,
        );
        low = next;
    }
    let rows = Span {
        from: strip.rows.from + BLOCK_SIDE * blocks,
        to: strip.rows.to,
    };
    draw_cut(
        canvas,
        Strip { rows, ..strip },
        RowEnds { low, ..ends },
        color,
    );
}

/// Whether the strip has no rows or no columns.
#[tactic(auto, using(wf_geometry::proofs::StripLemmas::strip_nowhere, wf_geometry::proofs::StripLemmas::strip_without_columns))]
fn is_empty(strip: Strip) -> bool
    ensures none { result ≡ true → (column row : ℕ) →
        is_in_strip strip.levels strip.rows strip.columns column row ≡ false }
    ensures rows { result ≡ false → strip.rows.from < strip.rows.to }
{
    strip.rows.from >= strip.rows.to || strip.columns.from >= strip.columns.to
}

/// Paints 16 rows of a strip; `next` is the lower end of the row after them. Nothing is left to do
/// if painted blocks hide all that lies between the first of them and that row. In most blocks the
/// ends of the columns cut off no pixel.
fn draw_block(canvas: &mut Canvas, strip: Strip, ends: RowEnds, next: Quotient, color: Color)
    requires block { strip.rows.to ≡ strip.rows.from + 16 }
    requires rows { strip.rows.to ≤ canvas.old.height }
    requires most_rows { strip.rows.to ≤ most_pixels }
    requires columns { strip.columns.to ≤ canvas.old.width }
    requires ends { AreEnds strip.levels strip.rows.from ends }
    requires next { IsStripEnd (opposite strip.levels.margin) strip.levels.origin
        (product (pos pixel_side) strip.levels.up) ends.step strip.rows.to next }
    requires near { nat_abs next.whole ≤ 2 ^ 62 }
    ensures { IsColored (is_in_strip strip.levels strip.rows strip.columns) color
        canvas.old canvas.new }
{
    let width = most_between(ends.gap);
    if !are_between(strip.columns, ends.low, next, width) {
        draw_cut(canvas, strip, ends, color);
    } else if !is_hidden(canvas, ends.low, next, width, strip.rows.from) {
        draw_whole(canvas, strip, ends, color);
    }
}

/// The most pixels of a row whose ends lie so far apart; 0 if there may be none of them, or more
/// than 64.
#[tactic(auto, unfolding(crate::specs::RowPart::most_between))]
fn most_between(gap: Quotient) -> u8
    ensures some { 1 ≤ result → pos 1 ≤ℤ gap.whole }
    ensures value { 1 ≤ result → result ≡ most_between gap }
{
    if gap.whole < 1 || gap.whole > 63 {
        0
    } else if gap.rest == 0 {
        gap.whole as u8
    } else {
        gap.whole as u8 + 1
    }
}

/// Whether the `width` pixels from either lower end on, at least one and at most 64, lie in the
/// columns.
fn are_between(columns: Span, low: Quotient, next: Quotient, width: u8) -> bool
    requires low { nat_abs low.whole ≤ 2 ^ 62 }
    requires next { nat_abs next.whole ≤ 2 ^ 62 }
    ensures first { result ≡ true → IsBetween columns width low }
    ensures last { result ≡ true → IsBetween columns width next }
{
    is_between(columns, low, width) && is_between(columns, next, width)
}

/// Whether the `width` pixels from this lower end of a row on, at least one and at most 64, lie in
/// the columns.
fn is_between(columns: Span, low: Quotient, width: u8) -> bool
    requires { nat_abs low.whole ≤ 2 ^ 62 }
    ensures { result ≡ true → IsBetween columns width low }
{
    let from = low.whole + 1;
    width <= 64 && lies_in(columns, from, from + i64::from(width))
}

/// Whether painted blocks hide what lies between the `width` pixels of a row and those of the 16th
/// row after it.
#[inline(always)]
fn is_hidden(canvas: &Canvas, low: Quotient, next: Quotient, width: u8, row: u32) -> bool
    requires row { row + 16 ≤ canvas.now.height }
    requires first { IsBetween (record { from = 0; to = canvas.now.width }) width low }
    requires last { IsBetween (record { from = 0; to = canvas.now.width }) width next }
    ensures { result ≡ true → IsHiddenBlock row width low next canvas.now }
{
    if low.whole < next.whole {
        is_box_hidden(canvas, low.whole, next.whole, width, row)
    } else {
        is_box_hidden(canvas, next.whole, low.whole, width, row)
    }
}

/// Whether painted blocks hide the pixels of 16 rows after the one column and up to `width` after
/// the other.
#[inline(always)]
#[tactic(auto, unfolding(wf_geometry::specs::Exact::plus))]
fn is_box_hidden(canvas: &Canvas, left: i64, right: i64, width: u8, row: u32) -> bool
    requires row { row + 16 ≤ canvas.now.height }
    requires least { pos 0 ≤ℤ plus left (pos 1) }
    requires order { left ≤ℤ right }
    requires some { 1 ≤ width }
    requires most { plus (plus right (pos 1)) (pos width) ≤ℤ pos canvas.now.width }
    ensures { result ≡ true → IsBoxPainted row (row + 16)
        (nat_abs (plus left (pos 1))) (nat_abs (plus right (pos 1)) + width) canvas.now }
{
    canvas.sides_are_limited();
    let from = count(left + 1);
    let to = count(right + 1) + u32::from(width);
    canvas.hides(row, from, to)
}

/// Paints a strip of which each row has its pixels in the columns, at least one and at most 64.
fn draw_whole(canvas: &mut Canvas, strip: Strip, ends: RowEnds, color: Color)
    requires order { strip.rows.from ≤ strip.rows.to }
    requires rows { strip.rows.to ≤ canvas.old.height }
    requires most_rows { strip.rows.to ≤ most_pixels }
    requires columns { strip.columns.to ≤ canvas.old.width }
    requires ends { AreEnds strip.levels strip.rows.from ends }
    requires some { pos 1 ≤ℤ ends.gap.whole }
    requires between { StaysBetween strip.levels ends.step (most_between ends.gap)
        strip.rows strip.columns }
    ensures { IsColored (is_in_strip strip.levels strip.rows strip.columns) color
        canvas.old canvas.new }
{
    let mut low = ends.low;
    for row in strip.rows.from..strip.rows.to {
        let high = quotient_sum(low, ends.gap, ends.step);
        canvas.cover_few(
            row,
            count(low.whole + 1),
            count(high.whole - low.whole),
            color,
        );
        low = quotient_sum(low, ends.change, ends.step);
    }
}

/// Paints a strip where the ends of the columns may cut off pixels of each row.
fn draw_cut(canvas: &mut Canvas, strip: Strip, ends: RowEnds, color: Color)
    requires order { strip.rows.from ≤ strip.rows.to }
    requires rows { strip.rows.to ≤ canvas.old.height }
    requires most_rows { strip.rows.to ≤ most_pixels }
    requires columns { strip.columns.to ≤ canvas.old.width }
    requires ends { AreEnds strip.levels strip.rows.from ends }
    ensures { IsColored (is_in_strip strip.levels strip.rows strip.columns) color
        canvas.old canvas.new }
{
    let mut low = ends.low;
    let mut high = quotient_sum(low, ends.gap, ends.step);
    for row in strip.rows.from..strip.rows.to {
        let span = part(strip.columns, low, high);
        canvas.cover(row, span.from, span.to, color);
        low = quotient_sum(low, ends.change, ends.step);
        high = quotient_sum(high, ends.change, ends.step);
    }
}

/// Paints a strip so long, far away or close to level that 64 bits don't hold the ends of its rows:
/// each row takes divisions. Such a strip has few rows.
fn draw_far(canvas: &mut Canvas, strip: Strip, color: Color)
    requires origin { nat_abs strip.levels.origin ≤ 2 ^ 110 }
    requires across { IsDistance strip.levels.across }
    requires rising { pos 0 ≤ℤ strip.levels.across }
    requires up { IsDistance strip.levels.up }
    requires margin { IsArea strip.levels.margin }
    requires order { strip.rows.from ≤ strip.rows.to }
    requires rows { strip.rows.to ≤ canvas.old.height }
    requires most_rows { strip.rows.to ≤ most_pixels }
    requires columns { strip.columns.to ≤ canvas.old.width }
    ensures { IsColored (is_in_strip strip.levels strip.rows strip.columns) color
        canvas.old canvas.new }
{
    for row in strip.rows.from..strip.rows.to {
        let within = row_within(strip.levels, row, strip.columns.to);
        let span = both(strip.columns, within);
        canvas.cover(row, span.from, span.to, color);
    }
}

/// The columns that the high number counts and the low one doesn't. In most rows they lie between
/// the ends of `columns`, which is tested first.
#[inline(always)]
fn part(columns: Span, low: Quotient, high: Quotient) -> Span
    requires low { nat_abs low.whole ≤ 2 ^ 62 }
    requires high { nat_abs high.whole ≤ 2 ^ 62 }
    ensures part { IsRowPart columns low high result }
    ensures within { result.to ≤ columns.to }
{
    let (from, to) = (low.whole + 1, high.whole + 1);
    if lies_in(columns, from, to) {
        Span {
            from: count(from),
            to: count(to),
        }
    } else {
        let within = Span {
            from: multiples_up_to(low, columns.to),
            to: multiples_up_to(high, columns.to),
        };
        both(columns, within)
    }
}

/// Whether the bounds are those of a span in `columns` that isn't empty.
#[inline(always)]
fn lies_in(columns: Span, from: i64, to: i64) -> bool
    ensures { result ≡ true → (pos columns.from ≤ℤ from) × ((from <ℤ to) × (to ≤ℤ pos columns.to)) }
{
    i64::from(columns.from) <= from && from < to && to <= i64::from(columns.to)
}

/// The bound as a number of columns.
#[inline(always)]
fn count(bound: i64) -> u32
    requires least { pos 0 ≤ℤ bound }
    requires most { bound <ℤ pos (2 ^ 32) }
    ensures { pos result ≡ bound }
{
    bound as u32
}

/// The intersection of two spans.
#[inline(always)]
fn both(a: Span, b: Span) -> Span
    ensures { result ≡ shared a b }
{
    Span {
        from: a.from.max(b.from),
        to: a.to.min(b.to),
    }
}
