//! The tile grid.
ghost use Rattle.std.specs.Prelude.{◌≡◌, ◌≤◌, ◌+◌, ◌*◌, ◌^◌, ◌==◌, ◌&&◌, ℕ, ℤ, pos, true, false, nat_abs, IfSome, IfNone};
ghost use Rattle.wf_def.specs.Limit.{most_millionths};
ghost use Rattle.wf_def.specs.Number.{IsMicro};
ghost use Rattle.wf_geometry.specs.Exact.{plus, difference, product, quotient};
ghost use Rattle.wf_geometry.specs.Grid.{width_of, is_on_line, is_cell, has_level, is_box, fits, IsGridCell};
ghost use Rattle.wf_geometry.specs.Limit.{most_level, tile_pixels};
ghost use Rattle.wf_geometry.specs.declared.grid.GridCell.{GridCell as Cell};

use crate::axis::distance;
use crate::limits::{LEAST_CELL, MOST_LEVEL, TILE_PIXELS};
use wf_def::Extent;

/// A cell of the tile grid: its level, column and row. Columns and rows count from the extent's
/// lower left corner; those below it are negative.
#[derive(Clone, Copy, PartialEq, Eq)]
pub struct GridCell {
    pub z: u32,
    pub col: i64,
    pub row: i64,
}

impl GridCell {
    /// The cell of the extent's grid whose tile is the picture of this box at this size. A tile has
    /// 256 by 256 pixels; each side of its box lies within 2 millionths of the cell's side. Returns
    /// None iff no cell fits; at most one does.
    pub fn of(extent: Extent, bbox: Extent, width: u32, height: u32) -> Option<Self>
        ensures found { IfSome result (λ cell. fits extent bbox width height cell ≡ true) }
        ensures near { IfSome result (λ cell. IsGridCell cell) }
        ensures none { IfNone result ((cell : Cell) → fits extent bbox width height cell ≡ false) }
    {
        if !is_tile(width, height) {
            return None;
        }
        cell_among(extent, bbox)
    }
}

/// Whether a picture of this size may be a tile.
fn is_tile(width: u32, height: u32) -> bool
    ensures { result ≡ ((width == tile_pixels) && (height == tile_pixels)) }
{
    width == TILE_PIXELS && height == TILE_PIXELS
}

/// The cell that the box is, on any level.
fn cell_among(extent: Extent, bbox: Extent) -> Option<GridCell>
    ensures found { IfSome result
        (λ cell. is_box extent bbox (2 ^ cell.z) cell.col cell.row ≡ true) }
    ensures near { IfSome result (λ cell. IsGridCell cell) }
    ensures none { IfNone result
        ((z : ℕ) → z ≤ most_level → (col row : ℤ) → is_box extent bbox (2 ^ z) col row ≡ false) }
{
    for z in 0..MOST_LEVEL + 1 {
        if let Some((col, row)) = box_at(extent, bbox, cells_at(z)) {
            return Some(GridCell { z, col, row });
        }
    }
    None
}

/// The number of cells of a level along the extent's width.
pub(crate) fn cells_at(z: u32) -> u64
    requires { z ≤ most_level }
    ensures value { result ≡ 2 ^ z }
    ensures least { 1 ≤ result }
    ensures most { result ≤ 2 ^ 20 }
{
    2_u64.pow(z)
}

/// The column and row of the cell that the box is, with `cells` cells along the extent's width.
fn box_at(extent: Extent, bbox: Extent, cells: u64) -> Option<(i64, i64)>
    requires least { 1 ≤ cells }
    requires most { cells ≤ 2 ^ 20 }
    ensures found { IfSome result (λ cell. is_box extent bbox cells cell.0 cell.1 ≡ true) }
    ensures near { IfSome result (λ cell. (nat_abs cell.0 ≤ 2 ^ 39) × (nat_abs cell.1 ≤ 2 ^ 39)) }
    ensures none { IfNone result ((col row : ℤ) → is_box extent bbox cells col row ≡ false) }
{
    if !has_level(width_of(extent), cells) {
        return None;
    }
    match column_of(extent, bbox, cells) {
        None => None,
        Some(col) => match row_of(extent, bbox, cells) {
            None => None,
            Some(row) => Some((col, row)),
        },
    }
}

/// The column of the cell that the box is.
fn column_of(extent: Extent, bbox: Extent, cells: u64) -> Option<i64>
    requires least { 1 ≤ cells }
    requires most { cells ≤ 2 ^ 20 }
    requires level { has_level (width_of extent) cells ≡ true }
    ensures found { IfSome result
        (λ k. is_cell extent.minx (width_of extent) cells k bbox.minx bbox.maxx ≡ true) }
    ensures within { IfSome result (λ k. nat_abs k ≤ 2 ^ 39) }
    ensures none { IfNone result
        ((k : ℤ) → is_cell extent.minx (width_of extent) cells k bbox.minx bbox.maxx ≡ false) }
{
    let (low, high) = (bbox.minx().millionths(), bbox.maxx().millionths());
    cell_of(
        extent.minx().millionths(),
        width_of(extent),
        cells,
        low,
        high,
    )
}

/// The row of the cell that the box is.
fn row_of(extent: Extent, bbox: Extent, cells: u64) -> Option<i64>
    requires least { 1 ≤ cells }
    requires most { cells ≤ 2 ^ 20 }
    requires level { has_level (width_of extent) cells ≡ true }
    ensures found { IfSome result
        (λ k. is_cell extent.miny (width_of extent) cells k bbox.miny bbox.maxy ≡ true) }
    ensures within { IfSome result (λ k. nat_abs k ≤ 2 ^ 39) }
    ensures none { IfNone result
        ((k : ℤ) → is_cell extent.miny (width_of extent) cells k bbox.miny bbox.maxy ≡ false) }
{
    let (low, high) = (bbox.miny().millionths(), bbox.maxy().millionths());
    cell_of(
        extent.miny().millionths(),
        width_of(extent),
        cells,
        low,
        high,
    )
}

/// The extent's width in millionths. It scales the grid on both axes.
#[tactic(auto, unfolding(crate::specs::Grid::width_of))]
pub(crate) fn width_of(extent: Extent) -> u64
    ensures value { result ≡ width_of extent }
    ensures most { result ≤ 2 * most_millionths }
{
    distance(extent.minx().millionths(), extent.maxx().millionths()).unsigned_abs()
}

/// Whether the cells are wide enough for a level.
#[tactic(auto, unfolding(crate::specs::Grid::has_level))]
fn has_level(width: u64, cells: u64) -> bool
    requires { cells ≤ 2 ^ 20 }
    ensures { result ≡ has_level width cells }
{
    LEAST_CELL * cells <= width
}

/// The cell on one axis whose sides are the two coordinates.
fn cell_of(least: i64, width: u64, cells: u64, low: i64, high: i64) -> Option<i64>
    requires least { IsMicro least }
    requires low { IsMicro low }
    requires high { IsMicro high }
    requires some { 1 ≤ cells }
    requires cells_most { cells ≤ 2 ^ 20 }
    requires width_most { width ≤ 2 * most_millionths }
    requires level { has_level width cells ≡ true }
    ensures found { IfSome result (λ k. is_cell least width cells k low high ≡ true) }
    ensures within { IfSome result (λ k. nat_abs k ≤ 2 ^ 39) }
    ensures none { IfNone result ((k : ℤ) → is_cell least width cells k low high ≡ false) }
{
    let k = line_near(least, width, cells, low);
    if is_cell(least, width, cells, k, low, high) {
        Some(k)
    } else {
        None
    }
}

/// Whether the coordinates are the sides of the cell.
#[tactic(auto, unfolding(crate::specs::Grid::is_cell))]
fn is_cell(least: i64, width: u64, cells: u64, k: i64, low: i64, high: i64) -> bool
    requires least { IsMicro least }
    requires low { IsMicro low }
    requires high { IsMicro high }
    requires cells_most { cells ≤ 2 ^ 20 }
    requires width_most { width ≤ 2 * most_millionths }
    requires near { nat_abs k ≤ 2 ^ 39 }
    ensures { result ≡ is_cell least width cells k low high }
{
    is_on_line(least, width, cells, k, low) && is_on_line(least, width, cells, next(k), high)
}

/// The line after this one.
#[tactic(auto, unfolding(crate::specs::Exact::plus))]
fn next(k: i64) -> i64
    requires { nat_abs k ≤ 2 ^ 39 }
    ensures value { result ≡ plus k (pos 1) }
    ensures within { nat_abs result ≤ 2 ^ 40 }
{
    k + 1
}

/// Whether the coordinate lies within 2 millionths of the grid's line.
#[tactic(auto, unfolding(crate::specs::Grid::is_on_line))]
fn is_on_line(least: i64, width: u64, cells: u64, k: i64, x: i64) -> bool
    requires least { IsMicro least }
    requires x { IsMicro x }
    requires cells_most { cells ≤ 2 ^ 20 }
    requires width_most { width ≤ 2 * most_millionths }
    requires near { nat_abs k ≤ 2 ^ 40 }
    ensures { result ≡ is_on_line least width cells k x }
{
    let stretched = multiple(distance(least, x), cells);
    let line = multiple(k, width);
    apart(stretched, line) <= 2 * u128::from(cells)
}

/// `times` times the number.
#[tactic(auto, unfolding(crate::specs::Exact::product))]
fn multiple(number: i64, times: u64) -> i128
    requires number { nat_abs number ≤ 2 ^ 48 }
    requires times { times ≤ 2 ^ 48 }
    ensures value { result ≡ product number (pos times) }
    ensures within { nat_abs result ≡ nat_abs number * times }
{
    i128::from(number) * i128::from(times)
}

/// The absolute difference.
#[tactic(auto, unfolding(crate::specs::Exact::difference))]
fn apart(a: i128, b: i128) -> u128
    requires first { nat_abs a ≤ 2 ^ 100 }
    requires second { nat_abs b ≤ 2 ^ 100 }
    ensures { result ≡ nat_abs (difference a b) }
{
    (a - b).unsigned_abs()
}

/// The only grid line that the coordinate can lie on: the nearest.
#[tactic(auto, using(crate::proofs::GridLemmas::line_near_enough))]
fn line_near(least: i64, width: u64, cells: u64, x: i64) -> i64
    requires least { IsMicro least }
    requires x { IsMicro x }
    requires some { 1 ≤ cells }
    requires cells_most { cells ≤ 2 ^ 20 }
    requires width_most { width ≤ 2 * most_millionths }
    requires level { has_level width cells ≡ true }
    ensures only { (k : ℤ) → is_on_line least width cells k x ≡ true → k ≡ result }
    ensures within { nat_abs result ≤ 2 ^ 39 }
{
    let stretched = multiple(distance(least, x), cells);
    nearest(stretched, width)
}

/// The factor k for which `k * width` is nearest to the number.
fn nearest(number: i128, width: u64) -> i64
    requires most { nat_abs number ≤ 2 ^ 38 * width }
    requires some { 1 ≤ width }
    requires width_most { width ≤ 2 * most_millionths }
    ensures only { (k : ℤ) →
        4 * nat_abs (difference number (product k (pos width))) ≤ width → k ≡ result }
    ensures within { nat_abs result ≤ 2 ^ 39 }
{
    whole(double(number, width), 2 * width)
}

/// Twice the number plus the width.
#[tactic(auto, unfolding(crate::specs::Exact::plus, crate::specs::Exact::product))]
fn double(number: i128, width: u64) -> i128
    requires most { nat_abs number ≤ 2 ^ 38 * width }
    requires width_most { width ≤ 2 * most_millionths }
    ensures value { result ≡ plus (product (pos 2) number) (pos width) }
    ensures within { nat_abs result ≤ 2 * width * 2 ^ 39 }
{
    2 * number + i128::from(width)
}

/// The number divided by the width, rounded down.
#[tactic(auto, using(crate::proofs::QuotientLemmas::quotient_bound), unfolding(crate::specs::Exact::quotient))]
fn whole(number: i128, width: u64) -> i64
    requires least { 1 ≤ width }
    requires most { nat_abs number ≤ width * 2 ^ 39 }
    ensures value { result ≡ quotient number (pos width) }
    ensures within { nat_abs result ≤ 2 ^ 39 }
{
    number.div_euclid(i128::from(width)) as i64
}
