//! The view of a request: that of a tile of the grid, or of the box itself.
ghost use Rattle.std.specs.Prelude.{◌≡◌, ◌≤◌, ◌*◌, ◌^◌, ◌+ℤ◌, ◌≤ℤ◌, Some, None, pos, true, nat_abs};
ghost use Rattle.wf_def.specs.Limit.{most_millionths};
ghost use Rattle.wf_geometry.specs.Limit.{least_cell, most_pixels};
ghost use Rattle.wf_geometry.specs.View.{most_shift, IsAxis};
ghost use Rattle.wf_geometry.specs.Grid.{width_of, has_level, IsGridCell};
ghost use Rattle.wf_geometry.specs.Tile.{box_axis, box_view, tile_shift, tile_start, tile_axis, tile_view, IsViewOf};

use crate::axis::{Axis, distance};
use crate::grid::{GridCell, cells_at, width_of};
use crate::limits::{MOST_PIXELS, PIXEL_SIDE, SHARED_TILES, TILE_PIXELS};
use crate::view::{Corner, View};
use wf_def::{Extent, MapDef, Micro};

/// The side of a tile, in sixteenths of a pixel.
const TILE_SIDE: u64 = PIXEL_SIDE as u64 * TILE_PIXELS as u64;

/// The side of a view that tiles share, in sixteenths of a pixel.
const SHARED_SIDE: i64 = PIXEL_SIDE * MOST_PIXELS as i64;

impl View {
    /// The view of a picture of this box at this size. If box and size are those of a tile of the
    /// map's grid, it is the view that sixteen tiles share, and `corner` is where the tile is cut
    /// out of it: so neighbouring tiles match. Otherwise it is the view of the box. The sides of
    /// the box are at least a thousandth of a unit.
    pub fn of(map: &MapDef, bbox: &Extent, width: u32, height: u32) -> Self
        requires width_least { 1 ≤ width }
        requires width_most { width ≤ most_pixels }
        requires height_least { 1 ≤ height }
        requires height_most { height ≤ most_pixels }
        requires wide { (bbox.now.minx +ℤ pos least_cell) ≤ℤ bbox.now.maxx }
        requires tall { (bbox.now.miny +ℤ pos least_cell) ≤ℤ bbox.now.maxy }
        ensures { IsViewOf map.now.extent bbox.now width height result }
    {
        match GridCell::of(map.extent(), *bbox, width, height) {
            Some(cell) => tile_view(map.extent(), cell),
            None => box_view(*bbox, width, height),
        }
    }
}

/// The view of a box.
fn box_view(bbox: Extent, width: u32, height: u32) -> View
    requires width_least { 1 ≤ width }
    requires width_most { width ≤ most_pixels }
    requires height_least { 1 ≤ height }
    requires height_most { height ≤ most_pixels }
    requires wide { (bbox.minx +ℤ pos least_cell) ≤ℤ bbox.maxx }
    requires tall { (bbox.miny +ℤ pos least_cell) ≤ℤ bbox.maxy }
    ensures { result ≡ box_view bbox width height }
{
    let x = box_axis(bbox.minx(), bbox.maxx(), width);
    let y = box_axis(bbox.miny(), bbox.maxy(), height);
    View::new(width, height, x, y, None)
}

/// An axis of a box shown in `pixels` pixels.
#[tactic(auto, unfolding(crate::specs::Exact::difference))]
fn box_axis(low: Micro, high: Micro, pixels: u32) -> Axis
    requires most { pixels ≤ most_pixels }
    requires wide { (low +ℤ pos least_cell) ≤ℤ high }
    ensures value { result ≡ box_axis low high pixels }
    ensures within { IsAxis result }
{
    let span = distance(low.millionths(), high.millionths()).unsigned_abs();
    Axis::new(low, PIXEL_SIDE as u64 * u64::from(pixels), span, 0)
}

/// The view that the cell's tile is cut out of.
fn tile_view(extent: Extent, cell: GridCell) -> View
    requires near { IsGridCell cell }
    requires level { has_level (width_of extent) (2 ^ cell.z) ≡ true }
    ensures { result ≡ tile_view extent cell }
{
    let (width, cells) = (width_of(extent), cells_at(cell.z));
    let x = tile_axis(extent.minx(), width, cells, cell.col);
    let y = tile_axis(extent.miny(), width, cells, cell.row);
    let corner = Corner {
        column: tile_start(cell.col),
        row: tile_start(cell.row),
    };
    View::new(MOST_PIXELS, MOST_PIXELS, x, y, Some(corner))
}

/// An axis of the view that a cell's tile is cut out of.
fn tile_axis(origin: Micro, width: u64, cells: u64, k: i64) -> Axis
    requires some { 1 ≤ cells }
    requires cells_most { cells ≤ 2 ^ 20 }
    requires width_most { width ≤ 2 * most_millionths }
    requires level { has_level width cells ≡ true }
    requires near { nat_abs k ≤ 2 ^ 39 }
    ensures value { result ≡ tile_axis origin width cells k }
    ensures within { IsAxis result }
{
    // `millionths` ensures that the origin is within its limit.
    let _ = origin.millionths();
    Axis::new(origin, TILE_SIDE * cells, width, tile_shift(k))
}

/// The distance from the grid's first cell to the group of four that this cell is in, in sixteenths
/// of a pixel.
#[tactic(auto, unfolding(crate::specs::Tile::tile_shift, crate::specs::Exact::product, crate::specs::Exact::quotient))]
fn tile_shift(k: i64) -> i64
    requires { nat_abs k ≤ 2 ^ 39 }
    ensures value { result ≡ tile_shift k }
    ensures within { nat_abs result ≤ most_shift }
{
    k.div_euclid(SHARED_TILES as i64) * SHARED_SIDE
}

/// The cell's offset in its group of four, in pixels.
#[tactic(auto, unfolding(crate::specs::Tile::tile_start))]
fn tile_start(k: i64) -> u32
    ensures { result ≡ tile_start k }
{
    k.rem_euclid(SHARED_TILES as i64).unsigned_abs() as u32 * TILE_PIXELS
}
