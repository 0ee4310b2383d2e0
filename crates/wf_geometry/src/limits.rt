//! The limits of views and of the tile grid, each with its unit.
ghost use Rattle.std.specs.Prelude.{◌≡◌, pos};
ghost use Rattle.wf_geometry.specs.Limit.{half_side, least_cell, most_level, most_pixels, pixel_side, shared_tiles, tile_pixels};

/// The greatest width and height of a view, in pixels.
pub const MOST_PIXELS: u32 = 1_024;

/// The side of a pixel, in the unit of positions: sixteenths of a pixel.
pub const PIXEL_SIDE: i64 = 16;

/// Half of it: from the border of a pixel to its centre.
pub const HALF_SIDE: i64 = 8;

/// The highest level of the tile grid.
pub const MOST_LEVEL: u32 = 20;

/// The least width of a cell, in millionths.
pub const LEAST_CELL: u64 = 1_000;

/// The width and height of a tile, in pixels.
pub const TILE_PIXELS: u32 = 256;

/// How many tiles share a view, in each row and in each column of tiles.
pub const SHARED_TILES: u32 = 4;

/// Each constant is the number in the definitions. A theorem: the call does nothing.
pub fn constants_are_the_limits()
    ensures pixels { MOST_PIXELS ≡ most_pixels }
    ensures pixel { PIXEL_SIDE ≡ pos pixel_side }
    ensures half { HALF_SIDE ≡ pos half_side }
    ensures level { MOST_LEVEL ≡ most_level }
    ensures cell { LEAST_CELL ≡ least_cell }
    ensures tile { TILE_PIXELS ≡ tile_pixels }
    ensures tiles { SHARED_TILES ≡ shared_tiles }
{}
