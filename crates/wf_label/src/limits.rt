//! The sizes of letters, each with its unit.
ghost use Rattle.std.specs.Prelude.{◌≡◌};
ghost use Rattle.wf_label.specs.Limit.{cell_height, cell_width, glyph_height, glyph_width};

/// The width of a character's cell, in bits.
pub const CELL_WIDTH: u8 = 4;

/// The height of a character's cell, in bits.
pub const CELL_HEIGHT: u8 = 6;

/// The width of a glyph, in bits: it leaves the last column of its cell free.
pub const GLYPH_WIDTH: u8 = 3;

/// The height of a glyph, in bits: it leaves the lowest row of its cell free.
pub const GLYPH_HEIGHT: usize = 5;

/// Each constant is the number in the definitions. A theorem: the call does nothing.
pub fn constants_are_the_limits()
    ensures cell_width { CELL_WIDTH ≡ cell_width }
    ensures cell_height { CELL_HEIGHT ≡ cell_height }
    ensures glyph_width { GLYPH_WIDTH ≡ glyph_width }
    ensures glyph_height { GLYPH_HEIGHT ≡ glyph_height }
{}
