//! Which bits of a glyph are set.
ghost use Rattle.std.specs.Prelude.{◌≡◌};
ghost use Rattle.wf_label.specs.Ink.{has_bit, row_up};

use crate::limits::GLYPH_HEIGHT;

/// The row of a glyph that lies `up` rows up in a cell.
#[tactic(auto, unfolding(crate::specs::Ink::row_up))]
pub(crate) fn row_up(rows: [u8; GLYPH_HEIGHT], up: u8) -> u8
    ensures { result ≡ row_up rows up }
{
    if 1 <= up && up <= GLYPH_HEIGHT as u8 {
        rows[GLYPH_HEIGHT - up as usize]
    } else {
        0
    }
}

/// Whether the row has the bit of this column of its cell set: the first columns of a cell hold the
/// bits, the highest first.
#[tactic(auto, unfolding(crate::specs::Ink::has_bit))]
pub(crate) fn has_bit(row: u8, column: u8) -> bool
    ensures { result ≡ has_bit row column }
{
    if column == 0 {
        row / 4 % 2 == 1
    } else if column == 1 {
        row / 2 % 2 == 1
    } else if column == 2 {
        row % 2 == 1
    } else {
        false
    }
}
