//! Labels drawn over a picture.
ghost use Rattle.std.specs.Prelude.{◌≡◌, ◌≤◌, ◌*◌, ◌^◌, pos};
ghost use Rattle.wf_label.specs.Colored.{IsPixmapColored, bit_box, character_bits, is_in_bits, one_bit, row_bits};
ghost use Rattle.wf_label.specs.Ink.{IsInked, inks};
ghost use Rattle.wf_label.specs.Placed.{placed_value, placed_values};

use crate::fill::fill;
use crate::glyphs::glyph;
use crate::ink::{has_bit, row_up};
use crate::limits::{CELL_HEIGHT, CELL_WIDTH, GLYPH_WIDTH};
use crate::overlap::plus;
use crate::placed::{PixelBox, Placed};
use crate::scale::scale_of;
use wf_paint::Pixmap;

/// Draws the letters of the labels over the picture of their view: each pixel that a letter inks
/// gets the colour of the first label that inks it, and no other pixel changes. It allocates
/// nothing.
pub fn draw_labels(pixmap: &mut Pixmap, labels: &[Placed])
    ensures { IsInked (placed_values labels.now) pixmap.old pixmap.new }
{
    for index in (0..labels.len()).rev() {
        draw_label(pixmap, &labels[index]);
    }
}

/// Gives the pixels that the label's letters ink its colour.
fn draw_label(pixmap: &mut Pixmap, label: &Placed)
    ensures { IsPixmapColored (λ column row. inks (placed_value label.now) (pos column) (pos row))
        label.now.color pixmap.old pixmap.new }
{
    for (index, character) in label.text.chars().enumerate() {
        draw_character(pixmap, label, index, character);
    }
}

/// Draws one character of the label, at this index of its text.
fn draw_character(pixmap: &mut Pixmap, label: &Placed, index: usize, character: char)
    ensures { IsPixmapColored (is_in_bits (placed_value label.now) (character_bits index character))
        label.now.color pixmap.old pixmap.new }
{
    let rows = glyph(character);
    for up in 1..CELL_HEIGHT {
        draw_row(pixmap, label, index, up, row_up(rows, up));
    }
}

/// Draws one row of a character, `up` rows of bits up in its cell.
fn draw_row(pixmap: &mut Pixmap, label: &Placed, index: usize, up: u8, row: u8)
    ensures { IsPixmapColored (is_in_bits (placed_value label.now) (row_bits index up row))
        label.now.color pixmap.old pixmap.new }
{
    for column in 0..GLYPH_WIDTH {
        if has_bit(row, column) {
            let across = CELL_WIDTH as u128 * index as u128 + u128::from(column);
            draw_bit(pixmap, label, across, up);
        }
    }
}

/// Draws one bit, which is `across` bits to the right in the label's box and `up` bits up.
fn draw_bit(pixmap: &mut Pixmap, label: &Placed, across: u128, up: u8)
    requires { across ≤ 2 ^ 70 }
    ensures { IsPixmapColored (is_in_bits (placed_value label.now) (one_bit across up))
        label.now.color pixmap.old pixmap.new }
{
    fill(pixmap, &bit_box(label, across, up), label.color);
}

/// The box of one bit.
#[tactic(auto, unfolding(crate::specs::Colored::bit_box))]
fn bit_box(label: &Placed, across: u128, up: u8) -> PixelBox
    requires { across ≤ 2 ^ 70 }
    ensures { result ≡ bit_box (placed_value label.now) across up }
{
    let bit = u128::from(scale_of(label.scale));
    let left = plus(i128::from(label.left), bit * across);
    let bottom = plus(i128::from(label.bottom), bit * u128::from(up));
    PixelBox {
        left,
        right: plus(left, bit),
        bottom,
        top: plus(bottom, bit),
    }
}
