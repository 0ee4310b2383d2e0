//! Names of pictures and labels.

use wf_label::{Placed, candidates, draw_labels, glyph, place};
use wf_paint::{GridCell, Pixmap, View, covers, paint};

/// The calls.
pub fn calls() {
    let _ = View::of;
    let _ = GridCell::of;
    let _ = covers;
    let _ = paint;
    let _ = Pixmap::width;
    let _ = Pixmap::height;
    let _ = Pixmap::bytes;
    let _ = glyph;
    let _ = candidates;
    let _ = place;
    let _ = draw_labels;
}

/// The fields of a tile's position.
pub fn cell(cell: GridCell) -> (u32, i64, i64) {
    let GridCell { z, col, row } = cell;
    (z, col, row)
}

/// The fields of a placed label.
pub fn placed(placed: Placed<'_>) -> (i64, i64, u8, bool) {
    let Placed {
        left,
        bottom,
        scale: _,
        buffer,
        force,
        color: _,
        text: _,
    } = placed;
    (left, bottom, buffer, force)
}
