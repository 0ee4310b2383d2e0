//! Squares of pixels about a position, drawn row by row.
ghost use Rattle.wf_geometry.specs.Operation.{in_color, SquareOf};
ghost use Rattle.wf_paint.specs.Shown.{IsShown};

use crate::canvas::Canvas;
use wf_def::Color;
use wf_geometry::{Position, span_about};

/// Paints a square of `size` pixels about a position; nothing if `color` is None.
pub(crate) fn draw_about(canvas: &mut Canvas, size: u8, position: Position, color: Option<Color>)
    ensures { IsShown (in_color (SquareOf size position) color) canvas.old canvas.new }
{
    let Some(color) = color else {
        return;
    };
    let columns = span_about(size, position.x(), canvas.width());
    let rows = span_about(size, position.y(), canvas.height());
    for row in rows.from..rows.to {
        canvas.cover(row, columns.from, columns.to, color);
    }
}
