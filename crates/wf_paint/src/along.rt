//! Lines of a given width along segments. Each is a strip of the picture, which is drawn row by
//! row.
ghost use Rattle.std.specs.Prelude.{◌<◌};
ghost use Rattle.wf_geometry.specs.Operation.{in_color, LineOf};
ghost use Rattle.wf_paint.specs.Canvas.{IsAlike};
ghost use Rattle.wf_paint.specs.Shown.{IsShown};

use crate::canvas::Canvas;
use crate::edges::Edges;
use crate::strip::draw_strip;
use wf_def::Color;
use wf_geometry::{Segment, strip_of};

/// How many long segments are drawn from one look for painted blocks to the next.
const MANY_LONG: u32 = 256;

/// How high a long segment is, in sixteenths of a pixel.
const LONG: u64 = 2_048;

/// Paints a line of `width` pixels along each segment; nothing if `color` is None.
pub(crate) fn draw_along(canvas: &mut Canvas, width: u8, edges: &Edges, color: Option<Color>)
    ensures { IsShown (in_color (LineOf width edges.now) color) canvas.old canvas.new }
{
    let Some(color) = color else {
        return;
    };
    let mut long = 0;
    let segments = edges.line_segments();
    for segment in segments {
        let strip = strip_of(width, segment, canvas.width(), canvas.height());
        draw_strip(canvas, strip, color);
        long = find_blocks(canvas, segment, long);
    }
}

/// Counts the long segments. After each `MANY_LONG` of them painted blocks are looked for, which
/// takes about as long as to draw a few.
fn find_blocks(canvas: &mut Canvas, segment: &Segment, long: u32) -> u32
    requires { long < 256 }
    ensures alike { IsAlike canvas.old canvas.new }
    ensures within { result < 256 }
{
    if segment.from.y().abs_diff(segment.to.y()) < LONG {
        return long;
    }
    if long + 1 < MANY_LONG {
        return long + 1;
    }
    canvas.find_painted_blocks();
    0
}
