//! Boxes of pixels filled with a colour.
ghost use Rattle.std.specs.Prelude.{◌≤◌, ◌<◌};
ghost use Rattle.wf_geometry.specs.Exact.{is_less};
ghost use Rattle.wf_label.specs.Colored.{IsPixmapColored, IsCutBefore, is_in, is_in_row};

use crate::placed::PixelBox;
use wf_def::Color;
use wf_paint::Pixmap;

/// Gives the pixels of the picture that lie in the box the colour.
pub(crate) fn fill(pixmap: &mut Pixmap, pixel_box: &PixelBox, color: Color)
    ensures { IsPixmapColored (is_in pixel_box.now) color pixmap.old pixmap.new }
{
    let left = cut(pixel_box.left, pixmap.width());
    let right = cut(pixel_box.right, pixmap.width());
    let bottom = cut(pixel_box.bottom, pixmap.height());
    let top = cut(pixel_box.top, pixmap.height());
    for row in bottom..top.max(bottom) {
        fill_row(pixmap, row, left, right, color);
    }
}

/// A side of a box, clamped to a picture of `most` pixels on that axis.
#[tactic(auto, unfolding(wf_geometry::specs::Exact::is_less))]
pub(crate) fn cut(side: i128, most: u32) -> u32
    ensures most { result ≤ most }
    ensures value { IsCutBefore most result side }
{
    if side <= 0 {
        0
    } else if side < i128::from(most) {
        side as u32
    } else {
        most
    }
}

/// Gives the pixels of a row from column `left` to before column `right` the colour.
fn fill_row(pixmap: &mut Pixmap, row: u32, left: u32, right: u32, color: Color)
    requires row { row < pixmap.old.height }
    requires right { right ≤ pixmap.old.width }
    ensures { IsPixmapColored (is_in_row row left right) color pixmap.old pixmap.new }
{
    let start = (pixmap.height() - 1 - row) * pixmap.width();
    for column in left..right.max(left) {
        pixmap.set(start + column, color);
    }
}
