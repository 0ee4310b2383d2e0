//! Boxes of labels: where they are, and whether they lie in the view.
ghost use Rattle.std.specs.Prelude.{◌≡◌, ◌≤◌, ◌+◌, ◌^◌, ◌<◌, length, pos, nat_abs};
ghost use Rattle.wf_geometry.specs.Exact.{plus, difference, is_less};
ghost use Rattle.wf_label.specs.PixelBox.{IsPixelBox, box_of, is_whole_in, widen};
ghost use Rattle.wf_label.specs.Placed.{placed_value};
ghost use Rattle.wf_label.specs.Taken.{IsSolid};

use crate::placed::{PixelBox, Placed};
use crate::text::{text_height, text_width};
use wf_geometry::View;

/// The box of a label.
#[tactic(auto, unfolding(crate::specs::PixelBox::box_of))]
pub(crate) fn box_of(label: &Placed) -> PixelBox
    ensures value { result ≡ box_of (placed_value label.now) }
    ensures within { IsPixelBox result }
    ensures solid { 0 < length label.now.text.now → IsSolid result }
{
    let left = i128::from(label.left);
    let bottom = i128::from(label.bottom);
    PixelBox {
        left,
        right: plus(left, text_width(label.scale, label.text)),
        bottom,
        top: plus(bottom, u128::from(text_height(label.scale))),
    }
}

/// A side moved by `by` pixels to the right or upward.
#[tactic(auto, unfolding(wf_geometry::specs::Exact::plus))]
pub(crate) fn plus(side: i128, by: u128) -> i128
    requires side { nat_abs side ≤ 2 ^ 100 }
    requires by { by ≤ 2 ^ 80 }
    ensures value { result ≡ plus side (pos by) }
    ensures within { nat_abs result ≤ nat_abs side + by }
{
    side + by as i128
}

/// A side moved by `by` pixels to the left or downward.
#[tactic(auto, unfolding(wf_geometry::specs::Exact::difference))]
fn minus(side: i128, by: u8) -> i128
    requires { nat_abs side ≤ 2 ^ 100 }
    ensures { result ≡ difference side (pos by) }
{
    side - i128::from(by)
}

/// The box with `by` pixels more on each side.
#[tactic(auto, unfolding(crate::specs::PixelBox::widen))]
pub(crate) fn widen(by: u8, pixel_box: &PixelBox) -> PixelBox
    requires { IsPixelBox pixel_box.now }
    ensures { result ≡ widen by pixel_box.now }
{
    PixelBox {
        left: minus(pixel_box.left, by),
        right: plus(pixel_box.right, u128::from(by)),
        bottom: minus(pixel_box.bottom, by),
        top: plus(pixel_box.top, u128::from(by)),
    }
}

/// Whether the box lies whole in the view.
#[tactic(auto, unfolding(crate::specs::PixelBox::is_whole_in))]
pub(crate) fn is_whole_in(view: &View, pixel_box: &PixelBox) -> bool
    ensures { result ≡ is_whole_in view.now pixel_box.now }
{
    !is_less(pixel_box.left, 0)
        && !is_less(i128::from(view.width()), pixel_box.right)
        && !is_less(pixel_box.bottom, 0)
        && !is_less(i128::from(view.height()), pixel_box.top)
}

/// Whether one side lies before another.
#[tactic(auto, unfolding(wf_geometry::specs::Exact::is_less))]
fn is_less(a: i128, b: i128) -> bool
    ensures { result ≡ is_less a b }
{
    a < b
}
