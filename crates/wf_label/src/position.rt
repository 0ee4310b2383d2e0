//! The position of a label's box relative to its anchor.
ghost use Rattle.std.specs.Prelude.{◌≡◌, ◌≤◌, pos, length};
ghost use Rattle.wf_def.specs.Limit.{most_text_bytes};
ghost use Rattle.wf_geometry.specs.Exact.{plus, difference};
ghost use Rattle.wf_geometry.specs.Near.{IsNear};
ghost use Rattle.wf_label.specs.Anchor.{IsAnchor};
ghost use Rattle.wf_label.specs.Label.{at_anchor, bottom_of, left_of};
ghost use Rattle.wf_label.specs.Placed.{placed_value};

use crate::feature_anchor::Anchor;
use crate::placed::Placed;
use crate::text::{short_width, text_height};
use wf_def::{Label, LabelPosition};

/// A text at an anchor.
pub(crate) fn at_anchor<'a>(label: &Label, text: &'a str, anchor: Anchor) -> Placed<'a>
    requires text { length text.now ≤ most_text_bytes }
    requires anchor { IsAnchor anchor }
    ensures { placed_value result ≡ at_anchor label.now text.now anchor }
{
    let size = label.size;
    Placed {
        left: left_of(label.position, anchor.column, short_width(size, text)),
        bottom: bottom_of(label.position, anchor.row, text_height(size)),
        scale: size,
        buffer: label.buffer.get(),
        force: label.force,
        color: label.color,
        text,
    }
}

/// The first column of a box `width` pixels wide.
fn left_of(position: LabelPosition, column: i64, width: u32) -> i64
    requires { IsNear column }
    ensures { result ≡ left_of position column width }
{
    match position {
        LabelPosition::UpperLeft | LabelPosition::CenterLeft | LabelPosition::LowerLeft => {
            minus(column, width)
        }
        LabelPosition::UpperCenter | LabelPosition::CenterCenter | LabelPosition::LowerCenter => {
            minus(column, width / 2)
        }
        LabelPosition::UpperRight | LabelPosition::CenterRight | LabelPosition::LowerRight => {
            next(column)
        }
    }
}

/// The first row of a box `height` pixels high.
fn bottom_of(position: LabelPosition, row: i64, height: u32) -> i64
    requires { IsNear row }
    ensures { result ≡ bottom_of position row height }
{
    match position {
        LabelPosition::UpperLeft | LabelPosition::UpperCenter | LabelPosition::UpperRight => {
            next(row)
        }
        LabelPosition::CenterLeft | LabelPosition::CenterCenter | LabelPosition::CenterRight => {
            minus(row, height / 2)
        }
        LabelPosition::LowerLeft | LabelPosition::LowerCenter | LabelPosition::LowerRight => {
            minus(row, height)
        }
    }
}

/// The pixel `by` pixels to the left, or down.
#[tactic(auto, unfolding(wf_geometry::specs::Exact::difference))]
fn minus(pixel: i64, by: u32) -> i64
    requires { IsNear pixel }
    ensures { result ≡ difference pixel (pos by) }
{
    pixel - i64::from(by)
}

/// The next pixel to the right, or up.
#[tactic(auto, unfolding(wf_geometry::specs::Exact::plus))]
fn next(pixel: i64) -> i64
    requires { IsNear pixel }
    ensures { result ≡ plus pixel (pos 1) }
{
    pixel + 1
}
