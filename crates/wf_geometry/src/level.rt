//! The pixels of a row between two bounds.
ghost use Rattle.std.specs.Prelude.{◌≡◌, ◌&&◌, not, pos};
ghost use Rattle.wf_geometry.specs.Near.{IsNear, IsArea};
ghost use Rattle.wf_geometry.specs.Exact.{plus, is_less};
ghost use Rattle.wf_geometry.specs.Position.{middle};
ghost use Rattle.wf_geometry.specs.Level.{is_in_margin};
ghost use Rattle.wf_geometry.specs.Span.{IsSpanOf};

use crate::exact::{is_less_area, opposite};
use crate::steps::centres_below;

/// The numbers in from..to; none if `to` is below `from`.
#[derive(Clone, Copy)]
pub struct Span {
    pub from: u32,
    pub to: u32,
}

/// The pixels, of the first `most`, with this level, if it lies within the margin about 0: all or
/// none.
pub(crate) fn level_within(start: i128, margin: i128, most: u32) -> Span
    requires { IsArea margin }
    ensures { IsSpanOf (λ u. is_in_margin margin start) most result }
{
    if is_in_margin(margin, start) {
        Span { from: 0, to: most }
    } else {
        Span { from: 0, to: 0 }
    }
}

/// Whether the level lies within the margin about 0; the lower border counts, the upper doesn't.
#[tactic(auto, unfolding(crate::specs::Level::is_in_margin))]
fn is_in_margin(margin: i128, level: i128) -> bool
    requires { IsArea margin }
    ensures { result ≡ is_in_margin margin level }
{
    !is_less_area(level, opposite(margin)) && is_less_area(level, margin)
}

/// The pixels, of the first `most`, whose centre lies between two positions on an axis, both
/// included.
pub(crate) fn centres_between(low: i64, high: i64, most: u32) -> Span
    requires low { IsNear low }
    requires high { IsNear high }
    ensures { IsSpanOf (λ u.
        not (is_less (middle (pos u)) low) && not (is_less high (middle (pos u)))) most result }
{
    Span {
        from: centres_below(low, most),
        to: centres_below(above(high), most),
    }
}

/// The next position.
#[tactic(auto, unfolding(crate::specs::Exact::plus))]
fn above(position: i64) -> i64
    requires { IsNear position }
    ensures { result ≡ plus position (pos 1) }
{
    position + 1
}
