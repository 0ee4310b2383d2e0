//! Axes of views.
ghost use Rattle.std.specs.Prelude.{◌≡◌, ◌≤◌, ◌*◌, pos, nat_abs};
ghost use Rattle.wf_def.specs.Limit.{most_millionths};
ghost use Rattle.wf_def.specs.Number.{IsMicro};
ghost use Rattle.wf_geometry.specs.Near.{IsNear};
ghost use Rattle.wf_geometry.specs.Exact.{difference, product, quotient};
ghost use Rattle.wf_geometry.specs.View.{scaled, position, most_scale, most_shift, IsAxis};

use std::marker::Model;
use wf_def::Micro;

/// How a view maps one axis of the map to pixels: `span` millionths are `scale` sixteenths of a
/// pixel, and the coordinate `origin` lies `shift` sixteenths before the view's side.
#[derive(Clone, Copy)]
pub struct Axis {
    origin: Micro,
    scale: u64,
    span: u64,
    shift: i64,
}

impl Model for Axis {
    ghost use Rattle.wf_geometry.specs.View.{AxisValue, IsAxis};

    ghost Value = { AxisValue };

    ghost view = { λ a.
        record { origin = a.origin; scale = a.scale; span = a.span; shift = a.shift } };

    ghost invariant = { λ a.
        IsAxis (record { origin = a.origin; scale = a.scale; span = a.span; shift = a.shift }) };

    ghost inverse = { λ v.
        record { origin = v.origin; scale = v.scale; span = v.span; shift = v.shift } };
}

impl Axis {
    /// The axis with these numbers.
    pub(crate) fn new(origin: Micro, scale: u64, span: u64, shift: i64) -> Self
        requires { IsAxis (record { origin = origin; scale = scale; span = span; shift = shift }) }
        ensures value { result
            ≡ record { origin = origin; scale = scale; span = span; shift = shift } }
        ensures within { IsAxis result }
    {
        Axis {
            origin,
            scale,
            span,
            shift,
        }
    }

    /// The position of a coordinate, in sixteenths of a pixel from the view's side, rounded down.
    #[tactic(auto, unfolding(crate::specs::View::position))]
    pub(crate) fn position(self, coordinate: Micro) -> i64
        ensures value { result ≡ position self coordinate }
        ensures within { IsNear result }
    {
        let distance = distance(self.origin.millionths(), coordinate.millionths());
        subtract_shift(scale_distance(distance, self.scale, self.span), self.shift)
    }
}

/// `to` less `from`, in millionths.
#[tactic(auto, unfolding(crate::specs::Exact::difference))]
pub(crate) fn distance(from: i64, to: i64) -> i64
    requires from { IsMicro from }
    requires to { IsMicro to }
    ensures value { result ≡ difference to from }
    ensures within { nat_abs result ≤ 2 * most_millionths }
{
    to - from
}

/// A distance in millionths as sixteenths of a pixel, rounded down.
#[tactic(auto, using(crate::proofs::QuotientLemmas::stretched), unfolding(crate::specs::View::scaled))]
fn scale_distance(distance: i64, scale: u64, span: u64) -> i64
    requires distance { nat_abs distance ≤ 2 * most_millionths }
    requires least { 1 ≤ span }
    requires most { span ≤ 2 * most_millionths }
    requires finest { scale ≤ most_scale * span }
    ensures value { result ≡ scaled distance scale span }
    ensures within { nat_abs result ≤ 2 * most_scale * most_millionths }
{
    divide(stretch(distance, scale), span)
}

/// The product of a distance and a scale.
#[tactic(auto, unfolding(crate::specs::Exact::product))]
fn stretch(distance: i64, scale: u64) -> i128
    ensures value { result ≡ product distance (pos scale) }
    ensures within { nat_abs result ≡ nat_abs distance * scale }
{
    i128::from(distance) * i128::from(scale)
}

/// The quotient, rounded down.
#[tactic(auto, using(crate::proofs::QuotientLemmas::quotient_bound), unfolding(crate::specs::Exact::quotient))]
fn divide(stretched: i128, span: u64) -> i64
    requires least { 1 ≤ span }
    requires most { nat_abs stretched ≤ span * (2 * most_scale * most_millionths) }
    ensures value { result ≡ quotient stretched (pos span) }
    ensures within { nat_abs result ≤ 2 * most_scale * most_millionths }
{
    stretched.div_euclid(i128::from(span)) as i64
}

/// The position less the shift.
#[tactic(auto, unfolding(crate::specs::Exact::difference))]
fn subtract_shift(offset: i64, shift: i64) -> i64
    requires offset { nat_abs offset ≤ 2 * most_scale * most_millionths }
    requires shift { nat_abs shift ≤ most_shift }
    ensures value { result ≡ difference offset shift }
    ensures within { IsNear result }
{
    offset - shift
}
