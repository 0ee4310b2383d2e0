//! The number of multiples of a step below a bound. Every boundary of a shape in a row is computed
//! by it: by a division, or from the row before by a sum.
ghost use Rattle.std.specs.Prelude.{◌≡◌, ℕ, ◌+◌, ◌*◌, ◌/◌, ◌^◌, ◌<◌, ◌≤◌, nat_lt, nat_abs, pos, ◌≤ℤ◌, IfSome, IfNone};
ghost use Rattle.std.specs.Int.{int_rem_euclid};
ghost use Rattle.wf_geometry.specs.Exact.{plus, product, quotient, is_less, number_of};
ghost use Rattle.wf_geometry.specs.Position.{middle};

use crate::limits::{HALF_SIDE, PIXEL_SIDE};
use crate::row::Quotient;

/// How far from 0 the whole part of a quotient may lie. The sum of a thousand, one for each row, is
/// still far from what 64 bits hold.
const FARTHEST: u128 = 1 << 50;

/// The number of the first `most` pixels of an axis whose centre lies below the position, in
/// sixteenths of a pixel.
pub fn centres_below(position: i64, most: u32) -> u32
    ensures within { result ≤ most }
    ensures below { (u : ℕ) → u < most → is_less (middle (pos u)) position ≡ nat_lt u result }
{
    steps_below(
        PIXEL_SIDE as i128,
        i128::from(position) - HALF_SIDE as i128,
        most,
    )
}

/// The number of u in 0..most with step * u < bound.
pub(crate) fn steps_below(step: i128, bound: i128, most: u32) -> u32
    requires { pos 1 ≤ℤ step }
    ensures within { result ≤ most }
    ensures below { (u : ℕ) → u < most → is_less (product step (pos u)) bound ≡ nat_lt u result }
{
    if bound <= 0 {
        0
    } else {
        multiples_below(step.unsigned_abs(), bound.unsigned_abs(), most)
    }
}

/// The number of u in 0..most with step * u < bound, for a positive bound.
fn multiples_below(step: u128, bound: u128, most: u32) -> u32
    requires step { 1 ≤ step }
    requires bound { 1 ≤ bound }
    ensures within { result ≤ most }
    ensures below { (u : ℕ) → u < most → nat_lt (step * u) bound ≡ nat_lt u result }
{
    let last = divide(bound - 1, step);
    if last < u128::from(most) {
        last as u32 + 1
    } else {
        most
    }
}

/// The quotient, by the processor's division of the least width that both numbers fit: a wider one
/// takes longer.
fn divide(number: u128, divisor: u128) -> u128
    requires { 1 ≤ divisor }
    ensures { result ≡ number / divisor }
{
    if number <= u128::from(u32::MAX) && divisor <= u128::from(u32::MAX) {
        u128::from(number as u32 / divisor as u32)
    } else if number <= u128::from(u64::MAX) && divisor <= u128::from(u64::MAX) {
        u128::from(number as u64 / divisor as u64)
    } else {
        number / divisor
    }
}

/// The number as a quotient by the divisor, rounded down, with its rest. None iff its whole part is
/// more than `FARTHEST` away from 0.
pub(crate) fn quotient(number: i128, divisor: u64) -> Option<Quotient>
    requires divisor { 1 ≤ divisor }
    requires number { nat_abs number ≤ 2 ^ 112 }
    ensures value { IfSome result (λ q. number_of divisor q ≡ number) }
    ensures rest { IfSome result (λ q. q.rest < divisor) }
    ensures within { IfSome result (λ q. nat_abs q.whole ≤ 2 ^ 50) }
    ensures none { IfNone result (2 ^ 50 < nat_abs (quotient number (pos divisor))) }
{
    let whole = whole(number, divisor);
    if whole.unsigned_abs() > FARTHEST {
        return None;
    }
    Some(Quotient {
        whole: whole as i64,
        rest: rest(number, divisor),
    })
}

/// How often the divisor goes into the number, rounded down.
#[tactic(auto, using(crate::proofs::QuotientLemmas::quotient_bound), unfolding(crate::specs::Exact::quotient))]
fn whole(number: i128, divisor: u64) -> i128
    requires divisor { 1 ≤ divisor }
    requires number { nat_abs number ≤ divisor * 2 ^ 112 }
    ensures value { result ≡ quotient number (pos divisor) }
    ensures within { nat_abs result ≤ 2 ^ 112 }
{
    number.div_euclid(i128::from(divisor))
}

/// What is left over.
fn rest(number: i128, divisor: u64) -> u64
    requires divisor { 1 ≤ divisor }
    ensures value { pos result ≡ int_rem_euclid number (pos divisor) }
    ensures below { result < divisor }
{
    number.rem_euclid(i128::from(divisor)).unsigned_abs() as u64
}

/// The sum of two numbers with the same divisor. Its whole part is that of the two, or one more.
#[inline(always)]
#[tactic(auto, unfolding(crate::specs::Exact::plus))]
pub fn quotient_sum(a: Quotient, b: Quotient, divisor: u64) -> Quotient
    requires divisor { divisor ≤ 2 ^ 60 }
    requires first { a.rest < divisor }
    requires second { b.rest < divisor }
    requires first_within { nat_abs a.whole ≤ 2 ^ 62 }
    requires second_within { nat_abs b.whole ≤ 2 ^ 50 }
    ensures value { number_of divisor result ≡ plus (number_of divisor a) (number_of divisor b) }
    ensures rest { result.rest < divisor }
    ensures least { plus a.whole b.whole ≤ℤ result.whole }
    ensures most { result.whole ≤ℤ plus (plus a.whole b.whole) (pos 1) }
    ensures within { nat_abs result.whole ≤ nat_abs a.whole + 2 ^ 51 }
{
    let whole = a.whole + b.whole;
    let rest = a.rest + b.rest;
    if falls_short(rest, divisor) {
        Quotient { whole, rest }
    } else {
        Quotient {
            whole: whole + 1,
            rest: rest - divisor,
        }
    }
}

/// Whether a rest is below the divisor, by the sign of their difference. Nearly each row of a line
/// asks, with an answer that no processor can foresee: from a sign compilers make no jump.
#[inline(always)]
fn falls_short(rest: u64, divisor: u64) -> bool
    requires rest { rest ≤ 2 ^ 62 }
    requires divisor { divisor ≤ 2 ^ 60 }
    ensures { result ≡ nat_lt rest divisor }
{
    (rest as i64 - divisor as i64) < 0
}

/// The number of the first `most` multiples of the divisor, from 0 on, that aren't greater than the
/// number.
#[inline(always)]
pub fn multiples_up_to(number: Quotient, most: u32) -> u32
    requires { nat_abs number.whole ≤ 2 ^ 62 }
    ensures within { result ≤ most }
    ensures below { (divisor u : ℕ) → number.rest < divisor → u < most → is_less (product
        (pos divisor) (pos u)) (plus (number_of divisor number) (pos 1)) ≡ nat_lt u result }
{
    integers_below(number.whole + 1, most)
}

/// The number of integers in 0..most below the bound.
#[tactic(auto, unfolding(crate::specs::Exact::is_less))]
pub(crate) fn integers_below(bound: i64, most: u32) -> u32
    ensures within { result ≤ most }
    ensures below { (u : ℕ) → u < most → is_less (pos u) bound ≡ nat_lt u result }
{
    if bound <= 0 {
        0
    } else if bound < i64::from(most) {
        bound as u32
    } else {
        most
    }
}
