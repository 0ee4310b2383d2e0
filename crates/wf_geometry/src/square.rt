//! Squares of pixels about a position.
ghost use Rattle.std.specs.Prelude.{◌≡◌, ◌≤◌, ◌^◌, pos, nat_abs};
ghost use Rattle.wf_geometry.specs.Near.{IsNear};
ghost use Rattle.wf_geometry.specs.Exact.{plus};
ghost use Rattle.wf_geometry.specs.Square.{square_start, is_in_span, is_in_square};
ghost use Rattle.wf_geometry.specs.Span.{IsSpanOf};

use crate::exact::is_less;
use crate::level::Span;
use crate::limits::PIXEL_SIDE;
use crate::operation::Pixel;
use crate::position::Position;
use crate::steps::integers_below;

/// The first of the `size` columns of pixels about a position on one axis.
#[tactic(auto, unfolding(crate::specs::Square::square_start, crate::specs::Exact::difference, crate::specs::Exact::quotient))]
pub(crate) fn square_start(size: u8, position: i64) -> i64
    requires { IsNear position }
    ensures value { result ≡ square_start size position }
    ensures within { nat_abs result ≤ 2 ^ 54 }
{
    position.div_euclid(PIXEL_SIDE) - i64::from(size / 2)
}

/// The column after the last.
#[tactic(auto, unfolding(crate::specs::Exact::plus))]
pub(crate) fn square_end(start: i64, size: u8) -> i64
    requires { nat_abs start ≤ 2 ^ 54 }
    ensures { result ≡ plus start (pos size) }
{
    start + i64::from(size)
}

/// Whether the column belongs to the square.
#[tactic(auto, unfolding(crate::specs::Square::is_in_span))]
fn is_in_span(size: u8, position: i64, column: u32) -> bool
    requires { IsNear position }
    ensures { result ≡ is_in_span size position (pos column) }
{
    let column = i64::from(column);
    let start = square_start(size, position);
    !is_less(column, start) && is_less(column, square_end(start, size))
}

/// Whether the pixel belongs to the square of this size about the position.
#[tactic(auto, unfolding(crate::specs::Square::is_in_square))]
pub(crate) fn is_in_square(size: u8, position: Position, pixel: Pixel) -> bool
    ensures { result ≡ is_in_square size position (pos pixel.column) (pos pixel.row) }
{
    is_in_span(size, position.x(), pixel.column) && is_in_span(size, position.y(), pixel.row)
}

/// The columns, of the first `most`, of a square of `size` pixels about a position on one axis, in
/// sixteenths of a pixel; for the other axis, the rows.
pub fn span_about(size: u8, position: i64, most: u32) -> Span
    requires { IsNear position }
    ensures { IsSpanOf (λ u. is_in_span size position (pos u)) most result }
{
    let start = square_start(size, position);
    Span {
        from: integers_below(start, most),
        to: integers_below(square_end(start, size), most),
    }
}
