//! Levels over a picture, and strips of it.

use crate::level::Span;

/// Numbers that change by constant steps over a picture: by `16 * across` from each column to the
/// next, and by `16 * up` from each row to the next. `origin` is the number in the first column of
/// the first row. `margin` is how far from 0 they may lie.
#[derive(Clone, Copy)]
pub struct Levels {
    pub origin: i128,
    pub across: i64,
    pub up: i64,
    pub margin: i128,
}

/// The pixels of these rows and columns whose level lies within the margin about 0.
#[derive(Clone, Copy)]
pub struct Strip {
    pub levels: Levels,
    pub rows: Span,
    pub columns: Span,
}
