//! Labels that have a position in a view.

use wf_def::{Color, LabelSize};

/// A box of pixels: the columns from `left` to before `right`, the rows from `bottom` to before
/// `top`. It may lie outside the view.
#[derive(Clone, Copy, PartialEq, Eq)]
pub struct PixelBox {
    pub left: i128,
    pub right: i128,
    pub bottom: i128,
    pub top: i128,
}

/// A label with its position in a view. Columns of pixels count from the left of the view, rows
/// from its bottom. The box of a label that isn't placed may lie outside the view.
#[derive(Clone, Copy)]
pub struct Placed<'a> {
    /// The first column of the box.
    pub left: i64,
    /// The first row of the box.
    pub bottom: i64,
    /// How many pixels wide and high each bit of a letter is: from 1 for tiny letters to 5 for
    /// giant ones.
    pub scale: LabelSize,
    /// How many pixels around the box are to be free of labels placed before.
    pub buffer: u8,
    /// Whether the label is placed even where it overlaps another.
    pub force: bool,
    /// The colour of the letters.
    pub color: Color,
    /// The label's text.
    pub text: &'a str,
}
