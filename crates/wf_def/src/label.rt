//! Labels.

use crate::choice::{LabelPosition, LabelSize};
use crate::color::Color;
use crate::limits::{MOST_BUFFER, MOST_PRIORITY};
use wf_text::Whole;

/// How a feature's label is drawn (MapServer mapfile reference, LABEL).
#[derive(Clone, Copy, PartialEq, Eq)]
pub struct Label {
    /// The letters' colour (COLOR).
    pub color: Color,
    /// How large the letters are (SIZE).
    pub size: LabelSize,
    /// The text's position relative to its point (POSITION).
    pub position: LabelPosition,
    /// Labels of a higher priority are placed first (PRIORITY).
    pub priority: Whole<1, MOST_PRIORITY>,
    /// Whether the label is drawn even if it overlaps another (FORCE).
    pub force: bool,
    /// The free space that the label requires around it, in pixels (BUFFER).
    pub buffer: Whole<0, MOST_BUFFER>,
}
