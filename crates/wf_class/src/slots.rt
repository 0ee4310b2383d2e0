//! The slots that the keywords of CLASS, STYLE and LABEL fill. A dropped keyword's slot says only
//! that it came.

use wf_def::{
    Color, Expression, Label, LabelPosition, LabelSize, MOST_BUFFER, MOST_PRIORITY, MOST_SIZE,
    MOST_WIDTH, Styles, Text, Whole,
};

/// CLASS.
#[derive(Drop)]
pub struct ClassSlots {
    /// How the features are drawn.
    pub styles: Styles,
    /// The keywords that come at most once.
    pub single: ClassOnce,
}

/// The keywords of CLASS that come at most once.
#[derive(Default, Drop)]
pub struct ClassOnce {
    /// The name.
    pub name: Option<Text>,
    /// What the attribute of a feature of this class equals.
    pub expression: Option<Expression>,
    /// How the features' labels are drawn.
    pub label: Option<Label>,
}

/// LABEL.
#[derive(Default, Drop)]
pub struct LabelSlots {
    /// The letters' colour.
    pub color: Option<Color>,
    /// The size of the letters.
    pub size: Option<LabelSize>,
    /// The text's position relative to its point.
    pub position: Option<LabelPosition>,
    /// Which labels are placed first.
    pub priority: Option<Whole<1, MOST_PRIORITY>>,
    /// Whether the text is drawn over others.
    pub force: Option<bool>,
    /// The free space around the text, in pixels.
    pub buffer: Option<Whole<0, MOST_BUFFER>>,
    /// The kind of letters.
    pub kind: Option<()>,
}

/// STYLE.
#[derive(Default, Drop)]
pub struct StyleSlots {
    /// The colour of a polygon's or marker's interior, or of a line.
    pub color: Option<Color>,
    /// The colour of the border.
    pub outline_color: Option<Color>,
    /// The width of a line or a border, in pixels.
    pub width: Option<Whole<1, MOST_WIDTH>>,
    /// The size of a marker, in pixels.
    pub size: Option<Whole<1, MOST_SIZE>>,
}
