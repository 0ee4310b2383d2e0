//! Appends the canonical text of a class with its styles and its label.

ghost use Rattle.std.specs.Prelude.{◌≡◌};
ghost use Rattle.std.specs.List.{flat_map};
ghost use Rattle.wf_spelling.specs.Canon.{size_word, position_word, force_word, style_lines, label_lines, optional_label_lines, class_lines};
ghost use Rattle.wf_block.specs.Spelling.{text_of};
ghost use Rattle.wf_spelling.specs.Draft.{Writes};

use crate::draft::Draft;
use crate::line::{
    push_alone, push_optional_color, push_optional_expression, push_with_color, push_with_text,
    push_with_whole, push_with_word,
};
use wf_def::{Class, Label, LabelPosition, LabelSize, Style};

/// Writes a style.
pub fn push_style(out: &mut Draft, style: &Style)
    ensures { Writes out.old (text_of (style_lines style.now)) out.new }
{
    push_alone(out, "STYLE");
    push_optional_color(out, "COLOR", style.color);
    push_optional_color(out, "OUTLINECOLOR", style.outline_color);
    push_with_whole(out, "WIDTH", style.width.get());
    push_with_whole(out, "SIZE", style.size.get());
    push_alone(out, "END");
}

/// Writes styles, one after the other.
fn push_styles(out: &mut Draft, styles: &[Style])
    ensures { Writes out.old (text_of (flat_map style_lines styles.now)) out.new }
{
    for style in styles {
        push_style(out, style);
    }
}

/// The word of a label size.
pub fn size_word(size: LabelSize) -> &'static str
    ensures { result.now ≡ size_word size }
{
    match size {
        LabelSize::Tiny => "TINY",
        LabelSize::Small => "SMALL",
        LabelSize::Medium => "MEDIUM",
        LabelSize::Large => "LARGE",
        LabelSize::Giant => "GIANT",
    }
}

/// The word of a label position.
pub fn position_word(position: LabelPosition) -> &'static str
    ensures { result.now ≡ position_word position }
{
    match position {
        LabelPosition::UpperLeft => "UL",
        LabelPosition::UpperCenter => "UC",
        LabelPosition::UpperRight => "UR",
        LabelPosition::CenterLeft => "CL",
        LabelPosition::CenterCenter => "CC",
        LabelPosition::CenterRight => "CR",
        LabelPosition::LowerLeft => "LL",
        LabelPosition::LowerCenter => "LC",
        LabelPosition::LowerRight => "LR",
    }
}

/// The word of FORCE: whether a label is always drawn.
pub fn force_word(force: bool) -> &'static str
    ensures { result.now ≡ force_word force }
{
    if force { "TRUE" } else { "FALSE" }
}

/// Writes a label.
fn push_label(out: &mut Draft, label: &Label)
    ensures { Writes out.old (text_of (label_lines label.now)) out.new }
{
    push_alone(out, "LABEL");
    push_with_color(out, "COLOR", label.color);
    push_with_word(out, "SIZE", size_word(label.size));
    push_with_word(out, "POSITION", position_word(label.position));
    push_with_whole(out, "PRIORITY", label.priority.get());
    push_with_word(out, "FORCE", force_word(label.force));
    push_with_whole(out, "BUFFER", label.buffer.get());
    push_alone(out, "END");
}

/// Writes a label, if there is one.
fn push_optional_label(out: &mut Draft, label: Option<Label>)
    ensures { Writes out.old (text_of (optional_label_lines label)) out.new }
{
    if let Some(label) = label {
        push_label(out, &label);
    }
}

/// Writes a class.
pub fn push_class(out: &mut Draft, class: &Class)
    ensures { Writes out.old (text_of (class_lines class.now)) out.new }
{
    push_alone(out, "CLASS");
    push_with_text(out, "NAME", class.name().as_bytes());
    push_optional_expression(out, "EXPRESSION", class.expression());
    push_styles(out, class.styles());
    push_optional_label(out, class.label());
    push_alone(out, "END");
}
