//! Scans a class with its styles and its label.

ghost use Rattle.std.specs.Prelude.{◌≡◌, IfSome};
ghost use Rattle.std.specs.List.{flat_map};
ghost use Rattle.wf_block.specs.Spelling.{text_of};
ghost use Rattle.wf_spelling.specs.Canon.{size_word, position_word, force_word, style_lines, label_lines, optional_label_lines, class_lines};
ghost use Rattle.wf_spelling.specs.Scan.{Scans};

use crate::class::{force_word, position_word, size_word};
use crate::scan::cursor::Cursor;
use crate::scan::line::{
    scan_alone, scan_optional_color, scan_optional_expression, scan_with_color, scan_with_text,
    scan_with_whole, scan_with_word,
};
use wf_def::{Class, Color, Label, LabelPosition, LabelSize, Style, Styles, Whole};

/// Scans a style.
fn scan_style(cursor: &mut Cursor<'_>) -> Option<Style>
    ensures { IfSome result (λ style. Scans cursor.old (text_of (style_lines style)) cursor.new) }
{
    scan_alone(cursor, "STYLE");
    let color = scan_optional_color(cursor, "COLOR")?;
    let outline_color = scan_optional_color(cursor, "OUTLINECOLOR")?;
    let width = scan_with_whole(cursor, "WIDTH")?;
    let size = scan_with_whole(cursor, "SIZE")?;
    scan_alone(cursor, "END");
    style_of(color, outline_color, width, size)
}

/// The style of these parts, if the width and the size are within their limits.
fn style_of(
    color: Option<Color>,
    outline_color: Option<Color>,
    width: u8,
    size: u8,
) -> Option<Style>
    ensures { IfSome result (λ style. style ≡ record
        { color = color; outline_color = outline_color; width = width; size = size }) }
{
    let width = Whole::new(width)?;
    let size = Whole::new(size)?;
    Some(Style {
        color,
        outline_color,
        width,
        size,
    })
}

/// Scans the styles of a class.
fn scan_styles(cursor: &mut Cursor<'_>) -> Option<Styles>
    ensures { IfSome result (λ styles. Scans cursor.old (text_of (flat_map style_lines styles))
        cursor.new) }
{
    let mut styles = Styles::new(cursor.alloc());
    for _ in 0..cursor.len() {
        if !cursor.is_at(b"STYLE") {
            break;
        }
        if styles.is_full() {
            break;
        }
        let Some(style) = scan_style(cursor) else {
            drop(styles);
            return None;
        };
        let Ok(()) = styles.push(style) else {
            drop(styles);
            return None;
        };
    }
    Some(styles)
}

/// The label size whose line is ahead; any, if none is.
fn size_ahead(cursor: &Cursor<'_>) -> LabelSize {
    if cursor.is_at(b"SIZE TINY") {
        LabelSize::Tiny
    } else if cursor.is_at(b"SIZE SMALL") {
        LabelSize::Small
    } else if cursor.is_at(b"SIZE MEDIUM") {
        LabelSize::Medium
    } else if cursor.is_at(b"SIZE LARGE") {
        LabelSize::Large
    } else {
        LabelSize::Giant
    }
}

/// The label position whose line is ahead; any, if none is.
fn position_ahead(cursor: &Cursor<'_>) -> LabelPosition {
    if cursor.is_at(b"POSITION UL") {
        LabelPosition::UpperLeft
    } else if cursor.is_at(b"POSITION UC") {
        LabelPosition::UpperCenter
    } else if cursor.is_at(b"POSITION UR") {
        LabelPosition::UpperRight
    } else if cursor.is_at(b"POSITION CL") {
        LabelPosition::CenterLeft
    } else if cursor.is_at(b"POSITION CC") {
        LabelPosition::CenterCenter
    } else if cursor.is_at(b"POSITION CR") {
        LabelPosition::CenterRight
    } else if cursor.is_at(b"POSITION LL") {
        LabelPosition::LowerLeft
    } else if cursor.is_at(b"POSITION LC") {
        LabelPosition::LowerCenter
    } else {
        LabelPosition::LowerRight
    }
}

/// Scans a label.
fn scan_label(cursor: &mut Cursor<'_>) -> Option<Label>
    ensures { IfSome result (λ label. Scans cursor.old (text_of (label_lines label)) cursor.new) }
{
    scan_alone(cursor, "LABEL");
    let color = scan_with_color(cursor, "COLOR")?;
    let size = size_ahead(cursor);
    scan_with_word(cursor, "SIZE", size_word(size));
    let position = position_ahead(cursor);
    scan_with_word(cursor, "POSITION", position_word(position));
    let priority = scan_with_whole(cursor, "PRIORITY")?;
    let force = cursor.is_at(b"FORCE TRUE");
    scan_with_word(cursor, "FORCE", force_word(force));
    let buffer = scan_with_whole(cursor, "BUFFER")?;
    scan_alone(cursor, "END");
    label_of(color, size, position, priority, force, buffer)
}

/// The label of these parts, if the priority and the buffer are within their limits.
fn label_of(
    color: Color,
    size: LabelSize,
    position: LabelPosition,
    priority: u8,
    force: bool,
    buffer: u8,
) -> Option<Label>
    ensures { IfSome result (λ label. label ≡ record {
      color = color;
      size = size;
      position = position;
      priority = priority;
      force = force;
      buffer = buffer;
    }) }
{
    let priority = Whole::new(priority)?;
    let buffer = Whole::new(buffer)?;
    Some(Label {
        color,
        size,
        position,
        priority,
        force,
        buffer,
    })
}

/// Scans a label, if one is ahead; `Some(None)` if none is.
fn scan_optional_label(cursor: &mut Cursor<'_>) -> Option<Option<Label>>
    ensures { IfSome result (λ label. Scans cursor.old (text_of (optional_label_lines label))
        cursor.new) }
{
    if !cursor.is_at(b"LABEL") {
        return Some(None);
    }
    let label = scan_label(cursor)?;
    Some(Some(label))
}

/// Scans a class.
pub fn scan_class(cursor: &mut Cursor<'_>) -> Option<Class>
    ensures { IfSome result (λ class. Scans cursor.old (text_of (class_lines class)) cursor.new) }
{
    scan_alone(cursor, "CLASS");
    let name = scan_with_text(cursor, "NAME")?;
    let Some(expression) = scan_optional_expression(cursor, "EXPRESSION") else {
        drop(name);
        return None;
    };
    let Some(styles) = scan_styles(cursor) else {
        drop(name);
        drop(expression);
        return None;
    };
    let Some(label) = scan_optional_label(cursor) else {
        drop(name);
        drop(expression);
        drop(styles);
        return None;
    };
    scan_alone(cursor, "END");
    Some(Class::new(name, expression, styles, label))
}
