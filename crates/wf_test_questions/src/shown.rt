//! How definitions and errors are shown, piece by piece.
use crate::numbers::write_sides;
use wf_def::{
    Class, Color, Expression, Feature, Label, LabelPosition, LabelSize, Layer, LayerKind, MapDef,
    Projection, Style,
};
use wf_mapfile::MapFault;
use wf_test_table::Transcript;
use wf_text::Text;

// Appends a text and a bar.
fn write_barred(text: &Text, answer: &mut Transcript) {
    answer.text(text.as_str());
    answer.text("|");
}

// Appends a space and a number.
fn write_number(number: u8, answer: &mut Transcript) {
    answer.text(" ");
    answer.value(number);
}

fn projection_name(projection: Projection) -> &'static str {
    match projection {
        Projection::Epsg4326 => "Epsg4326",
        Projection::Epsg3857 => "Epsg3857",
    }
}

/// Appends a map's name, title, abstract, address, extent in millionths and coordinate system, on a
/// line.
pub(crate) fn write_map(map: &MapDef, answer: &mut Transcript) {
    write_barred(map.name(), answer);
    write_barred(map.title(), answer);
    write_barred(map.abstract_text(), answer);
    write_barred(map.address(), answer);
    write_sides(map.extent(), answer);
    answer.text("|");
    answer.line(projection_name(map.projection()));
}

/// Appends the same of a map that isn't used any more.
pub(crate) fn print_map(map: MapDef, answer: &mut Transcript) {
    write_map(&map, answer);
    drop(map);
}

fn kind_name(kind: LayerKind) -> &'static str {
    match kind {
        LayerKind::Points => " Points|",
        LayerKind::Lines => " Lines|",
        LayerKind::Polygons => " Polygons|",
    }
}

// Appends a feature's texts and points, in millionths.
fn write_feature(feature: &Feature, answer: &mut Transcript) {
    answer.text(" ");
    answer.text(feature.items().as_str());
    answer.text("/");
    answer.text(feature.text().as_str());
    for part in feature.parts() {
        answer.text(" :");
        for point in part.as_slice() {
            answer.text(" ");
            answer.number(point.x.millionths());
            answer.text(",");
            answer.number(point.y.millionths());
        }
    }
}

// Appends a layer's kind, title, items and the number of its classes, then its features.
fn write_layer(layer: &Layer, answer: &mut Transcript) {
    answer.text(kind_name(layer.kind()));
    write_barred(layer.title(), answer);
    write_barred(layer.class_item(), answer);
    write_barred(layer.label_item(), answer);
    write_barred(layer.items(), answer);
    answer.count(layer.classes().len());
    for feature in layer.features() {
        write_feature(feature, answer);
    }
}

/// Appends a map's layers, each in brackets, on a line.
pub(crate) fn write_layers(map: &MapDef, answer: &mut Transcript) {
    for index in 0..map.layer_count() {
        let (name, layer) = map.layer(index);
        answer.text("[");
        answer.text(name.as_str());
        write_layer(layer, answer);
        answer.text("]");
    }
    answer.line("");
}

fn write_color(color: Color, answer: &mut Transcript) {
    answer.text(" ");
    answer.value(color.r);
    answer.text(",");
    answer.value(color.g);
    answer.text(",");
    answer.value(color.b);
}

fn write_choice_of_color(color: Option<Color>, answer: &mut Transcript) {
    match color {
        None => answer.text(" -"),
        Some(color) => write_color(color, answer),
    }
}

fn write_style(style: &Style, answer: &mut Transcript) {
    answer.text(" style");
    write_choice_of_color(style.color, answer);
    write_choice_of_color(style.outline_color, answer);
    write_number(style.width.get(), answer);
    write_number(style.size.get(), answer);
}

fn size_name(size: LabelSize) -> &'static str {
    match size {
        LabelSize::Tiny => " Tiny",
        LabelSize::Small => " Small",
        LabelSize::Medium => " Medium",
        LabelSize::Large => " Large",
        LabelSize::Giant => " Giant",
    }
}

fn position_name(position: LabelPosition) -> &'static str {
    match position {
        LabelPosition::UpperLeft => " UpperLeft",
        LabelPosition::UpperCenter => " UpperCenter",
        LabelPosition::UpperRight => " UpperRight",
        LabelPosition::CenterLeft => " CenterLeft",
        LabelPosition::CenterCenter => " CenterCenter",
        LabelPosition::CenterRight => " CenterRight",
        LabelPosition::LowerLeft => " LowerLeft",
        LabelPosition::LowerCenter => " LowerCenter",
        LabelPosition::LowerRight => " LowerRight",
    }
}

fn write_label(label: &Label, answer: &mut Transcript) {
    answer.text(" label");
    write_color(label.color, answer);
    answer.text(size_name(label.size));
    answer.text(position_name(label.position));
    write_number(label.priority.get(), answer);
    answer.text(if label.force { " true" } else { " false" });
    write_number(label.buffer.get(), answer);
}

// Appends a text, or a list as `one of {..}`, and a bar.
fn write_expression(expression: &Expression, answer: &mut Transcript) {
    match expression {
        Expression::Equals(text) => write_barred(text, answer),
        Expression::OneOf(list) => {
            answer.text("one of {");
            answer.bytes(list.as_bytes());
            answer.text("}|");
        }
    }
}

/// Appends a class's name, expression, styles and label, on a line.
pub(crate) fn write_class(class: &Class, answer: &mut Transcript) {
    write_barred(class.name(), answer);
    match class.expression() {
        None => answer.text("-|"),
        Some(expression) => write_expression(expression, answer),
    }
    for style in class.styles() {
        write_style(style, answer);
    }
    if let Some(label) = class.label() {
        write_label(&label, answer);
    }
    answer.line("");
}

// Appends an error's name, and its byte offset in a piece that follows `front` bytes.
fn write_at(name: &str, offset: usize, front: usize, answer: &mut Transcript) {
    answer.text(name);
    answer.text(" at ");
    answer.count(offset.saturating_sub(front));
    answer.line("");
}

/// Appends an error, with its byte offset in a piece that follows `front` bytes.
pub(crate) fn write_fault(fault: MapFault, front: usize, answer: &mut Transcript) {
    match fault {
        MapFault::Memory => answer.cut(),
        MapFault::TooLong => answer.line("M2"),
        MapFault::NotUtf8(offset) => write_at("M3", offset, front, answer),
        MapFault::BadToken(offset) => write_at("M4", offset, front, answer),
        MapFault::UnexpectedWord(offset) => write_at("M5", offset, front, answer),
        MapFault::MissingEnd(offset) => write_at("M6", offset, front, answer),
        MapFault::BadNumber(offset) => write_at("M7", offset, front, answer),
        MapFault::OutOfRange(offset) => write_at("M8", offset, front, answer),
        MapFault::Missing => answer.line("M9"),
        MapFault::Repeated(offset) => write_at("M10", offset, front, answer),
        MapFault::TooMany => answer.line("M11"),
        MapFault::Trailing(offset) => write_at("M12", offset, front, answer),
    }
}
