//! Definitions that are put together by calls.
ghost use Rattle.std.specs.Prelude.{◌<◌};

use crate::canonical::two_texts;
use crate::mapfiles::write_value;
use crate::shown::print_map;
use crate::texts::text_of;
use std::alloc::{AllocError, Global};
use wf_def::{
    Class, Classes, Feature, Features, Layer, LayerKind, MapDef, Part, Point, ShapeParts, Style,
    Styles, attribute_value,
};
use wf_test_table::{Answered, CaseInput, CaseWords, Transcript, Unanswered};
use wf_text::{Micro, Text, Whole};

/// `attribute`: the value of names between commas, values between semicolons and a name, with `|`
/// between the three.
pub(crate) fn attribute_of_lists(asked: CaseInput<'_>, answer: &mut Transcript) -> Answered {
    let Some((names, rest)) = asked.text()?.split_once('|') else {
        return Err(Unanswered::BadWords);
    };
    let Some((values, name)) = rest.split_once('|') else {
        return Err(Unanswered::BadWords);
    };
    write_value(
        attribute_value(names.as_bytes(), values.as_bytes(), name.as_bytes()),
        answer,
    );
    Ok(())
}

// A style of this width that draws nothing.
fn style_of_width(width: u8) -> Result<Style, Unanswered> {
    match (Whole::new(width), Whole::new(1)) {
        (Some(width), Some(size)) => Ok(Style {
            color: None,
            outline_color: None,
            width,
            size,
        }),
        _ => Err(Unanswered::BadWords),
    }
}

// Appends whether there is room for one more.
fn write_room(is_full: bool, answer: &mut Transcript) {
    answer.text(if is_full { "full:" } else { "room:" });
}

// Appends whether there is room for one more, and the widths in their order.
fn print_styles(styles: Styles, answer: &mut Transcript) {
    write_room(styles.is_full(), answer);
    for style in styles.as_slice() {
        answer.text(" ");
        answer.value(style.width.get());
    }
    answer.line("");
    drop(styles);
}

fn print_copy_of_styles(styles: &Styles, answer: &mut Transcript) {
    match styles.clone() {
        Ok(copy) => print_styles(copy, answer),
        Err(_) => answer.cut(),
    }
}

/// `styles`: a copy of the styles of these widths, as far as there is room.
pub(crate) fn styles(asked: CaseInput<'_>, answer: &mut Transcript) -> Answered {
    let words = CaseWords::of(asked.input)?;
    let mut styles = Styles::new(asked.alloc);
    let pushed = push_styles(&mut styles, words);
    print_copy_of_styles(&styles, answer);
    drop(styles);
    pushed
}

fn push_styles(styles: &mut Styles, words: CaseWords<'_>) -> Answered {
    for word in words.rest().split(' ') {
        push_style(styles, CaseWords::new(word).byte()?)?;
    }
    Ok(())
}

fn push_style(styles: &mut Styles, width: u8) -> Answered {
    let style = style_of_width(width)?;
    if !styles.is_full() {
        styles.push(style)?;
    }
    Ok(())
}

fn empty_class(alloc: Global) -> Result<Class, Unanswered> {
    match Text::new(alloc, b"") {
        Ok(name) => Ok(Class::new(name, None, Styles::new(alloc), None)),
        Err(_) => Err(Unanswered::Memory),
    }
}

fn print_classes(classes: Classes, answer: &mut Transcript) {
    write_room(classes.is_full(), answer);
    answer.text(" ");
    answer.count(classes.as_slice().len());
    answer.line("");
    drop(classes);
}

fn print_copy_of_classes(classes: &Classes, answer: &mut Transcript) {
    match classes.clone() {
        Ok(copy) => print_classes(copy, answer),
        Err(_) => answer.cut(),
    }
}

/// `classes`: a copy of that many empty classes, as far as there is room.
pub(crate) fn classes(asked: CaseInput<'_>, answer: &mut Transcript) -> Answered {
    let count = CaseWords::of(asked.input)?.count()?;
    let mut classes = Classes::new(asked.alloc);
    let pushed = push_classes(asked.alloc, &mut classes, count);
    print_copy_of_classes(&classes, answer);
    drop(classes);
    pushed
}

fn push_classes(alloc: Global, classes: &mut Classes, count: usize) -> Answered {
    for _ in 0..count {
        if !classes.is_full() {
            let class = empty_class(alloc)?;
            classes.push(class)?;
        }
    }
    Ok(())
}

fn part_of_points(alloc: Global, count: usize) -> Result<Part, AllocError> {
    let mut part = Part::new(alloc);
    match push_points(&mut part, count) {
        Ok(()) => Ok(part),
        Err(error) => {
            drop(part);
            Err(error)
        }
    }
}

fn push_points(part: &mut Part, count: usize) -> Result<(), AllocError> {
    for _ in 0..count {
        if let Some(zero) = Micro::from_millionths(0) {
            part.push(Point { x: zero, y: zero })?;
        }
    }
    Ok(())
}

// Parts, each with as many points as its word says.
fn parts_of_points(alloc: Global, words: &str) -> Result<ShapeParts, Unanswered> {
    let mut parts = ShapeParts::new(alloc);
    match push_parts(alloc, words, &mut parts) {
        Ok(()) => Ok(parts),
        Err(unanswered) => {
            drop(parts);
            Err(unanswered)
        }
    }
}

fn push_parts(alloc: Global, words: &str, parts: &mut ShapeParts) -> Answered {
    for word in words.split_whitespace() {
        let count = CaseWords::new(word).count()?;
        let part = part_of_points(alloc, count)?;
        parts.push(part)?;
    }
    Ok(())
}

fn kind_of(word: &str) -> Result<LayerKind, Unanswered> {
    match word {
        "points" => Ok(LayerKind::Points),
        "lines" => Ok(LayerKind::Lines),
        "polygons" => Ok(LayerKind::Polygons),
        _ => Err(Unanswered::BadWords),
    }
}

// A layer's title, and its attributes for the class and for the label.
fn empty_texts(alloc: Global) -> Result<(Text, Text, Text), Unanswered> {
    match text_of(alloc, b"") {
        Ok(title) => with_items(alloc, title),
        Err(unanswered) => Err(unanswered),
    }
}

fn with_items(alloc: Global, title: Text) -> Result<(Text, Text, Text), Unanswered> {
    match two_texts(alloc, b"", b"") {
        Ok((class_item, label_item)) => Ok((title, class_item, label_item)),
        Err(unanswered) => {
            drop(title);
            Err(unanswered)
        }
    }
}

// Appends whether a layer of the kind can have these attributes and features.
fn print_layer(
    alloc: Global,
    kind: LayerKind,
    items: Text,
    features: Features,
    answer: &mut Transcript,
) {
    match empty_texts(alloc) {
        Ok((title, class_item, label_item)) => {
            let classes = Classes::new(alloc);
            let layer = Layer::new(
                kind, title, class_item, label_item, items, classes, features,
            );
            answer.line(if layer.is_some() {
                "a layer"
            } else {
                "no layer"
            });
            drop(layer);
        }
        Err(_) => {
            drop(items);
            drop(features);
            answer.cut();
        }
    }
}

fn print_layer_of_items(
    alloc: Global,
    kind: LayerKind,
    items: &[u8],
    features: Features,
    answer: &mut Transcript,
) -> Answered {
    match text_of(alloc, items) {
        Ok(items) => {
            print_layer(alloc, kind, items, features, answer);
            Ok(())
        }
        Err(unanswered) => {
            drop(features);
            Err(unanswered)
        }
    }
}

fn print_layer_of_feature(
    alloc: Global,
    kind: LayerKind,
    feature: Feature,
    answer: &mut Transcript,
) -> Answered {
    let mut features = Features::new(alloc);
    match features.push(feature) {
        Ok(()) => print_layer_of_items(alloc, kind, b"", features, answer),
        Err(_) => {
            drop(features);
            Err(Unanswered::Memory)
        }
    }
}

fn print_layer_of_parts(
    alloc: Global,
    kind: LayerKind,
    parts: ShapeParts,
    answer: &mut Transcript,
) -> Answered {
    match two_texts(alloc, b"", b"") {
        Ok((items, text)) => match Feature::new(parts, items, text) {
            Some(feature) => print_layer_of_feature(alloc, kind, feature, answer),
            None => {
                answer.line("no feature");
                Ok(())
            }
        },
        Err(unanswered) => {
            drop(parts);
            Err(unanswered)
        }
    }
}

/// `shape KIND`: whether a layer of the kind can have one feature whose parts have these numbers of
/// points.
pub(crate) fn shape(asked: CaseInput<'_>, answer: &mut Transcript) -> Answered {
    let kind = kind_of(asked.words.rest())?;
    match parts_of_points(asked.alloc, asked.text()?) {
        Ok(parts) => print_layer_of_parts(asked.alloc, kind, parts, answer),
        Err(unanswered) => Err(unanswered),
    }
}

/// `items`: whether a layer can have this list of attributes.
pub(crate) fn items(asked: CaseInput<'_>, answer: &mut Transcript) -> Answered {
    let features = Features::new(asked.alloc);
    print_layer_of_items(
        asked.alloc,
        LayerKind::Points,
        asked.input,
        features,
        answer,
    )
}

/// `empty_map`: the map at the start of a farm.
pub(crate) fn empty_map(asked: CaseInput<'_>, answer: &mut Transcript) -> Answered {
    match MapDef::empty(asked.alloc) {
        Ok(map) => print_map(map, answer),
        Err(_) => answer.cut(),
    }
    Ok(())
}
