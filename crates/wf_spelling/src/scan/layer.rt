//! Scans a layer with its classes and its features.

ghost use Rattle.std.specs.Prelude.{◌≡◌, ◌+◌, ◌≤◌, ◌++◌, codes, length, sum_by, IfSome};
ghost use Rattle.std.specs.List.{flat_map};
ghost use Rattle.wf_def.specs.Limits.{points_of_feature};
ghost use Rattle.wf_def.specs.Limit.{most_points};
ghost use Rattle.wf_block.specs.Spelling.{line, text_of};
ghost use Rattle.wf_spelling.specs.Canon.{kind_word, with_text, metadata_lines, feature_lines, class_lines, layer_lines};
ghost use Rattle.wf_spelling.specs.Scan.{Scans, IsWhole, layer_heading_lines};

use crate::layer::kind_word;
use crate::scan::class::scan_class;
use crate::scan::cursor::Cursor;
use crate::scan::feature::scan_feature;
use crate::scan::line::{scan_alone, scan_with_key, scan_with_text, scan_with_word};
use wf_def::{Classes, Feature, Features, Layer, LayerKind, MOST_POINTS, Part, Text};
use wf_feature::{LayerName, LayerRead};

/// The kind of layer whose line is ahead; any, if none is.
fn kind_ahead(cursor: &Cursor<'_>) -> LayerKind {
    if cursor.is_at(b"TYPE POINT") {
        LayerKind::Points
    } else if cursor.is_at(b"TYPE LINE") {
        LayerKind::Lines
    } else {
        LayerKind::Polygons
    }
}

/// Scans the line of the names of a layer's attributes.
#[tactic(auto, unfolding(wf_block::specs::Spelling::line))]
fn scan_attribute_names(cursor: &mut Cursor<'_>) -> Option<Text>
    ensures { IfSome result (λ names. Scans cursor.old
        (line (with_text (codes "PROCESSING") (codes "ITEMS=" ++ names))) cursor.new) }
{
    cursor.take(b"PROCESSING ");
    let bytes = cursor.take_quoted()?;
    cursor.take(b"\n");
    let names = bytes.strip_prefix(b"ITEMS=")?;
    match Text::new(cursor.alloc(), names) {
        Ok(names) => Some(names),
        Err(_) => None,
    }
}

/// Scans a layer's METADATA block, and returns the title.
fn scan_metadata(cursor: &mut Cursor<'_>) -> Option<Text>
    ensures { IfSome result (λ title. Scans cursor.old (text_of (metadata_lines title))
        cursor.new) }
{
    scan_alone(cursor, "METADATA");
    let title = scan_with_key(cursor, "wms_title");
    scan_alone(cursor, "END");
    title
}

/// Scans the classes of a layer.
fn scan_classes(cursor: &mut Cursor<'_>) -> Option<Classes>
    ensures { IfSome result (λ classes. Scans cursor.old (text_of (flat_map class_lines classes))
        cursor.new) }
{
    let mut classes = Classes::new(cursor.alloc());
    for _ in 0..cursor.len() {
        if !cursor.is_at(b"CLASS") {
            break;
        }
        if classes.is_full() {
            break;
        }
        let Some(class) = scan_class(cursor) else {
            drop(classes);
            return None;
        };
        let Ok(()) = classes.push(class) else {
            drop(classes);
            return None;
        };
    }
    Some(classes)
}

/// Scans the features of a layer.
fn scan_features(cursor: &mut Cursor<'_>) -> Option<Features>
    ensures { IfSome result (λ features. Scans cursor.old
        (text_of (flat_map feature_lines features)) cursor.new) }
{
    let mut features = Features::new(cursor.alloc());
    for _ in 0..cursor.len() {
        if !cursor.is_at(b"FEATURE") {
            break;
        }
        let Some(feature) = scan_feature(cursor) else {
            drop(features);
            return None;
        };
        let Ok(()) = features.push(feature) else {
            drop(features);
            return None;
        };
    }
    // Most of a map's memory is its features.
    features.shrink_to_fit();
    Some(features)
}

/// The parts of a layer before its classes, in the order of the text.
#[derive(Drop)]
struct Heading {
    name: Text,
    kind: LayerKind,
    class_item: Text,
    label_item: Text,
    items: Text,
    title: Text,
}

/// Scans the lines of a layer before its classes.
fn scan_heading(cursor: &mut Cursor<'_>) -> Option<Heading>
    ensures { IfSome result (λ h. Scans cursor.old
        (text_of (layer_heading_lines h.name h.kind h.class_item h.label_item h.items h.title))
        cursor.new) }
{
    let name = scan_with_text(cursor, "NAME")?;
    let kind = kind_ahead(cursor);
    scan_with_word(cursor, "TYPE", kind_word(kind));
    let Some(class_item) = scan_with_text(cursor, "CLASSITEM") else {
        drop(name);
        return None;
    };
    let Some(label_item) = scan_with_text(cursor, "LABELITEM") else {
        drop(name);
        drop(class_item);
        return None;
    };
    let Some(items) = scan_attribute_names(cursor) else {
        drop(name);
        drop(class_item);
        drop(label_item);
        return None;
    };
    let Some(title) = scan_metadata(cursor) else {
        drop(name);
        drop(class_item);
        drop(label_item);
        drop(items);
        return None;
    };
    Some(Heading {
        name,
        kind,
        class_item,
        label_item,
        items,
        title,
    })
}

/// Adds the points of parts to a count, unless they are more than a map may have.
fn add_points(count: usize, parts: &[Part]) -> Option<usize>
    requires { count ≤ most_points }
    ensures counted { IfSome result (λ sum. sum ≡ count + sum_by length parts.now) }
    ensures most { IfSome result (λ sum. sum ≤ most_points) }
{
    let mut sum = count;
    for part in parts {
        let points = part.len();
        if points > MOST_POINTS.saturating_sub(sum) {
            return None;
        }
        sum += points;
    }
    Some(sum)
}

/// The number of points of features, unless they are more than a map may have.
fn count_points(features: &[Feature]) -> Option<usize>
    ensures { IfSome result (λ count. count ≡ sum_by points_of_feature features.now) }
{
    let mut count = 0;
    for feature in features {
        let Some(sum) = add_points(count, feature.parts()) else {
            return None;
        };
        count = sum;
    }
    Some(count)
}

/// The layer with its name, if it is within the limits.
fn whole_layer(heading: Heading, classes: Classes, features: Features) -> Option<LayerRead>
    ensures value { IfSome result (λ read. IsWhole heading classes features read.name read.layer) }
    ensures counted { IfSome result
        (λ read. read.points ≡ sum_by points_of_feature read.layer.features) }
{
    let Some(points) = count_points(features.as_slice()) else {
        drop(heading);
        drop(classes);
        drop(features);
        return None;
    };
    let Heading {
        name,
        kind,
        class_item,
        label_item,
        items,
        title,
    } = heading;
    let Some(layer) = Layer::new(
        kind, title, class_item, label_item, items, classes, features,
    ) else {
        drop(name);
        return None;
    };
    let Some(name) = LayerName::new(name) else {
        drop(layer);
        return None;
    };
    Some(LayerRead {
        name,
        layer,
        points,
    })
}

/// Scans a layer with its name.
pub fn scan_layer(cursor: &mut Cursor<'_>) -> Option<LayerRead>
    ensures scanned { IfSome result
        (λ read. Scans cursor.old (text_of (layer_lines (read.name, read.layer))) cursor.new) }
    ensures counted { IfSome result
        (λ read. read.points ≡ sum_by points_of_feature read.layer.features) }
{
    scan_alone(cursor, "LAYER");
    let heading = scan_heading(cursor)?;
    let Some(classes) = scan_classes(cursor) else {
        drop(heading);
        return None;
    };
    let Some(features) = scan_features(cursor) else {
        drop(heading);
        drop(classes);
        return None;
    };
    scan_alone(cursor, "END");
    whole_layer(heading, classes, features)
}
