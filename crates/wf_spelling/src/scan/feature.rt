//! Scans a feature with its parts.

ghost use Rattle.std.specs.Prelude.{map, IfSome};
ghost use Rattle.std.specs.List.{flat_map};
ghost use Rattle.wf_block.specs.Spelling.{text_of};
ghost use Rattle.wf_spelling.specs.Canon.{point_line, part_lines, feature_lines};
ghost use Rattle.wf_spelling.specs.Scan.{Scans};

use crate::scan::cursor::Cursor;
use crate::scan::line::{scan_alone, scan_point, scan_with_rare_text};
use wf_def::{Feature, Part, ShapeParts};

/// Scans points up to a line that isn't a point.
fn scan_points(cursor: &mut Cursor<'_>) -> Option<Part>
    ensures { IfSome result (λ part. Scans cursor.old (text_of (map point_line part)) cursor.new) }
{
    let mut part = Part::new(cursor.alloc());
    for _ in 0..cursor.len() {
        if cursor.is_at(b"END\n") {
            break;
        }
        let Some(point) = scan_point(cursor) else {
            drop(part);
            return None;
        };
        let Ok(()) = part.push(point) else {
            drop(part);
            return None;
        };
    }
    Some(part)
}

/// Scans a part of a shape.
fn scan_part(cursor: &mut Cursor<'_>) -> Option<Part>
    ensures { IfSome result (λ part. Scans cursor.old (text_of (part_lines part)) cursor.new) }
{
    scan_alone(cursor, "POINTS");
    let part = scan_points(cursor);
    cursor.take(b"END\n");
    part
}

/// Scans the parts of a shape.
fn scan_parts(cursor: &mut Cursor<'_>) -> Option<ShapeParts>
    ensures { IfSome result (λ parts. Scans cursor.old (text_of (flat_map part_lines parts))
        cursor.new) }
{
    let mut parts = ShapeParts::new(cursor.alloc());
    for _ in 0..cursor.len() {
        if !cursor.is_at(b"POINTS") {
            break;
        }
        let Some(part) = scan_part(cursor) else {
            drop(parts);
            return None;
        };
        let Ok(()) = parts.push(part) else {
            drop(parts);
            return None;
        };
    }
    Some(parts)
}

/// Scans a feature.
pub fn scan_feature(cursor: &mut Cursor<'_>) -> Option<Feature>
    ensures { IfSome result (λ feature. Scans cursor.old (text_of (feature_lines feature))
        cursor.new) }
{
    // A map is read in the time of its features, so their lines are compared in pieces of at most
    // eight bytes: each is a comparison.
    cursor.take(b"FEATURE\n");
    let items = scan_with_rare_text(cursor, "ITEMS", b"ITEMS \"\"")?;
    let Some(text) = scan_with_rare_text(cursor, "TEXT", b"TEXT \"\"") else {
        drop(items);
        return None;
    };
    let Some(parts) = scan_parts(cursor) else {
        drop(items);
        drop(text);
        return None;
    };
    cursor.take(b"END\n");
    Feature::new(parts, items, text)
}
