//! Appends the canonical text of a feature with its parts.

ghost use Rattle.std.specs.Prelude.{map};
ghost use Rattle.std.specs.List.{flat_map};
ghost use Rattle.wf_spelling.specs.Canon.{point_line, part_lines, feature_lines};
ghost use Rattle.wf_block.specs.Spelling.{text_of};
ghost use Rattle.wf_spelling.specs.Draft.{Writes};

use crate::draft::Draft;
use crate::line::{push_alone, push_point, push_with_text};
use wf_def::{Feature, Part, Point};

/// Writes points, one on each line.
fn push_points(out: &mut Draft, points: &[Point])
    ensures { Writes out.old (text_of (map point_line points.now)) out.new }
{
    for point in points {
        push_point(out, *point);
    }
}

/// Writes a part of a shape.
fn push_part(out: &mut Draft, part: &Part)
    ensures { Writes out.old (text_of (part_lines part.now)) out.new }
{
    push_alone(out, "POINTS");
    push_points(out, part.as_slice());
    push_alone(out, "END");
}

/// Writes parts, one after the other.
fn push_parts(out: &mut Draft, parts: &[Part])
    ensures { Writes out.old (text_of (flat_map part_lines parts.now)) out.new }
{
    for part in parts {
        push_part(out, part);
    }
}

/// Writes a feature.
pub fn push_feature(out: &mut Draft, feature: &Feature)
    ensures { Writes out.old (text_of (feature_lines feature.now)) out.new }
{
    push_alone(out, "FEATURE");
    push_with_text(out, "ITEMS", feature.items().as_bytes());
    push_with_text(out, "TEXT", feature.text().as_bytes());
    push_parts(out, feature.parts());
    push_alone(out, "END");
}
