//! The segments of a feature's parts, in a view.
ghost use Rattle.std.specs.Prelude.{◌≡◌, List, ◌++◌, OnOk, IfOk};
ghost use Rattle.wf_geometry.specs.Position.{PositionValue};
ghost use Rattle.wf_geometry.specs.Segments.{path_from, path, ring, positions, paths, rings};

use std::alloc::{AllocError, Global};
use wf_def::{Part, Point};
use wf_geometry::{Position, Segment, View};

/// The segments from each point of a part to the next, part by part.
#[tactic(auto, unfolding(wf_geometry::specs::Segments::paths))]
pub(crate) fn paths(alloc: Global, view: &View, parts: &[Part]) -> Result<Vec<Segment>, AllocError>
    ensures { IfOk result (λ s. s.items ≡ paths view.now parts.now) }
{
    let mut segments = Vec::new(alloc);
    for part in parts {
        push_path(&mut segments, view, part.as_slice())?;
    }
    Ok(segments)
}

/// The segments from each point of a part to the next and from its last back to its first, part by
/// part.
#[tactic(auto, unfolding(wf_geometry::specs::Segments::rings))]
pub(crate) fn rings(alloc: Global, view: &View, parts: &[Part]) -> Result<Vec<Segment>, AllocError>
    ensures { IfOk result (λ s. s.items ≡ rings view.now parts.now) }
{
    let mut segments = Vec::new(alloc);
    for part in parts {
        push_ring(&mut segments, view, part.as_slice())?;
    }
    Ok(segments)
}

/// Appends the segments from each point to the next.
fn push_path(segments: &mut Vec<Segment>, view: &View, points: &[Point]) -> Result<(), AllocError>
    ensures { OnOk result
        (segments.new.items ≡ segments.old.items ++ path (positions view.now points.now)) }
{
    if let [first, rest @ ..] = points {
        push_way(segments, view, view.position(first), rest)?;
    }
    Ok(())
}

/// Appends the segments from a position to the first point, and from each point to the next.
fn push_way(
    segments: &mut Vec<Segment>,
    view: &View,
    start: Position,
    points: &[Point],
) -> Result<(), AllocError>
    ensures { OnOk result (segments.new.items
        ≡ segments.old.items ++ path_from start (positions view.now points.now)) }
{
    push_from(segments, view, start, points)?;
    Ok(())
}

/// Appends the segments from each point to the next, and from the last back to the first.
fn push_ring(segments: &mut Vec<Segment>, view: &View, points: &[Point]) -> Result<(), AllocError>
    ensures { OnOk result
        (segments.new.items ≡ segments.old.items ++ ring (positions view.now points.now)) }
{
    if let [first, rest @ ..] = points {
        let first = view.position(first);
        let last = push_from(segments, view, first, rest)?;
        segments.push(Segment {
            from: last,
            to: first,
        })?;
    }
    Ok(())
}

/// Appends the segments from each point to the next, and returns the last position. Followed by the
/// segments from there through any further positions, they are those of the whole path.
fn push_from(
    segments: &mut Vec<Segment>,
    view: &View,
    start: Position,
    points: &[Point],
) -> Result<Position, AllocError>
    ensures { IfOk result
        (λ last. (further : List PositionValue) → segments.new.items ++ path_from last further
        ≡ segments.old.items ++ path_from start (positions view.now points.now ++ further)) }
{
    let mut last = start;
    for point in points {
        let to = view.position(point);
        segments.push(Segment { from: last, to })?;
        last = to;
    }
    Ok(last)
}
