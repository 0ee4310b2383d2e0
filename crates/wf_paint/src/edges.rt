//! Segments that lines are drawn along and insides are bounded by.
ghost use Rattle.std.specs.Prelude.{◌≡◌, ◌++◌, ◌∷◌, ◌-◌, [], Some, true, length, slice_get, IfOk, OnOk};
ghost use Rattle.std.specs.List.Sorted.{IsPermutation};
ghost use Rattle.wf_paint.specs.Edges.{AreAlong, AreAround, drawn_of};

use std::alloc::{AllocError, Global};
use std::marker::Model;
use wf_geometry::{Position, Segment};

/// From so many segments on equal ones are looked for. Fewer are drawn sooner than sorted.
const MANY: usize = 256;

/// Segments. Beside many of them are kept those that differ, since a line along these covers what
/// one along all does, and those that are there an odd number of times, since they have the same
/// inside.
#[derive(Drop)]
pub(crate) struct Edges {
    all: Vec<Segment>,
    distinct: Option<Vec<Segment>>,
    odd: Option<Vec<Segment>>,
}

impl Model for Edges {
    ghost use Rattle.std.specs.Prelude.{List};
    ghost use Rattle.wf_paint.specs.Edges.{AreAlong, AreAround, drawn_of};
    ghost use Rattle.wf_geometry.specs.declared.operation.Segment.{Segment};

    ghost Value = { List Segment };

    ghost view = { λ e. e.all.items };

    ghost invariant = { λ e. AreAlong e.all.items (drawn_of e.all.items e.distinct)
        × AreAround e.all.items (drawn_of e.all.items e.odd) };
}

impl Edges {
    /// These segments. Returns Ok unless allocation fails.
    pub(crate) fn new(alloc: Global, all: Vec<Segment>) -> Result<Self, AllocError>
        ensures { IfOk result (λ edges. edges ≡ all.items) }
    {
        let distinct = distinct_of_many(alloc, &all)?;
        let odd = odd_of_many(alloc, &all)?;
        Ok(Edges { all, distinct, odd })
    }

    /// Those that bound the inside.
    pub(crate) fn around(&self) -> &[Segment]
        ensures { AreAround self.now result.now }
    {
        match &self.odd {
            Some(odd) => odd,
            None => &self.all,
        }
    }

    /// Those that a line is drawn along.
    pub(crate) fn line_segments(&self) -> &[Segment]
        ensures { AreAlong self.now result.now }
    {
        match &self.distinct {
            Some(distinct) => distinct,
            None => &self.all,
        }
    }
}

/// The segments that differ, if there are many.
fn distinct_of_many(alloc: Global, all: &[Segment]) -> Result<Option<Vec<Segment>>, AllocError>
    ensures { IfOk result (λ distinct. AreAlong all.now (drawn_of all.now distinct)) }
{
    if all.len() < MANY {
        return Ok(None);
    }
    let distinct = unlike_neighbours(alloc, &sort_segments(alloc, all)?)?;
    Ok(Some(distinct))
}

/// The segments that are there an odd number of times, if there are many.
fn odd_of_many(alloc: Global, all: &[Segment]) -> Result<Option<Vec<Segment>>, AllocError>
    ensures { IfOk result (λ odd. AreAround all.now (drawn_of all.now odd)) }
{
    if all.len() < MANY {
        return Ok(None);
    }
    let odd = odd_neighbours(alloc, &sort_segments(alloc, all)?)?;
    Ok(Some(odd))
}

/// The segments by their positions, so that equal ones are neighbours.
fn sort_segments(alloc: Global, segments: &[Segment]) -> Result<Vec<Segment>, AllocError>
    ensures { IfOk result (λ sorted. IsPermutation segments.now sorted.items) }
{
    let mut sorted = Vec::with_capacity(alloc, segments.len())?;
    sorted.extend_from_slice(segments)?;
    sorted.sort_unstable_by_key(|segment| {
        let (from, to) = (segment.from, segment.to);
        (from.x(), from.y(), to.x(), to.y())
    });
    Ok(sorted)
}

/// The segments that differ from the one before them.
fn unlike_neighbours(alloc: Global, segments: &[Segment]) -> Result<Vec<Segment>, AllocError>
    ensures { IfOk result (λ distinct. AreAlong segments.now distinct.items) }
{
    let mut distinct = Vec::new(alloc);
    for segment in segments {
        push_unlike(&mut distinct, segment)?;
    }
    Ok(distinct)
}

/// Appends the segment, unless the last one equals it.
fn push_unlike(segments: &mut Vec<Segment>, segment: &Segment) -> Result<(), AllocError>
    ensures { OnOk result (AreAlong
        (segments.old.items ++ segment.now ∷ []) segments.new.items) }
{
    match segments.last() {
        Some(last) if is_same(last, segment) => Ok(()),
        _ => {
            segments.push(*segment)?;
            Ok(())
        }
    }
}

/// The segments of which an odd number of equal ones are neighbours.
fn odd_neighbours(alloc: Global, segments: &[Segment]) -> Result<Vec<Segment>, AllocError>
    ensures { IfOk result (λ odd. AreAround segments.now odd.items) }
{
    let mut odd = Vec::new(alloc);
    for segment in segments {
        push_or_cancel(&mut odd, segment)?;
    }
    Ok(odd)
}

/// Appends the segment; if the last one equals it, removes that instead: a ray that meets both
/// meets an even number.
fn push_or_cancel(segments: &mut Vec<Segment>, segment: &Segment) -> Result<(), AllocError>
    ensures { OnOk result (AreAround
        (segments.old.items ++ segment.now ∷ []) segments.new.items) }
{
    let cancels = ends_with(segments, segment);
    if cancels {
        segments.pop();
    } else {
        segments.push(*segment)?;
    }
    Ok(())
}

/// Whether the last segment is this one.
fn ends_with(segments: &[Segment], segment: &Segment) -> bool
    ensures { result ≡ true → slice_get segments.now (length segments.now - 1) ≡ Some segment.now }
{
    match segments.last() {
        Some(last) => is_same(last, segment),
        None => false,
    }
}

/// Whether both have the same ends.
fn is_same(a: &Segment, b: &Segment) -> bool
    ensures { result ≡ true → a.now ≡ b.now }
{
    is_at(a.from, b.from) && is_at(a.to, b.to)
}

/// Whether both are the same position.
fn is_at(a: Position, b: Position) -> bool
    ensures { result ≡ true → a ≡ b }
{
    a.x() == b.x() && a.y() == b.y()
}
