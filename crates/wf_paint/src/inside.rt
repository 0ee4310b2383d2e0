//! The inside of edges, row by row: between the sorted positions where the edges cross the row.
ghost use Rattle.std.specs.Prelude.{◌≡◌, ℕ, ◌+◌, ◌%◌, ◌<◌, ◌≤◌, ◌==◌, ◌&&◌, nat_lt, length, ℤ, pos, ◌≤ℤ◌, OnOk, IfOk};
ghost use Rattle.std.specs.List.{All, count_by};
ghost use Rattle.std.specs.List.Sorted.{IsNonDecreasing};
ghost use Rattle.wf_geometry.specs.Position.{centre};
ghost use Rattle.wf_geometry.specs.Coverage.{is_inside};
ghost use Rattle.wf_geometry.specs.Operation.{in_color, FillOf};
ghost use Rattle.wf_paint.specs.Marks.{IsClear, IsMarked};
ghost use Rattle.wf_paint.specs.Shown.{IsShown, IsColored};
ghost use Rattle.wf_geometry.specs.Limit.{most_pixels};

use crate::canvas::Canvas;
use crate::edges::Edges;
use std::alloc::{AllocError, Global};
use wf_def::Color;
use wf_geometry::{Segment, centres_below, find_reaches};

/// From so many reaches in a row on, marks are faster than sorting.
const MANY: usize = 128;

/// Paints the inside of the edges, in the rows between their lowest and their highest end; nothing
/// if `color` is None. Returns Ok unless allocation fails.
pub(crate) fn draw_inside(
    alloc: Global,
    canvas: &mut Canvas,
    edges: &Edges,
    color: Option<Color>,
) -> Result<(), AllocError>
    ensures { OnOk result (IsShown (in_color (FillOf edges.now) color) canvas.old canvas.new) }
{
    let Some(color) = color else {
        return Ok(());
    };
    let around = edges.around();
    let height = canvas.height();
    let start = centres_below(lowest(around), height);
    let end = centres_below(highest(around), height);
    let mut reaches = Vec::new(alloc);
    let mut odd = make_unmarked(alloc, canvas.width())?;
    for row in start..end {
        fill_row(canvas, around, row, &mut reaches, &mut odd, color)?;
    }
    Ok(())
}

/// The y of the lowest end, in sixteenths of a pixel.
fn lowest(edges: &[Segment]) -> i64
    ensures { All (λ edge. (result ≤ℤ edge.from.y) × (result ≤ℤ edge.to.y)) edges.now }
{
    let mut lowest = i64::MAX;
    for edge in edges {
        lowest = lowest.min(edge.from.y()).min(edge.to.y());
    }
    lowest
}

/// The y of the highest end, in sixteenths of a pixel.
fn highest(edges: &[Segment]) -> i64
    ensures { All (λ edge. (edge.from.y ≤ℤ result) × (edge.to.y ≤ℤ result)) edges.now }
{
    let mut highest = i64::MIN;
    for edge in edges {
        highest = highest.max(edge.from.y()).max(edge.to.y());
    }
    highest
}

/// Marks for the numbers up to `most`, of which none is marked.
fn make_unmarked(alloc: Global, most: u32) -> Result<Vec<u8>, AllocError>
    ensures size { IfOk result (λ marks. length marks.items ≡ most + 1) }
    ensures clear { IfOk result (λ marks. IsClear marks.items) }
{
    let marks = vec![in alloc; 0; most as usize + 1]?;
    Ok(marks)
}

/// Fills one row. The list of reaches is cleared first. No number is marked in `odd`, as before.
fn fill_row(
    canvas: &mut Canvas,
    edges: &[Segment],
    row: u32,
    reaches: &mut Vec<u32>,
    odd: &mut Vec<u8>,
    color: Color,
) -> Result<(), AllocError>
    requires row { row < canvas.old.height }
    requires size { length odd.old.items ≡ canvas.old.width + 1 }
    requires clear { IsClear odd.old.items }
    ensures filled { OnOk result (IsColored (λ column r. (r == row)
        && is_inside (centre (pos column) (pos row)) edges.now) color canvas.old canvas.new) }
    ensures size { OnOk result (length odd.new.items ≡ length odd.old.items) }
    ensures clear { OnOk result (IsClear odd.new.items) }
{
    find_reaches(edges, row, canvas.width(), reaches)?;
    sort_reaches(reaches, odd)?;
    cover_between(canvas, row, reaches, color);
    Ok(())
}

/// Sorts the reaches. Of many, only those stay that are there an odd number of times, each once:
/// the number of reaches after a column then differs by an even number. No number is marked in
/// `odd`, as before.
fn sort_reaches(reaches: &mut Vec<u32>, odd: &mut Vec<u8>) -> Result<(), AllocError>
    requires within { All (λ reach. reach < length odd.old.items) reaches.old.items }
    requires most { length odd.old.items ≤ most_pixels + 1 }
    requires clear { IsClear odd.old.items }
    ensures within { OnOk result (All (λ reach. reach < length odd.old.items) reaches.new.items) }
    ensures sorted { OnOk result (IsNonDecreasing reaches.new.items) }
    ensures parity { OnOk result ((u : ℕ) →
        count_by (nat_lt u) reaches.new.items % 2 ≡ count_by (nat_lt u) reaches.old.items % 2) }
    ensures size { OnOk result (length odd.new.items ≡ length odd.old.items) }
    ensures clear { OnOk result (IsClear odd.new.items) }
{
    if reaches.len() < MANY {
        reaches.sort_unstable();
        Ok(())
    } else {
        mark_odd(reaches, odd);
        take_marked(reaches, odd)
    }
}

/// Marks the reaches that are there an odd number of times.
fn mark_odd(reaches: &Vec<u32>, odd: &mut Vec<u8>)
    requires within { All (λ reach. reach < length odd.old.items) reaches.now.items }
    requires clear { IsClear odd.old.items }
    ensures size { length odd.new.items ≡ length odd.old.items }
    ensures marked { IsMarked reaches.now.items odd.new.items }
{
    for reach in reaches {
        let index = *reach as usize;
        odd[index] = 1 - odd[index];
    }
}

/// Replaces the list by the marked numbers, from the least to the greatest, and clears the marks.
fn take_marked(reaches: &mut Vec<u32>, odd: &mut Vec<u8>) -> Result<(), AllocError>
    requires within { All (λ reach. reach < length odd.old.items) reaches.old.items }
    requires most { length odd.old.items ≤ most_pixels + 1 }
    requires marked { IsMarked reaches.old.items odd.old.items }
    ensures within { OnOk result (All (λ reach. reach < length odd.old.items) reaches.new.items) }
    ensures sorted { OnOk result (IsNonDecreasing reaches.new.items) }
    ensures parity { OnOk result ((u : ℕ) →
        count_by (nat_lt u) reaches.new.items % 2 ≡ count_by (nat_lt u) reaches.old.items % 2) }
    ensures size { OnOk result (length odd.new.items ≡ length odd.old.items) }
    ensures clear { OnOk result (IsClear odd.new.items) }
{
    reaches.clear();
    let end = odd.len() as u32;
    for number in 0..end {
        if odd[number as usize] == 1 {
            odd[number as usize] = 0;
            reaches.push(number)?;
        }
    }
    Ok(())
}

/// Writes the colour to a row's free pixels after which an odd number of the reaches lie.
fn cover_between(canvas: &mut Canvas, row: u32, reaches: &[u32], color: Color)
    requires row { row < canvas.old.height }
    requires within { All (λ reach. reach ≤ canvas.old.width) reaches.now }
    requires sorted { IsNonDecreasing reaches.now }
    ensures { IsColored (λ column r.
        (r == row) && (count_by (nat_lt column) reaches.now % 2 == 1)) color canvas.old canvas.new }
{
    let mut is_covered = reaches.len() % 2 == 1;
    let mut from = 0;
    for to in reaches {
        if is_covered {
            canvas.cover(row, from, *to, color);
        }
        is_covered = !is_covered;
        from = *to;
    }
}
