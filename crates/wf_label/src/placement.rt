//! The labels that are placed.
ghost use Rattle.std.specs.Prelude.{◌≡◌, ◌<◌, ◌++◌, ◌∷◌, [], true, length, IfOk, OnOk};
ghost use Rattle.std.specs.List.{All, list_any};
ghost use Rattle.wf_label.specs.PixelBox.{overlap, box_of};
ghost use Rattle.wf_label.specs.Label.{candidates};
ghost use Rattle.wf_label.specs.Placed.{placed_value, placed_values};
ghost use Rattle.wf_label.specs.LabelLayout.{IsLayout, joined, stands};
ghost use Rattle.wf_label.specs.Taken.{LiesInView, IsSolid, IsTaken};

use crate::label_order::candidates;
use crate::overlap::{box_of, is_whole_in, widen};
use crate::placed::{PixelBox, Placed};
use crate::taken::{mark, meets_marked};
use std::alloc::{AllocError, Global};
use wf_def::MapDef;
use wf_geometry::View;

/// The placed labels of the map's layers at these indices, in label order (MapServer mapfile
/// reference, LABEL FORCE, BUFFER): those whose box lies whole in the view and that are forced, or
/// whose box widened by the buffer has no pixel in common with the box of a label placed before.
/// Allocation failure is the only error.
pub fn place<'a>(
    alloc: Global,
    map: &'a MapDef,
    layers: &[usize],
    view: &View,
) -> Result<Vec<Placed<'a>>, AllocError>
    requires { All (λ i. i < length map.now.layers) layers.now }
    ensures { IfOk result (λ placed.
        IsLayout view.now (candidates map.now layers.now view.now) (placed_values placed.items)) }
{
    let labels = candidates(alloc, map, layers, view)?;
    place_among(alloc, &labels, view)
}

/// The labels placed so far, and which pixels of the view their boxes take: a bit a pixel.
#[derive(Drop)]
struct LabelLayout<'a> {
    placed: Vec<Placed<'a>>,
    marks: Vec<u64>,
}

/// The placed ones of some labels, which are given in label order.
fn place_among<'a>(
    alloc: Global,
    labels: &[Placed<'a>],
    view: &View,
) -> Result<Vec<Placed<'a>>, AllocError>
    requires { All (λ label. 0 < length label.text) (placed_values labels.now) }
    ensures { IfOk result
        (λ placed. IsLayout view.now (placed_values labels.now) (placed_values placed.items)) }
{
    let mut layout = none_placed(alloc, view)?;
    for label in labels {
        place_label(&mut layout, view, label)?;
    }
    let LabelLayout { placed, marks } = layout;
    drop(marks);
    Ok(placed)
}

/// No labels, which take no pixel.
fn none_placed<'a>(alloc: Global, view: &View) -> Result<LabelLayout<'a>, AllocError>
    ensures none { IfOk result (λ layout. layout.placed.items ≡ []) }
    ensures taken { IfOk result (λ layout. IsTaken view.now [] layout.marks.items) }
{
    let marks = vec![in alloc; 0; (view.width() * view.height() / 64 + 1) as usize]?;
    Ok(LabelLayout {
        placed: Vec::new(alloc),
        marks,
    })
}

/// Places the label, if it may be placed.
fn place_label<'a>(
    layout: &mut LabelLayout<'a>,
    view: &View,
    label: &Placed<'a>,
) -> Result<(), AllocError>
    requires text { 0 < length label.now.text.now }
    requires taken { IsTaken view.now
        (placed_values layout.old.placed.items) layout.old.marks.items }
    ensures placed { OnOk result (placed_values layout.new.placed.items
        ≡ joined view.now (placed_values layout.old.placed.items) (placed_value label.now)) }
    ensures taken { OnOk result
        (IsTaken view.now (placed_values layout.new.placed.items) layout.new.marks.items) }
{
    if stands(layout, view, label) {
        add(layout, view, label)?;
    }
    Ok(())
}

/// Places the label.
fn add<'a>(layout: &mut LabelLayout<'a>, view: &View, label: &Placed<'a>) -> Result<(), AllocError>
    requires shown { LiesInView view.now (placed_value label.now) }
    requires taken { IsTaken view.now
        (placed_values layout.old.placed.items) layout.old.marks.items }
    ensures placed { OnOk result (placed_values layout.new.placed.items
        ≡ placed_values layout.old.placed.items ++ placed_value label.now ∷ []) }
    ensures taken { OnOk result
        (IsTaken view.now (placed_values layout.new.placed.items) layout.new.marks.items) }
{
    layout.placed.push(*label)?;
    mark(&mut layout.marks, view, &box_of(label));
    Ok(())
}

/// Whether the label may be placed, given the labels placed before it.
#[tactic(auto, unfolding(crate::specs::LabelLayout::stands, crate::specs::PixelBox::meets))]
fn stands(layout: &LabelLayout, view: &View, label: &Placed) -> bool
    requires text { 0 < length label.now.text.now }
    requires taken { IsTaken view.now
        (placed_values layout.now.placed.items) layout.now.marks.items }
    ensures value { result
        ≡ stands view.now (placed_values layout.now.placed.items) (placed_value label.now) }
    ensures shown { result ≡ true → LiesInView view.now (placed_value label.now) }
{
    let pixel_box = box_of(label);
    is_whole_in(view, &pixel_box)
        && (label.force || !meets_any(layout, view, &widen(label.buffer, &pixel_box)))
}

/// Whether the box has a pixel in common with the box of one of the labels placed so far.
fn meets_any(layout: &LabelLayout, view: &View, pixel_box: &PixelBox) -> bool
    requires solid { IsSolid pixel_box.now }
    requires taken { IsTaken view.now
        (placed_values layout.now.placed.items) layout.now.marks.items }
    ensures { result ≡ list_any
        (λ other. overlap pixel_box.now (box_of other)) (placed_values layout.now.placed.items) }
{
    meets_marked(&layout.marks, view, pixel_box)
}
