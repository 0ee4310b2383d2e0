//! The painter: paints a map's layers over a background.
//!
//! It paints from the last operation to the first. The first operation met that covers a pixel sets
//! its colour; what lies under painted pixels costs nothing.
ghost use Rattle.std.specs.Prelude.{◌≡◌, ◌<◌, ◌≤◌, ◌+◌, None, is_some, cond, max, length, drop, slice_index, OnOk, IfOk};
ghost use Rattle.std.specs.Bool.{Decides};
ghost use Rattle.std.specs.List.{All, Contains, flat_map};
ghost use Rattle.wf_geometry.specs.Operation.{operations, layer_operations, feature_operations, squares, part_squares, color_at};
ghost use Rattle.wf_paint.specs.Styles.{line_along, filled_and_outlined};
ghost use Rattle.wf_paint.specs.Pixmap.{IsPicture};
ghost use Rattle.wf_paint.specs.Shown.{IsShown};

use crate::about::draw_about;
use crate::along::draw_along;
use crate::canvas::Canvas;
use crate::edges::Edges;
use crate::inside::draw_inside;
use crate::pixmap::Pixmap;
use crate::segments::{paths, rings};
use std::alloc::{AllocError, Global};
use wf_def::{Color, Feature, Layer, LayerKind, MapDef, Part, Point, Style};
use wf_geometry::View;

/// Paints the layers at these indices of the map, each over those before it, over a background.
/// Each pixel has the colour of the last operation that covers it, else the background. Returns Ok
/// unless allocation fails.
pub fn paint(
    alloc: Global,
    map: &MapDef,
    layers: &[usize],
    view: &View,
    background: Color,
) -> Result<Pixmap, AllocError>
    requires { All (λ i. i < length map.now.layers) layers.now }
    ensures { IfOk result (λ p. IsPicture view.now.width view.now.height
        (color_at (operations map.now layers.now view.now) background) p) }
{
    paint_after(alloc, 0, map, layers, view, background)
}

/// Paints as [`paint`] does, with room for so many bytes before the picture's own:
/// [`Pixmap::into_file`] writes a head of that length there.
pub fn paint_after(
    alloc: Global,
    room: u8,
    map: &MapDef,
    layers: &[usize],
    view: &View,
    background: Color,
) -> Result<Pixmap, AllocError>
    requires { All (λ i. i < length map.now.layers) layers.now }
    ensures { IfOk result (λ p. IsPicture view.now.width view.now.height
        (color_at (operations map.now layers.now view.now) background) p) }
{
    let mut canvas = Canvas::plain(alloc, room, view.width(), view.height(), background)?;
    draw_layers(alloc, &mut canvas, map, layers, view)?;
    Ok(canvas.finish())
}

/// Paints the layers from the last to the first. A layer that is listed again later is painted only
/// there: it would cover the same pixels.
#[tactic(auto, unfolding(wf_geometry::specs::Operation::operations))]
fn draw_layers(
    alloc: Global,
    canvas: &mut Canvas,
    map: &MapDef,
    layers: &[usize],
    view: &View,
) -> Result<(), AllocError>
    requires { All (λ i. i < length map.now.layers) layers.now }
    ensures { OnOk result (IsShown (operations map.now layers.now view.now) canvas.old canvas.new) }
{
    for index in (0..layers.len()).rev() {
        if is_named_again(layers, index) {
            continue;
        }
        let (_, layer) = map.layer(layers[index]);
        draw_layer(alloc, canvas, view, layer)?;
    }
    Ok(())
}

/// Whether the layer at this index of the list is listed again later.
fn is_named_again(layers: &[usize], index: usize) -> bool
    requires { index < length layers.now }
    ensures { Decides result
        (Contains (drop (index + 1) layers.now) (slice_index layers.now index)) }
{
    layers[index + 1..].contains(&layers[index])
}

/// Paints a layer's features from the last to the first, until the canvas is full.
#[tactic(auto, unfolding(wf_geometry::specs::Operation::layer_operations))]
fn draw_layer(
    alloc: Global,
    canvas: &mut Canvas,
    view: &View,
    layer: &Layer,
) -> Result<(), AllocError>
    ensures { OnOk result (IsShown (layer_operations view.now layer.now) canvas.old canvas.new) }
{
    let features = layer.features();
    for index in (0..features.len()).rev() {
        if canvas.is_full() {
            return Ok(());
        }
        draw_feature(alloc, canvas, view, layer, &features[index])?;
    }
    Ok(())
}

/// Paints a feature's parts by the styles of its class; nothing if it has none.
#[tactic(auto, unfolding(wf_geometry::specs::Operation::line, wf_geometry::specs::Operation::polygon))]
fn draw_feature(
    alloc: Global,
    canvas: &mut Canvas,
    view: &View,
    layer: &Layer,
    feature: &Feature,
) -> Result<(), AllocError>
    ensures { OnOk result
        (IsShown (feature_operations view.now layer.now feature.now) canvas.old canvas.new) }
{
    let Some(index) = layer.class_of(feature) else {
        return Ok(());
    };
    let parts = feature.parts();
    let styles = layer.classes()[index].styles();
    match layer.kind() {
        LayerKind::Points => {
            draw_markers(canvas, view, parts, styles);
            Ok(())
        }
        LayerKind::Lines => {
            let segments = Edges::new(alloc, paths(alloc, view, parts)?)?;
            draw_lines(canvas, &segments, styles);
            Ok(())
        }
        LayerKind::Polygons => {
            let edges = Edges::new(alloc, rings(alloc, view, parts)?)?;
            draw_polygons(alloc, canvas, &edges, styles)
        }
    }
}

/// Paints polygons by the styles from the last to the first, until the canvas is full. The inside
/// is filled once, since all styles fill the same pixels; a border is painted if it is wider than
/// the later ones.
fn draw_polygons(
    alloc: Global,
    canvas: &mut Canvas,
    edges: &Edges,
    styles: &[Style],
) -> Result<(), AllocError>
    ensures { OnOk result
        (IsShown (flat_map (filled_and_outlined edges.now) styles.now) canvas.old canvas.new) }
{
    let mut filled = false;
    let mut widest = 0;
    for index in (0..styles.len()).rev() {
        if canvas.is_full() {
            return Ok(());
        }
        let style = &styles[index];
        let width = style.width.get();
        let border = line_color(style.outline_color, width, widest);
        draw_along(canvas, width, edges, border);
        draw_inside(alloc, canvas, edges, inner_color(style, filled))?;
        filled |= style.color.is_some();
        widest = widest_line(style.outline_color, width, widest);
    }
    Ok(())
}

/// The colour of a style's inside; None if a later style has filled it.
fn inner_color(style: &Style, filled: bool) -> Option<Color>
    ensures { result ≡ cond filled None style.now.color }
{
    if filled { None } else { style.color }
}

/// The colour of a line of this width; None if the widest later line along the same segments is at
/// least as wide, since that covers all its pixels.
fn line_color(color: Option<Color>, width: u8, widest: u8) -> Option<Color>
    ensures hidden { width ≤ widest → result ≡ None }
    ensures visible { widest < width → result ≡ color }
{
    if width <= widest { None } else { color }
}

/// The width of the widest line so far, this one included if it has a colour; 0 if there is none.
fn widest_line(color: Option<Color>, width: u8, widest: u8) -> u8
    ensures { result ≡ cond (is_some color) (max widest width) widest }
{
    if color.is_some() {
        widest.max(width)
    } else {
        widest
    }
}

/// Paints lines along the segments by the styles from the last to the first, until the canvas is
/// full. A line is painted if it is wider than the later ones.
fn draw_lines(canvas: &mut Canvas, segments: &Edges, styles: &[Style])
    ensures { IsShown (flat_map (line_along segments.now) styles.now) canvas.old canvas.new }
{
    let mut widest = 0;
    for index in (0..styles.len()).rev() {
        if canvas.is_full() {
            return;
        }
        let style = &styles[index];
        let width = style.width.get();
        let color = line_color(style.color, width, widest);
        draw_along(canvas, width, segments, color);
        widest = widest_line(style.color, width, widest);
    }
}

/// Paints squares about the points by the styles from the last to the first, until the canvas is
/// full.
fn draw_markers(canvas: &mut Canvas, view: &View, parts: &[Part], styles: &[Style])
    ensures { IsShown
        (flat_map (λ style. squares view.now style parts.now) styles.now) canvas.old canvas.new }
{
    for index in (0..styles.len()).rev() {
        if canvas.is_full() {
            return;
        }
        draw_squares(canvas, view, parts, &styles[index]);
    }
}

/// Paints a square about each point, from the last part to the first.
#[tactic(auto, unfolding(wf_geometry::specs::Operation::squares))]
fn draw_squares(canvas: &mut Canvas, view: &View, parts: &[Part], style: &Style)
    ensures { IsShown (squares view.now style.now parts.now) canvas.old canvas.new }
{
    for index in (0..parts.len()).rev() {
        draw_part_squares(canvas, view, parts[index].as_slice(), style);
    }
}

/// Paints a square about each point of a part, from the last to the first.
#[tactic(auto, unfolding(wf_geometry::specs::Operation::part_squares))]
fn draw_part_squares(canvas: &mut Canvas, view: &View, points: &[Point], style: &Style)
    ensures { IsShown (part_squares view.now style.now points.now) canvas.old canvas.new }
{
    for index in (0..points.len()).rev() {
        draw_about(
            canvas,
            style.size.get(),
            view.position(&points[index]),
            style.color,
        );
    }
}
