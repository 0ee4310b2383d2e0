//! Pictures of a map.
ghost use Rattle.std.specs.Prelude.{◌≡◌, ◌<◌, true, length, IfOk};
ghost use Rattle.std.specs.List.{All};
ghost use Rattle.wf_picture.specs.Image.{image};
ghost use Rattle.wf_picture.specs.Picture.{corner_of, labelled, IsCutOut, IsImageOf, IsWholePicture, IsViewFor, IsPartOfView};

use crate::image::{file, header_size, image};
use crate::request::{PictureRequest, Size};
use std::alloc::{AllocError, Global};
use wf_def::{Color, MapDef};
use wf_geometry::{Corner, View};
use wf_label::{draw_labels, place, there_is_one_placed_set};
use wf_paint::{Pixmap, paint_after};

/// The picture of a request, as a file: its layers from the lowest to the uppermost over the
/// background, with their labels over them (OGC 06-042, 7.3.3). Where box and size are those of a
/// tile of the map's grid, the tile is cut out of the picture that sixteen tiles share, so that
/// shapes and labels continue across neighbouring tiles. Allocation failure is the only error.
pub fn draw(alloc: Global, map: &MapDef, request: &PictureRequest) -> Result<Vec<u8>, AllocError>
    requires { All (λ i. i < length map.now.layers) request.now.layers }
    ensures { IfOk result (λ file. IsImageOf map.now request.now file.items) }
{
    let view = view_of(map, request);
    let (layers, background) = (request.layers(), request.background());
    if is_whole(&view, request.size()) {
        return file_of(alloc, map, layers, &view, background);
    }
    let pixmap = draw_view(alloc, map, layers, &view, background)?;
    cut(alloc, &pixmap, &view, request.size())
}

/// Whether a picture of this size that lies in the view is all of it.
fn is_whole(view: &View, size: Size) -> bool
    ensures wide { result ≡ true → view.now.width ≡ size.width }
    ensures high { result ≡ true → view.now.height ≡ size.height }
{
    view.width() == size.width && view.height() == size.height
}

/// The picture of the whole view, as a file, which is painted behind its header.
fn file_of(
    alloc: Global,
    map: &MapDef,
    layers: &[usize],
    view: &View,
    background: Color,
) -> Result<Vec<u8>, AllocError>
    requires { All (λ i. i < length map.now.layers) layers.now }
    ensures { IfOk result (λ file. file.items ≡ image view.now.width view.now.height
        (labelled map.now layers.now view.now background)) }
{
    let room = header_size(view.width(), view.height());
    let pixmap = draw_labelled_after(alloc, room, map, layers, view, background)?;
    file(alloc, pixmap)
}

/// The view of a request: for a tile of the map's grid the one that sixteen tiles share. The
/// picture of the request lies within it.
pub fn view_of(map: &MapDef, request: &PictureRequest) -> View
    ensures is { IsViewFor map.now.extent request.now result }
    ensures within { IsPartOfView request.now.size result }
{
    let size = request.size();
    View::of(map, &request.bbox(), size.width, size.height)
}

/// The picture of the whole view: the map's layers at these indices, from the lowest to the
/// uppermost, over the background's colour, with their labels over them. The pictures of all
/// requests that have the view are parts of it. Allocation failure is the only error.
pub fn draw_view(
    alloc: Global,
    map: &MapDef,
    layers: &[usize],
    view: &View,
    background: Color,
) -> Result<Pixmap, AllocError>
    requires { All (λ i. i < length map.now.layers) layers.now }
    ensures { IfOk result (λ p. IsWholePicture map.now layers.now view.now background p) }
{
    draw_labelled_after(alloc, 0, map, layers, view, background)
}

/// The picture of the whole view, with room for so many bytes before its own.
fn draw_labelled_after(
    alloc: Global,
    room: u8,
    map: &MapDef,
    layers: &[usize],
    view: &View,
    background: Color,
) -> Result<Pixmap, AllocError>
    requires { All (λ i. i < length map.now.layers) layers.now }
    ensures { IfOk result (λ p. IsWholePicture map.now layers.now view.now background p) }
{
    there_is_one_placed_set();
    let labels = place(alloc, map, layers, view)?;
    let mut pixmap = paint_after(alloc, room, map, layers, view, background)?;
    draw_labels(&mut pixmap, &labels);
    Ok(pixmap)
}

/// The picture of a request of this size, cut out of the picture of its view, as a file. Of
/// whichever map and request the view's picture is, the file is the request's image. Allocation
/// failure is the only error.
pub fn cut(alloc: Global, pixmap: &Pixmap, view: &View, size: Size) -> Result<Vec<u8>, AllocError>
    requires within { IsPartOfView size view.now }
    requires wide { pixmap.now.width ≡ view.now.width }
    requires high { pixmap.now.height ≡ view.now.height }
    ensures { IfOk result (λ file. IsCutOut pixmap.now view.now size file.items) }
{
    image(alloc, pixmap, corner_of(view), size.width, size.height)
}

/// The pixel of the view that is the lower left one of the picture.
fn corner_of(view: &View) -> Corner
    ensures { result ≡ corner_of view.now }
{
    view.corner().unwrap_or(Corner { column: 0, row: 0 })
}
