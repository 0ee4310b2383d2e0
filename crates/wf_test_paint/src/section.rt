//! Which part of a map is requested, and in which size.
ghost use Rattle.std.specs.Prelude.{◌≤◌, ◌<◌, ◌+ℤ◌, ◌≤ℤ◌, pos, length, All, IsTrue};
ghost use Rattle.wf_geometry.specs.Limit.{least_cell, most_pixels};

use std::alloc::Global;
use wf_def::{Color, Extent, MapDef, Micro, Point};
use wf_geometry::View;
use wf_mapfile::{MapFault, read};
use wf_picture::{PictureRequest, Size, draw};
use wf_test_table::{CaseInput, CaseWords, Unanswered};

/// A box and a size in pixels.
#[derive(Clone, Copy)]
pub(crate) struct Section {
    pub bbox: Extent,
    pub width: u32,
    pub height: u32,
}

impl Section {
    /// The section of the parts `BOX, W by H`.
    pub fn read(words: &mut CaseWords<'_>) -> Result<Section, Unanswered> {
        let bbox = read_box(CaseWords::new(words.part()))?;
        let mut size = CaseWords::new(words.part());
        let width = size.number()?;
        let height = read_other_side(&mut size)?;
        Ok(Section {
            bbox,
            width,
            height,
        })
    }

    /// The view of this part of the map, where a picture may have the size and the box.
    pub fn view(self, map: &MapDef) -> Result<View, Unanswered> {
        let Section {
            bbox,
            width,
            height,
        } = self;
        let (left, right) = (bbox.minx(), bbox.maxx());
        let (low, high) = (bbox.miny(), bbox.maxy());
        if is_side(width) && is_side(height) && is_wide(left, right) && is_wide(low, high) {
            Ok(View::of(map, &bbox, width, height))
        } else {
            Err(Unanswered::BadWords)
        }
    }

    /// The file of the picture of this part of the map, under the same condition.
    pub fn file(
        self,
        alloc: Global,
        map: &MapDef,
        layers: Vec<usize>,
        background: Color,
    ) -> Result<Vec<u8>, Unanswered>
        requires { All (λ i. i < length map.now.layers) layers.items }
    {
        let Section {
            bbox,
            width,
            height,
        } = self;
        let (left, right) = (bbox.minx(), bbox.maxx());
        let (low, high) = (bbox.miny(), bbox.maxy());
        if is_side(width) && is_side(height) && is_wide(left, right) && is_wide(low, high) {
            let size = Size { width, height };
            let request = PictureRequest::new(layers, bbox, size, background);
            let file = draw(alloc, map, &request);
            drop(request);
            Ok(file?)
        } else {
            drop(layers);
            Err(Unanswered::BadWords)
        }
    }
}

/// The number of pixels after the word `by`.
pub(crate) fn read_other_side(words: &mut CaseWords<'_>) -> Result<u32, Unanswered> {
    match words.word() {
        "by" => words.number(),
        _ => Err(Unanswered::BadWords),
    }
}

/// The box of four sides: least x, least y, most x and most y.
pub(crate) fn read_box(mut words: CaseWords<'_>) -> Result<Extent, Unanswered> {
    let minx = read_number(&mut words)?;
    let miny = read_number(&mut words)?;
    let maxx = read_number(&mut words)?;
    let maxy = read_number(&mut words)?;
    match Extent::new(minx, miny, maxx, maxy) {
        Some(extent) => Ok(extent),
        None => Err(Unanswered::BadWords),
    }
}

/// The point of two coordinates.
pub(crate) fn read_point(mut words: CaseWords<'_>) -> Result<Point, Unanswered> {
    let x = read_number(&mut words)?;
    let y = read_number(&mut words)?;
    Ok(Point { x, y })
}

/// The map of the mapfile that is the input.
pub(crate) fn read_map(asked: CaseInput<'_>) -> Result<MapDef, Unanswered> {
    match read(asked.alloc, asked.input) {
        Ok(map) => Ok(map),
        Err(MapFault::Memory) => Err(Unanswered::Memory),
        Err(_) => Err(Unanswered::BadWords),
    }
}

fn read_number(words: &mut CaseWords<'_>) -> Result<Micro, Unanswered> {
    match Micro::read(words.word().as_bytes()) {
        Ok(number) => Ok(number),
        Err(_) => Err(Unanswered::BadWords),
    }
}

/// Whether a picture may have a side of this many pixels.
fn is_side(pixels: u32) -> bool
    ensures least { IsTrue result → 1 ≤ pixels }
    ensures most { IsTrue result → pixels ≤ most_pixels }
{
    1 <= pixels && pixels <= 1_024
}

/// Whether a box may have these sides: they are at least a thousandth of a unit apart.
fn is_wide(low: Micro, high: Micro) -> bool
    ensures { IsTrue result → (low +ℤ pos least_cell) ≤ℤ high }
{
    low.millionths() + 1_000 <= high.millionths()
}
