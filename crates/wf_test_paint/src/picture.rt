//! Pictures of a map's layers with their labels.
ghost use Rattle.std.specs.Prelude.{◌<◌, All, length};

use crate::request::{SectionRequest, are_below, indices_of};
use crate::section::read_map;
use crate::window::Window;
use std::alloc::Global;
use wf_def::MapDef;
use wf_geometry::View;
use wf_label::{draw_labels, place};
use wf_paint::{Pixmap, paint};
use wf_test_table::{Answered, CaseInput, Transcript, Unanswered};

/// Appends the picture of `BOX, W by H, BACKGROUND[, LAYER ..]`: a letter a pixel, the top row
/// first.
pub(crate) fn ask(asked: CaseInput<'_>, answer: &mut Transcript) -> Answered {
    ask_shown(asked, None, answer)
}

/// Appends the same of `COLUMN ROW, W by H of` a picture.
pub(crate) fn ask_part(mut asked: CaseInput<'_>, answer: &mut Transcript) -> Answered {
    let window = Window::read(&mut asked.words)?;
    ask_shown(asked, Some(window), answer)
}

fn ask_shown(
    mut asked: CaseInput<'_>,
    window: Option<Window>,
    answer: &mut Transcript,
) -> Answered {
    let request = SectionRequest::read(&mut asked.words)?;
    match read_map(asked) {
        Ok(map) => {
            let reported = write_layers(asked, &map, request, window, answer);
            drop(map);
            reported
        }
        Err(unanswered) => Err(unanswered),
    }
}

fn write_layers(
    asked: CaseInput<'_>,
    map: &MapDef,
    request: SectionRequest,
    window: Option<Window>,
    answer: &mut Transcript,
) -> Answered {
    let layers = indices_of(asked, map)?;
    let reported = write_picture(asked.alloc, map, &layers, request, window, answer);
    drop(layers);
    reported
}

fn write_picture(
    alloc: Global,
    map: &MapDef,
    layers: &[usize],
    request: SectionRequest,
    window: Option<Window>,
    answer: &mut Transcript,
) -> Answered {
    let view = request.section.view(map)?;
    if !are_below(layers, map.layer_count()) {
        return Err(Unanswered::BadWords);
    }
    match paint(alloc, map, layers, &view, request.background) {
        Ok(mut pixmap) => {
            label(alloc, map, layers, &view, &mut pixmap, answer);
            let reported = write_pixels(&pixmap, window, answer);
            drop(pixmap);
            reported
        }
        Err(_) => Err(Unanswered::Memory),
    }
}

/// Draws the labels over the picture.
fn label(
    alloc: Global,
    map: &MapDef,
    layers: &[usize],
    view: &View,
    pixmap: &mut Pixmap,
    answer: &mut Transcript,
)
    requires { All (λ i. i < length map.now.layers) layers.now }
{
    match place(alloc, map, layers, view) {
        Ok(labels) => {
            draw_labels(pixmap, &labels);
            drop(labels);
        }
        Err(_) => answer.cut(),
    }
}

fn write_pixels(pixmap: &Pixmap, window: Option<Window>, answer: &mut Transcript) -> Answered {
    let window = match window {
        Some(window) => window,
        None => Window::whole(pixmap),
    };
    window.write(pixmap, answer)
}
