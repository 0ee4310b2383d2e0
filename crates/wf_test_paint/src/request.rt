//! Which part of a map is requested over which colour, and which of its layers.
ghost use Rattle.std.specs.Prelude.{◌<◌, ◌↔◌, IsTrue, All};

use crate::letter::color_of;
use crate::section::Section;
use wf_def::{Color, MapDef};
use wf_test_table::{CaseInput, CaseWords, Unanswered};

/// A section of a map and the colour of the background.
#[derive(Clone, Copy)]
pub(crate) struct SectionRequest {
    pub section: Section,
    pub background: Color,
}

impl SectionRequest {
    /// The request of the parts `BOX, W by H, BACKGROUND`.
    pub fn read(words: &mut CaseWords<'_>) -> Result<Self, Unanswered> {
        let section = Section::read(words)?;
        let background = color_of(words.part())?;
        Ok(SectionRequest {
            section,
            background,
        })
    }
}

/// The indices of the layers of these names.
pub(crate) fn indices_of(asked: CaseInput<'_>, map: &MapDef) -> Result<Vec<usize>, Unanswered> {
    let mut indices = Vec::new(asked.alloc);
    match push_indices(map, asked.words, &mut indices) {
        Ok(()) => Ok(indices),
        Err(unanswered) => {
            drop(indices);
            Err(unanswered)
        }
    }
}

fn push_indices(
    map: &MapDef,
    words: CaseWords<'_>,
    indices: &mut Vec<usize>,
) -> Result<(), Unanswered> {
    for name in words.rest().split_whitespace() {
        let Some(index) = index_of(map, name) else {
            return Err(Unanswered::BadWords);
        };
        if indices.push(index).is_err() {
            return Err(Unanswered::Memory);
        }
    }
    Ok(())
}

/// The index of the layer of a name.
fn index_of(map: &MapDef, name: &str) -> Option<usize> {
    for index in 0..map.layer_count() {
        let (known, _) = map.layer(index);
        if known.as_str() == name {
            return Some(index);
        }
    }
    None
}

/// Whether each of the indices is below the count.
pub(crate) fn are_below(indices: &[usize], count: usize) -> bool
    ensures { IsTrue result ↔ All (λ index. index < count) indices.now }
{
    indices.iter().all(|&index| index < count)
}
