//! Cells of the grid of tiles.
use crate::section::{Section, read_box};
use wf_geometry::GridCell;
use wf_test_table::{Answered, CaseInput, CaseWords, Transcript};

/// Appends level, column and row of the cell of the extent's grid whose tile `BOX, W by H` is; none
/// where no cell fits.
pub(crate) fn ask(asked: CaseInput<'_>, answer: &mut Transcript) -> Answered {
    let extent = read_box(asked.words)?;
    let section = Section::read(&mut CaseWords::new(asked.text()?))?;
    match GridCell::of(extent, section.bbox, section.width, section.height) {
        Some(cell) => write_cell(cell, answer),
        None => answer.line("none"),
    }
    Ok(())
}

fn write_cell(cell: GridCell, answer: &mut Transcript) {
    answer.value(cell.z);
    answer.text(" ");
    answer.value(cell.col);
    answer.text(" ");
    answer.value(cell.row);
    answer.line("");
}
