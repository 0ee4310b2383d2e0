//! Where a view shows a point.
use crate::section::{Section, read_map, read_point};
use wf_geometry::{Corner, Position, View};
use wf_test_table::{Answered, CaseInput, Transcript, Unanswered};

/// Appends where the view of `BOX, W by H, X Y` shows the point; for a tile also where it is cut
/// out.
pub(crate) fn ask(mut asked: CaseInput<'_>, answer: &mut Transcript) -> Answered {
    let section = Section::read(&mut asked.words)?;
    let point = read_point(asked.words)?;
    let view = view_of(asked, section)?;
    write_position(view.position(&point), answer);
    if let Some(corner) = view.corner() {
        write_corner(corner, answer);
    }
    answer.line("");
    Ok(())
}

fn view_of(asked: CaseInput<'_>, section: Section) -> Result<View, Unanswered> {
    match read_map(asked) {
        Ok(map) => {
            let view = section.view(&map);
            drop(map);
            view
        }
        Err(unanswered) => Err(unanswered),
    }
}

fn write_position(position: Position, answer: &mut Transcript) {
    answer.value(position.x());
    answer.text(" ");
    answer.value(position.y());
}

fn write_corner(corner: Corner, answer: &mut Transcript) {
    answer.text(", cut at ");
    answer.value(corner.column);
    answer.text(" ");
    answer.value(corner.row);
}
