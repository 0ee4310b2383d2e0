//! Pictures of a map's layers with their labels, as files.
use crate::request::{SectionRequest, are_below, indices_of};
use crate::section::read_map;
use wf_def::MapDef;
use wf_test_table::{Answered, CaseInput, Transcript, Unanswered};

/// Appends the file of the picture of `BOX, W by H, BACKGROUND[, LAYER ..]`.
pub(crate) fn ask(mut asked: CaseInput<'_>, answer: &mut Transcript) -> Answered {
    let request = SectionRequest::read(&mut asked.words)?;
    match read_map(asked) {
        Ok(map) => {
            let reported = write_file(asked, &map, request, answer);
            drop(map);
            reported
        }
        Err(unanswered) => Err(unanswered),
    }
}

fn write_file(
    asked: CaseInput<'_>,
    map: &MapDef,
    request: SectionRequest,
    answer: &mut Transcript,
) -> Answered {
    let layers = indices_of(asked, map)?;
    if !are_below(&layers, map.layer_count()) {
        drop(layers);
        return Err(Unanswered::BadWords);
    }
    match request
        .section
        .file(asked.alloc, map, layers, request.background)
    {
        Ok(file) => {
            answer.bytes(&file);
            drop(file);
            Ok(())
        }
        Err(unanswered) => Err(unanswered),
    }
}
