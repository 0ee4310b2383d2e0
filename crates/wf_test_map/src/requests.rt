//! Requests and their answers.
use wf_ballot::Seq;
use wf_def::MapDef;
use wf_test_calls::read_sequence;
use wf_test_table::{Answered, CaseInput, Transcript};
use wf_wms::{Answer as Given, Exception, Kind, describe};

/// Map `a`: 0 0 4 4 in degrees, with every default.
const MAP_A: &str = "MAP NAME \"a\" EXTENT 0 0 4 4 PROJECTION \"init=epsg:4326\" END END";

fn write_exception(exception: Exception, answer: &mut Transcript) {
    match exception {
        Exception::MissingParameter(parameter) => {
            answer.text("MissingParameter ");
            answer.text(parameter.name());
        }
        Exception::BadValue(parameter) => {
            answer.text("BadValue ");
            answer.text(parameter.name());
        }
        Exception::LayerNotDefined(entry) => {
            answer.text("LayerNotDefined ");
            answer.count(entry);
        }
        Exception::StyleNotDefined(entry) => {
            answer.text("StyleNotDefined ");
            answer.count(entry);
        }
        Exception::MapNotPublished => answer.text("MapNotPublished"),
        _ => answer.text(exception.code().unwrap_or("?")),
    }
}

fn write_kind(kind: Kind, answer: &mut Transcript) {
    match kind {
        Kind::Capabilities => answer.text("Capabilities"),
        Kind::Map => answer.text("Map"),
        Kind::Exception(exception) => write_exception(exception, answer),
    }
}

/// Appends the kind, the media type and the length of the answer to a query.
pub(crate) fn write_summary(given: Given, answer: &mut Transcript) {
    write_kind(given.kind, answer);
    answer.text(", ");
    answer.text(given.media);
    answer.text(", ");
    answer.count(given.bytes.len());
    answer.line(" bytes");
    drop(given);
}

fn write_described(asked: CaseInput<'_>, sequence: Seq, map: &MapDef, answer: &mut Transcript) {
    match describe(asked.alloc, sequence.number(), map, asked.input) {
        Ok(given) => write_summary(given, answer),
        Err(_) => answer.cut(),
    }
}

/// `request SEQ`: the kind, the media type and the length of the answer to a query about map `a` at
/// an update sequence.
pub(crate) fn request(mut asked: CaseInput<'_>, answer: &mut Transcript) -> Answered {
    let sequence = read_sequence(&mut asked.words)?;
    match wf_mapfile::read(asked.alloc, MAP_A.as_bytes()) {
        Ok(map) => {
            write_described(asked, sequence, &map, answer);
            drop(map);
        }
        Err(_) => answer.cut(),
    }
    Ok(())
}
