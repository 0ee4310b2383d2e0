//! Maps in words: the definition at a sequence or a slot.
use crate::lines::{write_field, write_none};
use crate::script::CallMaps;
use crate::words_of_message::write_definition;
use std::alloc::Global;
use std::fmt::Display;
use wf_ballot::Seq;
use wf_canon::Canon;
use wf_def::MapDef;
use wf_test_table::Transcript;

/// Appends a line: a number and the definition there.
pub fn write_at<T: Display + Copy>(
    title: &str,
    number: T,
    canon: &Canon,
    maps: CallMaps<'_>,
    answer: &mut Transcript,
) {
    write_field(title, number, answer);
    write_definition(canon, maps, answer);
    answer.line("");
}

/// Appends a line: a sequence and its map, none where there is none.
pub fn write_map(
    alloc: Global,
    sequence: Seq,
    map: Option<&MapDef>,
    maps: CallMaps<'_>,
    answer: &mut Transcript,
) {
    let Some(map) = map else {
        return write_none(answer);
    };
    match Canon::of(alloc, map) {
        Ok(canon) => {
            write_at("sequence ", sequence, &canon, maps, answer);
            drop(canon);
        }
        Err(_) => answer.cut(),
    }
}
