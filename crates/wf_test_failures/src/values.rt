//! What several questions use.
use std::io;
use std::io::ErrorKind;
use wf_ballot::{Round, Slot};
use wf_test_table::Unanswered;

/// The canonical text of the map that is named `a`, from 0 0 to 4 4 degrees.
pub(crate) const MAP_A: &[u8] =
    b"MAP\nNAME \"a\"\nEXTENT 0 0 4 4\nPROJECTION\n\"init=epsg:4326\"\nEND\nWEB\nMETADATA\n\"wms_title\" \"a\"\n\"wms_abstract\" \"\"\n\"wms_onlineresource\" \"http://localhost/wms?\"\nEND\nEND\nEND\n";

/// The bytes of a Tried record of round 1.
pub(crate) const TRIED: &[u8] = &[2, 1, 0, 0, 0, 4, 0, 0, 0, 1];

/// A torn one.
pub(crate) const TORN: &[u8] = &[2, 1, 0, 0, 0, 4, 0];

/// A client's request to publish the mapfile of map `a`.
pub(crate) const PUBLISH: &[u8] =
    b"POST /publish HTTP/1.1\r\nContent-Length: 63\r\n\r\nMAP NAME \"a\" EXTENT 0 0 4 4 PROJECTION \"init=epsg:4326\" END END";

/// A client's request for the status.
pub(crate) const STATUS: &[u8] = b"GET /status HTTP/1.1\r\n\r\n";

/// The slot of this number.
pub(crate) fn slot(number: u16) -> Result<Slot, Unanswered> {
    match Slot::new(number) {
        Some(slot) => Ok(slot),
        None => Err(Unanswered::BadWords),
    }
}

/// The round of this number.
pub(crate) fn round(number: u32) -> Result<Round, Unanswered> {
    match Round::new(number) {
        Some(round) => Ok(round),
        None => Err(Unanswered::BadWords),
    }
}

/// A question can't be asked where this machine doesn't do what it needs.
pub(crate) fn unanswered(error: io::Error) -> Unanswered {
    match error.kind() {
        ErrorKind::OutOfMemory => Unanswered::Memory,
        _ => Unanswered::BadWords,
    }
}
