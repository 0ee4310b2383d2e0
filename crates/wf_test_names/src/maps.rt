//! Names of map definitions, mapfiles and canonical texts.

use wf_canon::{Canon, CanonFault, write_number};
use wf_def::{Class, Color, Extent, Feature, Label, Layer, MapDef, Micro, Style, Text};
use wf_mapfile::{MapFault, read};
use wf_text::NumberFault;

/// A map definition and its parts.
pub struct Parts<'a> {
    pub map: &'a MapDef,
    pub layer: &'a Layer,
    pub class: &'a Class,
    pub style: Style,
    pub label: Label,
    pub feature: &'a Feature,
    pub text: &'a Text,
    pub extent: Extent,
}

/// The calls.
pub fn calls() {
    let _ = Micro::read;
    let _ = MapDef::empty;
    let _ = Extent::minx;
    let _ = Extent::miny;
    let _ = Extent::maxx;
    let _ = Extent::maxy;
    let _ = read;
    let _ = Canon::of;
    let _ = Canon::from_bytes;
    let _ = Canon::copy;
    let _ = Canon::text;
    let _ = Canon::def;
    let _ = write_number;
}

/// The fields of a colour.
pub fn color(color: Color) -> [u8; 3] {
    let Color { r, g, b } = color;
    [r, g, b]
}

/// The errors of a mapfile.
pub fn map_fault(fault: MapFault) -> u8 {
    match fault {
        MapFault::Memory => 1,
        MapFault::TooLong => 2,
        MapFault::NotUtf8(_offset) => 3,
        MapFault::BadToken(_offset) => 4,
        MapFault::UnexpectedWord(_offset) => 5,
        MapFault::MissingEnd(_offset) => 6,
        MapFault::BadNumber(_offset) => 7,
        MapFault::OutOfRange(_offset) => 8,
        MapFault::Missing => 9,
        MapFault::Repeated(_offset) => 10,
        MapFault::TooMany => 11,
        MapFault::Trailing(_offset) => 12,
    }
}

/// The errors of a number.
pub fn number_fault(fault: NumberFault) -> u8 {
    match fault {
        NumberFault::BadNumber => 7,
        NumberFault::OutOfRange => 8,
    }
}

/// The errors of a canonical text.
pub fn canon_fault(fault: CanonFault) -> u8 {
    match fault {
        CanonFault::TooBig => 1,
        CanonFault::NotCanonical => 2,
        CanonFault::Memory => 3,
    }
}
