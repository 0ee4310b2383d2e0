//! Canonical numbers and texts.
use crate::texts::text_of;
use std::alloc::Global;
use wf_canon::{Canon, CanonFault};
use wf_def::{Extent, MapDef, Projection};
use wf_test_table::{Answered, CaseInput, CaseWords, Transcript, Unanswered};
use wf_text::{Micro, Text, write_number};

/// `canonical_number`: the canonical text of a number of millionths, after what is written already.
pub(crate) fn number(asked: CaseInput<'_>, answer: &mut Transcript) -> Answered {
    let millionths = CaseWords::of(asked.input)?.signed_number()?;
    let Some(number) = Micro::from_millionths(millionths) else {
        return Err(Unanswered::BadWords);
    };
    answer.text("x ");
    if write_number(number, answer.target()).is_err() {
        answer.cut();
    }
    answer.line("");
    Ok(())
}

fn write_canon_fault(fault: CanonFault, answer: &mut Transcript) {
    match fault {
        CanonFault::Memory => answer.cut(),
        CanonFault::TooBig => answer.line("K1"),
        CanonFault::NotCanonical => answer.line("K2"),
    }
}

fn print_canon(canon: Canon, answer: &mut Transcript) {
    answer.bytes(canon.text());
    drop(canon);
}

fn print_copy(canon: Canon, answer: &mut Transcript) {
    let copied = canon.copy();
    drop(canon);
    match copied {
        Ok(copy) => print_canon(copy, answer),
        Err(_) => answer.cut(),
    }
}

// Appends a line if the quick reader leaves a canonical text to be read and written again.
fn print_slow(asked: CaseInput<'_>, answer: &mut Transcript) {
    match Canon::scan_bytes(asked.alloc, asked.input) {
        Some(canon) => drop(canon),
        None => answer.line("the quick reader leaves it"),
    }
}

/// `canonical`: a copy of the canonical text that the bytes are, or why they are none. The quick
/// reader has to accept each such text too.
pub(crate) fn from_bytes(asked: CaseInput<'_>, answer: &mut Transcript) -> Answered {
    match Canon::from_bytes(asked.alloc, asked.input) {
        Ok(canon) => {
            print_copy(canon, answer);
            print_slow(asked, answer);
        }
        Err(fault) => write_canon_fault(fault, answer),
    }
    Ok(())
}

/// The texts of these bytes.
pub(crate) fn two_texts(
    alloc: Global,
    first: &[u8],
    second: &[u8],
) -> Result<(Text, Text), Unanswered> {
    match text_of(alloc, first) {
        Ok(first) => with_second(alloc, first, second),
        Err(unanswered) => Err(unanswered),
    }
}

fn with_second(alloc: Global, first: Text, second: &[u8]) -> Result<(Text, Text), Unanswered> {
    match text_of(alloc, second) {
        Ok(second) => Ok((first, second)),
        Err(unanswered) => {
            drop(first);
            Err(unanswered)
        }
    }
}

fn extent_of_4_degrees() -> Option<Extent> {
    let zero = Micro::from_millionths(0)?;
    let four = Micro::from_millionths(4_000_000)?;
    Extent::new(zero, zero, four, four)
}

// The map `a`, from 0 0 to 4 4 degrees, with a title.
fn map_with_title(alloc: Global, title: &[u8]) -> Result<MapDef, Unanswered> {
    match two_texts(alloc, b"a", title) {
        Ok((name, title)) => named_and_titled(alloc, name, title),
        Err(unanswered) => Err(unanswered),
    }
}

fn named_and_titled(alloc: Global, name: Text, title: Text) -> Result<MapDef, Unanswered> {
    match (
        two_texts(alloc, b"", b"http://localhost/wms?"),
        extent_of_4_degrees(),
    ) {
        (Ok((abstract_text, address)), Some(extent)) => Ok(MapDef::new(
            alloc,
            name,
            title,
            abstract_text,
            address,
            extent,
            Projection::Epsg4326,
        )),
        (texts, _) => {
            drop(texts);
            drop(name);
            drop(title);
            Err(Unanswered::Memory)
        }
    }
}

const BEFORE_TITLE: &str =
    "MAP\nNAME \"a\"\nEXTENT 0 0 4 4\nPROJECTION\n\"init=epsg:4326\"\nEND\nWEB\nMETADATA\n\"wms_title\" ";

const BEHIND_TITLE: &str =
    "\n\"wms_abstract\" \"\"\n\"wms_onlineresource\" \"http://localhost/wms?\"\nEND\nEND\nEND\n";

// The spelling of the title in the canonical text; the whole text where it isn't of this form.
fn spelled_title(text: &[u8]) -> &[u8] {
    match text.strip_prefix(BEFORE_TITLE.as_bytes()) {
        Some(rest) => rest.strip_suffix(BEHIND_TITLE.as_bytes()).unwrap_or(text),
        None => text,
    }
}

fn print_title(canon: Canon, answer: &mut Transcript) {
    answer.text("again: ");
    answer.line(canon.def().title().as_str());
    drop(canon);
}

fn print_title_of_copy(canon: Canon, answer: &mut Transcript) {
    let copied = canon.copy();
    drop(canon);
    match copied {
        Ok(copy) => print_title(copy, answer),
        Err(_) => answer.cut(),
    }
}

fn print_title_again(alloc: Global, canon: Canon, answer: &mut Transcript) {
    answer.bytes(spelled_title(canon.text()));
    answer.line("");
    match Canon::from_bytes(alloc, canon.text()) {
        Ok(again) => print_title_of_copy(again, answer),
        Err(fault) => write_canon_fault(fault, answer),
    }
    drop(canon);
}

fn print_titled(alloc: Global, map: MapDef, answer: &mut Transcript) {
    let canonical = Canon::of(alloc, &map);
    drop(map);
    match canonical {
        Ok(canon) => print_title_again(alloc, canon, answer),
        Err(fault) => write_canon_fault(fault, answer),
    }
}

/// `title`: how the canonical text of map `a` with this title spells it, and the title that this
/// text means.
pub(crate) fn title(asked: CaseInput<'_>, answer: &mut Transcript) -> Answered {
    match map_with_title(asked.alloc, asked.input) {
        Ok(map) => print_titled(asked.alloc, map, answer),
        Err(unanswered) => return Err(unanswered),
    }
    Ok(())
}
