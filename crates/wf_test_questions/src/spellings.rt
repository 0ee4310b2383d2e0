//! Mapfiles that are spelled in another way, or cut.
use crate::mapfile_frame::{Wrapping, wrapping_of};
use crate::shown::{print_map, write_fault};
use std::alloc::Global;
use wf_def::MapDef;
use wf_mapfile::{MapFault, read};
use wf_test_table::{Answered, CaseInput, Runs, Transcript, Unanswered, unescape};

fn print_comparison(map: MapDef, first: &MapDef, answer: &mut Transcript) {
    let is_same = map == *first;
    drop(map);
    answer.line(if is_same { "same" } else { "other" });
}

fn compare(
    alloc: Global,
    wrapping: Wrapping,
    first: &MapDef,
    piece: &str,
    answer: &mut Transcript,
) {
    match wrapping.read(alloc, piece.as_bytes()) {
        Ok(map) => print_comparison(map, first, answer),
        Err(fault) => write_fault(fault, wrapping.front.len(), answer),
    }
}

fn compare_each(
    alloc: Global,
    wrapping: Wrapping,
    first: MapDef,
    pieces: &str,
    answer: &mut Transcript,
) {
    for piece in pieces.split('|') {
        compare(alloc, wrapping, &first, piece, answer);
    }
    drop(first);
}

/// `same PIECE`: of pieces with `|` between them, whether each but the first means the same map as
/// the first.
pub(crate) fn same(asked: CaseInput<'_>, answer: &mut Transcript) -> Answered {
    let Some((first, pieces)) = asked.text()?.split_once('|') else {
        return Err(Unanswered::BadWords);
    };
    let wrapping = wrapping_of(asked.words.rest())?;
    match wrapping.read(asked.alloc, first.as_bytes()) {
        Ok(map) => compare_each(asked.alloc, wrapping, map, pieces, answer),
        Err(fault) => write_fault(fault, wrapping.front.len(), answer),
    }
    Ok(())
}

// How many texts are read, rejected, and rejected for allocation failure.
#[derive(Clone, Copy)]
struct SpellingTally {
    read: usize,
    refused: usize,
    for_memory: usize,
}

impl SpellingTally {
    fn take(&mut self, read: Result<MapDef, MapFault>) {
        match read {
            Ok(map) => {
                drop(map);
                self.read = self.read.saturating_add(1);
            }
            Err(MapFault::Memory) => self.for_memory = self.for_memory.saturating_add(1),
            Err(_) => self.refused = self.refused.saturating_add(1),
        }
    }

    fn print(self, answer: &mut Transcript) {
        answer.count(self.read);
        answer.text(" read, ");
        answer.count(self.refused);
        answer.text(" refused, ");
        answer.count(self.for_memory);
        answer.line(" for memory");
    }
}

/// `beginnings`: of the input's beginnings, from the empty one to all but its last byte, how many
/// are read, rejected, and rejected for allocation failure.
pub(crate) fn beginnings(asked: CaseInput<'_>, answer: &mut Transcript) -> Answered {
    let mut tally = SpellingTally {
        read: 0,
        refused: 0,
        for_memory: 0,
    };
    for count in 0..asked.input.len() {
        tally.take(read(asked.alloc, &asked.input[..count]));
    }
    tally.print(answer);
    Ok(())
}

// What follows the lines: a gap, and another one after one of them.
#[derive(Clone, Copy)]
struct Filling<'a> {
    gap: &'a [u8],
    other: &'a [u8],
}

impl Filling<'_> {
    // Appends the lines one after the other, with the other gap after the line of this number.
    fn write(self, text: &str, chosen: usize, out: &mut Transcript) {
        let mut number = 0usize;
        for line in text.split('\n') {
            out.text(line);
            out.bytes(if number == chosen {
                self.other
            } else {
                self.gap
            });
            number = number.saturating_add(1);
        }
    }
}

fn print_meant(alloc: Global, mapfile: &Transcript, answer: &mut Transcript) {
    match mapfile.finished_text() {
        Ok(mapfile) => print_read(read(alloc, mapfile), answer),
        Err(_) => answer.cut(),
    }
}

fn print_read(read: Result<MapDef, MapFault>, answer: &mut Transcript) {
    match read {
        Ok(map) => print_map(map, answer),
        Err(fault) => write_fault(fault, 0, answer),
    }
}

fn take_gap(
    alloc: Global,
    text: &str,
    gaps: Filling<'_>,
    line: usize,
    runs: &mut Runs,
    answer: &mut Transcript,
) {
    let mut mapfile = Transcript::new(alloc);
    let mut shown = Transcript::new(alloc);
    gaps.write(text, line, &mut mapfile);
    print_meant(alloc, &mapfile, &mut shown);
    runs.take(&shown, answer);
    drop(shown);
    drop(mapfile);
}

fn take_gaps(alloc: Global, text: &str, gaps: Filling<'_>, answer: &mut Transcript) {
    let mut runs = Runs::new(alloc);
    for line in 0..text.split('\n').count() {
        take_gap(alloc, text, gaps, line, &mut runs, answer);
    }
    runs.write(answer);
    drop(runs);
}

fn print_gaps(
    asked: CaseInput<'_>,
    gap: &Transcript,
    other: &Transcript,
    answer: &mut Transcript,
) -> Answered {
    let text = asked.text()?;
    let gaps = Filling {
        gap: gap.finished_text()?,
        other: other.finished_text()?,
    };
    take_gaps(asked.alloc, text, gaps, answer);
    Ok(())
}

fn unescape_both(words: &str, gap: &mut Transcript, other: &mut Transcript) -> Answered {
    let Some((first, second)) = words.split_once('|') else {
        return Err(Unanswered::BadWords);
    };
    unescape(first, gap)?;
    unescape(second, other)
}

/// `gaps GAP|OTHER`: what the mapfile means whose tokens are the input's lines, with GAP after
/// each, and OTHER after each in turn.
pub(crate) fn gaps(asked: CaseInput<'_>, answer: &mut Transcript) -> Answered {
    let mut gap = Transcript::new(asked.alloc);
    let mut other = Transcript::new(asked.alloc);
    let reported = match unescape_both(asked.words.rest(), &mut gap, &mut other) {
        Ok(()) => print_gaps(asked, &gap, &other, answer),
        Err(unanswered) => Err(unanswered),
    };
    drop(other);
    drop(gap);
    reported
}
