//! Numbers and boxes.
use wf_def::{Extent, MOST_BUFFER, MOST_PRIORITY, MOST_SIZE, MOST_WIDTH};
use wf_test_table::{Answered, CaseInput, CaseWords, Transcript, Unanswered};
use wf_text::{Micro, NumberFault, Whole};

fn print_number(number: Micro, answer: &mut Transcript) {
    answer.number(number.millionths());
    answer.line("");
}

/// `number`: the millionths that a text means, or the error.
pub(crate) fn number(asked: CaseInput<'_>, answer: &mut Transcript) -> Answered {
    match Micro::read(asked.input) {
        Ok(number) => print_number(number, answer),
        Err(NumberFault::BadNumber) => answer.line("BadNumber"),
        Err(NumberFault::OutOfRange) => answer.line("OutOfRange"),
    }
    Ok(())
}

/// `millionths`: the number of that many millionths, in millionths, where it is within the limits.
pub(crate) fn millionths(asked: CaseInput<'_>, answer: &mut Transcript) -> Answered {
    let millionths = CaseWords::of(asked.input)?.signed_number()?;
    match Micro::from_millionths(millionths) {
        Some(number) => print_number(number, answer),
        None => answer.line("none"),
    }
    Ok(())
}

fn print_whole(number: Option<u8>, answer: &mut Transcript) {
    match number {
        Some(number) => {
            answer.value(number);
            answer.line("");
        }
        None => answer.line("none"),
    }
}

fn number_within<const LEAST: u8, const MOST: u8>(number: u8) -> Option<u8> {
    match Whole::<LEAST, MOST>::new(number) {
        Some(whole) => Some(whole.get()),
        None => None,
    }
}

/// `whole KIND`: the whole number of a width, a size, a priority or a buffer.
pub(crate) fn whole(asked: CaseInput<'_>, answer: &mut Transcript) -> Answered {
    let number = CaseWords::of(asked.input)?.byte()?;
    let found = match asked.words.rest() {
        "width" => number_within::<1, MOST_WIDTH>(number),
        "size" => number_within::<1, MOST_SIZE>(number),
        "priority" => number_within::<1, MOST_PRIORITY>(number),
        "buffer" => number_within::<0, MOST_BUFFER>(number),
        _ => return Err(Unanswered::BadWords),
    };
    print_whole(found, answer);
    Ok(())
}

fn whole_of(number: Micro) -> Option<u8> {
    match Whole::<1, 16>::from_micro(number) {
        Some(whole) => Some(whole.get()),
        None => None,
    }
}

/// `whole_of_number`: the whole number from 1 to 16 that a text means.
pub(crate) fn whole_of_number(asked: CaseInput<'_>, answer: &mut Transcript) -> Answered {
    match Micro::read(asked.input) {
        Ok(number) => print_whole(whole_of(number), answer),
        Err(_) => return Err(Unanswered::BadWords),
    }
    Ok(())
}

/// Appends the sides of a box in millionths.
pub(crate) fn write_sides(extent: Extent, answer: &mut Transcript) {
    answer.number(extent.minx().millionths());
    answer.text(" ");
    answer.number(extent.miny().millionths());
    answer.text(" ");
    answer.number(extent.maxx().millionths());
    answer.text(" ");
    answer.number(extent.maxy().millionths());
}

fn micro(words: &mut CaseWords<'_>) -> Result<Micro, Unanswered> {
    match Micro::from_millionths(words.signed_number()?) {
        Some(number) => Ok(number),
        None => Err(Unanswered::BadWords),
    }
}

/// `extent`: the box of four sides in millionths (least x, least y, most x, most y).
pub(crate) fn extent(asked: CaseInput<'_>, answer: &mut Transcript) -> Answered {
    let mut words = CaseWords::of(asked.input)?;
    let minx = micro(&mut words)?;
    let miny = micro(&mut words)?;
    let maxx = micro(&mut words)?;
    let maxy = micro(&mut words)?;
    match Extent::new(minx, miny, maxx, maxy) {
        Some(extent) => print_extent(extent, answer),
        None => answer.line("none"),
    }
    Ok(())
}

fn print_extent(extent: Extent, answer: &mut Transcript) {
    answer.text("extent ");
    write_sides(extent, answer);
    answer.line("");
}
