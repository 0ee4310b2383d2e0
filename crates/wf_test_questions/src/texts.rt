//! Texts and names.

use std::alloc::Global;
use wf_def::is_layer_name;
use wf_test_table::{Answered, CaseInput, Transcript, Unanswered};
use wf_text::{Text, TextFault, is_text_character};

fn write_text_fault(fault: TextFault, answer: &mut Transcript) {
    match fault {
        TextFault::OutOfMemory => answer.cut(),
        TextFault::TooLong => answer.line("TooLong"),
        TextFault::NotUtf8 => answer.line("NotUtf8"),
        TextFault::ForbiddenCharacter => answer.line("ForbiddenCharacter"),
        TextFault::BothQuotes => answer.line("BothQuotes"),
    }
}

fn print_bracketed(text: Text, answer: &mut Transcript) {
    answer.text("[");
    answer.bytes(text.as_bytes());
    answer.line("]");
    drop(text);
}

fn print_copy(alloc: Global, text: Text, answer: &mut Transcript) {
    match Text::from_str(alloc, text.as_str()) {
        Ok(copy) => print_bracketed(copy, answer),
        Err(_) => answer.cut(),
    }
    drop(text);
}

fn print_copy_of_copy(alloc: Global, text: Text, answer: &mut Transcript) {
    match text.clone() {
        Ok(copy) => print_copy(alloc, copy, answer),
        Err(_) => answer.cut(),
    }
    drop(text);
}

/// `text`: the text of the bytes in brackets, copied twice, or why they are none.
pub(crate) fn text(asked: CaseInput<'_>, answer: &mut Transcript) -> Answered {
    match Text::new(asked.alloc, asked.input) {
        Ok(text) => print_copy_of_copy(asked.alloc, text, answer),
        Err(fault) => write_text_fault(fault, answer),
    }
    Ok(())
}

/// The text of the bytes, where they are one.
pub(crate) fn text_of(alloc: Global, bytes: &[u8]) -> Result<Text, Unanswered> {
    match Text::new(alloc, bytes) {
        Ok(text) => Ok(text),
        Err(TextFault::OutOfMemory) => Err(Unanswered::Memory),
        Err(_) => Err(Unanswered::BadWords),
    }
}

fn compare(alloc: Global, first: &Text, second: &[u8], answer: &mut Transcript) -> Answered {
    match text_of(alloc, second) {
        Ok(second) => {
            let is_same = *first == second;
            drop(second);
            answer.line(if is_same { "same" } else { "other" });
            Ok(())
        }
        Err(unanswered) => Err(unanswered),
    }
}

/// `same_texts`: whether two texts, with `|` between them, are equal.
pub(crate) fn same_texts(asked: CaseInput<'_>, answer: &mut Transcript) -> Answered {
    let Some((first, second)) = asked.text()?.split_once('|') else {
        return Err(Unanswered::BadWords);
    };
    match text_of(asked.alloc, first.as_bytes()) {
        Ok(first) => {
            let compared = compare(asked.alloc, &first, second.as_bytes(), answer);
            drop(first);
            compared
        }
        Err(unanswered) => Err(unanswered),
    }
}

/// `characters`: those of the input that a text may hold.
pub(crate) fn characters(asked: CaseInput<'_>, answer: &mut Transcript) -> Answered {
    for character in asked.text()?.chars() {
        if is_text_character(character) {
            answer.value(character);
        }
    }
    answer.line("");
    Ok(())
}

/// `layer_name`: whether a text may be a layer's name.
pub(crate) fn layer_name(asked: CaseInput<'_>, answer: &mut Transcript) -> Answered {
    match text_of(asked.alloc, asked.input) {
        Ok(name) => {
            let is_name = is_layer_name(&name);
            drop(name);
            answer.line(if is_name { "a name" } else { "no name" });
            Ok(())
        }
        Err(unanswered) => Err(unanswered),
    }
}
