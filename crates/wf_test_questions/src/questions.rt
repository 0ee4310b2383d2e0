//! The questions by their names.
use crate::{canonical, definitions, mapfiles, numbers, spellings, tables, texts, tokens};
use wf_test_table::{Answered, CaseInput, Transcript, Unanswered};

/// Appends the answer to the question of this name, or returns why it can't be asked so:
/// `UnknownQuestion` for any other name.
pub fn ask(question: &str, asked: CaseInput<'_>, answer: &mut Transcript) -> Answered {
    match question {
        "number" => numbers::number(asked, answer),
        "millionths" => numbers::millionths(asked, answer),
        "whole" => numbers::whole(asked, answer),
        "whole_of_number" => numbers::whole_of_number(asked, answer),
        "extent" => numbers::extent(asked, answer),
        _ => about_texts(question, asked, answer),
    }
}

fn about_texts(question: &str, asked: CaseInput<'_>, answer: &mut Transcript) -> Answered {
    match question {
        "text" => texts::text(asked, answer),
        "same_texts" => texts::same_texts(asked, answer),
        "characters" => texts::characters(asked, answer),
        "layer_name" => texts::layer_name(asked, answer),
        _ => about_definitions(question, asked, answer),
    }
}

fn about_definitions(question: &str, asked: CaseInput<'_>, answer: &mut Transcript) -> Answered {
    match question {
        "attribute" => definitions::attribute_of_lists(asked, answer),
        "styles" => definitions::styles(asked, answer),
        "classes" => definitions::classes(asked, answer),
        "shape" => definitions::shape(asked, answer),
        "items" => definitions::items(asked, answer),
        "empty_map" => definitions::empty_map(asked, answer),
        _ => about_mapfiles(question, asked, answer),
    }
}

fn about_mapfiles(question: &str, asked: CaseInput<'_>, answer: &mut Transcript) -> Answered {
    match question {
        "map" => mapfiles::map(asked, answer),
        "layers" => mapfiles::layers(asked, answer),
        "class" => mapfiles::class(asked, answer),
        "sizes" => mapfiles::sizes(asked, answer),
        "class_of" => mapfiles::class_of(asked, answer),
        "attribute_of" => mapfiles::attribute_of(asked, answer),
        _ => about_spellings(question, asked, answer),
    }
}

fn about_spellings(question: &str, asked: CaseInput<'_>, answer: &mut Transcript) -> Answered {
    match question {
        "tokens" => tokens::tokens(asked, answer),
        "each_byte" => tokens::each_byte(asked, answer),
        "same" => spellings::same(asked, answer),
        "beginnings" => spellings::beginnings(asked, answer),
        "gaps" => spellings::gaps(asked, answer),
        "table" => tables::table(asked, answer),
        _ => about_canonical_texts(question, asked, answer),
    }
}

fn about_canonical_texts(
    question: &str,
    asked: CaseInput<'_>,
    answer: &mut Transcript,
) -> Answered {
    match question {
        "canonical_number" => canonical::number(asked, answer),
        "title" => canonical::title(asked, answer),
        "canonical" => canonical::from_bytes(asked, answer),
        _ => Err(Unanswered::UnknownQuestion),
    }
}
