//! The questions about messages.
use crate::decoding_cases::{write_beginnings, write_copy, write_decoded, write_followed};
use crate::encoding_cases::write_encoded;
use crate::inbox::{write_cuts, write_fed};
use wf_codec::DecodeFault;
use wf_test_calls::write_printed;
use wf_test_table::{Answered, CaseInput, CaseWords, Transcript, Unanswered};

pub(crate) fn ask(mut asked: CaseInput<'_>, answer: &mut Transcript) -> Answered {
    match asked.words.word() {
        "decode" => write_decoded(asked, answer),
        "followed" => write_followed(asked, answer),
        "beginnings" => {
            write_beginnings(asked, answer);
            Ok(())
        }
        "copy" => write_copy(asked, answer),
        "fed" => write_fed(asked, answer),
        "cuts" => write_cuts(asked, answer),
        "encode" => write_encoded(asked, answer),
        "fault" => write_fault_named(asked, answer),
        _ => Err(Unanswered::UnknownQuestion),
    }
}

/// Appends the error that a word names, as it is printed.
fn write_fault_named(asked: CaseInput<'_>, answer: &mut Transcript) -> Answered {
    let fault = fault_named(CaseWords::of(asked.input)?.word())?;
    write_printed(fault, answer);
    Ok(())
}

fn fault_named(word: &str) -> Result<DecodeFault, Unanswered> {
    match word {
        "short" => Ok(DecodeFault::Short),
        "version" => Ok(DecodeFault::BadVersion),
        "kind" => Ok(DecodeFault::BadKind),
        "field" => Ok(DecodeFault::BadField),
        "canonical" => Ok(DecodeFault::NotCanonical),
        "length" => Ok(DecodeFault::TooLong),
        "memory" => Ok(DecodeFault::Memory),
        _ => Err(Unanswered::BadWords),
    }
}
