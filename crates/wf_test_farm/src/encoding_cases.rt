//! Messages made of words, and their bytes.
use wf_codec::{Message, encode};
use wf_test_calls::{Definitions, Spoken};
use wf_test_table::{Answered, CaseInput, Transcript};

/// Appends `message ` and then the bytes of the message that the words spell; its definition, if it
/// has one, is given by its canonical text.
pub(crate) fn write_encoded(asked: CaseInput<'_>, answer: &mut Transcript) -> Answered {
    answer.text("message ");
    let spoken = Spoken {
        alloc: asked.alloc,
        words: asked.words,
        definitions: Definitions::Text(asked.input),
    };
    match spoken.message() {
        Ok(message) => write_spelled(message, answer),
        Err(unanswered) => return Err(unanswered),
    }
    Ok(())
}

/// Appends the bytes of a message.
pub(crate) fn write_spelled(message: Message, answer: &mut Transcript) {
    if encode(&message, answer.target()).is_err() {
        answer.cut();
    }
    drop(message);
}
