//! What is to be stored and sent, in words.
use crate::lines::write_field;
use crate::script::CallMaps;
use crate::words_of_message::{write_at, write_definition, write_message};
use wf_codec::Message;
use wf_journal::Record;
use wf_test_table::Transcript;

/// Appends a line: the record to store and the messages to send after that, each `nothing` where
/// there is none.
pub fn write_step(
    record: Option<&Record>,
    messages: &[Message],
    maps: CallMaps<'_>,
    answer: &mut Transcript,
) {
    answer.text("store ");
    match record {
        Some(record) => write_record(record, maps, answer),
        None => answer.text("nothing"),
    }
    answer.text(", ");
    record_sent(messages, maps, answer);
}

/// Appends a line: the messages to send, `nothing` where there is none.
pub fn record_sent(messages: &[Message], maps: CallMaps<'_>, answer: &mut Transcript) {
    answer.text("send ");
    write_sent(messages, maps, answer);
    answer.line("");
}

/// Appends the fields of a record, without its definition.
pub fn write_head(record: &Record, answer: &mut Transcript) {
    match record {
        Record::Tried(round) => write_field("tried ", *round, answer),
        Record::Promised(slot, ballot) => write_at("promised", *slot, *ballot, answer),
        Record::Accepted(slot, ballot, _) => write_at("accepted", *slot, *ballot, answer),
        Record::Published(slot, _) => write_field("published slot ", *slot, answer),
    }
}

fn write_record(record: &Record, maps: CallMaps<'_>, answer: &mut Transcript) {
    write_head(record, answer);
    match record {
        Record::Accepted(_, _, canon) | Record::Published(_, canon) => {
            write_definition(canon, maps, answer);
        }
        Record::Tried(_) | Record::Promised(_, _) => {}
    }
}

fn write_sent(messages: &[Message], maps: CallMaps<'_>, answer: &mut Transcript) {
    let Some((first, others)) = messages.split_first() else {
        return answer.text("nothing");
    };
    write_message(first, maps, answer);
    for message in others {
        answer.text(" and ");
        write_message(message, maps, answer);
    }
}
