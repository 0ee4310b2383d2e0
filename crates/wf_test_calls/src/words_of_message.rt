//! Messages in words, on one line: the kind and the fields. A definition is `map` and its name in
//! the script, or else its text, from the next line on.
use crate::lines::write_field;
use crate::script::CallMaps;
use wf_ballot::{Ballot, NodeId, Slot};
use wf_canon::Canon;
use wf_codec::{Message, Report};
use wf_test_table::Transcript;

/// Appends the message in words.
pub fn write_message(message: &Message, maps: CallMaps<'_>, answer: &mut Transcript) {
    match message {
        Message::Prepare(slot, ballot) => write_at("prepare", *slot, *ballot, answer),
        Message::Promise(node, ballot, report) => {
            write_from("promise", *node, report.slot(), *ballot, answer);
            write_votes(report, maps, answer);
        }
        Message::Accept(slot, ballot, canon) => {
            write_at("accept", *slot, *ballot, answer);
            write_definition(canon, maps, answer);
        }
        Message::Accepted(node, slot, ballot) => {
            write_from("accepted", *node, *slot, *ballot, answer);
        }
        Message::Nack(node, slot, ballot, promised) => {
            write_from("nack", *node, *slot, *ballot, answer);
            write_field(" promised ", *promised, answer);
        }
        Message::Chosen(slot, canon) => {
            write_field("chosen slot ", *slot, answer);
            write_definition(canon, maps, answer);
        }
        Message::Ask(slot) => write_field("ask slot ", *slot, answer),
    }
}

/// Appends a kind with its slot and ballot.
pub fn write_at(kind: &str, slot: Slot, ballot: Ballot, answer: &mut Transcript) {
    answer.text(kind);
    write_field(" slot ", slot, answer);
    write_field(" ballot ", ballot, answer);
}

/// Appends a kind with the node that sends it, its slot and its ballot.
fn write_from(kind: &str, node: NodeId, slot: Slot, ballot: Ballot, answer: &mut Transcript) {
    answer.text(kind);
    write_field(" node ", node, answer);
    write_at("", slot, ballot, answer);
}

/// Appends the votes that a promise reports. That at its slot is `voted` and its ballot, a later
/// one has its slot before that.
fn write_votes(report: &Report, maps: CallMaps<'_>, answer: &mut Transcript) {
    let mut slot = report.slot().number();
    let mut gap = " ";
    for vote in report.votes() {
        if let Some((voted, canon)) = vote {
            answer.text(gap);
            write_voted(slot, slot == report.slot().number(), *voted, answer);
            write_definition(canon, maps, answer);
            gap = gap_after(canon, maps);
        }
        slot = slot.saturating_add(1);
    }
}

fn write_voted(slot: u16, is_first: bool, voted: Ballot, answer: &mut Transcript) {
    answer.text("voted ");
    if !is_first {
        write_field("at slot ", slot, answer);
        answer.text(" ");
    }
    answer.value(voted);
}

/// What parts a definition from what follows it: a line feed where it was written as its text.
fn gap_after(canon: &Canon, maps: CallMaps<'_>) -> &'static str {
    match maps.name_of(canon.text()) {
        Some(_) => " ",
        None => "\n",
    }
}

/// Appends a definition.
pub fn write_definition(canon: &Canon, maps: CallMaps<'_>, answer: &mut Transcript) {
    match maps.name_of(canon.text()) {
        Some(name) => {
            answer.text(" map ");
            answer.text(name);
        }
        None => write_lines(canon.text(), answer),
    }
}

/// Appends a text's lines, from the next line on, without the last line feed.
fn write_lines(text: &[u8], answer: &mut Transcript) {
    answer.line("");
    let last = text.len().saturating_sub(1);
    answer.bytes(&text[..last]);
}
