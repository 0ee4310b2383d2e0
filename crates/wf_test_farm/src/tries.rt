//! Majorities, rounds and ballots.
use wf_ballot::{Ballot, is_majority, split_ballot, split_round};
use wf_test_calls::{
    read_ballot, read_node, write_bytes, write_left, write_none, write_printed, write_read,
    write_whether,
};
use wf_test_table::{Answered, CaseInput, CaseWords, Transcript, Unanswered};

pub(crate) fn majority(asked: CaseInput<'_>, answer: &mut Transcript) -> Answered {
    let mut words = CaseWords::of(asked.input)?;
    let count = words.count()?;
    if words.word() != "of" {
        return Err(Unanswered::BadWords);
    }
    write_whether(is_majority(count, words.count()?), answer);
    Ok(())
}

pub(crate) fn ask_round(asked: CaseInput<'_>, answer: &mut Transcript) -> Answered {
    if asked.words.rest() != "split" {
        return Err(Unanswered::UnknownQuestion);
    }
    match split_round(asked.input) {
        Some((round, rest)) => write_left(round, rest, answer),
        None => write_none(answer),
    }
    Ok(())
}

pub(crate) fn ask_ballot(asked: CaseInput<'_>, answer: &mut Transcript) -> Answered {
    match asked.words.rest() {
        "number" => ballot_number(asked, answer),
        "bytes" => ballot_bytes(asked, answer),
        "read" => {
            write_read(Ballot::from_bytes(asked.input), answer);
            Ok(())
        }
        "split" => {
            ballot_split(asked.input, answer);
            Ok(())
        }
        "next" => ballot_next(asked, answer),
        "compare" => ballot_compare(asked, answer),
        _ => Err(Unanswered::UnknownQuestion),
    }
}

/// Appends a ballot's round and node.
fn write_parts(ballot: Option<Ballot>, answer: &mut Transcript) {
    match ballot {
        Some(ballot) => {
            answer.value(ballot.round());
            answer.text(" ");
            write_printed(ballot.node().number(), answer);
        }
        None => write_none(answer),
    }
}

fn ballot_number(asked: CaseInput<'_>, answer: &mut Transcript) -> Answered {
    let mut words = CaseWords::of(asked.input)?;
    let round = words.number()?;
    write_parts(Ballot::new(round, read_node(&mut words)?), answer);
    Ok(())
}

fn ballot_next(asked: CaseInput<'_>, answer: &mut Transcript) -> Answered {
    let mut words = CaseWords::of(asked.input)?;
    let round = words.number()?;
    write_parts(Ballot::next(round, read_node(&mut words)?), answer);
    Ok(())
}

fn ballot_bytes(asked: CaseInput<'_>, answer: &mut Transcript) -> Answered {
    let ballot = read_ballot(&mut CaseWords::of(asked.input)?)?;
    write_bytes(&ballot.bytes(), answer);
    Ok(())
}

fn ballot_split(input: &[u8], answer: &mut Transcript) {
    match split_ballot(input) {
        Some((ballot, rest)) => write_left(ballot, rest, answer),
        None => write_none(answer),
    }
}

fn ballot_compare(asked: CaseInput<'_>, answer: &mut Transcript) -> Answered {
    let mut words = CaseWords::of(asked.input)?;
    let first = read_ballot(&mut words)?;
    let second = read_ballot(&mut words)?;
    answer.line(order(first, second));
    Ok(())
}

/// How a ballot compares to another, where the call, `<` and `==` agree on it.
fn order(first: Ballot, second: Ballot) -> &'static str {
    match (first.is_below(second), first < second, first == second) {
        (true, true, false) => "below",
        (false, false, true) => "equal",
        (false, false, false) => "above",
        _ => "in no order",
    }
}
