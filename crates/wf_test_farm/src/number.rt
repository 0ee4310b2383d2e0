//! Nodes, sequences and slots: their numbers, their bytes, and how they are read.
use wf_ballot::{NodeId, Seq, Slot, split_node, split_slot};
use wf_test_calls::{
    read_node, read_sequence, read_slot, write_bytes, write_left, write_none, write_printed,
    write_read,
};
use wf_test_table::{Answered, CaseInput, CaseWords, Transcript, Unanswered};

pub(crate) fn ask_node(asked: CaseInput<'_>, answer: &mut Transcript) -> Answered {
    match asked.words.rest() {
        "number" => node_number(asked, answer),
        "bytes" => node_bytes(asked, answer),
        "read" => {
            write_read(NodeId::from_bytes(asked.input), answer);
            Ok(())
        }
        "split" => {
            node_split(asked.input, answer);
            Ok(())
        }
        _ => Err(Unanswered::UnknownQuestion),
    }
}

fn node_number(asked: CaseInput<'_>, answer: &mut Transcript) -> Answered {
    let number = CaseWords::of(asked.input)?.byte()?;
    match NodeId::new(number) {
        Some(node) => write_printed(node.number(), answer),
        None => write_none(answer),
    }
    Ok(())
}

fn node_bytes(asked: CaseInput<'_>, answer: &mut Transcript) -> Answered {
    let node = read_node(&mut CaseWords::of(asked.input)?)?;
    write_bytes(&node.bytes(), answer);
    Ok(())
}

fn node_split(input: &[u8], answer: &mut Transcript) {
    match split_node(input) {
        Some((node, rest)) => write_left(node, rest, answer),
        None => write_none(answer),
    }
}

pub(crate) fn ask_sequence(asked: CaseInput<'_>, answer: &mut Transcript) -> Answered {
    match asked.words.rest() {
        "number" => sequence_number(asked, answer),
        "bytes" => sequence_bytes(asked, answer),
        "read" => {
            write_read(Seq::from_bytes(asked.input), answer);
            Ok(())
        }
        _ => Err(Unanswered::UnknownQuestion),
    }
}

fn sequence_number(asked: CaseInput<'_>, answer: &mut Transcript) -> Answered {
    let number = CaseWords::of(asked.input)?.short()?;
    match Seq::new(number) {
        Some(sequence) => write_printed(sequence.number(), answer),
        None => write_none(answer),
    }
    Ok(())
}

fn sequence_bytes(asked: CaseInput<'_>, answer: &mut Transcript) -> Answered {
    let sequence = read_sequence(&mut CaseWords::of(asked.input)?)?;
    write_bytes(&sequence.bytes(), answer);
    Ok(())
}

pub(crate) fn ask_slot(asked: CaseInput<'_>, answer: &mut Transcript) -> Answered {
    match asked.words.rest() {
        "number" => slot_number(asked, answer),
        "of" => slot_of(asked, answer),
        "bytes" => slot_bytes(asked, answer),
        "read" => {
            write_read(Slot::from_bytes(asked.input), answer);
            Ok(())
        }
        "split" => {
            slot_split(asked.input, answer);
            Ok(())
        }
        _ => Err(Unanswered::UnknownQuestion),
    }
}

fn slot_number(asked: CaseInput<'_>, answer: &mut Transcript) -> Answered {
    let number = CaseWords::of(asked.input)?.short()?;
    match Slot::new(number) {
        Some(slot) => write_printed(slot.number(), answer),
        None => write_none(answer),
    }
    Ok(())
}

fn slot_of(asked: CaseInput<'_>, answer: &mut Transcript) -> Answered {
    let sequence = read_sequence(&mut CaseWords::of(asked.input)?)?;
    match Slot::of(sequence) {
        Some(slot) => write_printed(slot.seq().number(), answer),
        None => write_none(answer),
    }
    Ok(())
}

fn slot_bytes(asked: CaseInput<'_>, answer: &mut Transcript) -> Answered {
    let slot = read_slot(&mut CaseWords::of(asked.input)?)?;
    write_bytes(&slot.bytes(), answer);
    Ok(())
}

fn slot_split(input: &[u8], answer: &mut Transcript) {
    match split_slot(input) {
        Some((slot, rest)) => write_left(slot, rest, answer),
        None => write_none(answer),
    }
}
