//! Nodes, sequences, slots and ballots, read from words.
use wf_ballot::{Ballot, NodeId, Seq, Slot};
use wf_test_table::{CaseWords, Unanswered};

/// The next word, the number of a node.
pub fn read_node(words: &mut CaseWords<'_>) -> Result<NodeId, Unanswered> {
    match NodeId::new(words.byte()?) {
        Some(node) => Ok(node),
        None => Err(Unanswered::BadWords),
    }
}

/// The next word, the number of a sequence.
pub fn read_sequence(words: &mut CaseWords<'_>) -> Result<Seq, Unanswered> {
    match Seq::new(words.short()?) {
        Some(sequence) => Ok(sequence),
        None => Err(Unanswered::BadWords),
    }
}

/// The next word, the number of a slot.
pub fn read_slot(words: &mut CaseWords<'_>) -> Result<Slot, Unanswered> {
    match Slot::new(words.short()?) {
        Some(slot) => Ok(slot),
        None => Err(Unanswered::BadWords),
    }
}

/// The next two words, a ballot's round and its node.
pub fn read_ballot(words: &mut CaseWords<'_>) -> Result<Ballot, Unanswered> {
    let round = words.number()?;
    let node = read_node(words)?;
    match Ballot::new(round, node) {
        Some(ballot) => Ok(ballot),
        None => Err(Unanswered::BadWords),
    }
}
