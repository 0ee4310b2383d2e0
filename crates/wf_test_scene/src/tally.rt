//! What is counted.

use wf_test_table::Transcript;

/// What is counted, in this order.
const WORDS: [&str; 34] = [
    "published",
    "reported",
    "accepted",
    "documents",
    "pictures",
    "pages",
    "replies",
    "rejected",
    "unanswered",
    "turns",
    "messages",
    "lines",
    "replicas",
    "learned",
    "alone",
    "one-way",
    "kills",
    "cuts",
    "cut-calls",
    "disks",
    "full-disks",
    "jumps",
    "slow-syncs",
    "stops",
    "strangers",
    "connections",
    "refused",
    "silent",
    "resets",
    "answers",
    "losses",
    "pieces",
    "waits",
    "millis",
];

/// How often what happened, in a play or in several.
#[derive(Clone, Copy)]
pub struct Tally {
    counts: [u64; 34],
}

impl Tally {
    /// Nothing happened.
    pub fn new() -> Self {
        Tally { counts: [0; 34] }
    }

    /// So much happened, in the order of the words.
    pub fn of(counts: [u64; 34]) -> Self {
        Tally { counts }
    }

    /// That happened too.
    pub fn add(&mut self, other: &Tally) {
        for (count, more) in self.counts.iter_mut().zip(other.counts) {
            *count = count.saturating_add(more);
        }
    }

    /// Writes each count behind its word, and then a digest.
    pub fn write(&self, digest: u64, answer: &mut Transcript) {
        for (word, count) in WORDS.iter().zip(self.counts) {
            answer.texts(&[*word, " "]);
            answer.value(count);
            answer.text(", ");
        }
        answer.text("digest ");
        answer.value(digest);
        answer.line("");
    }
}
