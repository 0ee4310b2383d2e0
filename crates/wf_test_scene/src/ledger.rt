//! What was seen of a farm, and what that violates.

use crate::exchange::{number_behind, text_of};
use crate::process::Process;
use std::alloc::{AllocError, Global};
use thiserror::Error;
use wf_ballot::Slot;
use wf_learner::History;
use wf_test_table::Transcript;

/// The most violations that are told.
const MOST_TOLD: usize = 8;

/// What a farm has to keep, and didn't.
#[derive(Clone, Copy, Debug, Error)]
pub enum Violation {
    /// Two processes, or one at two times, have different maps at a sequence.
    #[error("{0} has another map at {1}")]
    TwoMaps(Process, u16),
    /// A map is published that nobody has sent.
    #[error("{0} has a map at {1} that nobody published")]
    NobodysMap(Process, u16),
    /// A replica has a map at a sequence at which no node has one.
    #[error("{0} has a map at {1} before any node")]
    Ahead(Process, u16),
    /// A process has published fewer sequences than before.
    #[error("{0} went back from {1} to {2}")]
    WentBack(Process, u16, u16),
    /// The map that a node reported as published at a sequence isn't there.
    #[error("{0} hasn't the map {1} that was reported there")]
    OtherMap(u16, u32),
    /// Two answers to a request about a sequence differ.
    #[error("{0} has other capabilities or another picture at {1}")]
    TwoAnswers(Process, u16),
    /// A process didn't start, and ended with this status.
    #[error("{0} didn't start: status {1}")]
    NotStarted(Process, u8),
    /// All of a replica's sources refused it.
    #[error("{0} has to end")]
    Ended(Process),
    /// A sound node was refused by a peer.
    #[error("node {0} is suspended")]
    Suspended(u8),
    /// A node started on a folder that isn't its last one, and wasn't refused.
    #[error("node {0} isn't refused")]
    NotRefused(u8),
    /// A client of a process had no answer in time, once all faults were over.
    #[error("{0} isn't healed")]
    NotHealed(Process),
    /// A process hasn't published as many sequences as others then.
    #[error("{0} has published {1} of {2}")]
    NotEqual(Process, u16, usize),
    /// A process still has connections of clients once all are gone, or have stopped for too long.
    #[error("{0} has {1} connections of clients that are gone")]
    NotGivenBack(Process, u32),
    /// Nodes have more connections of readers then than there are replicas.
    #[error("{0} readers are connected, of {1} that are there")]
    ReadersNotGivenBack(u32, u8),
    /// The processes have written more lines of their logs than what happened gives reason for.
    #[error("{0} lines were logged, of {1} at most")]
    TooManyLines(u64, u64),
    /// More connections are there than those of nodes to each other, and of replicas.
    #[error("{0} connections are there, of {1} that anybody has")]
    ConnectionsLeft(usize, usize),
}

/// A request about a sequence, whose answer is one at all nodes.
#[derive(Clone, Copy, PartialEq)]
pub enum Seen {
    /// The capabilities.
    Capabilities,
    /// The picture.
    Picture,
}

/// A digest of bytes, to which more are added (FNV-1a, 64 bits).
pub fn digest_of(digest: u64, bytes: &[u8]) -> u64 {
    let mut digest = digest;
    for byte in bytes {
        digest = (digest ^ u64::from(*byte)).wrapping_mul(0x0000_0100_0000_01b3);
    }
    digest
}

/// The digest of no bytes.
pub const NO_BYTES: u64 = 0xcbf2_9ce4_8422_2325;

/// How often clients had which answers.
#[derive(Clone, Copy, Default)]
pub struct Answers {
    /// Maps that were accepted.
    pub accepted: u64,
    /// Requests that were answered by an error.
    pub rejected: u64,
    /// Documents of capabilities.
    pub documents: u64,
    /// Pictures.
    pub pictures: u64,
    /// Pages of operators.
    pub pages: u64,
    /// Replies to readers.
    pub replies: u64,
    /// Requests that nothing answered.
    pub failed: u64,
    /// Connections on which a client stopped.
    pub stopped: u64,
}

/// What was seen of a farm: its maps and answers by sequence, and which maps were reported as
/// published. It remembers whether an allocation failed.
#[derive(Drop)]
pub struct Ledger {
    alloc: Global,
    pub answers: Answers,
    // how many maps clients have sent
    maps: u32,
    texts: Vec<Vec<u8>>,
    seen: Vec<(u16, Seen, u64)>,
    reports: Vec<(u16, u32)>,
    // the nodes that said that a peer refuses them
    suspended: Vec<u8>,
    violations: Vec<Violation>,
    is_cut: bool,
}

impl Ledger {
    /// Nothing was seen.
    pub fn new(alloc: Global) -> Self {
        Ledger {
            alloc,
            answers: Answers::default(),
            maps: 0,
            texts: Vec::new(alloc),
            seen: Vec::new(alloc),
            reports: Vec::new(alloc),
            suspended: Vec::new(alloc),
            violations: Vec::new(alloc),
            is_cut: false,
        }
    }

    /// An allocation has failed.
    pub fn cut(&mut self) {
        self.is_cut = true;
    }

    /// Whether an allocation has failed.
    pub fn is_cut(&self) -> bool {
        self.is_cut
    }

    /// The number of the next map.
    pub fn take_map(&mut self) -> u32 {
        let map = self.maps;
        self.maps = map.saturating_add(1);
        map
    }

    /// Notes a violation.
    pub fn violate(&mut self, violation: Violation) {
        if self.violations.push(violation).is_err() {
            self.cut();
        }
    }

    /// How many violations there are.
    pub fn violated(&self) -> usize {
        self.violations.len()
    }

    /// How many maps were published.
    pub fn published(&self) -> usize {
        self.texts.len()
    }

    /// How many maps were reported as published.
    pub fn reported(&self) -> usize {
        self.reports.len()
    }

    /// Notes what a process has published, of which so many sequences were noted. Returns how many
    /// it has.
    pub fn note_list(&mut self, process: Process, history: &History, noted: u16) -> u16 {
        let published = history.published().number();
        if published < noted {
            self.violate(Violation::WentBack(process, noted, published));
        }
        for index in 0..published.saturating_sub(noted) {
            let sequence = noted.saturating_add(index).saturating_add(1);
            if let Some(slot) = Slot::new(sequence) {
                if let Some(canon) = history.canon(slot) {
                    self.note_text(process, sequence, canon.text());
                }
            }
        }
        published
    }

    /// Notes a map that a process has published.
    pub fn note_text(&mut self, process: Process, sequence: u16, text: &[u8]) {
        match self.texts.get((sequence as usize).saturating_sub(1)) {
            Some(known) => if known.as_slice() != text {
                self.violate(Violation::TwoMaps(process, sequence));
            },
            None => self.note_new_text(process, sequence, text),
        }
    }

    /// Notes a map that nobody had published before.
    fn note_new_text(&mut self, process: Process, sequence: u16, text: &[u8]) {
        if process.is_replica() {
            self.violate(Violation::Ahead(process, sequence));
        }
        match number_behind(text_of(text), "NAME \"m") {
            Some(map) if map < self.maps => {}
            _ => self.violate(Violation::NobodysMap(process, sequence)),
        }
        if self.keep_text(text).is_err() {
            self.cut();
        }
    }

    /// Keeps a copy of a map.
    fn keep_text(&mut self, text: &[u8]) -> Result<(), AllocError> {
        let copy = text.to_vec(self.alloc)?;
        self.texts.push(copy)?;
        Ok(())
    }

    /// Notes that a map was reported as published.
    pub fn note_report(&mut self, sequence: u16, map: u32) {
        if self.reports.push((sequence, map)).is_err() {
            self.cut();
        }
        self.compare_report(sequence, map);
    }

    /// Compares a report with what is published.
    fn compare_report(&mut self, sequence: u16, map: u32) {
        let found = match self.texts.get((sequence as usize).saturating_sub(1)) {
            Some(text) => number_behind(text_of(text.as_slice()), "NAME \"m"),
            None => None,
        };
        if found != Some(map) {
            self.violate(Violation::OtherMap(sequence, map));
        }
    }

    /// Compares all reports with what is published at the end.
    pub fn compare_reports(&mut self) {
        for index in 0..self.reports.len() {
            if let Some((sequence, map)) = self.reports.get(index).copied() {
                self.compare_report(sequence, map);
            }
        }
    }

    /// Notes what a process answered to a request about a sequence.
    pub fn note_answer(&mut self, process: Process, sequence: u16, request: Seen, answer: &[u8]) {
        let digest = digest_of(NO_BYTES, answer);
        match known_in(self.seen.as_slice(), sequence, request) {
            Some(known) => if known != digest {
                self.violate(Violation::TwoAnswers(process, sequence));
            },
            None => if self.seen.push((sequence, request, digest)).is_err() {
                self.cut();
            },
        }
    }

    /// Notes that a node says that a peer refuses it.
    pub fn note_suspended(&mut self, node: u8) {
        if !self.is_suspended(node) && self.suspended.push(node).is_err() {
            self.cut();
        }
    }

    /// Whether a node has said that a peer refuses it.
    pub fn is_suspended(&self, node: u8) -> bool {
        self.suspended.contains(&node)
    }

    /// Writes what was violated, a line each behind these words.
    pub fn write(&self, before: &str, answer: &mut Transcript) {
        for violation in self.violations.iter().take(MOST_TOLD) {
            answer.text(before);
            answer.value(*violation);
            answer.line("");
        }
    }

    /// The digest of all that was published, reported and answered.
    pub fn digest(&self) -> u64 {
        let mut digest = NO_BYTES;
        for text in &self.texts {
            digest = digest_of(digest, text.as_slice());
        }
        for (sequence, map) in &self.reports {
            digest = digest_of(digest, &sequence.to_be_bytes());
            digest = digest_of(digest, &map.to_be_bytes());
        }
        for (sequence, _, answer) in &self.seen {
            digest = digest_of(digest, &sequence.to_be_bytes());
            digest = digest_of(digest, &answer.to_be_bytes());
        }
        digest
    }
}

/// The digest of the answer to a request about a sequence that is known.
fn known_in(seen: &[(u16, Seen, u64)], sequence: u16, request: Seen) -> Option<u64> {
    for (known, known_request, digest) in seen {
        if *known == sequence && *known_request == request {
            return Some(*digest);
        }
    }
    None
}
