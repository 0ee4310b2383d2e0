//! Messages that are made of words: the kind and the fields, in their order in the message.
//!
//! ```text
//! prepare SLOT BALLOT
//! promise NODE SLOT BALLOT [VOTE ..]    with its votes, that at the slot first; a VOTE is `none`,
//!                                       or BALLOT MAP
//! accept SLOT BALLOT MAP
//! accepted NODE SLOT BALLOT
//! nack NODE SLOT BALLOT PROMISED
//! chosen SLOT MAP
//! ask SLOT
//! ```
ghost use Rattle.std.specs.Prelude.{◌≡◌, ◌+◌, ◌≤◌, OnOk};
ghost use Rattle.arrayvec.specs.ArrayVec.{array_vec_len};
ghost use Rattle.wf_model.specs.Table.{sequences_from};
ghost use Rattle.wf_model.specs.VolatileState.{window};

use crate::script::Definitions;
use crate::words;
use arrayvec::ArrayVec;
use std::alloc::Global;
use wf_ballot::{Ballot, Slot};
use wf_canon::Canon;
use wf_codec::{Message, Report, Votes};
use wf_test_table::{Answered, CaseWords, Unanswered};

/// The words of a message, and where its definition comes from.
#[derive(Clone, Copy)]
pub struct Spoken<'a> {
    pub alloc: Global,
    pub words: CaseWords<'a>,
    pub definitions: Definitions<'a>,
}

impl Spoken<'_> {
    /// The message.
    pub fn message(mut self) -> Result<Message, Unanswered> {
        match self.words.word() {
            "prepare" => self.prepare(),
            "promise" => self.promise(),
            "accept" => self.accept(),
            "accepted" => self.accepted(),
            "nack" => self.nack(),
            "chosen" => self.chosen(),
            "ask" => self.ask(),
            _ => Err(Unanswered::UnknownQuestion),
        }
    }

    /// What a Promise reports from the slot on: the votes that all further words name, and none
    /// where no words are left.
    pub fn report(mut self, slot: Slot) -> Result<Report, Unanswered> {
        let mut votes = ArrayVec::new();
        push_votes(&mut self, vote_count(slot), &mut votes)?;
        if self.words.is_empty() {
            Ok(Report::of(slot, votes))
        } else {
            drop(votes);
            Err(Unanswered::BadWords)
        }
    }

    /// The vote that comes next: none where the word says so, or where no word is left.
    fn vote(&mut self) -> Result<Option<(Ballot, Canon)>, Unanswered> {
        let mut ahead = self.words;
        if matches!(ahead.word(), "none" | "") {
            self.words = ahead;
            return Ok(None);
        }
        let voted = words::read_ballot(&mut self.words)?;
        match self.definition() {
            Ok(canon) => Ok(Some((voted, canon))),
            Err(unanswered) => Err(unanswered),
        }
    }

    /// The definition that comes next.
    fn definition(&mut self) -> Result<Canon, Unanswered> {
        self.definitions.next(self.alloc, &mut self.words)
    }

    fn prepare(mut self) -> Result<Message, Unanswered> {
        let slot = words::read_slot(&mut self.words)?;
        let ballot = words::read_ballot(&mut self.words)?;
        Ok(Message::Prepare(slot, ballot))
    }

    fn promise(mut self) -> Result<Message, Unanswered> {
        let from = words::read_node(&mut self.words)?;
        let slot = words::read_slot(&mut self.words)?;
        let ballot = words::read_ballot(&mut self.words)?;
        match self.report(slot) {
            Ok(report) => Ok(Message::Promise(from, ballot, report)),
            Err(unanswered) => Err(unanswered),
        }
    }

    fn accept(mut self) -> Result<Message, Unanswered> {
        let slot = words::read_slot(&mut self.words)?;
        let ballot = words::read_ballot(&mut self.words)?;
        match self.definition() {
            Ok(canon) => Ok(Message::Accept(slot, ballot, canon)),
            Err(unanswered) => Err(unanswered),
        }
    }

    fn accepted(mut self) -> Result<Message, Unanswered> {
        let from = words::read_node(&mut self.words)?;
        let slot = words::read_slot(&mut self.words)?;
        let ballot = words::read_ballot(&mut self.words)?;
        Ok(Message::Accepted(from, slot, ballot))
    }

    fn nack(mut self) -> Result<Message, Unanswered> {
        let from = words::read_node(&mut self.words)?;
        let slot = words::read_slot(&mut self.words)?;
        let ballot = words::read_ballot(&mut self.words)?;
        let promised = words::read_ballot(&mut self.words)?;
        Ok(Message::Nack(from, slot, ballot, promised))
    }

    fn chosen(mut self) -> Result<Message, Unanswered> {
        let slot = words::read_slot(&mut self.words)?;
        match self.definition() {
            Ok(canon) => Ok(Message::Chosen(slot, canon)),
            Err(unanswered) => Err(unanswered),
        }
    }

    fn ask(mut self) -> Result<Message, Unanswered> {
        let slot = words::read_slot(&mut self.words)?;
        Ok(Message::Ask(slot))
    }
}

/// Appends so many votes that the words name. There must be room for them.
fn push_votes(spoken: &mut Spoken<'_>, count: usize, votes: &mut Votes) -> Answered
    requires { array_vec_len votes.old + count ≤ 4 }
    ensures { OnOk result (array_vec_len votes.new ≡ array_vec_len votes.old + count) }
{
    if count == 0 {
        return Ok(());
    }
    votes.push(spoken.vote()?);
    push_votes(spoken, count - 1, votes)
}

/// How many votes a report from the slot on has: one for it and each of the three after it, as far
/// as there are slots.
#[tactic(auto, unfolding(wf_model::specs::Table::sequences_from))]
fn vote_count(slot: Slot) -> usize
    ensures value { result ≡ sequences_from slot window }
    ensures few { result ≤ 4 }
{
    match slot.number() {
        4096 => 1,
        4095 => 2,
        4094 => 3,
        _ => 4,
    }
}
