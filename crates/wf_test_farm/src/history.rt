//! A history that a script calls.
//!
//! ```text
//! learn SLOT MAP      `published`, `known` or `missing from slot N`: what became of the
//!                     definition, which is chosen at the slot
//! fill SLOT MAP       `done`: the definition is learned at each slot up to this one
//! room                `done`: there is room for one more definition
//! published           the last published sequence
//! next                the slot that comes next, none
//! get SEQUENCE        the sequence and its map, none
//! canon SLOT          the slot and its definition, none
//! chosen SLOT         what to send of the slot's definition
//! ask SLOT            what to send to a node that asks from the slot on
//! ```
use std::alloc::{AllocError, Global};
use wf_ballot::{Seq, Slot};
use wf_canon::Canon;
use wf_learner::{History, Learned};
use wf_test_calls::{
    CallMaps, CallScript, read_script, read_sequence, read_slot, record_sent, write_at, write_done,
    write_field, write_map, write_none, write_printed, write_read,
};
use wf_test_table::{Answered, CaseInput, CaseWords, Transcript, Unanswered};

#[derive(Drop)]
struct HistorySession<'a> {
    alloc: Global,
    maps: CallMaps<'a>,
    history: History,
}

/// Appends what the history of a node, which has published nothing, answers to each call.
pub(crate) fn ask(asked: CaseInput<'_>, answer: &mut Transcript) -> Answered {
    let script = read_script(asked.input)?;
    match History::new(asked.alloc) {
        Ok(history) => take_calls(asked.alloc, history, script, answer),
        Err(_) => Err(Unanswered::Memory),
    }
}

fn take_calls(
    alloc: Global,
    history: History,
    script: CallScript<'_>,
    answer: &mut Transcript,
) -> Answered {
    let mut session = HistorySession {
        alloc,
        maps: script.maps,
        history,
    };
    let taken = session.take_calls(script.calls, answer);
    drop(session);
    taken
}

impl HistorySession<'_> {
    fn take_calls(&mut self, calls: &str, answer: &mut Transcript) -> Answered {
        for call in calls.lines() {
            self.take(&mut CaseWords::new(call), answer)?;
        }
        Ok(())
    }

    fn take(&mut self, call: &mut CaseWords<'_>, answer: &mut Transcript) -> Answered {
        match call.word() {
            "learn" => self.learn(call, answer),
            "fill" => self.fill(call, answer),
            "room" => {
                write_done(self.history.make_room(), answer);
                Ok(())
            }
            asked => self.look(asked, call, answer),
        }
    }

    /// The calls that change nothing.
    fn look(&self, asked: &str, call: &mut CaseWords<'_>, answer: &mut Transcript) -> Answered {
        match asked {
            "published" => write_printed(self.history.published().number(), answer),
            "next" => write_read(self.history.next_slot(), answer),
            "get" => self.get(read_sequence(call)?, answer),
            asked => return self.look_at(asked, read_slot(call)?, answer),
        }
        Ok(())
    }

    /// The calls about a slot that change nothing.
    fn look_at(&self, asked: &str, slot: Slot, answer: &mut Transcript) -> Answered {
        match asked {
            "canon" => self.canon(slot, answer),
            "chosen" => self.chosen(slot, answer),
            "ask" => self.answer_ask(slot, answer),
            _ => return Err(Unanswered::UnknownQuestion),
        }
        Ok(())
    }

    fn learn(&mut self, call: &mut CaseWords<'_>, answer: &mut Transcript) -> Answered {
        let slot = read_slot(call)?;
        let canon = self.maps.canon(self.alloc, call.word())?;
        match self.history.learn(slot, canon) {
            Ok(learned) => write_learned(learned, answer),
            Err(_) => answer.cut(),
        }
        Ok(())
    }

    fn fill(&mut self, call: &mut CaseWords<'_>, answer: &mut Transcript) -> Answered {
        let last = read_slot(call)?;
        let canon = self.maps.canon(self.alloc, call.word())?;
        let filled = self.learn_up_to(last, &canon);
        drop(canon);
        write_done(filled, answer);
        Ok(())
    }

    /// Learns the definition at each slot up to the last.
    fn learn_up_to(&mut self, last: Slot, canon: &Canon) -> Result<(), AllocError> {
        for number in 1..last.number().saturating_add(1) {
            if let Some(slot) = Slot::new(number) {
                self.learn_copy(slot, canon)?;
            }
        }
        Ok(())
    }

    fn learn_copy(&mut self, slot: Slot, canon: &Canon) -> Result<(), AllocError> {
        match self.history.learn(slot, canon.copy()?) {
            Ok(_) => Ok(()),
            Err(error) => Err(error),
        }
    }

    fn get(&self, sequence: Seq, answer: &mut Transcript) {
        let map = self.history.get(sequence);
        write_map(self.alloc, sequence, map, self.maps, answer);
    }

    fn canon(&self, slot: Slot, answer: &mut Transcript) {
        match self.history.canon(slot) {
            Some(canon) => write_at("slot ", slot, canon, self.maps, answer),
            None => write_none(answer),
        }
    }

    fn chosen(&self, slot: Slot, answer: &mut Transcript) {
        match self.history.chosen_message(slot) {
            Ok(message) => {
                record_sent(message.as_slice(), self.maps, answer);
                drop(message);
            }
            Err(_) => answer.cut(),
        }
    }

    fn answer_ask(&self, slot: Slot, answer: &mut Transcript) {
        match self.history.answer_ask(self.alloc, slot) {
            Ok(messages) => {
                record_sent(&messages, self.maps, answer);
                drop(messages);
            }
            Err(_) => answer.cut(),
        }
    }
}

fn write_learned(learned: Learned, answer: &mut Transcript) {
    match learned {
        Learned::Published => answer.text("published"),
        Learned::Known => answer.text("known"),
        Learned::Missing(slot) => write_field("missing from slot ", slot, answer),
    }
    answer.line("");
}
