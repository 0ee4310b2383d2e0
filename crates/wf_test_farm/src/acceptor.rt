//! An acceptor that a script calls. The record of each answer is applied.
//!
//! ```text
//! prepare SLOT BALLOT          what to store and to send
//! accept SLOT BALLOT MAP       what to store and to send
//! publish SLOT MAP             `done`: the definition is published at the slot, which is the next
//! is_published SLOT            yes, no
//! ```
//!
//! `prepare` and `accept` can't name a published slot.
use std::alloc::{AllocError, Global};
use wf_acceptor::{Acceptor, AcceptorAnswer as Reply};
use wf_ballot::Slot;
use wf_journal::Record;
use wf_test_calls::{
    CallMaps, read_ballot, read_node, read_script, read_slot, write_done, write_step, write_whether,
};
use wf_test_table::{Answered, CaseInput, CaseWords, Transcript, Unanswered};

#[derive(Drop)]
struct AcceptorSession<'a> {
    alloc: Global,
    maps: CallMaps<'a>,
    acceptor: Acceptor,
}

/// Appends what the acceptor of a node, which has stored nothing, answers to each call.
pub(crate) fn ask(mut asked: CaseInput<'_>, answer: &mut Transcript) -> Answered {
    let node = read_node(&mut asked.words)?;
    let script = read_script(asked.input)?;
    let mut session = AcceptorSession {
        alloc: asked.alloc,
        maps: script.maps,
        acceptor: Acceptor::new(asked.alloc, node),
    };
    let taken = session.take_calls(script.calls, answer);
    drop(session);
    taken
}

impl AcceptorSession<'_> {
    ghost use Rattle.std.specs.Prelude.{◌≡◌, ◌+◌, IsTrue};

    fn take_calls(&mut self, calls: &str, answer: &mut Transcript) -> Answered {
        for call in calls.lines() {
            self.take(&mut CaseWords::new(call), answer)?;
        }
        Ok(())
    }

    fn take(&mut self, call: &mut CaseWords<'_>, answer: &mut Transcript) -> Answered {
        match call.word() {
            "prepare" => self.prepare(call, answer),
            "accept" => self.accept(call, answer),
            "publish" => self.publish(call, answer),
            "is_published" => self.is_published(call, answer),
            _ => Err(Unanswered::UnknownQuestion),
        }
    }

    fn prepare(&mut self, call: &mut CaseWords<'_>, answer: &mut Transcript) -> Answered {
        let slot = read_slot(call)?;
        let ballot = read_ballot(call)?;
        if self.acceptor.is_published(slot) {
            return Err(Unanswered::BadWords);
        }
        let given = self.acceptor.on_prepare(slot, ballot);
        self.give(given, answer)
    }

    fn accept(&mut self, call: &mut CaseWords<'_>, answer: &mut Transcript) -> Answered {
        let slot = read_slot(call)?;
        let ballot = read_ballot(call)?;
        if self.acceptor.is_published(slot) {
            return Err(Unanswered::BadWords);
        }
        let canon = self.maps.canon(self.alloc, call.word())?;
        let given = self.acceptor.on_accept(slot, ballot, canon);
        self.give(given, answer)
    }

    fn give(&mut self, given: Result<Reply, AllocError>, answer: &mut Transcript) -> Answered {
        match given {
            Ok(reply) => self.take_reply(reply, answer),
            Err(_) => Err(Unanswered::Memory),
        }
    }

    /// Applies the record of a reply, and appends the reply.
    fn take_reply(&mut self, reply: Reply, answer: &mut Transcript) -> Answered {
        let stored = self.store(reply.entry.as_ref());
        write_reply(&reply, self.maps, answer);
        drop(reply);
        stored
    }

    /// Applies a promise or a vote, if there is one.
    fn store(&mut self, record: Option<&Record>) -> Answered {
        let Some(record) = record else {
            return Ok(());
        };
        match record {
            Record::Promised(_, _) => Ok(self.acceptor.apply(record)?),
            Record::Accepted(_, _, _) => Ok(self.acceptor.apply(record)?),
            _ => Err(Unanswered::BadWords),
        }
    }

    fn publish(&mut self, call: &mut CaseWords<'_>, answer: &mut Transcript) -> Answered {
        let slot = read_slot(call)?;
        if !self.is_next(slot) {
            return Err(Unanswered::BadWords);
        }
        let canon = self.maps.canon(self.alloc, call.word())?;
        let record = Record::Published(slot, canon);
        let applied = self.acceptor.apply(&record);
        drop(record);
        write_done(applied, answer);
        Ok(())
    }

    /// Is the slot the next to be published?
    fn is_next(&self, slot: Slot) -> bool
        ensures { IsTrue result → slot ≡ self.now.acceptor.part.published + 1 }
    {
        let is_open = !self.acceptor.is_published(slot);
        match Slot::new(slot.number() - 1) {
            Some(before) => is_open && self.acceptor.is_published(before),
            None => is_open,
        }
    }

    fn is_published(&self, call: &mut CaseWords<'_>, answer: &mut Transcript) -> Answered {
        let slot = read_slot(call)?;
        write_whether(self.acceptor.is_published(slot), answer);
        Ok(())
    }
}

fn write_reply(reply: &Reply, maps: CallMaps<'_>, answer: &mut Transcript) {
    let messages = reply.reply.as_slice();
    write_step(reply.entry.as_ref(), messages, maps, answer);
}
