//! Inputs for the learner.

ghost use Rattle.std.specs.Prelude.{◌≡◌, ◌+◌, ◌≤◌, length};
ghost use Rattle.wf_def.specs.Equality.{definition_eq};
ghost use Rattle.wf_model.specs.Message as model;
ghost use Rattle.wf_model.specs.Table.{on_chosen, reports, CatchUp, Deliver};
ghost use Rattle.wf_node.specs.Act.{Acts, Changes, IsProposalEnded, IsReady, IsStepReply};
ghost use Rattle.wf_node.specs.DurablePart.{stored_of};
ghost use Rattle.wf_proposer.specs.Proposer.{volatile_of};

use crate::fault::NodeFault;
use crate::machine::Machine;
use crate::reply::reply;
use crate::tape_writes::{keep_unwritten, store};
use std::alloc::Global;
use wf_ballot::Slot;
use wf_codec::{Canon, Message};
use wf_journal::Record;
use wf_proposer::Proposer;
use wf_tape::Tape;

impl<T: Tape> Machine<T> {
    /// Asks for the next definition, unless the last one is published.
    pub(crate) fn catch_up(&mut self, alloc: Global) -> Result<Vec<Message>, NodeFault>
        requires { IsReady self.old }
        ensures act { Acts T.Tape CatchUp self.old result self.new }
        ensures id { self.new.persistent.id ≡ self.old.persistent.id }
    {
        match self.persistent.history().next_slot() {
            Some(slot) => reply(alloc, Some(Message::Ask(slot))),
            None => reply(alloc, None),
        }
    }

    /// A definition is chosen: it is published if its slot is the next; if its slot is later, the
    /// next one is asked for.
    pub(crate) fn on_chosen(
        &mut self,
        alloc: Global,
        slot: Slot,
        canon: Canon,
    ) -> Result<Vec<Message>, NodeFault>
        requires { IsReady self.old }
        ensures act { Acts T.Tape (Deliver (model.Chosen slot canon)) self.old result self.new }
        ensures id { self.new.persistent.id ≡ self.old.persistent.id }
    {
        let number = slot.number();
        let Some(next) = self.persistent.history().next_slot() else {
            drop(canon);
            return reply(alloc, None);
        };
        if number == next.number() {
            return self.publish(alloc, slot, canon);
        }
        drop(canon);
        if number > next.number() {
            reply(alloc, Some(Message::Ask(next)))
        } else {
            reply(alloc, None)
        }
    }

    /// Answers an Ask.
    pub(crate) fn on_ask(&mut self, alloc: Global, slot: Slot) -> Result<Vec<Message>, NodeFault>
        requires { IsReady self.old }
        ensures act { Acts T.Tape (Deliver (model.Ask slot)) self.old result self.new }
        ensures id { self.new.persistent.id ≡ self.old.persistent.id }
    {
        counts_from_one(slot);
        match self.persistent.history().answer_ask(alloc, slot) {
            Ok(messages) => Ok(messages),
            Err(_) => Err(NodeFault::Memory),
        }
    }

    /// Returns the definition that is published at the slot, if there is one.
    pub(crate) fn report(&self, alloc: Global, slot: Slot) -> Result<Vec<Message>, NodeFault>
        ensures { IsStepReply (reports self.now.persistent.parts.history slot) result }
    {
        counts_from_one(slot);
        match self.persistent.history().chosen_message(slot) {
            Ok(message) => reply(alloc, message),
            Err(_) => Err(NodeFault::Memory),
        }
    }

    /// Publishes the definition at the next slot.
    fn publish(
        &mut self,
        alloc: Global,
        slot: Slot,
        canon: Canon,
    ) -> Result<Vec<Message>, NodeFault>
        requires ready { IsReady self.old }
        requires next { slot ≡ length self.old.persistent.parts.history + 1 }
        ensures change { Changes T.Tape (on_chosen definition_eq (stored_of self.old.persistent)
            (volatile_of self.old.proposer) slot canon) self.old result self.new }
        ensures id { self.new.persistent.id ≡ self.old.persistent.id }
    {
        let entry = Record::Published(slot, canon);
        if self.persistent.make_room_for(Some(&entry)).is_err() {
            drop(entry);
            return Err(NodeFault::Memory);
        }
        match store(&mut self.journal, alloc, Some(&entry)) {
            Ok(()) => {
                end_proposal(&mut self.proposer, &entry);
                self.persistent.apply_entry(Some(entry));
                Ok(Vec::new(alloc))
            }
            Err(fault) => {
                keep_unwritten(&mut self.journal, fault, Some(entry));
                Err(fault)
            }
        }
    }
}

/// A slot is counted from 1: this teaches the caller that, and does nothing.
fn counts_from_one(slot: Slot)
    ensures { 1 ≤ slot }
{
    let _ = slot.number();
}

/// A running proposal for the slot of a published definition's record ends.
fn end_proposal(proposer: &mut Proposer, entry: &Record)
    ensures { IsProposalEnded entry.now proposer.old proposer.new }
{
    if let Record::Published(slot, canon) = entry {
        proposer.on_published(*slot, canon);
    }
}
