//! Inputs for the acceptor.

ghost use Rattle.std.specs.Prelude.{◌≡◌, false, IfSome, option_map};
ghost use Rattle.wf_acceptor.specs.AcceptorAnswer as answered;
ghost use Rattle.wf_model.specs.Fits.{Fits};
ghost use Rattle.wf_model.specs.Message as model;
ghost use Rattle.wf_model.specs.Table.{Deliver};
ghost use Rattle.wf_node.specs.Act.{Acts, Changes, IsReady};
ghost use Rattle.wf_node.specs.DurablePart.{stored_of, HasRoomFor};
ghost use Rattle.wf_proposer.specs.Proposer.{volatile_of};
ghost use Rattle.wf_journal.specs.Record.{view as view_record};

use crate::fault::NodeFault;
use crate::machine::Machine;
use crate::reply::reply;
use crate::tape_writes::{keep_unwritten, store};
use std::alloc::Global;
use wf_acceptor::AcceptorAnswer;
use wf_ballot::{Ballot, Slot};
use wf_codec::{Canon, Message};
use wf_tape::Tape;

impl<T: Tape> Machine<T> {
    /// Answers a Prepare; if the slot is published, with its definition.
    pub(crate) fn on_prepare(
        &mut self,
        alloc: Global,
        slot: Slot,
        ballot: Ballot,
    ) -> Result<Vec<Message>, NodeFault>
        requires { IsReady self.old }
        ensures act { Acts T.Tape (Deliver (model.Prepare slot ballot)) self.old result self.new }
        ensures id { self.new.persistent.id ≡ self.old.persistent.id }
    {
        if self.persistent.is_published(slot) {
            return self.report(alloc, slot);
        }
        match self.persistent.on_prepare(slot, ballot) {
            Ok(answer) => self.give(alloc, answer),
            Err(_) => Err(NodeFault::Memory),
        }
    }

    /// Answers an Accept; if the slot is published, with its definition.
    pub(crate) fn on_accept(
        &mut self,
        alloc: Global,
        slot: Slot,
        ballot: Ballot,
        canon: Canon,
    ) -> Result<Vec<Message>, NodeFault>
        requires { IsReady self.old }
        ensures act { Acts T.Tape (Deliver (model.Accept slot ballot canon))
            self.old result self.new }
        ensures id { self.new.persistent.id ≡ self.old.persistent.id }
    {
        if self.persistent.is_published(slot) {
            drop(canon);
            return self.report(alloc, slot);
        }
        match self.persistent.on_accept(slot, ballot, canon) {
            Ok(answer) => self.give(alloc, answer),
            Err(_) => Err(NodeFault::Memory),
        }
    }

    /// Stores the record of the acceptor's answer, applies it, and returns the reply.
    fn give(&mut self, alloc: Global, answer: AcceptorAnswer) -> Result<Vec<Message>, NodeFault>
        requires running { self.old.journal.halted ≡ false }
        requires fits { Fits (stored_of self.old.persistent) (option_map view_record answer.entry) }
        requires room { IfSome answer.entry (HasRoomFor self.old.persistent) }
        ensures change { Changes T.Tape
            (answered.transition_of answer (volatile_of self.old.proposer))
            self.old result self.new }
        ensures id { self.new.persistent.id ≡ self.old.persistent.id }
    {
        let AcceptorAnswer {
            entry,
            reply: message,
        } = answer;
        match reply(alloc, message) {
            Ok(messages) => match store(&mut self.journal, alloc, entry.as_ref()) {
                Ok(()) => {
                    self.persistent.apply_entry(entry);
                    Ok(messages)
                }
                Err(fault) => {
                    drop(messages);
                    keep_unwritten(&mut self.journal, fault, entry);
                    Err(fault)
                }
            },
            Err(fault) => {
                drop(entry);
                Err(fault)
            }
        }
    }
}
