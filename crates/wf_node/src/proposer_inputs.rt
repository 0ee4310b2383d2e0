//! Inputs for the proposer.

ghost use Rattle.std.specs.Prelude.{◌≡◌, false, length, nat_le};
ghost use Rattle.wf_ballot.specs.Sequence.{last_sequence};
ghost use Rattle.wf_codec.specs.Message.{view_votes};
ghost use Rattle.wf_model.specs.Fits.{Fits};
ghost use Rattle.wf_model.specs.Message as model;
ghost use Rattle.wf_model.specs.Table.{Deliver, Propose, Retry};
ghost use Rattle.wf_node.specs.Act.{Acts, Changes, IsOwnRecord, IsReady, runs};
ghost use Rattle.wf_node.specs.Fault.{IsWhyNot};
ghost use Rattle.wf_node.specs.DurablePart.{stored_of};
ghost use Rattle.wf_proposer.specs.Proposer.{retry_step_rejection, transition_of, start_step_rejection, volatile_of};

use crate::fault::{NodeFault, fault_for, fault_of};
use crate::machine::Machine;
use crate::tape_writes::{keep_unwritten, store};
use std::alloc::Global;
use wf_ballot::{Ballot, NodeId, SEQUENCES, Slot};
use wf_codec::{Canon, Message, Report};
use wf_proposer::{Next, ProposalState};
use wf_tape::Tape;

impl<T: Tape> Machine<T> {
    /// Begins a proposal of `own`, unless one is running or the last sequence is published. A
    /// leader whose leadership covers the next sequence asks for votes at once; otherwise a new
    /// round is needed.
    pub(crate) fn propose(&mut self, alloc: Global, own: Canon) -> Result<Vec<Message>, NodeFault>
        requires { IsReady self.old }
        ensures act { Acts T.Tape (Propose own) self.old result self.new }
        ensures id { self.new.persistent.id ≡ self.old.persistent.id }
    {
        if self.runs() {
            drop(own);
            return Err(NodeFault::Busy);
        }
        if self.is_full() {
            drop(own);
            return Err(NodeFault::SequenceFull);
        }
        let tried = self.persistent.last_round();
        let published = self.persistent.history().published();
        match self.proposer.start(alloc, tried, published, own) {
            Ok(next) => self.perform(alloc, next),
            Err(step_rejection) => Err(fault_of(step_rejection)),
        }
    }

    /// Begins the running proposal again, in a new round.
    pub(crate) fn retry(&mut self, alloc: Global) -> Result<Vec<Message>, NodeFault>
        requires { IsReady self.old }
        ensures act { Acts T.Tape Retry self.old result self.new }
        ensures id { self.new.persistent.id ≡ self.old.persistent.id }
    {
        match self.proposer.retry(alloc, self.persistent.last_round()) {
            Ok(next) => self.perform(alloc, next),
            Err(step_rejection) => Err(fault_of(step_rejection)),
        }
    }

    /// Why a proposal would be rejected now; None if it would begin.
    pub(crate) fn proposal_step_rejection(&self) -> Option<NodeFault>
        ensures { IsWhyNot (start_step_rejection self.now.proposer
            (stored_of self.now.persistent)) result }
    {
        if self.runs() {
            return Some(NodeFault::Busy);
        }
        if self.is_full() {
            return Some(NodeFault::SequenceFull);
        }
        let published = self.persistent.history().published();
        fault_for(
            self.proposer
                .start_step_rejection(self.persistent.last_round(), published),
        )
    }

    /// Why a retry would be rejected now; None if it would begin.
    pub(crate) fn retry_step_rejection(&self) -> Option<NodeFault>
        ensures { IsWhyNot (retry_step_rejection self.now.proposer
            (stored_of self.now.persistent)) result }
    {
        fault_for(
            self.proposer
                .retry_step_rejection(self.persistent.last_round()),
        )
    }

    /// A Promise arrived.
    pub(crate) fn on_promise(
        &mut self,
        alloc: Global,
        from: NodeId,
        ballot: Ballot,
        report: Report,
    ) -> Result<Vec<Message>, NodeFault>
        requires { IsReady self.old }
        ensures act { Acts T.Tape
            (Deliver (model.Promise from report.slot ballot (view_votes report.votes)))
            self.old result self.new }
        ensures id { self.new.persistent.id ≡ self.old.persistent.id }
    {
        match self.proposer.on_promise(alloc, from, ballot, report) {
            Ok(next) => self.perform(alloc, next),
            Err(step_rejection) => Err(fault_of(step_rejection)),
        }
    }

    /// An Accepted arrived.
    pub(crate) fn on_accepted(
        &mut self,
        alloc: Global,
        from: NodeId,
        slot: Slot,
        ballot: Ballot,
    ) -> Result<Vec<Message>, NodeFault>
        requires { IsReady self.old }
        ensures act { Acts T.Tape (Deliver (model.Accepted from slot ballot))
            self.old result self.new }
        ensures id { self.new.persistent.id ≡ self.old.persistent.id }
    {
        match self.proposer.on_accepted(alloc, from, slot, ballot) {
            Ok(next) => self.perform(alloc, next),
            Err(step_rejection) => Err(fault_of(step_rejection)),
        }
    }

    /// A Nack arrived.
    pub(crate) fn on_nack(
        &mut self,
        alloc: Global,
        from: NodeId,
        slot: Slot,
        ballot: Ballot,
        promised: Ballot,
    ) -> Result<Vec<Message>, NodeFault>
        requires { IsReady self.old }
        ensures act { Acts T.Tape (Deliver (model.Nack from slot ballot promised))
            self.old result self.new }
        ensures id { self.new.persistent.id ≡ self.old.persistent.id }
    {
        let next = self.proposer.on_nack(alloc, slot, ballot, promised);
        self.perform(alloc, next)
    }

    /// Stores the record of the proposer's result, commits the result, and returns the messages.
    fn perform(&mut self, alloc: Global, next: Next) -> Result<Vec<Message>, NodeFault>
        requires running { self.old.journal.halted ≡ false }
        requires fits { Fits (stored_of self.old.persistent)
            (transition_of self.old.proposer next).entry }
        requires own { IsOwnRecord (transition_of self.old.proposer next).entry }
        ensures change { Changes T.Tape
            (transition_of self.old.proposer next) self.old result self.new }
        ensures id { self.new.persistent.id ≡ self.old.persistent.id }
    {
        if self.persistent.make_room_for(next.entry()).is_err() {
            drop(next);
            return Err(NodeFault::Memory);
        }
        match store(&mut self.journal, alloc, next.entry()) {
            Ok(()) => {
                let (entry, messages) = self.proposer.commit(next);
                self.persistent.apply_entry(entry);
                Ok(messages)
            }
            Err(fault) => {
                keep_unwritten(&mut self.journal, fault, next.into_entry());
                Err(fault)
            }
        }
    }

    /// Whether a proposal is running.
    fn runs(&self) -> bool
        ensures { result ≡ runs (volatile_of self.now.proposer).proposing }
    {
        matches!(self.proposer.proposal(), ProposalState::Running)
    }

    /// Whether the last sequence is published.
    fn is_full(&self) -> bool
        ensures { result ≡ nat_le last_sequence (length self.now.persistent.parts.history) }
    {
        self.persistent.history().published().number() >= SEQUENCES
    }
}
