//! The parts of a node, and how they act on an input: first all copies and allocations, then the
//! record on the tape, then its effects.

ghost use Rattle.std.specs.Prelude.{◌≡◌};
ghost use Rattle.wf_codec.specs.Message.{view as view_message};
ghost use Rattle.wf_model.specs.Table.{Deliver};
ghost use Rattle.wf_node.specs.Act.{Acts, IsReady};
ghost use Rattle.wf_node.specs.Input.{view};

use crate::fault::NodeFault;
use crate::step::Input;
use crate::stored_part::DurablePart;
use std::alloc::Global;
use wf_codec::Message;
use wf_journal::Journal;
use wf_proposer::Proposer;
use wf_tape::Tape;

/// The journal of a node, its durable state in memory, and its proposer.
#[derive(Drop)]
pub struct Machine<T: Tape> {
    pub journal: Journal<T>,
    pub persistent: DurablePart,
    pub proposer: Proposer,
}

impl<T: Tape> Machine<T> {
    /// Acts on an input.
    pub(crate) fn act(&mut self, alloc: Global, input: Input) -> Result<Vec<Message>, NodeFault>
        requires { IsReady self.old }
        ensures act { Acts T.Tape (view input) self.old result self.new }
        ensures id { self.new.persistent.id ≡ self.old.persistent.id }
    {
        match input {
            Input::Propose(own) => self.propose(alloc, own),
            Input::Retry => self.retry(alloc),
            Input::CatchUp => self.catch_up(alloc),
            Input::Deliver(message) => self.deliver(alloc, message),
        }
    }

    /// Handles a message.
    fn deliver(&mut self, alloc: Global, message: Message) -> Result<Vec<Message>, NodeFault>
        requires { IsReady self.old }
        ensures act { Acts T.Tape (Deliver (view_message message)) self.old result self.new }
        ensures id { self.new.persistent.id ≡ self.old.persistent.id }
    {
        match message {
            Message::Prepare(slot, ballot) => self.on_prepare(alloc, slot, ballot),
            Message::Promise(from, ballot, report) => self.on_promise(alloc, from, ballot, report),
            Message::Accept(slot, ballot, canon) => self.on_accept(alloc, slot, ballot, canon),
            Message::Accepted(from, slot, ballot) => self.on_accepted(alloc, from, slot, ballot),
            Message::Nack(from, slot, ballot, promised) => {
                self.on_nack(alloc, from, slot, ballot, promised)
            }
            Message::Chosen(slot, canon) => self.on_chosen(alloc, slot, canon),
            Message::Ask(slot) => self.on_ask(alloc, slot),
        }
    }
}
