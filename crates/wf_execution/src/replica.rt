//! A replica of a farm's published maps.

use std::alloc::{AllocError, Global};
use std::marker::Model;
use wf_codec::Message;
use wf_learner::History;

/// The published maps, as a process without a vote and without a tape has learned them. Model: its
/// history.
#[derive(Drop)]
pub struct Replica {
    history: History,
}

impl Model for Replica {
    ghost use Rattle.wf_learner.specs.History.{History};

    ghost Value = { History };

    ghost view = { λ replica. replica.history };
}

impl Replica {
    ghost use Rattle.std.specs.Prelude.{◌≡◌, ◌<◌, ◌↔◌, [], length, IfOk, IfSome, IsSome, OnErr, OnOk};
    ghost use Rattle.wf_ballot.specs.Sequence.{last_sequence};
    ghost use Rattle.wf_execution.specs.Replica.{after_learning, IsNews};
    ghost use Rattle.wf_codec.specs.Message.{view};
    ghost use Rattle.wf_learner.specs.History.{next_of};
    ghost use Rattle.wf_model.specs.Message.{Ask};

    /// A replica that has learned nothing yet.
    pub fn new(alloc: Global) -> Result<Replica, AllocError>
        ensures { IfOk result (λ replica. replica.definitions ≡ []) }
    {
        let history = History::new(alloc)?;
        Ok(Replica { history })
    }

    /// The published maps that it has learned. They answer clients, and the questions of other
    /// replicas, as a node's do.
    pub fn history(&self) -> &History
        ensures { result.now ≡ self.now }
    {
        &self.history
    }

    /// The question for the next definition; None if the last sequence is published.
    pub fn question(&self) -> Option<Message>
        ensures open { IsSome result ↔ (length self.now.definitions < last_sequence) }
        ensures value { IfSome result (λ message.
            view message ≡ Ask (next_of self.now.definitions)) }
    {
        let slot = self.history.next_slot()?;
        Some(Message::Ask(slot))
    }

    /// Learns what the message says: a definition that is chosen for the next sequence is
    /// published; any other message changes nothing. An allocation failure changes nothing either,
    /// and comes only of such a definition.
    pub fn receive(&mut self, message: Message) -> Result<(), AllocError>
        ensures received { OnOk result
            (self.new.definitions ≡ after_learning self.old.definitions (view message)) }
        ensures err { OnErr result (self.new ≡ self.old) }
        ensures memory { OnErr result (IsNews self.old.definitions (view message)) }
    {
        match message {
            Message::Chosen(slot, canon) => {
                self.history.learn(slot, canon)?;
                Ok(())
            }
            Message::Prepare(_, _)
            | Message::Promise(_, _, _)
            | Message::Accept(_, _, _)
            | Message::Accepted(_, _, _)
            | Message::Nack(_, _, _, _)
            | Message::Ask(_) => Ok(()),
        }
    }
}
