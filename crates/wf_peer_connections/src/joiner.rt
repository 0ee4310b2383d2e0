//! A folder that joins in the place of a lost one.
ghost use Rattle.std.specs.Prelude.{◌≡◌, IfSome};
ghost use Rattle.wf_peer_connections.specs.Told.{IsToldBy};
ghost use Rattle.wf_rejoin.specs.JoinStep.{StepCounts, stepped};
ghost use Rattle.wf_rejoin.specs.Joining.{IsJoining};

use wf_ballot::{NodeId, Seq};
use wf_rejoin::{Answer, JoinStep, Joining, Phase, Replacement};

/// A folder that joins in the place of a lost one: what its file `joins` says.
#[derive(Clone, Copy)]
pub struct Joiner {
    pub(crate) joining: Joining,
    ghost joins: { IsJoining joining },
}

impl Joiner {
    /// The folder of which this was read, or which is new.
    pub fn new(joining: Joining) -> Joiner
        requires { IsJoining joining }
        ensures { result.joining ≡ joining }
    {
        Joiner { joining }
    }

    /// The folder's mark, and the count under which its replacement was begun; 0 until it is.
    pub(crate) fn replacement(&self) -> Replacement
        ensures { result ≡ self.now.joining.replacement }
    {
        self.joining.replacement
    }

    /// The folder once it was told this. None: that doesn't count, and changes nothing.
    pub(crate) fn after(&self, step: &JoinStep) -> Option<Joiner>
        ensures counts { IfSome result (λ _. StepCounts step.now self.now.joining) }
        ensures value { IfSome result (λ next. next.joining ≡ stepped step.now self.now.joining) }
    {
        match self.joining.after(step) {
            Some(joining) => Some(Joiner { joining }),
            None => None,
        }
    }

    /// What a peer tells it that says that it takes the folder of this replacement for the node's:
    /// that it agreed to it, and, where half of all had before, how far it is; `answer` is None
    /// where the peer doesn't vote. None: that doesn't count.
    pub(crate) fn hear(
        &self,
        peer: NodeId,
        replacement: &Replacement,
        answer: &Option<Answer>,
    ) -> Option<JoinStep>
        ensures counts { IfSome result (λ step. StepCounts step self.now.joining) }
        ensures told { IfSome result (IsToldBy peer replacement.now answer.now) }
    {
        let step = self.next_step(peer, replacement, answer)?;
        match self.after(&step) {
            Some(_) => Some(step),
            None => None,
        }
    }

    /// What such a peer tells it next: that it agreed, as long as half of all haven't.
    fn next_step(
        &self,
        peer: NodeId,
        replacement: &Replacement,
        answer: &Option<Answer>,
    ) -> Option<JoinStep>
        ensures { IfSome result (IsToldBy peer replacement.now answer.now) }
    {
        if !self.has_half() {
            return Some(JoinStep::Agree(peer, *replacement));
        }
        match answer {
            Some(answer) => Some(JoinStep::Answer(peer, *replacement, *answer)),
            None => None,
        }
    }

    /// Whether half of all nodes have agreed.
    pub(crate) fn has_half(&self) -> bool {
        self.joining.has_half()
    }

    /// Whether it may vote, with this last published sequence.
    pub(crate) fn may_vote(&self, published: Seq) -> bool {
        self.joining.may_vote(published)
    }

    /// How far it is, with this last published sequence.
    pub(crate) fn phase(&self, published: Seq) -> Phase {
        self.joining.phase(published)
    }
}
