//! What a folder that joins is told, one thing after the other.
ghost use Rattle.std.specs.Prelude.{IfSome, SomeIff};
ghost use Rattle.wf_rejoin.specs.JoinStep.{StepCounts, stepped};
ghost use Rattle.wf_rejoin.specs.Joining.{IsJoining};

use crate::answer::Answer;
use crate::joining::Joining;
use crate::replacement::Replacement;
use wf_ballot::NodeId;

/// What a folder that joins is told.
#[derive(Clone, Copy, Debug, PartialEq, Eq)]
pub enum JoinStep {
    /// An operator has begun its replacement under this count.
    Begin(u32),
    /// A node has agreed to this replacement.
    Agree(NodeId, Replacement),
    /// A node has answered the folder of this replacement how far it is.
    Answer(NodeId, Replacement, Answer),
}

impl Joining {
    /// The folder once it was told this. None: that doesn't count, and changes nothing.
    pub fn after(&self, step: &JoinStep) -> Option<Joining>
        requires { IsJoining self.now }
        ensures value { SomeIff result (StepCounts step.now self.now) (stepped step.now self.now) }
        ensures joins { IfSome result IsJoining }
    {
        match step {
            JoinStep::Begin(count) => self.begin(*count),
            JoinStep::Agree(node, replacement) => self.agree(*node, replacement),
            JoinStep::Answer(node, replacement, answer) => self.answer(*node, replacement, *answer),
        }
    }
}
