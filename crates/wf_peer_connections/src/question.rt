//! What a node answers an operator who asks it about a replacement.
ghost use Rattle.std.specs.Prelude.{◌≡◌, false, IfSome, None};
ghost use Rattle.wf_peer_connections.specs.declared.order.Order.TheVariants.{Join};
ghost use Rattle.wf_operator.specs.declared.replacement.ReplaceReply.TheVariants.{NotPermitted};
ghost use Rattle.wf_rejoin.specs.Agreement.{Agrees};
ghost use Rattle.wf_rejoin.specs.declared.join_step.JoinStep.TheVariants.{Begin};

use crate::joiner::Joiner;
use crate::order::Order;
use std::alloc::AllocError;
use std::fmt::Write;
use wf_ballot::Seq;
use wf_operator::{Proposed, ReplaceReply, ReplaceRequest};
use wf_peer::NodeState;
use wf_rejoin::{Asked, JoinStep, Replacement, Replacements};

/// What a node answers by where it is asked about a replacement.
#[derive(Clone, Copy)]
pub(crate) struct Standing {
    /// Whether an operator may ask that of it.
    pub(crate) may_replace: bool,
    /// The mark of its folder.
    pub(crate) mark: [u8; 16],
    pub(crate) state: NodeState,
    /// The replacements with which it began, and those that it was told of since.
    pub(crate) began_with: Replacements,
    pub(crate) learned: Replacements,
    /// What its folder was told, if it joins.
    pub(crate) joining: Option<Joiner>,
}

/// What a node answers, and what it is to write.
#[derive(Clone, Copy)]
pub(crate) struct Decision {
    pub(crate) reply: ReplaceReply,
    pub(crate) order: Option<Order>,
}

/// Nothing is to be written.
fn only(reply: ReplaceReply) -> Decision
    ensures reply { result.reply ≡ reply }
    ensures nothing { result.order ≡ None }
{
    Decision { reply, order: None }
}

impl Standing {
    /// What a node that is asked by this answers to an operator.
    pub(crate) fn decide(&self, asked: &Asked, request: &ReplaceRequest) -> Decision
        ensures reply { self.now.may_replace ≡ false → result.reply ≡ NotPermitted }
        ensures nothing { self.now.may_replace ≡ false → result.order ≡ None }
    {
        if !self.may_replace {
            return only(ReplaceReply::NotPermitted);
        }
        match request {
            ReplaceRequest::Ask(proposed) => self.judge(asked, proposed),
            ReplaceRequest::Agree(proposed) => self.agree(asked, proposed),
            ReplaceRequest::Begin(count) => self.begin(*count),
        }
    }

    /// Whether the node would agree, or has agreed.
    fn judge(&self, asked: &Asked, proposed: &Proposed) -> Decision
        ensures { result.order ≡ None }
    {
        let Proposed {
            node,
            replacement,
            force,
        } = *proposed;
        if self.began_with.has_agreed(node, &replacement) {
            return only(ReplaceReply::Agrees);
        }
        match self.learned.would_agree(asked, node, &replacement, force) {
            Ok(()) => only(ReplaceReply::Agrees),
            Err(why) => only(ReplaceReply::Objects(why)),
        }
    }

    /// The node agrees, if nothing stands against it. What it had agreed to before it began isn't
    /// written again.
    fn agree(&self, asked: &Asked, proposed: &Proposed) -> Decision
        ensures { IfSome result.order (λ _. Agrees self.now.learned asked.now proposed.now.node
            proposed.now.replacement proposed.now.force) }
    {
        let Proposed {
            node,
            replacement,
            force,
        } = *proposed;
        if self.began_with.has_agreed(node, &replacement) {
            return only(ReplaceReply::Noted);
        }
        match self.learned.agree(asked, node, replacement, force) {
            Ok(latest) => Decision {
                reply: ReplaceReply::Noted,
                order: Some(Order::Note(latest)),
            },
            Err(why) => only(ReplaceReply::Objects(why)),
        }
    }

    /// The replacement by the node's own folder begins, if it joins.
    fn begin(&self, count: u32) -> Decision
        ensures { IfSome result.order (λ order. order ≡ Join (Begin count)) }
    {
        let Some(joiner) = &self.joining else {
            return only(ReplaceReply::NotJoining);
        };
        let step = JoinStep::Begin(count);
        match joiner.after(&step) {
            Some(_) => Decision {
                reply: ReplaceReply::Noted,
                order: Some(Order::Join(step)),
            },
            None => only(ReplaceReply::NoHigherCount),
        }
    }

    /// The node's folder, if it joins, is told this.
    pub(crate) fn tell(&mut self, step: &JoinStep) {
        let Some(joiner) = self.joining else {
            return;
        };
        if let Some(next) = joiner.after(step) {
            self.joining = Some(next);
        }
    }

    /// Appends the node's number, its folder's mark and what it does; how far the folder is, if it
    /// joins; and each replacement with which the node began. The only error is allocation failure.
    pub(crate) fn push_to(
        &self,
        text: &mut String,
        node: u8,
        published: Seq,
    ) -> Result<(), AllocError> {
        let state = state_word(self.state);
        write!(text, "node {node}\nmark ")?;
        push_mark(text, &self.mark)?;
        write!(text, "\nstate {state}\n")?;
        if let Some(joiner) = &self.joining {
            let count = joiner.replacement().count;
            let phase = joiner.phase(published);
            write!(text, "count {count}\nphase {phase}\n")?;
        }
        for (number, latest) in self.began_with.nodes().iter().enumerate() {
            if let Some(replacement) = latest {
                push_replacement(text, number, replacement)?;
            }
        }
        Ok(())
    }
}

/// Appends the line of a node that was replaced.
fn push_replacement(
    text: &mut String,
    number: usize,
    replacement: &Replacement,
) -> Result<(), AllocError> {
    let count = replacement.count;
    write!(text, "replaced {number} {count} ")?;
    push_mark(text, &replacement.mark)?;
    text.push_str("\n")
}

/// Appends a mark in hexadecimal digits.
fn push_mark(text: &mut String, mark: &[u8; 16]) -> Result<(), AllocError> {
    for byte in mark.iter() {
        write!(text, "{byte:02x}")?;
    }
    Ok(())
}

/// What a node does, in a word.
fn state_word(state: NodeState) -> &'static str {
    match state {
        NodeState::Serves => "serves",
        NodeState::Halted => "halted",
        NodeState::Suspended => "suspended",
        NodeState::Joins => "joins",
        NodeState::Outvoted => "outvoted",
    }
}
