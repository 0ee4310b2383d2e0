//! What a folder that joins was told, as a text.
ghost use Rattle.std.specs.Prelude.{◌≡◌, ◌++◌, [], OnOk};
ghost use Rattle.wf_rejoin.specs.Joining.{IsJoining};
ghost use Rattle.wf_rejoin.specs.JoiningText.{IsAnswerInRange, IsStage, own_line, stage_line};
ghost use Rattle.wf_rejoin.specs.Lines.{AreAll, lines_of};
ghost use Rattle.wf_rejoin.specs.ReplacementsText.{IsReplacementInRange};
ghost use Rattle.wf_rejoin.specs.declared.joining.Stage.TheVariants.{Answered};

use crate::answer::Answer;
use crate::joining::{Joining, Stage};
use crate::replacement::Replacement;
use std::alloc::{AllocError, Global};
use wf_folder::{push_mark_after, push_word};

/// The first line: what the text is, and its version.
pub(crate) const FIRST_LINE: &[u8] = b"wfarm joins 1\n";

/// The line of a node of which there is nothing.
pub(crate) const NOTHING_LINE: &[u8] = b"nothing\n";

/// The line of a node that has agreed, and not answered.
pub(crate) const AGREED_LINE: &[u8] = b"agreed\n";

impl Joining {
    ghost use Rattle.std.specs.Prelude.{◌≡◌, IfOk};
    ghost use Rattle.wf_rejoin.specs.Joining.{IsJoining};
    ghost use Rattle.wf_rejoin.specs.JoiningText.{IsJoins, joins_text};

    /// The text of its file `joins`: a line of the folder itself, and then one for each of 64
    /// nodes, in their order. Numbers are in hexadecimal digits. The only error is allocation
    /// failure.
    ///
    /// ```text
    /// wfarm joins 1
    /// node 00000002 of 00000003 count 00000001 mark 0123456789abcdef0123456789abcdef
    /// agreed
    /// published 0000000c voted 0000000d
    /// nothing
    /// ```
    pub fn text(&self, alloc: Global) -> Result<Vec<u8>, AllocError>
        requires { IsJoining self.now }
        ensures text { IfOk result (λ text. text.items ≡ joins_text self.now) }
        ensures joins { IfOk result (λ _. IsJoins self.now) }
    {
        let mut text = Vec::new(alloc);
        text.extend_from_slice(FIRST_LINE)?;
        push_own(
            &mut text,
            u32::from(self.node.number()),
            u32::from(self.nodes),
            &self.replacement,
        )?;
        push_stages(&mut text, &self.stages)?;
        Ok(text)
    }
}

/// Appends the line of the folder itself.
#[tactic(auto, using(crate::proofs::Stages::own_parts))]
fn push_own(
    text: &mut Vec<u8>,
    node: u32,
    nodes: u32,
    replacement: &Replacement,
) -> Result<(), AllocError>
    ensures items { OnOk result (text.new.items ≡
        text.old.items ++ own_line node nodes replacement.now []) }
    ensures known { OnOk result (IsReplacementInRange replacement.now) }
{
    let Replacement { count, mark } = *replacement;
    push_word(text, b"node ", node)?;
    push_word(text, b" of ", nodes)?;
    push_word(text, b" count ", count)?;
    push_mark_after(text, b" mark ", mark)?;
    text.extend_from_slice(b"\n")?;
    Ok(())
}

/// Appends a line for each node.
#[tactic(auto, using(crate::proofs::Stages::no_more_stages, crate::proofs::Stages::none_are_stages, crate::proofs::Stages::one_stage_more, crate::proofs::Stages::one_more_is_stage))]
fn push_stages(text: &mut Vec<u8>, stages: &[Stage]) -> Result<(), AllocError>
    ensures items { OnOk result (text.new.items ≡
        text.old.items ++ lines_of stage_line stages.now) }
    ensures known { OnOk result (AreAll IsStage stages.now) }
{
    match stages.split_first() {
        None => Ok(()),
        Some((stage, rest)) => {
            push_stage(text, stage)?;
            push_stages(text, rest)
        }
    }
}

/// Appends the line of a node.
#[tactic(auto, unfolding(crate::specs::JoiningText::stage_line))]
fn push_stage(text: &mut Vec<u8>, stage: &Stage) -> Result<(), AllocError>
    ensures items { OnOk result (text.new.items ≡ text.old.items ++ stage_line stage.now []) }
    ensures known { OnOk result (IsStage stage.now) }
{
    match stage {
        Stage::Unasked => text.extend_from_slice(NOTHING_LINE),
        Stage::Agreed => text.extend_from_slice(AGREED_LINE),
        Stage::Answered(answer) => push_answer(text, answer),
    }
}

/// Appends the line of a node that has answered.
#[tactic(auto, using(crate::proofs::Stages::answer_parts))]
fn push_answer(text: &mut Vec<u8>, answer: &Answer) -> Result<(), AllocError>
    ensures items { OnOk result (text.new.items ≡
        text.old.items ++ stage_line (Answered answer.now) []) }
    ensures known { OnOk result (IsAnswerInRange answer.now) }
{
    let Answer { published, voted } = *answer;
    push_word(text, b"published ", u32::from(published))?;
    push_word(text, b" voted ", u32::from(voted))?;
    text.extend_from_slice(b"\n")
}
