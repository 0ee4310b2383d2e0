//! The text of a file `joins` is read.
ghost use Rattle.std.specs.Prelude.{◌≡◌, ◌≢◌, ◌≤◌, ◌<◌, ℕ, List, length, IfNone, IfSome};
ghost use Rattle.wf_folder.specs.FarmFile.{IsNumberOfNodes};
ghost use Rattle.wf_rejoin.specs.JoiningText.{IsAnswerInRange, IsStage, own_line, stage_line, told};
ghost use Rattle.wf_rejoin.specs.Lines.{ReadsLines};
ghost use Rattle.wf_rejoin.specs.ReplacementsText.{IsReplacementInRange};
ghost use Rattle.wf_rejoin.specs.declared.answer.Answer.{Answer as AnswerValue};
ghost use Rattle.wf_rejoin.specs.declared.joining.Stage.{Stage as StageValue};
ghost use Rattle.wf_rejoin.specs.declared.joining.Stage.TheVariants.{Answered};
ghost use Rattle.wf_rejoin.specs.declared.replacement.Replacement.{Replacement as ReplacementValue};

use crate::answer::Answer;
use crate::fault::JoiningFault;
use crate::joining::{Joining, Stage};
use crate::joining_text::{AGREED_LINE, FIRST_LINE, NOTHING_LINE};
use crate::replacement::Replacement;
use wf_ballot::{NODES, NodeId};
use wf_folder::{after, split_named, split_word};

/// The number of lines: the first, that of the folder itself, and one a node.
const LINES: usize = 66;

impl Joining {
    ghost use Rattle.std.specs.Prelude.{◌≡◌, Ok, IfOk};
    ghost use Rattle.wf_rejoin.specs.JoiningText.{IsJoins, joins_text};
    ghost use Rattle.wf_rejoin.specs.declared.joining.Joining.{Joining as JoiningValue};

    /// What the folder was told, by the text of its file. Err: the bytes aren't the text of any,
    /// and the first line at which they aren't.
    #[tactic(auto, using(crate::proofs::Stages::is_text, crate::proofs::Stages::are_joins, crate::proofs::Stages::only_this, crate::proofs::Stages::none_such, crate::proofs::Stages::no_own))]
    pub fn read(bytes: &[u8]) -> Result<Joining, JoiningFault>
        ensures joins { IfOk result IsJoins }
        ensures text { IfOk result (λ joining. bytes.now ≡ joins_text joining) }
        ensures each { (j : JoiningValue) → IsJoins j → bytes.now ≡ joins_text j → result ≡ Ok j }
    {
        let Some(rest) = after(bytes, FIRST_LINE) else {
            return Err(JoiningFault::Line(1));
        };
        let Some((node, nodes, replacement, rest)) = split_own(rest) else {
            return Err(JoiningFault::Line(2));
        };
        let mut stages = [Stage::Unasked; 64];
        match read_stages(rest, &mut stages) {
            Ok(()) => Ok(told(node, nodes, replacement, stages)),
            Err(fault) => Err(fault),
        }
    }
}

/// What a folder was told.
fn told(node: u8, nodes: u8, replacement: Replacement, stages: [Stage; 64]) -> Joining
    requires { node < 64 }
    ensures { result ≡ told node nodes replacement stages }
{
    let node = NodeId::new(node).unwrap();
    Joining {
        node,
        nodes,
        replacement,
        stages,
    }
}

/// What the line says of the folder itself that bytes begin with, and what follows it.
fn split_own(bytes: &[u8]) -> Option<(u8, u8, Replacement, &[u8])>
    ensures nodes { IfSome result (λ x. IsNumberOfNodes x.1) }
    ensures node { IfSome result (λ x. x.0 < x.1) }
    ensures replacement { IfSome result (λ x. IsReplacementInRange x.2) }
    ensures some { IfSome result (λ x. bytes.now ≡ own_line x.0 x.1 x.2 x.3.now) }
    ensures none { IfNone result ((node nodes : ℕ) (r : ReplacementValue) (rest : List ℕ) →
        IsNumberOfNodes nodes → node < nodes → IsReplacementInRange r →
        bytes.now ≢ own_line node nodes r rest) }
{
    let (node, rest) = split_word(bytes, b"node ")?;
    let (nodes, rest) = split_word(rest, b" of ")?;
    let (count, rest) = split_word(rest, b" count ")?;
    let (mark, rest) = split_named(rest, b" mark ")?;
    let rest = after(rest, b"\n")?;
    match member_of(node, nodes) {
        Some((node, nodes)) => Some((node, nodes, Replacement { count, mark }, rest)),
        None => None,
    }
}

/// The number of the node, and that of the nodes of its farm, if there can be such a one.
fn member_of(node: u32, nodes: u32) -> Option<(u8, u8)>
    ensures some { IfSome result (λ x. (x.0 ≡ node) × (x.1 ≡ nodes)) }
    ensures member { IfSome result (λ x. IsNumberOfNodes x.1 × (x.0 < x.1)) }
    ensures none { IfNone result (IsNumberOfNodes nodes → ¬ (node < nodes)) }
{
    if nodes > u32::from(NODES) || node >= nodes {
        return None;
    }
    let Ok(node) = u8::try_from(node) else {
        return None;
    };
    let Ok(nodes) = u8::try_from(nodes) else {
        return None;
    };
    Some((node, nodes))
}

/// Reads a line for each node, and nothing is to follow.
#[tactic(auto, using(crate::proofs::Stages::no_stage, crate::proofs::Stages::one_stage))]
fn read_stages(bytes: &[u8], stages: &mut [Stage]) -> Result<(), JoiningFault>
    requires { length stages.old ≤ 64 }
    ensures { ReadsLines IsStage stage_line bytes.now (length stages.old) stages.new result }
{
    let line = LINES + 1 - stages.len();
    let Some((stage, others)) = stages.split_first_mut() else {
        return if bytes.is_empty() {
            Ok(())
        } else {
            Err(JoiningFault::Line(line))
        };
    };
    let Some((told, rest)) = split_stage(bytes) else {
        return Err(JoiningFault::Line(line));
    };
    *stage = told;
    read_stages(rest, others)
}

/// What the line says that bytes begin with, and what follows it.
#[tactic(auto, unfolding(crate::specs::JoiningText::stage_line))]
fn split_stage(bytes: &[u8]) -> Option<(Stage, &[u8])>
    ensures known { IfSome result (λ x. IsStage x.0) }
    ensures some { IfSome result (λ x. bytes.now ≡ stage_line x.0 x.1.now) }
    ensures none { IfNone result ((stage : StageValue) (rest : List ℕ) → IsStage stage →
        bytes.now ≢ stage_line stage rest) }
{
    match after(bytes, NOTHING_LINE) {
        Some(rest) => Some((Stage::Unasked, rest)),
        None => match after(bytes, AGREED_LINE) {
            Some(rest) => Some((Stage::Agreed, rest)),
            None => match split_answer(bytes) {
                Some((answer, rest)) => Some((Stage::Answered(answer), rest)),
                None => None,
            },
        },
    }
}

/// The answer of the node whose line bytes begin with, and what follows it.
fn split_answer(bytes: &[u8]) -> Option<(Answer, &[u8])>
    ensures known { IfSome result (λ x. IsAnswerInRange x.0) }
    ensures some { IfSome result (λ x. bytes.now ≡ stage_line (Answered x.0) x.1.now) }
    ensures none { IfNone result ((a : AnswerValue) (rest : List ℕ) → IsAnswerInRange a →
        bytes.now ≢ stage_line (Answered a) rest) }
{
    let (published, rest) = split_word(bytes, b"published ")?;
    let (voted, rest) = split_word(rest, b" voted ")?;
    let rest = after(rest, b"\n")?;
    match answer_of(published, voted) {
        Some(answer) => Some((answer, rest)),
        None => None,
    }
}

/// The answer with these numbers.
fn answer_of(published: u32, voted: u32) -> Option<Answer>
    ensures known { IfSome result IsAnswerInRange }
    ensures some { IfSome result (λ a. (a.published ≡ published) × (a.voted ≡ voted)) }
    ensures none { IfNone result ((a : AnswerValue) → IsAnswerInRange a → a.published ≡ published →
        a.voted ≢ voted) }
{
    let Ok(published) = u16::try_from(published) else {
        return None;
    };
    let Ok(voted) = u16::try_from(voted) else {
        return None;
    };
    Some(Answer { published, voted })
}
