//! Who answers a question, and how.
ghost use Rattle.std.specs.Prelude.{◌≡◌, ◌+◌, ◌<◌, ◌≤◌, ◌↔◌, ◌++◌, List, IfOk, IsTrue, OnErr, OnOk, length};
ghost use Rattle.std.specs.Option.{option_to_list};
ghost use Rattle.wf_digest.specs.Digest.{AreDigestsOf};
ghost use Rattle.wf_model.specs.DurableState.{definition_at};
ghost use Rattle.wf_reader.specs.Answerer.{Differ, IsReplyTo, TellsNext, next_reported};

use crate::answer::{MOST_DISTANCE, ReaderAnswer};
use crate::question::Question;
use crate::rejection::QuestionRejection;
use crate::reply::Reply;
use std::alloc::{AllocError, Global};
use wf_ballot::{Seq, Slot};
use wf_canon::Canon;
use wf_digest::Digests;
use wf_folder::FarmName;
use wf_learner::{History, MOST_REPORTS};

/// Who answers: a process of this farm, and how far from a voter it is.
#[derive(Clone, Copy, Debug, PartialEq, Eq)]
pub struct Answerer {
    /// The name of its farm.
    pub farm: FarmName,
    /// 0 of a voter; of a replica one more than the distance of the last answer.
    pub distance: u8,
}

/// The reply to a question, from a history and its digests; whatever the digests are, the
/// definitions of an answer are those of the history. The only error is allocation failure,
/// here or before, where the digests were to be extended to the history's last sequence.
pub fn reply_to(
    alloc: Global,
    own: &Answerer,
    history: &History,
    digests: &Digests,
    question: &Question,
) -> Result<Reply, AllocError>
    ensures told { IfOk result (TellsNext history.now.definitions question.now) }
    ensures reply { AreDigestsOf history.now.definitions digests.now →
        IfOk result (IsReplyTo own.now history.now.definitions question.now) }
    ensures memory { AreDigestsOf history.now.definitions digests.now →
        OnErr result (question.now.published < length history.now.definitions) }
{
    if question.farm != own.farm {
        return Ok(Reply::Rejected(QuestionRejection::OtherFarm));
    }
    if MOST_DISTANCE < own.distance {
        return Ok(Reply::Rejected(QuestionRejection::TooFar));
    }
    if differ(digests, question) {
        return Ok(Reply::Rejected(QuestionRejection::OtherHistory(question.published)));
    }
    let published = history.published();
    let Some(digest) = digests.at(published) else {
        return Err(AllocError);
    };
    let definitions = definitions_after(alloc, history, question.published)?;
    Ok(Reply::Answer(ReaderAnswer::new(own.distance, published, digest, definitions)))
}

/// Whether the digests differ at the reader's last published sequence.
fn differ(digests: &Digests, question: &Question) -> bool
    ensures { (history : List _) → AreDigestsOf history digests.now →
        IsTrue result ↔ Differ history question.now }
{
    match digests.at(question.published) {
        Some(digest) => digest != question.digest,
        None => false,
    }
}

/// The definitions at the sequences after this one, eight at most. Allocation can fail only if
/// there are some.
#[tactic(auto, using(crate::proofs::Next::next_found))]
fn definitions_after(alloc: Global, history: &History, seq: Seq) -> Result<Vec<Canon>, AllocError>
    ensures ok { IfOk result (λ found. found.items ≡ next_reported history.now.definitions seq) }
    ensures memory { OnErr result (seq < length history.now.definitions) }
{
    let mut found = Vec::new(alloc);
    let first = seq.number();
    for offset in 0..MOST_REPORTS {
        push_at(history, first + offset + 1, &mut found)?;
    }
    Ok(found)
}

/// Appends the definition that is published at the sequence of this number, if there is one.
#[tactic(auto, using(crate::proofs::Next::no_definition, crate::proofs::Next::is_published))]
fn push_at(history: &History, number: u16, found: &mut Vec<Canon>) -> Result<(), AllocError>
    requires { 1 ≤ number }
    ensures ok { OnOk result (found.new.items ≡
        found.old.items ++ option_to_list (definition_at history.now.definitions number)) }
    ensures memory { OnErr result (number ≤ length history.now.definitions) }
{
    // The list is no longer than there are slots: a number that isn't a slot's has no definition.
    let _ = history.published();
    let Some(slot) = Slot::new(number) else {
        return Ok(());
    };
    if let Some(canon) = history.canon(slot) {
        found.push(canon.copy()?)?;
    }
    Ok(())
}
