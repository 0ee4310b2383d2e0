//! What a replica takes of an answer.

ghost use Rattle.std.specs.Prelude.{◌≡◌, [], ◌∷◌, ◌+◌, ◌-◌, ◌≤◌, ◌<◌, ◌++◌, List, length, min, IfErr, IfSome, IsOk, IsTrue, None, Some, OnOk};
ghost use Rattle.wf_def.specs.Definition.{Definition};
ghost use Rattle.wf_digest.specs.Digest.{AreDigestsOf, digest_after, digest_at, next_digest};
ghost use Rattle.wf_model.specs.Message.{Message};
ghost use Rattle.wf_replica.specs.Fit.{FitsQuestion, IsFoundDifferent, IsOfOtherHistory, IsOtherHistory, IsQuestionOf, AnswerLeaves, next_count};
ghost use Rattle.wf_replica.specs.Follower.{Grows, answers_of, list_of, read_by, received_by};
ghost use Rattle.wf_replica.specs.Heard.{IsAnswerTaken};
ghost use Rattle.wf_replica.specs.MapList.{LearnsFitting, maps_of};
ghost use Rattle.wf_replica.specs.Recorded.{IsRecorded};

use crate::follower::Follower;
use crate::maps::MapList;
use crate::misfit::{AnswerFault, Misfit};
use sha2::{Digest, Sha256};
use std::alloc::{AllocError, Global};
use wf_ballot::Seq;
use wf_codec::Canon;
use wf_learner::MOST_REPORTS;
use wf_reader::{Question, ReaderAnswer};
use wf_tape::Tape;

impl<T: Tape + Drop> Follower<T> {
    /// Takes an answer to a question: learns its definitions, if it fits. Err: why it isn't taken.
    /// Then nothing has changed, unless an allocation failed, now or when the digests were
    /// extended.
    pub fn take_answer(
        &mut self,
        alloc: Global,
        question: &Question,
        answer: &ReaderAnswer,
    ) -> Result<(), AnswerFault>
        // Nothing of an answer is published that doesn't fit the question; all of one that fits is,
        // as far as memory allows.
        ensures leaves { AnswerLeaves (list_of self.old) question.now answer.now result
            (list_of self.new) }
        ensures answers { answers_of self.new ≡
            answers_of self.old ++ (answer.now, question.now) ∷ [] }
        ensures differs { IsFoundDifferent result → IsOtherHistory (list_of self.old) answer.now }
        ensures grows { Grows self.old self.new }
        ensures received { (more : List (Message Definition))
            × (received_by self.new ≡ received_by self.old ++ more) }
        ensures taken { (part : List (Message Definition))
            × IsAnswerTaken (list_of self.old) question.now answer.now part
            × (received_by self.new ≡ received_by self.old ++ part) }
        ensures read { read_by self.new ≡ read_by self.old }
    {
        let taken = self
            .maps
            .learn_fitting(alloc, &mut self.tape, question, answer);
        self.answers = self.answers.and(answer, question);
        taken
    }
}

impl MapList {
    /// Learns the definitions of an answer, and writes them on a tape, if it fits.
    #[tactic(auto, using(crate::proofs::Hearing::learned_fitting, crate::proofs::Hearing::learned_nothing))]
    fn learn_fitting<T: Tape + Drop>(
        &mut self,
        alloc: Global,
        tape: &mut Option<T>,
        question: &Question,
        answer: &ReaderAnswer,
    ) -> Result<(), AnswerFault>
        ensures leaves { AnswerLeaves (maps_of self.old) question.now answer.now result
            (maps_of self.new) }
        ensures differs { IsFoundDifferent result → IsOtherHistory (maps_of self.old) answer.now }
        ensures learns { LearnsFitting question.now answer.now self.old self.new }
        ensures recorded { IsRecorded T.Tape tape.old (maps_of self.old)
            → IsRecorded T.Tape tape.new (maps_of self.new) }
    {
        let Some(own) = self.last_digest() else {
            return Err(AnswerFault::Memory);
        };
        if let Err(misfit) = self.judge(&own, question, answer) {
            return Err(AnswerFault::Misfit(misfit));
        }
        match self.learn(alloc, tape, answer.definitions()) {
            Ok(()) => Ok(()),
            Err(AllocError) => Err(AnswerFault::Memory),
        }
    }

    /// The digest of its list. None: an allocation failed before, and it isn't there.
    #[tactic(auto, using(crate::proofs::Digested::all_digested))]
    fn last_digest(&self) -> Option<[u8; 32]>
        ensures digested { IfSome result (λ _. AreDigestsOf (maps_of self.now) self.now.digests) }
        ensures value { IfSome result (λ own. own ≡
            digest_at (maps_of self.now) (length (maps_of self.now))) }
    {
        self.digests.at(self.history().published())
    }

    /// Why an answer doesn't fit a question, if it doesn't. `own`: the digest of its list.
    fn judge(
        &self,
        own: &[u8; 32],
        question: &Question,
        answer: &ReaderAnswer,
    ) -> Result<(), Misfit>
        requires digested { AreDigestsOf (maps_of self.now) self.now.digests }
        requires own { own.now ≡ digest_at (maps_of self.now) (length (maps_of self.now)) }
        ensures fits { OnOk result (FitsQuestion (maps_of self.now) question.now answer.now) }
        ensures fitting { FitsQuestion (maps_of self.now) question.now answer.now → IsOk result }
        ensures differs { IfErr result (λ why. IsOfOtherHistory why →
            IsOtherHistory (maps_of self.now) answer.now) }
    {
        if !self.has_asked(own, question) {
            return Err(Misfit::Unasked);
        }
        if answer.definitions().len() != next_count(question.published, answer.published()) {
            return Err(Misfit::Count);
        }
        match self.digest_with(question, answer) {
            Some(digest) if digest != answer.digest() => Err(misfit_of(question, answer)),
            _ => Ok(()),
        }
    }

    /// Whether a question is the one for what comes next. `own`: the digest of its list.
    fn has_asked(&self, own: &[u8; 32], question: &Question) -> bool
        requires { own.now ≡ digest_at (maps_of self.now) (length (maps_of self.now)) }
        ensures asked { IsTrue result → IsQuestionOf (maps_of self.now) question.now }
        ensures own { IsQuestionOf (maps_of self.now) question.now → IsTrue result }
    {
        if question.published.number() != self.history().published().number() {
            return false;
        }
        *own == question.digest
    }

    /// The digest of its list with an answer's definitions, at the answerer's last sequence. None:
    /// that is further on.
    #[tactic(auto, using(crate::proofs::Digested::digest_within, crate::proofs::Digested::digest_to_end))]
    fn digest_with(&self, question: &Question, answer: &ReaderAnswer) -> Option<[u8; 32]>
        requires asked { IsQuestionOf (maps_of self.now) question.now }
        requires digested { AreDigestsOf (maps_of self.now) self.now.digests }
        requires count { length answer.now.definitions ≡
            next_count (length (maps_of self.now)) answer.now.published }
        ensures within { let whole = maps_of self.now ++ answer.now.definitions in
            answer.now.published ≤ length whole → result ≡ Some (digest_at whole answer.now.published) }
        ensures further { length (maps_of self.now ++ answer.now.definitions) <
            answer.now.published → result ≡ None }
    {
        let last = answer.published();
        if last.number() <= question.published.number() {
            return self.digests.at(last);
        }
        let definitions = answer.definitions();
        if last.number() as usize == question.published.number() as usize + definitions.len() {
            Some(digest_of(question.digest, definitions))
        } else {
            None
        }
    }
}

/// Why an answer with another digest doesn't fit.
fn misfit_of(question: &Question, answer: &ReaderAnswer) -> Misfit
    ensures { IsOfOtherHistory result → answer.now.published ≤ question.now.published }
{
    let last = answer.published();
    if last.number() <= question.published.number() {
        Misfit::OtherHistory(last)
    } else {
        Misfit::Digest
    }
}

/// How many definitions one who has published up to a last sequence sends of those after another
/// one.
fn next_count(published: Seq, last: Seq) -> usize
    ensures { result ≡ next_count published last }
{
    MOST_REPORTS.min(last.number().saturating_sub(published.number())) as usize
}

/// The digest after these definitions, by that before them.
#[tactic(auto, unfolding(wf_digest::specs::Digest::digest_after))]
fn digest_of(digest: [u8; 32], definitions: &[Canon]) -> [u8; 32]
    ensures { result ≡ digest_after digest definitions.now }
{
    match definitions {
        [] => digest,
        [definition, rest @ ..] => digest_of(next_digest(&digest, definition), rest),
    }
}

/// The digest after this one.
#[tactic(auto, unfolding(wf_digest::specs::Digest::next_digest))]
fn next_digest(digest: &[u8; 32], definition: &Canon) -> [u8; 32]
    ensures { result ≡ next_digest digest.now definition.now }
{
    let mut hasher = Sha256::new();
    hasher.update(digest.as_slice());
    hasher.update(definition.text());
    hasher.finalize()
}
