//! Replies out of bytes.
ghost use Rattle.std.specs.Prelude.{◌≡◌, ◌≢◌, ◌+◌, ◌<◌, ◌≤◌, ◌^◌, ◌↔◌, ◌++◌, ℕ, List, Ok, Some, length, take, IfErr, IfOk, IfSome, IsErrOf, MatchResult, MatchOption, OnOk};
ghost use Rattle.std.specs.Int.{w32, from_be_bytes, to_be_bytes};
ghost use Rattle.wf_ballot.specs.Sequence.{seq_bytes};
ghost use Rattle.wf_codec.specs.Message.{HasText};
ghost use Rattle.wf_def.specs.Definition.{Definition};
ghost use Rattle.wf_frame.specs.Report.{text_bytes};
ghost use Rattle.wf_model.specs.Table.{most_reports};
ghost use Rattle.wf_reader.specs.ReaderAnswer.{ReaderAnswer as AnswerValue};
ghost use Rattle.wf_reader.specs.ReplyReader.{IsReplyRead, ReadsTexts};
ghost use Rattle.wf_reader.specs.Reply.{AreTexts, IsAnswer, IsRejection, IsReply, answer_fields, body_bytes, cause_byte, cause_sequence, most_reply_bytes, reply_bytes, texts_bytes};
ghost use Rattle.wf_reader.specs.declared.rejection.QuestionRejection.{QuestionRejection as RejectionValue};
ghost use Rattle.wf_reader.specs.declared.reply.Reply.{Reply as ReplyValue};
ghost use Rattle.wf_spelling.specs.Canon.{canon};

use crate::answer::{MOST_DISTANCE, ReaderAnswer};
use crate::fault::ReplyFault;
use crate::question_bytes::array;
use crate::rejection::QuestionRejection;
use crate::reply::{MOST_REPLY_BYTES, Reply};
use std::alloc::Global;
use wf_ballot::Seq;
use wf_canon::{Canon, CanonFault, one_text_one_map};
use wf_learner::MOST_REPORTS;

/// The number of bytes of an answer before its texts, without its first two.
const ANSWER_FIELDS: usize = 34;

/// The number of bytes of the reply that bytes begin with, by their first four. `Short` as long as
/// these aren't there; `TooLong` if no reply has so many.
pub fn reply_length(bytes: &[u8]) -> Result<usize, ReplyFault>
    ensures value { IfOk result (λ n. n ≡ 4 + from_be_bytes w32 (take 4 bytes.now)) }
    ensures most { IfOk result (λ n. n ≤ most_reply_bytes) }
    ensures each { (reply : ReplyValue) (rest : List ℕ) → IsReply reply →
        bytes.now ++ rest ≡ reply_bytes reply → 4 ≤ length bytes.now →
        result ≡ Ok (length (reply_bytes reply)) }
    ensures short { IsErrOf result ReplyFault.Short ↔ (length bytes.now < 4) }
    ensures errors { IfErr result (λ fault. (fault ≢ ReplyFault.Malformed)
        × (fault ≢ ReplyFault.Memory)) }
{
    if bytes.len() < 4 {
        return Err(ReplyFault::Short);
    }
    let length = 4 + stated_length(bytes);
    if MOST_REPLY_BYTES < length {
        return Err(ReplyFault::TooLong);
    }
    Ok(length)
}

/// The number that these four bytes are.
#[tactic(auto, using(crate::proofs::Sizes::four_bytes))]
fn number_of(bytes: &[u8]) -> u32
    requires { length bytes.now ≡ 4 }
    ensures value { result ≡ from_be_bytes w32 bytes.now }
    ensures bytes { bytes.now ≡ to_be_bytes w32 result }
{
    u32::from_be_bytes(array(bytes))
}

/// The number of bytes after the length, by the first four bytes.
fn stated_length(bytes: &[u8]) -> usize
    requires { 4 ≤ length bytes.now }
    ensures value { result ≡ from_be_bytes w32 (take 4 bytes.now) }
    ensures bytes { take 4 bytes.now ≡ to_be_bytes w32 result }
{
    number_of(bytes.split_at(4).0) as usize
}

/// The reply that these bytes are. `Short`: they are fewer than four. An allocation can fail only
/// for an answer; any other bytes that aren't a reply are `Malformed`.
#[tactic(auto, using(crate::proofs::Sizes::whole_length, crate::proofs::Sizes::whole_body, crate::proofs::Sizes::whole_reply))]
pub fn decode_reply(alloc: Global, bytes: &[u8]) -> Result<Reply, ReplyFault>
    ensures reply { IfOk result IsReply }
    ensures bytes { IfOk result (λ reply. bytes.now ≡ reply_bytes reply) }
    ensures each { (reply : ReplyValue) → IsReply reply → bytes.now ≡ reply_bytes reply →
        IsReplyRead result reply }
{
    if bytes.len() < 4 {
        return Err(ReplyFault::Short);
    }
    let length = 4 + stated_length(bytes);
    if length != bytes.len() {
        return Err(ReplyFault::Malformed);
    }
    decode_body(alloc, bytes.split_at(4).1)
}

/// The reply with these bytes after its length.
#[tactic(auto, unfolding(crate::specs::Reply::body_bytes))]
fn decode_body(alloc: Global, body: &[u8]) -> Result<Reply, ReplyFault>
    ensures reply { IfOk result IsReply }
    ensures bytes { IfOk result (λ reply. body.now ≡ body_bytes reply) }
    ensures each { (reply : ReplyValue) → IsReply reply → body.now ≡ body_bytes reply →
        IsReplyRead result reply }
{
    match body {
        [1, distance, rest @ ..] => match answer_of(alloc, *distance, rest) {
            Ok(answer) => Ok(Reply::Answer(answer)),
            Err(fault) => Err(fault),
        },
        [2, cause, rest @ ..] => match rejection_of(*cause, rest) {
            Some(why) => Ok(Reply::Rejected(why)),
            None => Err(ReplyFault::Malformed),
        },
        _ => Err(ReplyFault::Malformed),
    }
}

/// The answer with this distance and these bytes after it.
fn answer_of(alloc: Global, distance: u8, bytes: &[u8]) -> Result<ReaderAnswer, ReplyFault>
    ensures answer { IfOk result IsAnswer }
    ensures distance { IfOk result (λ a. a.distance ≡ distance) }
    ensures bytes { IfOk result (λ a. bytes.now ≡ answer_fields a) }
    ensures each { (a : AnswerValue) → IsAnswer a → a.distance ≡ distance →
        bytes.now ≡ answer_fields a → IsReplyRead result a }
{
    if MOST_DISTANCE < distance {
        return Err(ReplyFault::Malformed);
    }
    if bytes.len() < ANSWER_FIELDS {
        return Err(ReplyFault::Malformed);
    }
    let (published, rest) = bytes.split_at(2);
    let (digest, texts) = rest.split_at(32);
    let Some(published) = Seq::from_bytes(published) else {
        return Err(ReplyFault::Malformed);
    };
    match read_texts(alloc, texts) {
        Ok(definitions) => Ok(ReaderAnswer::new(distance, published, array(digest), definitions)),
        Err(fault) => Err(fault),
    }
}

/// The definitions whose texts these bytes are, at most eight.
fn read_texts(alloc: Global, bytes: &[u8]) -> Result<Vec<Canon>, ReplyFault>
    ensures bytes { IfOk result (λ found. bytes.now ≡ texts_bytes found.items) }
    ensures texts { IfOk result (λ found. AreTexts found.items) }
    ensures few { IfOk result (λ found. length found.items ≤ most_reports) }
    ensures each { (definitions : List Definition) → AreTexts definitions →
        length definitions ≤ most_reports → bytes.now ≡ texts_bytes definitions →
        MatchResult result (λ found. found.items ≡ definitions) (λ fault. fault ≡ ReplyFault.Memory) }
{
    let mut definitions = Vec::new(alloc);
    match push_texts(alloc, MOST_REPORTS, bytes, &mut definitions) {
        Ok(()) => Ok(definitions),
        Err(fault) => Err(fault),
    }
}

/// Appends the definitions whose texts these bytes are, if they are no more than so many. After an
/// error some may have been appended.
#[tactic(auto, unfolding(crate::specs::Reply::texts_bytes, crate::specs::Reply::AreTexts))]
fn push_texts(
    alloc: Global,
    most: u16,
    bytes: &[u8],
    definitions: &mut Vec<Canon>,
) -> Result<(), ReplyFault>
    ensures ok { OnOk result
        (ReadsTexts bytes.now most definitions.old.items definitions.new.items) }
    ensures each { (found : List Definition) → AreTexts found → length found ≤ most →
        bytes.now ≡ texts_bytes found →
        MatchResult result (λ _. definitions.new.items ≡ definitions.old.items ++ found) (λ fault. fault ≡ ReplyFault.Memory) }
{
    if bytes.is_empty() {
        return Ok(());
    }
    if most == 0 {
        return Err(ReplyFault::Malformed);
    }
    let Some((text, rest)) = cut_text(bytes) else {
        return Err(ReplyFault::Malformed);
    };
    match definition_of(alloc, text) {
        Ok(definition) => {
            definitions.push(definition)?;
            push_texts(alloc, most - 1, rest, definitions)
        }
        Err(fault) => Err(fault),
    }
}

/// A text behind its length, and the bytes after it; None if the bytes don't begin so. Whether it
/// is canonical isn't checked.
#[tactic(auto, using(crate::proofs::Sizes::text_front, crate::proofs::Sizes::text_whole))]
fn cut_text(bytes: &[u8]) -> Option<(&[u8], &[u8])>
    ensures some { IfSome result (λ x. bytes.now ≡ text_bytes x.0.now ++ x.1.now) }
    ensures each { (text rest : List ℕ) → length text < 2 ^ 32 →
        bytes.now ≡ text_bytes text ++ rest →
        MatchOption result ⊥ (λ x. (x.0.now ≡ text) × (x.1.now ≡ rest)) }
{
    if bytes.len() < 4 {
        return None;
    }
    let (front, rest) = bytes.split_at(4);
    let length = number_of(front) as usize;
    if rest.len() < length {
        return None;
    }
    Some(rest.split_at(length))
}

/// The definition of a canonical text.
#[tactic(auto, using(crate::proofs::Texts::not_rejected))]
fn definition_of(alloc: Global, text: &[u8]) -> Result<Canon, ReplyFault>
    ensures text { IfOk result (λ definition. text.now ≡ canon definition) }
    ensures has_text { IfOk result HasText }
    ensures each { (definition : Definition) → HasText definition → text.now ≡ canon definition →
        IsReplyRead result definition }
{
    // The theorem: maps with equal texts are equal.
    one_text_one_map();
    match Canon::from_bytes(alloc, text) {
        Ok(canon) => Ok(canon),
        Err(CanonFault::Memory) => Err(ReplyFault::Memory),
        Err(CanonFault::TooBig | CanonFault::NotCanonical) => Err(ReplyFault::Malformed),
    }
}

/// The rejection with this cause and these bytes after it.
fn rejection_of(cause: u8, bytes: &[u8]) -> Option<QuestionRejection>
    ensures rejection { IfSome result IsRejection }
    ensures cause { IfSome result (λ why. cause ≡ cause_byte why) }
    ensures bytes { IfSome result (λ why. bytes.now ≡ seq_bytes (cause_sequence why)) }
    ensures each { (why : RejectionValue) → IsRejection why → cause ≡ cause_byte why →
        bytes.now ≡ seq_bytes (cause_sequence why) → result ≡ Some why }
{
    let seq = Seq::from_bytes(bytes)?;
    if cause == 3 {
        return Some(QuestionRejection::OtherHistory(seq));
    }
    if seq.number() != 0 {
        return None;
    }
    match cause {
        1 => Some(QuestionRejection::OtherFarm),
        2 => Some(QuestionRejection::OtherVersion),
        4 => Some(QuestionRejection::TooFar),
        _ => None,
    }
}
