//! Replies as bytes.
ghost use Rattle.std.specs.Prelude.{◌≡◌, ◌+◌, ◌*◌, ◌≤◌, ◌++◌, length, vec_len, vec_capacity, OnErr, OnOk};
ghost use Rattle.wf_codec.specs.Message.{HasText};
ghost use Rattle.wf_reader.specs.Reply.{AreTexts, IsAnswer, IsRejection, IsReply, answer_bytes, body_bytes, cause_byte, cause_sequence, most_body_bytes, rejection_bytes, reply_bytes, texts_bytes};
ghost use Rattle.wf_frame.specs.Report.{text_bytes};
ghost use Rattle.wf_spelling.specs.Canon.{canon, most_canon_bytes};

use crate::answer::ReaderAnswer;
use crate::rejection::QuestionRejection;
use crate::reply::Reply;
use std::alloc::AllocError;
use wf_canon::Canon;
use wf_frame::put;

/// Appends the reply's encoding. The only error is allocation failure; the bytes are then
/// unchanged.
#[tactic(auto, unfolding(crate::specs::Reply::reply_bytes))]
pub fn encode_reply(reply: &Reply, out: &mut Vec<u8>) -> Result<(), AllocError>
    ensures reply { IsReply reply.now }
    ensures ok { OnOk result (out.new.items ≡ out.old.items ++ reply_bytes reply.now) }
    ensures err { OnErr result (out.new.items ≡ out.old.items) }
{
    let length = body_length(reply);
    out.reserve(4 + length)?;
    put(out, &(length as u32).to_be_bytes());
    put_body(out, reply);
    Ok(())
}

/// The number of bytes after the length.
#[tactic(auto, unfolding(crate::specs::Reply::body_bytes))]
fn body_length(reply: &Reply) -> usize
    ensures value { result ≡ length (body_bytes reply.now) }
    ensures most { result ≤ most_body_bytes }
    ensures reply { IsReply reply.now }
{
    match reply {
        Reply::Answer(answer) => answer_length(answer),
        Reply::Rejected(why) => rejection_length(why),
    }
}

/// The number of bytes of an answer.
#[tactic(auto, using(crate::proofs::Sizes::length_of_fields))]
fn answer_length(answer: &ReaderAnswer) -> usize
    ensures value { result ≡ length (answer_bytes answer.now) }
    ensures most { result ≤ most_body_bytes }
    ensures is_answer { IsAnswer answer.now }
{
    let _ = answer.distance();
    let _ = answer.published();
    let _ = answer.digest();
    36 + texts_length(answer.definitions())
}

/// The number of bytes of a rejection.
#[tactic(auto, unfolding(wf_ballot::specs::Sequence::seq_bytes))]
fn rejection_length(why: &QuestionRejection) -> usize
    ensures value { result ≡ length (rejection_bytes why.now) }
    ensures four { result ≡ 4 }
    ensures is_rejection { IsRejection why.now }
{
    if let QuestionRejection::OtherHistory(seq) = why {
        let _ = seq.number();
    }
    4
}

/// The number of bytes of texts, each behind its length.
#[tactic(auto, using(crate::proofs::Sizes::length_of_texts), unfolding(crate::specs::Reply::texts_bytes, crate::specs::Reply::AreTexts))]
fn texts_length(definitions: &[Canon]) -> usize
    requires { length definitions.now ≤ 8 }
    ensures value { result ≡ length (texts_bytes definitions.now) }
    ensures most { result ≤ length definitions.now * (4 + most_canon_bytes) }
    ensures texts { AreTexts definitions.now }
{
    match definitions {
        [] => 0,
        [definition, rest @ ..] => 4 + text_length(definition) + texts_length(rest),
    }
}

/// The number of bytes of a canonical text.
fn text_length(text: &Canon) -> usize
    ensures value { result ≡ length (canon text.now) }
    ensures most { result ≤ most_canon_bytes }
    ensures has_text { HasText text.now }
{
    text.text().len()
}

/// Appends what follows the length, for which there is room.
#[tactic(auto, unfolding(crate::specs::Reply::body_bytes))]
fn put_body(out: &mut Vec<u8>, reply: &Reply)
    requires { vec_len out.old + length (body_bytes reply.now) ≤ vec_capacity out.old }
    ensures { out.new.items ≡ out.old.items ++ body_bytes reply.now }
{
    match reply {
        Reply::Answer(answer) => put_answer(out, answer),
        Reply::Rejected(why) => put_rejection(out, why),
    }
}

/// Appends an answer, for which there is room.
#[tactic(auto, unfolding(crate::specs::Reply::answer_fields))]
fn put_answer(out: &mut Vec<u8>, answer: &ReaderAnswer)
    requires { vec_len out.old + length (answer_bytes answer.now) ≤ vec_capacity out.old }
    ensures { out.new.items ≡ out.old.items ++ answer_bytes answer.now }
{
    put(out, &[1, answer.distance()]);
    put(out, &answer.published().bytes());
    put(out, &answer.digest());
    put_texts(out, answer.definitions());
}

/// Appends texts, each behind its length, for which there is room.
#[tactic(auto, unfolding(crate::specs::Reply::texts_bytes))]
fn put_texts(out: &mut Vec<u8>, definitions: &[Canon])
    requires { vec_len out.old + length (texts_bytes definitions.now) ≤ vec_capacity out.old }
    ensures { out.new.items ≡ out.old.items ++ texts_bytes definitions.now }
{
    if let [definition, rest @ ..] = definitions {
        put_text(out, definition);
        put_texts(out, rest);
    }
}

/// Appends a text behind its length, for which there is room.
#[tactic(auto, unfolding(wf_frame::specs::Report::text_bytes))]
fn put_text(out: &mut Vec<u8>, text: &Canon)
    requires { vec_len out.old + length (text_bytes (canon text.now)) ≤ vec_capacity out.old }
    ensures items { out.new.items ≡ out.old.items ++ text_bytes (canon text.now) }
    ensures len { vec_len out.new ≡ vec_len out.old + length (text_bytes (canon text.now)) }
    ensures capacity { vec_capacity out.old ≤ vec_capacity out.new }
{
    put(out, &(text.text().len() as u32).to_be_bytes());
    put(out, text.text());
}

/// Appends a rejection, for which there is room.
#[tactic(auto, unfolding(wf_ballot::specs::Sequence::seq_bytes))]
fn put_rejection(out: &mut Vec<u8>, why: &QuestionRejection)
    requires { vec_len out.old + length (rejection_bytes why.now) ≤ vec_capacity out.old }
    ensures { out.new.items ≡ out.old.items ++ rejection_bytes why.now }
{
    put(out, &[2, cause_byte(why)]);
    put(out, &cause_sequence(why).to_be_bytes());
}

/// The byte of a cause.
fn cause_byte(why: &QuestionRejection) -> u8
    ensures { result ≡ cause_byte why.now }
{
    match why {
        QuestionRejection::OtherFarm => 1,
        QuestionRejection::OtherVersion => 2,
        QuestionRejection::OtherHistory(_) => 3,
        QuestionRejection::TooFar => 4,
    }
}

/// The sequence that a cause names, or 0.
fn cause_sequence(why: &QuestionRejection) -> u16
    ensures { result ≡ cause_sequence why.now }
{
    match why {
        QuestionRejection::OtherHistory(seq) => seq.number(),
        QuestionRejection::OtherFarm
        | QuestionRejection::OtherVersion
        | QuestionRejection::TooFar => 0,
    }
}
