//! What is replied to a reader.
ghost use Rattle.std.specs.Prelude.{◌≡◌, ◌++◌, true};
ghost use Rattle.wf_reader.specs.Reply.{IsReply, reply_bytes};
ghost use Rattle.wf_reader.specs.declared.rejection.QuestionRejection.TheVariants as cause;
ghost use Rattle.wf_reader.specs.declared.reply.Reply.TheVariants as replies;
ghost use Rattle.wf_readers_port.specs.QuestionReplies.{IfReplied, Replies, RepliesTo};

use crate::port::PortView;
use std::alloc::Global;
use wf_reader::{
    Question, QuestionFault, QuestionRejection, Reply, decode_question, encode_reply, reply_to,
};

/// What came of the bytes of a question.
#[derive(Clone, Copy, PartialEq, Eq)]
pub(crate) enum QuestionOutcome {
    /// The question isn't whole.
    Short,
    /// The reply was written; if it is a rejection, the connection is to end.
    Replied(Option<QuestionRejection>),
    /// It isn't a question.
    Malformed,
    /// An allocation failed.
    Memory,
}

/// Replies to the question that bytes begin with. What is written tells what the history has next;
/// if the digests are the history's, it is the reply that the question has by that.
#[tactic(auto, using(crate::proofs::Exchanged::begins_with))]
pub(crate) fn answer(
    alloc: Global,
    published: &PortView<'_>,
    bytes: &[u8],
    out: &mut Vec<u8>,
) -> QuestionOutcome
    ensures { IfReplied result (RepliesTo published.now.own.now
        published.now.history.now.definitions published.now.digests.now
        bytes.now out.old.items out.new.items) }
{
    match decode_question(bytes) {
        Ok(question) => reply_by_history(alloc, published, &question, out),
        Err(QuestionFault::Short) => QuestionOutcome::Short,
        Err(QuestionFault::OtherVersion(_)) => reject_version(out),
        Err(QuestionFault::NotAReader | QuestionFault::Malformed) => QuestionOutcome::Malformed,
    }
}

/// Replies to a question.
fn reply_by_history(
    alloc: Global,
    published: &PortView<'_>,
    question: &Question,
    out: &mut Vec<u8>,
) -> QuestionOutcome
    ensures { IfReplied result (Replies published.now.own.now
        published.now.history.now.definitions published.now.digests.now
        question.now out.old.items out.new.items) }
{
    let PortView {
        own,
        history,
        digests,
    } = published;
    match reply_to(alloc, own, history, digests, question) {
        Ok(reply) => {
            let why = rejection_of(&reply);
            let is_put = put(&reply, out);
            drop(reply);
            if is_put {
                QuestionOutcome::Replied(why)
            } else {
                QuestionOutcome::Memory
            }
        }
        Err(_) => QuestionOutcome::Memory,
    }
}

/// Says that a question is of another version.
fn reject_version(out: &mut Vec<u8>) -> QuestionOutcome
    ensures { IfReplied result (out.new.items ≡
        out.old.items ++ reply_bytes (replies.Rejected cause.OtherVersion)) }
{
    let reply = Reply::Rejected(QuestionRejection::OtherVersion);
    let is_put = put(&reply, out);
    drop(reply);
    if is_put {
        QuestionOutcome::Replied(Some(QuestionRejection::OtherVersion))
    } else {
        QuestionOutcome::Memory
    }
}

/// Why a reply rejects, if it does.
fn rejection_of(reply: &Reply) -> Option<QuestionRejection> {
    match reply {
        Reply::Answer(_) => None,
        Reply::Rejected(why) => Some(*why),
    }
}

/// Appends a reply. Returns whether there was memory for it.
fn put(reply: &Reply, out: &mut Vec<u8>) -> bool
    ensures reply { IsReply reply.now }
    ensures put { result ≡ true → out.new.items ≡ out.old.items ++ reply_bytes reply.now }
{
    encode_reply(reply, out).is_ok()
}
