//! A replica: the maps that it has learned, and its tape.

ghost use Rattle.wf_replica.specs.Heard.{CameByAnswers};
ghost use Rattle.wf_replica.specs.LearnedList.{messages_of};
ghost use Rattle.wf_replica.specs.Recorded.{IsRecorded};

use crate::maps::MapList;
use wf_codec::Message;
use wf_past::Past;
use wf_reader::{Question, ReaderAnswer};
use wf_tape::Tape;

/// A replica: the maps that it has learned, the digests of them, and its tape, unless that has
/// failed. A clause sees three logs that only proofs read: each message that it heard, those of
/// them that were read of its tape when it was opened, and each answer that it was given, with its
/// question. What it heard since then is what it took of these answers, and nothing else. A durable
/// tape has exactly the records of the maps, in their order.
#[derive(Drop)]
pub struct Follower<T: Tape> {
    pub(crate) maps: MapList,
    pub(crate) tape: Option<T>,
    pub(crate) read: Past<Message, usize>,
    pub(crate) answers: Past<ReaderAnswer, Question>,
    ghost recorded: { IsRecorded T.Tape tape maps.shelf.definitions },
    ghost heard: { ∥ CameByAnswers
        (messages_of read.items) answers.items (messages_of maps.received.items) ∥₁ },
}
