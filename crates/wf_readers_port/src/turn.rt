//! What a reader's turn reads and writes.
ghost use Rattle.std.specs.Prelude.{◌≡◌, ◌≤◌, ◌+◌, ◌++◌, ◌∷◌, [], ℕ, List, None, IfSome, length, vec_len, vec_capacity};
ghost use Rattle.wf_client.specs.ResponseBuffer.{rest_of};
ghost use Rattle.wf_reader.specs.Question.{question_length};
ghost use Rattle.wf_readers_port.specs.Exchanges.{HasConversed};

use crate::port::PortView;
use crate::reader::Reader;
use crate::replies::{QuestionOutcome, answer};
use std::alloc::Global;
use wf_client::Outgoing;
use wf_past::Past;
use wf_reader::{QUESTION_BYTES, QuestionRejection};
use wf_sockets::{Connection, Moved, Network};
use wf_stream::write_all;
use wf_timing::is_silent;

/// The most questions that a turn answers.
const MOST_QUESTIONS: usize = 4;

/// The most reads of a turn.
const MOST_READS: usize = 64;

/// What a turn of a reader leaves.
#[derive(Clone, Copy, PartialEq, Eq)]
pub(crate) enum ReaderTurn {
    /// It waits.
    Here,
    /// There may be more to do.
    Busy,
    /// It has gone.
    Gone,
    /// It has gone: it was rejected.
    Rejected(QuestionRejection),
    /// It has gone: what it sent isn't a question.
    Malformed,
}

/// A step of a turn.
#[derive(Clone, Copy, PartialEq, Eq)]
enum Step {
    More,
    Done(ReaderTurn),
}

impl<C: Connection + Drop> Reader<C> {
    /// A reader that came now.
    #[tactic(auto, using(crate::proofs::Exchanged::asked_nothing, crate::proofs::Exchanged::replied_nothing))]
    pub(crate) fn new(alloc: Global, connection: C, time: u64) -> Self
        requires came { C.came connection ≡ [] }
        requires sent { C.sent connection ≡ [] }
        ensures { result.exchanges.items ≡ [] }
    {
        Reader {
            connection,
            question: Vec::new(alloc),
            reply: Outgoing::new(alloc),
            exchanges: Past::new(),
            rejected: None,
            since: time,
        }
    }

    /// When it asked last, or came.
    pub(crate) fn since(&self) -> u64 {
        self.since
    }

    /// Whether it has asked nothing for too long.
    pub(crate) fn is_silent(&self, time: u64) -> bool {
        is_silent(self.since, time)
    }

    /// Watches its connection under a token.
    #[tactic(auto, using(crate::proofs::Exchanged::asked_same, crate::proofs::Exchanged::replied_same))]
    pub(crate) fn watch<N: Network<Connection = C>>(&mut self, network: &N, token: usize)
        ensures { self.new.exchanges.items ≡ self.old.exchanges.items }
    {
        let _ = network.watch(&mut self.connection, token);
    }

    /// Writes what is to be written, and answers what was asked, a bounded part of it.
    #[tactic(auto, using(crate::proofs::Exchanged::conversed_nothing, crate::proofs::Exchanged::conversed_twice))]
    pub(crate) fn turn(
        &mut self,
        alloc: Global,
        published: &PortView<'_>,
        time: u64,
        all: &mut Past<Vec<u8>, Vec<u8>>,
    ) -> ReaderTurn
        ensures { HasConversed
            published.now.own.now published.now.history.now.definitions published.now.digests.now
            self.old.exchanges.items all.old.items self.new.exchanges.items all.new.items }
    {
        for _ in 0..MOST_QUESTIONS {
            match self.step(alloc, published, time, all) {
                Step::More => {}
                Step::Done(left) => return left,
            }
        }
        ReaderTurn::Busy
    }

    /// Writes the rest of a reply; once it is taken, reads a question, and replies to it.
    #[tactic(auto, using(crate::proofs::Exchanged::conversed_nothing))]
    fn step(
        &mut self,
        alloc: Global,
        published: &PortView<'_>,
        time: u64,
        all: &mut Past<Vec<u8>, Vec<u8>>,
    ) -> Step
        ensures { HasConversed
            published.now.own.now published.now.history.now.definitions published.now.digests.now
            self.old.exchanges.items all.old.items self.new.exchanges.items all.new.items }
    {
        if let Some(left) = self.give() {
            return Step::Done(left);
        }
        if let Some(left) = self.receive() {
            return Step::Done(left);
        }
        let mut bytes = Vec::new(alloc);
        match answer(alloc, published, self.question.as_slice(), &mut bytes) {
            QuestionOutcome::Short => Step::Done(ReaderTurn::Here),
            QuestionOutcome::Replied(why) => {
                let Some(reply) = outgoing_of(alloc, bytes.as_slice()) else {
                    return Step::Done(ReaderTurn::Gone);
                };
                *all = all.and(&self.question, &bytes);
                self.reply_with(alloc, bytes, reply);
                self.rejected = why;
                self.since = time;
                Step::More
            }
            QuestionOutcome::Malformed => Step::Done(ReaderTurn::Malformed),
            QuestionOutcome::Memory => Step::Done(ReaderTurn::Gone),
        }
    }

    /// The reply is to be written, and the next question to be heard.
    #[tactic(auto, using(crate::proofs::Exchanged::asked_one, crate::proofs::Exchanged::replied_one))]
    fn reply_with(&mut self, alloc: Global, bytes: Vec<u8>, reply: Outgoing)
        requires taken { rest_of self.old.reply ≡ [] }
        requires whole { rest_of reply ≡ bytes.items }
        ensures { self.new.exchanges.items
            ≡ self.old.exchanges.items ++ (self.old.question, bytes) ∷ [] }
    {
        self.exchanges = self.exchanges.and(&self.question, &bytes);
        self.question = Vec::new(alloc);
        self.reply = reply;
    }

    /// Writes what is to be written. None: it was all taken, and a question may come.
    #[tactic(auto, using(crate::proofs::Exchanged::asked_same))]
    fn give(&mut self) -> Option<ReaderTurn>
        ensures exchanges { self.new.exchanges.items ≡ self.old.exchanges.items }
        ensures taken { result ≡ None → rest_of self.new.reply ≡ [] }
    {
        match give(&mut self.connection, &mut self.reply) {
            Some(left) => Some(left),
            None => rejection(self.rejected),
        }
    }

    /// Reads a question, and nothing after it. None: it is whole.
    #[tactic(auto, using(crate::proofs::Exchanged::replied_same))]
    fn receive(&mut self) -> Option<ReaderTurn>
        ensures exchanges { self.new.exchanges.items ≡ self.old.exchanges.items }
        ensures reply { self.new.reply ≡ self.old.reply }
        ensures whole { result ≡ None → length self.new.question.items ≡ question_length }
    {
        receive(&mut self.connection, &mut self.question)
    }
}

/// A reader that was rejected has gone.
fn rejection(rejected: Option<QuestionRejection>) -> Option<ReaderTurn> {
    match rejected {
        Some(why) => Some(ReaderTurn::Rejected(why)),
        None => None,
    }
}

/// A reply of which nothing was taken. None: an allocation failed.
fn outgoing_of(alloc: Global, bytes: &[u8]) -> Option<Outgoing>
    ensures { IfSome result (λ reply. rest_of reply ≡ bytes.now) }
{
    let mut reply = Outgoing::new(alloc);
    match write_all(&mut reply, bytes) {
        Ok(()) => {
            reply.restart();
            Some(reply)
        }
        Err(_) => None,
    }
}

/// Writes what is left of a reply. None: it was all taken.
#[tactic(auto, using(crate::proofs::Exchanged::given, crate::proofs::Exchanged::given_none, crate::proofs::Exchanged::nothing_left))]
fn give<C: Connection>(connection: &mut C, reply: &mut Outgoing) -> Option<ReaderTurn>
    ensures came { C.came connection.new ≡ C.came connection.old }
    ensures sent { C.sent connection.new ++ rest_of reply.new
        ≡ C.sent connection.old ++ rest_of reply.old }
    ensures taken { result ≡ None → rest_of reply.new ≡ [] }
{
    for _ in 0..u64::MAX {
        if reply.is_taken() {
            return None;
        }
        match connection.write(reply.rest()) {
            Moved::Bytes(count) => reply.advance(count),
            Moved::Blocked => return Some(ReaderTurn::Here),
            Moved::Closed | Moved::Failed => return Some(ReaderTurn::Gone),
        }
    }
    Some(ReaderTurn::Busy)
}

/// Reads a question, and nothing after it, behind what had come of it. None: it is whole.
fn receive<C: Connection>(connection: &mut C, question: &mut Vec<u8>) -> Option<ReaderTurn>
    ensures came { (front : List ℕ) → C.came connection.old ≡ front ++ question.old.items
        → C.came connection.new ≡ front ++ question.new.items }
    ensures sent { C.sent connection.new ≡ C.sent connection.old }
    ensures short { length question.old.items ≤ question_length
        → length question.new.items ≤ question_length }
    ensures whole { result ≡ None → question_length ≤ length question.new.items }
{
    let mut piece = [0u8; QUESTION_BYTES];
    for _ in 0..MOST_READS {
        let missing = QUESTION_BYTES.saturating_sub(question.len());
        if missing == 0 {
            return None;
        }
        if question.reserve(missing).is_err() {
            return Some(ReaderTurn::Gone);
        }
        if let Some(left) = receive_piece(connection, question, &mut piece[..missing]) {
            return Some(left);
        }
    }
    Some(ReaderTurn::Busy)
}

/// Reads a piece of a question, for which it has room. None: some came.
#[tactic(auto, using(crate::proofs::Exchanged::received, crate::proofs::Exchanged::received_none))]
fn receive_piece<C: Connection>(
    connection: &mut C,
    question: &mut Vec<u8>,
    piece: &mut [u8],
) -> Option<ReaderTurn>
    requires { vec_len question.old + length piece.old ≤ vec_capacity question.old }
    ensures came { (front : List ℕ) → C.came connection.old ≡ front ++ question.old.items
        → C.came connection.new ≡ front ++ question.new.items }
    ensures sent { C.sent connection.new ≡ C.sent connection.old }
    ensures within { length question.new.items ≤ length question.old.items + length piece.old }
{
    match connection.read(piece) {
        Moved::Bytes(count) => match question.extend_from_slice(&piece[..count]) {
            Ok(()) => None,
            Err(_) => Some(ReaderTurn::Gone),
        },
        Moved::Blocked => Some(ReaderTurn::Here),
        Moved::Closed | Moved::Failed => Some(ReaderTurn::Gone),
    }
}
