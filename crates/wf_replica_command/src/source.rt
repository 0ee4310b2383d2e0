//! What a turn of the connection to the source writes and reads.

ghost use Rattle.std.specs.Prelude.{◌≡◌, ◌++◌, ℕ, List, [], IfOk, IfSome, IsSome, None, OnErr, OnOk, true};
ghost use Rattle.wf_reader.specs.Question.{question_bytes};
ghost use Rattle.wf_reader.specs.Reply.{reply_bytes};
ghost use Rattle.wf_replica_command.specs.Conversation.{IsOneReply, bytes_taken, part_written};
ghost use Rattle.wf_replica_command.specs.Source.{IsLogged, IsOpenQuestion, IsOpenReply};

use crate::asked::Asked;
use crate::event::SourceEnd;
use crate::heard::HeardLog;
use crate::open_question::OpenQuestion;
use crate::source_connection::SourceConnection;
use std::alloc::{AllocError, Global};
use std::net::{Net, SocketAddr};
use wf_past::Past;
use wf_ports::FIRST_OWN;
use wf_reader::{Question, Reply, ReplyFault, decode_reply, reply_length};
use wf_sockets::{Connection, Moved, Network};

/// The token of the connection to the source.
const TOKEN: usize = FIRST_OWN;

/// The most bytes of a piece.
const PIECE_BYTES: usize = 16_384;

/// The most pieces that a turn reads.
const MOST_PIECES: usize = 64;

/// What came of a turn.
#[derive(Drop)]
pub(crate) enum SourceTurn<C: Connection> {
    /// Nothing new.
    Same(SourceConnection<C>),
    /// The reply to the question that was open.
    Replied(SourceConnection<C>, Question, Reply),
    /// The connection has ended.
    Ended(SourceEnd),
}

impl<C: Connection + Drop> SourceConnection<C> {
    /// A connection in progress, watched. None: the system rejects it.
    #[tactic(auto, using(crate::proofs::Conversing::nothing_asked, crate::proofs::Conversing::nothing_replied, crate::proofs::Conversing::none_read))]
    pub(crate) fn connect<R: Net, N: Network<Connection = C>>(
        rt: &R,
        alloc: Global,
        network: &N,
        address: SocketAddr,
    ) -> Option<Self> {
        let mut connection = network.connect(rt, address)?;
        connection.send_at_once();
        if network.watch(&mut connection, TOKEN) {
            Some(SourceConnection {
                connection,
                question: None,
                came: Vec::new(alloc),
                replied: Past::new(),
            })
        } else {
            None
        }
    }

    /// Asks a question, as soon as the connection takes it. While one is open, it stays so, and no
    /// other is asked. The only error is allocation failure: nothing is asked then.
    #[tactic(auto, using(crate::proofs::Conversing::nothing_written))]
    pub(crate) fn ask(&mut self, alloc: Global, question: &Question) -> Result<(), AllocError>
        ensures ok { self.old.question ≡ None →
            OnOk result (IsOpenQuestion question.now self.new.question) }
        ensures open { IsSome self.old.question → self.new ≡ self.old }
        ensures err { OnErr result (self.new ≡ self.old) }
    {
        if self.question.is_none() {
            self.question = Some(OpenQuestion::new(alloc, question)?);
        }
        Ok(())
    }

    /// Writes what is left of the question, and reads what came of its reply. Whatever comes while
    /// no question is open ends the connection, which is closed then. The reply is logged, with
    /// this number of the source.
    #[tactic(auto, using(crate::proofs::Conversing::replied_next, crate::proofs::Conversing::asked_next, crate::proofs::Conversing::read_next, crate::proofs::Conversing::heard_on))]
    pub(crate) fn on_ready<N: Network<Connection = C>>(
        self,
        alloc: Global,
        network: &N,
        source: usize,
        heard: &mut HeardLog<C>,
    ) -> SourceTurn<C>
        ensures logged { IsLogged source result heard.old.replies.items heard.new.replies.items }
        ensures reply { IsOpenReply result self.question }
    {
        let SourceConnection {
            mut connection,
            question,
            mut came,
            replied,
        } = self;
        let Some(mut asked) = question else {
            return match read_unasked(&mut connection) {
                Some(why) => SourceTurn::Ended(why),
                None => SourceTurn::Same(SourceConnection {
                    connection,
                    question: None,
                    came,
                    replied,
                }),
            };
        };
        match converse(alloc, network, &mut connection, &mut asked, &mut came) {
            Ok(None) => SourceTurn::Same(SourceConnection {
                connection,
                question: Some(asked),
                came,
                replied,
            }),
            Ok(Some(reply)) => {
                let question = asked.question();
                drop(asked);
                let replied = replied.and(&question, &reply);
                let asked = Asked { source, question };
                heard.note(&reply, &asked, &connection, &replied);
                let source = SourceConnection {
                    connection,
                    question: None,
                    came,
                    replied,
                };
                SourceTurn::Replied(source, question, reply)
            }
            Err(why) => SourceTurn::Ended(why),
        }
    }
}

/// Reads what came while no question is open. Returns why the connection has ended, if it has.
fn read_unasked<C: Connection>(connection: &mut C) -> Option<SourceEnd>
    ensures came { result ≡ None → C.came connection.new ≡ C.came connection.old }
    ensures sent { C.sent connection.new ≡ C.sent connection.old }
{
    let mut piece = [0u8; 1];
    match connection.read(&mut piece) {
        Moved::Bytes(_) => Some(SourceEnd::Unasked),
        Moved::Blocked => None,
        Moved::Closed => Some(SourceEnd::Closed),
        Moved::Failed => Some(SourceEnd::Failed),
    }
}

/// Writes what is left of a question, and reads what came of its reply, which is taken in behind
/// what came before. None: more is needed. A reply comes only once the question is written.
fn converse<N: Network>(
    alloc: Global,
    network: &N,
    connection: &mut N::Connection,
    asked: &mut OpenQuestion,
    came: &mut Vec<u8>,
) -> Result<Option<Reply>, SourceEnd>
    ensures question { asked.new.question ≡ asked.old.question }
    ensures sent { (front : List ℕ) →
        N.Connection.sent connection.old ≡ front ++ part_written asked.old →
        N.Connection.sent connection.new ≡ front ++ part_written asked.new }
    ensures received { IfOk result (λ taken. (front : List ℕ) →
        N.Connection.came connection.old ≡ front ++ came.old.items →
        N.Connection.came connection.new ≡ front ++ (bytes_taken taken ++ came.new.items)) }
    ensures written { IfOk result (λ taken. IfSome taken (λ _.
        part_written asked.new ≡ question_bytes asked.new.question)) }
    ensures one { IfOk result (λ taken. IfSome taken IsOneReply) }
    ensures none { IfOk result (λ taken. IfSome taken (λ _. came.new.items ≡ [])) }
{
    match send(connection, asked) {
        Some(why) => Err(why),
        None => receive(alloc, network, connection, asked, came),
    }
}

/// Reads what came of a reply to a question, which is taken in behind what came before. None: more
/// is needed.
#[tactic(auto, using(crate::proofs::Conversing::piece_taken, crate::proofs::Conversing::none_moved))]
fn receive<N: Network>(
    alloc: Global,
    network: &N,
    connection: &mut N::Connection,
    asked: &OpenQuestion,
    came: &mut Vec<u8>,
) -> Result<Option<Reply>, SourceEnd>
    ensures sent { N.Connection.sent connection.new ≡ N.Connection.sent connection.old }
    ensures received { IfOk result (λ taken. (front : List ℕ) →
        N.Connection.came connection.old ≡ front ++ came.old.items →
        N.Connection.came connection.new ≡ front ++ (bytes_taken taken ++ came.new.items)) }
    ensures written { IfOk result (λ taken. IfSome taken (λ _.
        part_written asked.now ≡ question_bytes asked.now.question)) }
    ensures one { IfOk result (λ taken. IfSome taken IsOneReply) }
    ensures none { IfOk result (λ taken. IfSome taken (λ _. came.new.items ≡ [])) }
{
    let mut piece = [0u8; PIECE_BYTES];
    for _ in 0..MOST_PIECES {
        match connection.read(&mut piece) {
            Moved::Bytes(count) => {
                // There is no reply to a question that isn't written yet.
                if !asked.is_written() {
                    return Err(SourceEnd::Unasked);
                }
                match take_in(alloc, came, &piece[..count]) {
                    Ok(None) => {}
                    Ok(Some(reply)) => return Ok(Some(reply)),
                    Err(why) => return Err(why),
                }
            }
            Moved::Blocked => return Ok(None),
            Moved::Closed => return Err(SourceEnd::Closed),
            Moved::Failed => return Err(SourceEnd::Failed),
        }
    }
    let _ = network.watch(connection, TOKEN);
    Ok(None)
}

/// Writes what is left of a question. Returns why the connection has ended, if it has.
#[tactic(auto, using(crate::proofs::Conversing::more_written, crate::proofs::Conversing::none_moved, crate::proofs::Conversing::within_rest))]
fn send<C: Connection>(connection: &mut C, asked: &mut OpenQuestion) -> Option<SourceEnd>
    ensures question { asked.new.question ≡ asked.old.question }
    ensures came { C.came connection.new ≡ C.came connection.old }
    ensures sent { (front : List ℕ) →
        C.sent connection.old ≡ front ++ part_written asked.old →
        C.sent connection.new ≡ front ++ part_written asked.new }
{
    for _ in 0..u64::MAX {
        if asked.is_written() {
            return None;
        }
        match connection.write(asked.rest()) {
            Moved::Bytes(count) => asked.advance(count),
            Moved::Blocked => return None,
            Moved::Closed => return Some(SourceEnd::Closed),
            Moved::Failed => return Some(SourceEnd::Failed),
        }
    }
    None
}

/// Takes in bytes of a reply, behind those that came before. None: more are needed.
#[tactic(auto, using(crate::proofs::Conversing::whole_taken))]
fn take_in(alloc: Global, came: &mut Vec<u8>, piece: &[u8]) -> Result<Option<Reply>, SourceEnd>
    ensures taken { IfOk result (λ taken.
        bytes_taken taken ++ came.new.items ≡ came.old.items ++ piece.now) }
    ensures one { IfOk result (λ taken. IfSome taken IsOneReply) }
    ensures none { IfOk result (λ taken. IfSome taken (λ _. came.new.items ≡ [])) }
{
    if came.extend_from_slice(piece).is_err() {
        return Err(SourceEnd::BadReply(ReplyFault::Memory));
    }
    match reply_in(alloc, came) {
        Ok(reply) => {
            *came = Vec::new(alloc);
            Ok(Some(reply))
        }
        Err(ReplyFault::Short) => Ok(None),
        Err(fault) => Err(SourceEnd::BadReply(fault)),
    }
}

/// The reply that bytes are. `Short`: more are needed. More bytes than a reply are malformed, since
/// a question has one.
#[tactic(auto, using(crate::proofs::Conversing::one_reply))]
fn reply_in(alloc: Global, bytes: &[u8]) -> Result<Reply, ReplyFault>
    ensures bytes { IfOk result (λ reply. bytes.now ≡ reply_bytes reply) }
    ensures one { IfOk result IsOneReply }
{
    let length = reply_length(bytes)?;
    if bytes.len() < length {
        return Err(ReplyFault::Short);
    }
    decode_reply(alloc, bytes)
}
