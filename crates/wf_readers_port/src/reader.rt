//! A reader's connection.
ghost use Rattle.std.specs.Prelude.{◌≡◌, ◌≤◌, ◌++◌, length};
ghost use Rattle.wf_client.specs.ResponseBuffer.{rest_of};
ghost use Rattle.wf_reader.specs.Question.{question_length};
ghost use Rattle.wf_readers_port.specs.Exchanges.{questions_of, replies_of};

use wf_client::Outgoing;
use wf_past::Past;
use wf_reader::QuestionRejection;
use wf_sockets::Connection;

/// A reader's connection: what has come of its question, what is to be written of the reply, and
/// when it asked last. A clause sees a log that only proofs read: each question that it asked, with
/// the reply. That is all that came on the connection and all that is sent on it.
#[derive(Drop)]
pub(crate) struct Reader<C: Connection> {
    pub(crate) connection: C,
    pub(crate) question: Vec<u8>,
    pub(crate) reply: Outgoing,
    pub(crate) exchanges: Past<Vec<u8>, Vec<u8>>,
    pub(crate) rejected: Option<QuestionRejection>,
    pub(crate) since: u64,
    ghost asked: { C.Connection.came connection
        ≡ questions_of exchanges.items ++ question.items },
    ghost replied: { C.Connection.sent connection ++ rest_of reply
        ≡ replies_of exchanges.items },
    ghost short: { length question.items ≤ question_length },
}
