//! The connection to the source that is asked.

ghost use Rattle.std.specs.Prelude.{◌≡◌, ◌++◌};
ghost use Rattle.wf_replica_command.specs.Conversation.{AreReadReplies, asked_bytes, part_asked, replied_bytes};

use crate::open_question::OpenQuestion;
use wf_past::Past;
use wf_reader::{Question, Reply};
use wf_sockets::Connection;

/// The connection to a source: the question that has no reply yet, and what has come of its reply.
/// A clause sees a log that only proofs read: each question that was replied to on the connection,
/// with the reply. With what is open, that is all that was sent on it and all that came.
#[derive(Drop)]
pub(crate) struct SourceConnection<C: Connection> {
    pub(crate) connection: C,
    pub(crate) question: Option<OpenQuestion>,
    pub(crate) came: Vec<u8>,
    pub(crate) replied: Past<Question, Reply>,
    ghost asked: { C.Connection.sent connection
        ≡ asked_bytes replied.items ++ part_asked question },
    ghost received: { C.Connection.came connection ≡ replied_bytes replied.items ++ came.items },
    ghost read: { ∥ AreReadReplies replied.items ∥₁ },
}
