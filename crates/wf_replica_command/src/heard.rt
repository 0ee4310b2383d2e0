//! The replies that a replica has heard.

ghost use Rattle.std.specs.Prelude.{◌≡◌, ◌∷◌, ◌++◌, []};
ghost use Rattle.wf_replica_command.specs.Conversation.{AreHeardOn, IsHeardOn, conversation_on, conversations_on};

use crate::asked::Asked;
use wf_past::Past;
use wf_reader::{Question, Reply};
use wf_sockets::Connection;

/// The replies that a replica has heard, which only proofs read: each one to a question that was
/// open, with that question; and the connection on which it came, as that was then, with the
/// questions that were replied to on it.
#[derive(Drop)]
pub(crate) struct HeardLog<C: Connection> {
    pub(crate) replies: Past<Reply, Asked>,
    pub(crate) connections: Past<C, Past<Question, Reply>>,
    ghost come: { ∥ AreHeardOn (conversations_on C.Connection connections.items) replies.items ∥₁ },
}

impl<C: Connection> HeardLog<C> {
    /// Nothing was heard yet.
    #[tactic(auto, using(crate::proofs::Conversing::none_heard_on))]
    pub(crate) fn new() -> HeardLog<C>
        ensures { result.replies.items ≡ [] }
    {
        HeardLog {
            replies: Past::new(),
            connections: Past::new(),
        }
    }

    /// Each reply came on its connection, always. The call does nothing.
    pub(crate) fn always_come(&self)
        ensures { ∥ AreHeardOn (conversations_on C.Connection self.now.connections.items)
            self.now.replies.items ∥₁ }
    {
        let _ = &self.replies;
    }

    /// A reply has come on a connection, on which these questions were replied to, the last one by
    /// it.
    #[tactic(auto, using(crate::proofs::Conversing::one_more_heard_on))]
    pub(crate) fn note(
        &mut self,
        reply: &Reply,
        asked: &Asked,
        connection: &C,
        replied: &Past<Question, Reply>,
    )
        requires { ∥ IsHeardOn (conversation_on C.Connection connection.now replied.now)
            reply.now asked.now.question ∥₁ }
        ensures { self.new.replies.items ≡ self.old.replies.items ++ (reply.now, asked.now) ∷ [] }
    {
        self.replies = self.replies.and(reply, asked);
        self.connections = self.connections.and(connection, replied);
    }
}
