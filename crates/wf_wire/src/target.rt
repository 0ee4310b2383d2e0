//! Whom a node's messages are for.

ghost use Rattle.std.specs.Prelude.{◌≡◌};
ghost use Rattle.wf_wire.specs.Target.{includes, reply_target};

use wf_ballot::NodeId;
use wf_codec::Message;

/// Whom messages are for. The model lets any node receive any message; this says who has a use for
/// them.
#[derive(Clone, Copy, Debug, PartialEq, Eq)]
pub enum Target {
    /// Every node, the sender too.
    Everyone,
    /// That node alone.
    Only(NodeId),
}

impl Target {
    /// Whether messages for this target are for the node of that number.
    pub fn includes(&self, node: usize) -> bool
        ensures { result ≡ includes self.now node }
    {
        match self {
            Target::Everyone => true,
            Target::Only(only) => usize::from(only.number()) == node,
        }
    }
}

/// Whom the messages are for that a node returns for a message. Its answer to a Prepare, an Accept
/// or an Ask is for the node that it comes from; what any other message makes it return is for
/// every node.
pub fn reply_target(message: &Message, from: NodeId) -> Target
    ensures { result ≡ reply_target message.now from }
{
    match message {
        Message::Prepare(_, _) | Message::Accept(_, _, _) | Message::Ask(_) => Target::Only(from),
        Message::Promise(_, _, _)
        | Message::Accepted(_, _, _)
        | Message::Nack(_, _, _, _)
        | Message::Chosen(_, _) => Target::Everyone,
    }
}
