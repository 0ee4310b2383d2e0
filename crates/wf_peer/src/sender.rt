//! Who may send a message.
ghost use Rattle.std.specs.Prelude.{◌↔◌, IsTrue};
ghost use Rattle.wf_codec.specs.Message.{view};
ghost use Rattle.wf_peer.specs.Sender.{IsFrom};

use wf_ballot::NodeId;
use wf_codec::Message;

/// Whether the node may send the message: an answer names its sender, and a request's ballot is its
/// sender's. A Chosen or an Ask names nobody, so any node may send it.
pub fn is_from(message: &Message, node: NodeId) -> bool
    ensures { IsTrue result ↔ IsFrom node (view message.now) }
{
    match message {
        Message::Prepare(_, ballot) => ballot.node() == node,
        Message::Promise(sender, _, _) => *sender == node,
        Message::Accept(_, ballot, _) => ballot.node() == node,
        Message::Accepted(sender, _, _) => *sender == node,
        Message::Nack(sender, _, _, _) => *sender == node,
        Message::Chosen(_, _) => true,
        Message::Ask(_) => true,
    }
}
