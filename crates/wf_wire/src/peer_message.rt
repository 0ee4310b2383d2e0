//! A message that came from a peer.
ghost use Rattle.std.specs.Prelude.{◌≡◌};
ghost use Rattle.wf_codec.specs.Message.{view};
ghost use Rattle.wf_wire.specs.FromPeer.{HasComeFrom};

use wf_ballot::NodeId;
use wf_codec::Message;
use wf_mail::Receiver;
use wf_past::Past;

/// A message that came on a connection from a peer. A clause sees a log that only proofs read: the
/// peer's greeting, and the receiver as it was then, which tells of all bytes that had come.
#[derive(Drop)]
pub struct PeerMessage {
    pub(crate) message: Message,
    pub(crate) from: NodeId,
    pub(crate) stream: Past<Vec<u8>, Receiver>,
    ghost come: { ∥ HasComeFrom from stream.items (view message) ∥₁ },
}

impl PeerMessage {
    /// The message, the peer, and what had come on the connection.
    pub fn into_parts(self) -> (Message, NodeId, Past<Vec<u8>, Receiver>)
        ensures message { result.0 ≡ self.message }
        ensures from { result.1 ≡ self.from }
        ensures stream { result.2 ≡ self.stream }
        ensures come { ∥ HasComeFrom result.1 result.2.items (view result.0) ∥₁ }
    {
        let PeerMessage {
            message,
            from,
            stream,
        } = self;
        (message, from, stream)
    }

    /// The message.
    pub fn message(&self) -> &Message
        ensures { result.now ≡ self.now.message }
    {
        &self.message
    }

    /// The peer.
    pub fn from(&self) -> NodeId
        ensures { result ≡ self.now.from }
    {
        self.from
    }
}
