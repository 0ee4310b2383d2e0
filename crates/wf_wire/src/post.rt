//! Messages that a node returned, on their way to those that they are for.
ghost use Rattle.std.specs.Prelude.{◌≡◌};
ghost use Rattle.wf_wire.specs.Post.{AreAmong, logged};

use crate::target::Target;
use wf_codec::Message;
use wf_past::Past;

/// Messages that a node returned, and whom they are for. A clause sees a log that only proofs read:
/// all messages that the node had returned by then.
#[derive(Drop)]
pub struct Post {
    pub(crate) messages: Vec<Message>,
    pub(crate) target: Target,
    pub(crate) returned: Past<Vec<Message>, usize>,
    ghost among: { ∥ AreAmong messages.items (logged returned.items) ∥₁ },
}

impl Post {
    /// Messages that a node returned, of which the log has all.
    pub fn new(messages: Vec<Message>, target: Target, returned: Past<Vec<Message>, usize>) -> Post
        requires { ∥ AreAmong messages.items (logged returned.items) ∥₁ }
        ensures messages { result.messages ≡ messages }
        ensures target { result.target ≡ target }
        ensures returned { result.returned.items ≡ returned.items }
    {
        Post {
            messages,
            target,
            returned,
        }
    }

    /// The messages.
    pub fn messages(&self) -> &[Message]
        ensures { result.now ≡ self.now.messages.items }
    {
        self.messages.as_slice()
    }

    /// Whom they are for.
    pub fn target(&self) -> &Target
        ensures { result.now ≡ self.now.target }
    {
        &self.target
    }

    /// The messages, which nobody else is to be given.
    pub fn into_messages(self) -> Vec<Message>
        ensures same { result ≡ self.messages }
        ensures among { ∥ AreAmong result.items (logged self.returned.items) ∥₁ }
    {
        let Post {
            messages,
            target: _,
            returned,
        } = self;
        drop(returned);
        messages
    }
}
