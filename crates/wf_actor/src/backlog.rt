//! What waits in a process: messages for its own node, and posts to be given to others.

ghost use Rattle.std.specs.Prelude.{◌≡◌, ◌≤◌, ◌++◌, [], ◌∷◌, length, take, List, None, IfOk, IfSome};
ghost use Rattle.std.specs.Option.{option_to_list};
ghost use Rattle.std.specs.VecDeque.{deque_capacity};
ghost use Rattle.wf_actor.specs.Backlog.{most_messages};

use std::alloc::{AllocError, Global};
use std::collections::VecDeque;

/// The most messages that wait, and the most posts.
pub const BACKLOG_MESSAGES: usize = 256;

/// What waits in a process, the first one first: messages for its own node, or posts. Its room is
/// allocated once.
#[derive(Drop)]
pub struct Backlog<M> {
    pub(crate) messages: VecDeque<M>,
    ghost roomy: { most_messages ≤ deque_capacity messages },
    ghost bounded: { length messages.items ≤ most_messages },
}

impl<M: Drop> Backlog<M> {
    /// An empty one.
    pub(crate) fn new(alloc: Global) -> Result<Backlog<M>, AllocError>
        ensures { IfOk result (λ backlog. backlog.messages.items ≡ []) }
    {
        Ok(Backlog {
            messages: VecDeque::with_capacity(alloc, BACKLOG_MESSAGES)?,
        })
    }

    /// How many messages wait.
    pub fn len(&self) -> usize
        ensures { result ≡ length self.now.messages.items }
    {
        self.messages.len()
    }

    /// Appends the message; one for which there is no room is dropped.
    pub(crate) fn push(&mut self, message: M)
        ensures { self.new.messages.items ≡
            take most_messages (self.old.messages.items ++ message ∷ []) }
    {
        if self.messages.len() < BACKLOG_MESSAGES {
            // There is room, so nothing fails.
            let _ = self.messages.push_back(message);
        } else {
            drop(message);
        }
    }

    /// Appends the messages, in order, as far as there is room.
    pub(crate) fn extend(&mut self, messages: Vec<M>)
        ensures { self.new.messages.items ≡
            take most_messages (self.old.messages.items ++ messages.items) }
    {
        for message in messages {
            self.push(message);
        }
    }

    /// The first message.
    #[tactic(auto, using(crate::proofs::Fronts::front_is))]
    pub(crate) fn first(&self) -> Option<&M>
        ensures { IfSome result (λ m. (rest : List M) × (self.now.messages.items ≡ m.now ∷ rest)) }
    {
        self.messages.front()
    }

    /// Takes the first message out.
    pub(crate) fn pop(&mut self) -> Option<M>
        ensures items { self.old.messages.items ≡
            option_to_list result ++ self.new.messages.items }
        ensures none { result ≡ None → self.old.messages.items ≡ [] }
    {
        self.messages.pop_front()
    }
}
