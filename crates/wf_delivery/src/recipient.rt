//! What messages are delivered to: nodes that a caller holds, or whatever holds them.

ghost use Rattle.std.specs.Prelude.{◌≡◌, ◌≤◌, ℕ, true, List, length, slice_get, slice_set, Some, refl};
ghost use Rattle.wf_codec.specs.Message.{view as view_message};
ghost use Rattle.wf_delivery.specs.NodeInput.{MayBeLost, Takes};
ghost use Rattle.wf_model.specs.Table.{most_reports, Deliver};
ghost use Rattle.wf_node.specs.Node.{Node};

use crate::delivery::{Outputs, hand};
use std::alloc::Global;
use wf_codec::Message;
use wf_node::Node;
use wf_tape::Tape;

/// What one loop delivers messages to: a node, or an entry that holds one, whose node may be
/// stopped.
pub trait Recipient<T: Tape> {
    /// The entry as node i of n.
    ghost node: { ℕ → ℕ → Self → Node T };

    /// The entries as nodes, each at its index.
    ghost nodes: { List Self → List (Node T) };

    /// What stays the same of an entry that a message is delivered to.
    ghost keeps: { Self → Self → Type 0 };

    /// Delivers a copy of a message to the node, and returns the messages that it sends. A stopped
    /// node takes and sends nothing, and loses nothing.
    fn receive(&mut self, alloc: Global, message: &Message) -> Outputs
        ensures takes { (n : ℕ) (i : ℕ) → Takes T.Tape result.lost
            (Deliver (view_message message.now)) (node n i self.old) (node n i self.new)
            result.messages.items }
        ensures cause { (n : ℕ) (i : ℕ) → result.lost ≡ true →
            MayBeLost message.now (node n i self.old) }
        ensures few { length result.messages.items ≤ most_reports }
        ensures keeps { keeps self.old self.new };

    ghost as_many: { (entries : List Self) → length (nodes entries) ≡ length entries };

    ghost get: { (entries : List Self) (i : ℕ) (entry : Self) → slice_get entries i ≡ Some entry →
        slice_get (nodes entries) i ≡ Some (node (length entries) i entry) };

    ghost set: { (entries : List Self) (i : ℕ) (entry : Self) →
        nodes (slice_set entries i entry) ≡ slice_set (nodes entries) i (node (length entries) i entry) };
}

impl<T: Tape> Recipient<T> for Node<T> {
    ghost node = { λ _ _ node. node };

    ghost nodes = { λ nodes. nodes };

    ghost keeps = { λ _ _. Unit {0} };

    ghost as_many = { λ _. refl };

    ghost get = { λ _ _ _ at. at };

    ghost set = { λ _ _ _. refl };

    fn receive(&mut self, alloc: Global, message: &Message) -> Outputs {
        hand(alloc, self, message)
    }
}
