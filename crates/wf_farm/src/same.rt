//! Equality of messages.

ghost use Rattle.std.specs.Prelude.{◌≡◌, ◌↔◌, IsTrue};
ghost use Rattle.wf_codec.specs.declared.message.Message.TheVariants.{Accept, Accepted, Ask, Chosen, Nack, Prepare, Promise};

use wf_ballot::{Ballot, NodeId, Slot};
use wf_codec::{Canon, Message, Report};

/// Whether the two messages are equal.
pub(crate) fn is_same_message(a: &Message, b: &Message) -> bool
    ensures { IsTrue result ↔ (a.now ≡ b.now) }
{
    match a {
        Message::Prepare(slot, ballot) => is_prepare(b, *slot, *ballot),
        Message::Promise(node, ballot, report) => is_promise(b, *node, *ballot, report),
        Message::Accept(slot, ballot, canon) => is_accept(b, *slot, *ballot, canon),
        Message::Accepted(node, slot, ballot) => is_accepted(b, *node, *slot, *ballot),
        Message::Nack(node, slot, ballot, promised) => {
            is_nack(b, *node, *slot, *ballot, *promised)
        }
        Message::Chosen(slot, canon) => is_chosen(b, *slot, canon),
        Message::Ask(slot) => is_ask(b, *slot),
    }
}

/// Whether it is the request to promise the ballot at the slot.
fn is_prepare(message: &Message, slot: Slot, ballot: Ballot) -> bool
    ensures { IsTrue result ↔ (Prepare slot ballot ≡ message.now) }
{
    match message {
        Message::Prepare(other, another) => slot == *other && ballot == *another,
        _ => false,
    }
}

/// Whether it is the node's promise of the ballot, with this report.
fn is_promise(message: &Message, node: NodeId, ballot: Ballot, report: &Report) -> bool
    ensures { IsTrue result ↔ (Promise node ballot report.now ≡ message.now) }
{
    match message {
        Message::Promise(other, another, third) => {
            node == *other && ballot == *another && is_same_report(report, third)
        }
        _ => false,
    }
}

/// Whether it is the request to vote for the definition at the slot and the ballot.
fn is_accept(message: &Message, slot: Slot, ballot: Ballot, canon: &Canon) -> bool
    ensures { IsTrue result ↔ (Accept slot ballot canon.now ≡ message.now) }
{
    match message {
        Message::Accept(other, another, third) => {
            slot == *other && ballot == *another && is_same(canon, third)
        }
        _ => false,
    }
}

/// Whether it is the node's vote at the slot and the ballot.
fn is_accepted(message: &Message, node: NodeId, slot: Slot, ballot: Ballot) -> bool
    ensures { IsTrue result ↔ (Accepted node slot ballot ≡ message.now) }
{
    match message {
        Message::Accepted(other, another, third) => {
            node == *other && slot == *another && ballot == *third
        }
        _ => false,
    }
}

/// Whether it is the node's rejection of the ballot at the slot, since it has promised the second
/// ballot there.
fn is_nack(message: &Message, node: NodeId, slot: Slot, ballot: Ballot, promised: Ballot) -> bool
    ensures { IsTrue result ↔ (Nack node slot ballot promised ≡ message.now) }
{
    match message {
        Message::Nack(other, another, third, fourth) => {
            node == *other && slot == *another && ballot == *third && promised == *fourth
        }
        _ => false,
    }
}

/// Whether it is the message that the definition is chosen at the slot.
fn is_chosen(message: &Message, slot: Slot, canon: &Canon) -> bool
    ensures { IsTrue result ↔ (Chosen slot canon.now ≡ message.now) }
{
    match message {
        Message::Chosen(other, another) => slot == *other && is_same(canon, another),
        _ => false,
    }
}

/// Whether it is the request for what is chosen from the slot on.
fn is_ask(message: &Message, slot: Slot) -> bool
    ensures { IsTrue result ↔ (Ask slot ≡ message.now) }
{
    match message {
        Message::Ask(other) => slot == *other,
        _ => false,
    }
}

/// Whether the two reports are equal.
fn is_same_report(a: &Report, b: &Report) -> bool
    ensures { IsTrue result ↔ (a.now ≡ b.now) }
{
    a.slot() == b.slot() && are_same_votes(a.votes(), b.votes())
}

/// Whether the two lists have equal votes.
fn are_same_votes(a: &[Option<(Ballot, Canon)>], b: &[Option<(Ballot, Canon)>]) -> bool
    ensures { IsTrue result ↔ (a.now ≡ b.now) }
{
    match (a, b) {
        ([], []) => true,
        ([vote, rest @ ..], [other, others @ ..]) => {
            is_same_vote(vote, other) && are_same_votes(rest, others)
        }
        ([], [_, ..]) | ([_, ..], []) => false,
    }
}

/// Whether the two votes are equal.
fn is_same_vote(a: &Option<(Ballot, Canon)>, b: &Option<(Ballot, Canon)>) -> bool
    ensures { IsTrue result ↔ (a.now ≡ b.now) }
{
    match (a, b) {
        (Some((ballot, canon)), Some((other, another))) => {
            ballot == other && is_same(canon, another)
        }
        (None, None) => true,
        (Some(_), None) | (None, Some(_)) => false,
    }
}

/// Whether the two definitions are equal.
fn is_same(a: &Canon, b: &Canon) -> bool
    ensures { IsTrue result ↔ (a.now ≡ b.now) }
{
    *a == *b
}
