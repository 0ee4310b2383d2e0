//! Deliveries to the nodes of a farm: those that a first map takes, and more than a list may have.
ghost use Rattle.std.specs.Prelude.{◌≡◌, ◌<◌, ◌≤◌, IfSome};

use crate::values::{MAP_A, slot};
use std::alloc::Global;
use wf_ballot::NodeId;
use wf_canon::Canon;
use wf_codec::Message;
use wf_delivery::{Pumped, deliver_all};
use wf_node::{Input, Node};
use wf_tape::MemoryTape;
use wf_test_calls::canon_of;
use wf_test_table::{Answered, CaseInput, CaseWords, Transcript, Unanswered};

/// Appends the result of deliveries.
fn write_pumped(pumped: Pumped, answer: &mut Transcript) {
    answer.count(pumped.deliveries);
    answer.text(" deliveries, ");
    answer.count(pumped.lost);
    answer.line(if pumped.stopped {
        " lost, stopped"
    } else {
        " lost"
    });
}

/// A new node of so many.
fn node(alloc: Global, number: u8, of: u8) -> Option<Node<MemoryTape>>
    requires number { number < of }
    requires of { of ≤ 64 }
    ensures id { IfSome result (λ node. node.id ≡ number) }
    ensures of { IfSome result (λ node. node.n ≡ of) }
{
    let id = NodeId::new(number)?;
    match Node::open(alloc, MemoryTape::new(Vec::new(alloc)), id, of) {
        Ok(node) => Some(node),
        Err(refused) => {
            drop(refused);
            None
        }
    }
}

/// The messages of a node that proposes a map; none if an allocation fails.
fn propose(alloc: Global, node: &mut Node<MemoryTape>, map: Canon) -> Vec<Message>
    ensures id { node.new.id ≡ node.old.id }
    ensures of { node.new.n ≡ node.old.n }
{
    match node.step(alloc, Input::Propose(map)) {
        Ok(outputs) => outputs,
        Err(_) => Vec::new(alloc),
    }
}

/// The result of delivering the messages, and whether each of the nodes has published one map then.
#[tactic(auto, using(crate::proofs::InTurn::three_in_turn))]
fn receive(
    alloc: Global,
    first: Node<MemoryTape>,
    second: Node<MemoryTape>,
    third: Node<MemoryTape>,
    messages: Vec<Message>,
) -> (Pumped, bool)
    requires first { first.id ≡ 0 }
    requires of_three { first.n ≡ 3 }
    requires second { second.id ≡ 1 }
    requires also_of_three { second.n ≡ 3 }
    requires third { third.id ≡ 2 }
    requires last_of_three { third.n ≡ 3 }
{
    let mut nodes = [first, second, third];
    let pumped = deliver_all(alloc, &mut nodes, messages);
    let published = nodes.iter().all(|node| node.published().number() == 1);
    drop(nodes);
    (pumped, published)
}

/// The result for a map that node 0 of three new ones proposes. None if an allocation fails.
fn published(alloc: Global, map: Canon) -> Option<(Pumped, bool)> {
    let Some(mut first) = node(alloc, 0, 3) else {
        drop(map);
        return None;
    };
    let prepare = propose(alloc, &mut first, map);
    let Some(second) = node(alloc, 1, 3) else {
        drop(first);
        drop(prepare);
        return None;
    };
    let Some(third) = node(alloc, 2, 3) else {
        drop(first);
        drop(second);
        drop(prepare);
        return None;
    };
    Some(receive(alloc, first, second, third, prepare))
}

/// `published_first`: each message is delivered to each node: the Prepare, three Promises, the
/// Accept, three Accepted and the Chosen.
pub(crate) fn published_first(asked: CaseInput<'_>, answer: &mut Transcript) -> Answered {
    match published(asked.alloc, canon_of(asked.alloc, MAP_A)?) {
        Some((pumped, is_published)) => {
            write_pumped(pumped, answer);
            answer.line(if is_published {
                "each node has one map"
            } else {
                "a node has none, or more"
            });
            Ok(())
        }
        None => Err(Unanswered::Memory),
    }
}

/// As many requests for the first definition, which no new node answers; fewer if an allocation
/// fails.
fn requests(alloc: Global, count: usize) -> Vec<Message> {
    let mut messages = Vec::new(alloc);
    if let Ok(first) = slot(1) {
        for _ in 0..count {
            if messages.push(Message::Ask(first)).is_err() {
                return messages;
            }
        }
    }
    messages
}

/// The result of delivering the messages to the only node of a farm.
#[tactic(auto, using(crate::proofs::InTurn::one_in_turn))]
fn receive_alone(alloc: Global, node: Node<MemoryTape>, messages: Vec<Message>) -> Pumped
    requires id { node.id ≡ 0 }
    requires alone { node.n ≡ 1 }
{
    let mut nodes = [node];
    let pumped = deliver_all(alloc, &mut nodes, messages);
    drop(nodes);
    pumped
}

/// `delivered`: 100,000 deliveries are made at most.
pub(crate) fn delivered(asked: CaseInput<'_>, answer: &mut Transcript) -> Answered {
    let count = CaseWords::of(asked.input)?.count()?;
    let Some(alone) = node(asked.alloc, 0, 1) else {
        return Err(Unanswered::Memory);
    };
    let messages = requests(asked.alloc, count);
    write_pumped(receive_alone(asked.alloc, alone, messages), answer);
    Ok(())
}
