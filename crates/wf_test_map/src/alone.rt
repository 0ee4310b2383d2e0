//! Requests to a node that hears its own messages, as the only node of a farm does.
use crate::exchange::Exchange;
use crate::published::open;
use crate::requests_in_turn::write_served;
use std::alloc::Global;
use std::mem::replace;
use wf_codec::Message;
use wf_node::{Input, Node, NodeFault};
use wf_tape::Tape;
use wf_test_table::{Answered, CaseInput, Transcript, Unanswered};

/// How many messages follow one another from a map on until it is published, each the answer to the
/// one before: Prepare, Promise, Accept, Accepted and Chosen.
const MESSAGES: usize = 5;

/// Appends, for each request, what becomes of it, what is written and what is sent, which the node
/// then hears. The node of the words is on an empty tape.
pub(crate) fn serve_alone(mut asked: CaseInput<'_>, answer: &mut Transcript) -> Answered {
    match open(&mut asked) {
        Ok(mut node) => {
            let reported = serve_each(asked, &mut node, answer);
            drop(node);
            reported
        }
        Err(unanswered) => Err(unanswered),
    }
}

fn serve_each<T: Tape>(
    asked: CaseInput<'_>,
    node: &mut Node<T>,
    answer: &mut Transcript,
) -> Answered {
    let way = Exchange::read(asked.words)?;
    for request in asked.input.split(|byte| *byte == 0) {
        serve_and_receive(asked.alloc, node, way, request, answer)?;
    }
    Ok(())
}

fn serve_and_receive<T: Tape>(
    alloc: Global,
    node: &mut Node<T>,
    way: Exchange,
    request: &[u8],
    answer: &mut Transcript,
) -> Answered {
    match write_served(alloc, node, way, request, answer) {
        Ok(messages) => receive_own(alloc, node, messages),
        Err(unanswered) => Err(unanswered),
    }
}

// The node hears the first of the messages, and the first of its answers in turn.
fn receive_own<T: Tape>(alloc: Global, node: &mut Node<T>, messages: Vec<Message>) -> Answered {
    let mut messages = messages;
    for _ in 0..MESSAGES {
        match answers_to_first(alloc, node, &messages) {
            Ok(answers) => drop(replace(&mut messages, answers)),
            Err(unanswered) => {
                drop(messages);
                return Err(unanswered);
            }
        }
    }
    drop(messages);
    Ok(())
}

fn answers_to_first<T: Tape>(
    alloc: Global,
    node: &mut Node<T>,
    messages: &[Message],
) -> Result<Vec<Message>, Unanswered> {
    let Some(message) = messages.first() else {
        return Ok(Vec::new(alloc));
    };
    match node.step(alloc, Input::Deliver(message.copy()?)) {
        Ok(answers) => Ok(answers),
        Err(NodeFault::Memory) => Err(Unanswered::Memory),
        Err(_) => Err(Unanswered::BadWords),
    }
}
