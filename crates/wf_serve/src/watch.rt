//! What becomes of proposals and tapes, for the log.

use crate::event::ServeEvent;
use std::alloc::Global;
use std::time::Clock;
use wf_edge::Outcome;
use wf_farm::Farm;
use wf_node::{Node, NodeFault};
use wf_proposer::ProposalState;
use wf_tape::Tape;
use wf_visitors::Log;

/// How a request to publish begins.
const PUBLISH: &[u8] = b"POST /publish";

/// The status of an accepted request to publish.
const ACCEPTED: u16 = 202;

/// What was last seen of a node: the sequence that its map was published as, the one under which
/// another was, 0 if there is none, and whether its tape has failed.
#[derive(Clone, Copy)]
struct Seen {
    published: u16,
    overtaken: u16,
    is_halted: bool,
}

/// Watches the nodes of a farm, and writes to its log what becomes of their proposals and tapes.
#[derive(Drop)]
pub(crate) struct Watch<'a, 'b, R> {
    log: &'b Log<'a, R>,
    // None of a farm without a log, and where an allocation failed
    seen: Vec<Seen>,
}

impl<'a, 'b, R: Clock + Eprint> Watch<'a, 'b, R> {
    /// Watches the nodes from now on, if the log is on and memory suffices.
    pub(crate) fn new<T: Tape>(alloc: Global, log: &'b Log<'a, R>, farm: &Farm<T>) -> Self {
        let mut seen = Vec::new(alloc);
        if log.is_on() {
            for number in 0..farm.size() {
                if let Some(node) = farm.node(number) {
                    let _ = seen.push(observe(node));
                }
            }
        }
        Watch { log, seen }
    }

    /// Writes what has become of the nodes since they were last seen.
    pub(crate) fn look<T: Tape>(&mut self, farm: &Farm<T>) {
        look_at(self.log, self.seen.as_mut_slice(), farm);
    }

    /// Writes how a request to publish was answered by a node, by the first bytes of the request
    /// and of the response.
    pub(crate) fn receive(&self, node: usize, outcome: Outcome, request: &[u8], response: &[u8]) {
        if !request.starts_with(PUBLISH) {
            return;
        }
        if let Outcome::Sent(status, _) | Outcome::WriteFailed(status, _) = outcome {
            let answer = body_of(response);
            if status == ACCEPTED {
                self.log.write(&ServeEvent::Proposed { node, answer });
            } else {
                self.log.write(&ServeEvent::Rejected {
                    node,
                    status,
                    answer,
                });
            }
        }
    }
}

/// Writes the last sequence that each node has published, once all have caught up.
pub(crate) fn write_caught_up<R: Clock + Eprint, T: Tape>(log: &Log<'_, R>, farm: &Farm<T>) {
    for number in 0..farm.size() {
        if let Some(node) = farm.node(number) {
            log.write(&ServeEvent::CaughtUp {
                node: number,
                published: node.published().number(),
            });
        }
    }
}

/// Writes what has become of the nodes since they were last seen.
fn look_at<R: Clock + Eprint, T: Tape>(log: &Log<'_, R>, seen: &mut [Seen], farm: &Farm<T>) {
    for number in 0..seen.len() {
        if let Some(node) = farm.node(number) {
            let now = observe(node);
            write_change(log, number, &seen[number], &now);
            seen[number] = now;
        }
    }
}

/// What is seen of a node.
fn observe<T: Tape>(node: &Node<T>) -> Seen {
    let is_halted = matches!(node.proposal_step_rejection(), Some(NodeFault::Halted));
    let (published, overtaken) = match node.proposal() {
        ProposalState::Published(slot) => (slot.number(), 0),
        ProposalState::Overtaken(slot) => (0, slot.number()),
        ProposalState::None | ProposalState::Running => (0, 0),
    };
    Seen {
        published,
        overtaken,
        is_halted,
    }
}

/// Writes what has become of a node.
fn write_change<R: Clock + Eprint>(log: &Log<'_, R>, node: usize, before: &Seen, now: &Seen) {
    if now.is_halted && !before.is_halted {
        log.write(&ServeEvent::Halted { node });
    }
    if now.published != 0 && now.published != before.published {
        log.write(&ServeEvent::Published {
            node,
            sequence: now.published,
        });
    }
    if now.overtaken != 0 && now.overtaken != before.overtaken {
        log.write(&ServeEvent::Overtaken {
            node,
            sequence: now.overtaken,
        });
    }
}

/// The line in the body of a response.
fn body_of(response: &[u8]) -> &str {
    match str::from_utf8(response) {
        Ok(text) => match text.split_once("\r\n\r\n") {
            Some((_, body)) => body.strip_suffix('\n').unwrap_or(body),
            None => "",
        },
        Err(_) => "",
    }
}
