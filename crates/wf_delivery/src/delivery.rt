//! Delivery of messages to nodes, over any kind of tape.

ghost use Rattle.std.specs.Prelude.{◌≡◌, ◌<◌, ◌≤◌, ◌+◌, ◌++◌, ℕ, false, true, List, [], length, IfOk, IfErr, OnErr, vec_len, vec_capacity};
ghost use Rattle.wf_codec.specs.Message.{view as view_message};
ghost use Rattle.wf_model.specs.Table.{most_reports, Deliver};
ghost use Rattle.wf_node.specs.Input.{view};
ghost use Rattle.wf_node.specs.Step.{TakesMemory};
ghost use Rattle.wf_delivery.specs.Delivery.{AnyPart, AreChanged, AreDelivered, AreHandedOut, EachGrows, ComeSoFar, IsDelivered, IsGiven, KeepHalted, MayLeaveOfEach, StandFor, StandInTurn};
ghost use Rattle.wf_delivery.specs.NodeInput.{Answers, IsCutWithin, IsSturdy, MayBeLost, Takes, is_halt, is_memory, reports_halt};
ghost use Rattle.wf_delivery.specs.Progress.{AreCounted, most_deliveries};

use crate::progress::{Delivered, MOST_DELIVERIES, PumpProgress, count_lost};
use crate::recipient::Recipient;
use std::alloc::{AllocError, Global};
use wf_codec::{Canon, Message};
use wf_model::transitions_are_short;
use wf_node::{Input, Node, NodeFault};
use wf_tape::Tape;

/// The most messages that one step sends: the answer to an Ask.
pub const MOST_OUTPUTS: usize = 8;

/// The result of delivering messages.
#[derive(Clone, Copy, Debug, PartialEq, Eq)]
pub struct Pumped {
    /// The number of deliveries made, lost ones included.
    pub deliveries: usize,
    /// The number of deliveries that an allocation failure lost: the node is then as if it hadn't
    /// received the message.
    pub lost: usize,
    /// Whether it stopped early: after 100,000 deliveries, or because no room could be reserved for
    /// the messages of the next one.
    pub stopped: bool,
}

/// Delivers each message once to each node, ascending, and likewise each message that a node sends
/// meanwhile, until none is left. Stops early after 100,000 deliveries, or if growing its own list
/// of messages fails. A delivery for which an allocation fails within the node, or before it, is
/// lost, as on a network, and counted; the deliveries go on. Only a message that has a definition
/// is lost, or one on which the node stores or sends something. A node whose tape fails is halted
/// and accepts no further delivery.
///
/// Node i of the slice must be node i of n, where n is its length; it may be empty. Whatever world
/// of the model the nodes and the messages were, at most `deliveries` deliveries lead to the world
/// that they are afterwards; a delivery at which a tape failed is a crash within a step. This holds
/// over any kind of tape; over a durable one also for whatever bytes a crash leaves of the tapes
/// that failed. A node keeps what it published.
pub fn deliver_all<T: Tape>(alloc: Global, nodes: &mut [Node<T>], messages: Vec<Message>) -> Pumped
    requires in_turn { StandInTurn nodes.old }
    ensures delivered { AreDelivered AnyPart result.deliveries nodes.old messages.items nodes.new }
    ensures on_tape { T.durable → (left : ℕ → List ℕ) → MayLeaveOfEach T.Tape nodes.new left →
        AreDelivered (StandFor left) result.deliveries nodes.old messages.items nodes.new }
    ensures handed { 0 < length nodes.old →
        AreHandedOut T.Tape nodes.old messages.items result.deliveries result.lost result.stopped
        nodes.new }
    ensures none { nodes.old ≡ [] → result ≡ record { deliveries = 0; lost = 0; stopped = false } }
    ensures halted { KeepHalted nodes.old nodes.new }
    ensures in_turn { StandInTurn nodes.new }
    ensures size { length nodes.new ≡ length nodes.old }
    ensures lists { EachGrows nodes.old nodes.new }
    ensures most { result.deliveries ≤ most_deliveries }
{
    if nodes.is_empty() {
        drop(messages);
        return Pumped {
            deliveries: 0,
            lost: 0,
            stopped: false,
        };
    }
    deliver_each(alloc, nodes, messages)
}

/// Delivers each message once to each entry, of which there is at least one, ascending, and
/// likewise each message that a node sends meanwhile, until none is left or the deliveries stop
/// early: [`deliver_all`] over whatever holds the nodes.
pub fn deliver_each<E: Recipient<T>, T: Tape>(
    alloc: Global,
    entries: &mut [E],
    messages: Vec<Message>,
) -> Pumped
    requires some { 0 < length entries.old }
    requires in_turn { StandInTurn (E.nodes entries.old) }
    ensures delivered { IsDelivered T.Tape (E.nodes entries.old) messages.items result.deliveries
        (E.nodes entries.new) }
    ensures handed { AreHandedOut T.Tape (E.nodes entries.old) messages.items result.deliveries
        result.lost result.stopped (E.nodes entries.new) }
    ensures changed { AreChanged E.keeps entries.old entries.new }
{
    let mut sent = messages;
    let Delivered { progress, lost } = deliver_rounds(alloc, entries, &mut sent);
    let stopped = progress.whole < sent.len();
    drop(sent);
    Pumped {
        deliveries: progress.done,
        lost,
        stopped,
    }
}

/// Delivers the messages, and those sent meanwhile, to each node in turn, until none is left, the
/// limit of deliveries is reached, or there is no room for the messages of the next one.
fn deliver_rounds<E: Recipient<T>, T: Tape>(
    alloc: Global,
    entries: &mut [E],
    sent: &mut Vec<Message>,
) -> Delivered
    requires some { 0 < length entries.old }
    requires in_turn { StandInTurn (E.nodes entries.old) }
    ensures come { ComeSoFar T.Tape (E.nodes entries.old) sent.old.items result.progress result.lost
        (E.nodes entries.new) sent.new.items }
    ensures counts { AreCounted (length entries.old) 0 result.progress result.lost
        (length sent.new.items) }
    ensures changed { AreChanged E.keeps entries.old entries.new }
{
    let round = entries.len();
    let mut progress = PumpProgress::start();
    let mut lost = 0;
    while progress.done < MOST_DELIVERIES {
        let number = progress.whole;
        if number >= sent.len() {
            return Delivered { progress, lost };
        }
        match deliver_one(alloc, entries, sent, progress.some, number) {
            Ok(loses) => {
                lost = count_lost(lost, loses);
                progress = progress.next(round);
            }
            Err(_) => return Delivered { progress, lost },
        }
    }
    Delivered { progress, lost }
}

/// Delivers a message to a node, and appends the messages that the node sends; returns whether the
/// delivery was lost. Room is reserved first, since a node can't undo a step; if that fails,
/// nothing is delivered.
fn deliver_one<E: Recipient<T>, T: Tape>(
    alloc: Global,
    entries: &mut [E],
    sent: &mut Vec<Message>,
    index: usize,
    number: usize,
) -> Result<bool, AllocError>
    requires index { index < length entries.old }
    requires number { number < length sent.old.items }
    requires in_turn { StandInTurn (E.nodes entries.old) }
    ensures given { IfOk result (λ lost. IsGiven T.Tape index number lost (E.nodes entries.old)
        sent.old.items (E.nodes entries.new) sent.new.items) }
    ensures none { OnErr result (entries.new ≡ entries.old) }
    ensures same { OnErr result (sent.new.items ≡ sent.old.items) }
    ensures changed { AreChanged E.keeps entries.old entries.new }
    ensures grows { length sent.old.items ≤ length sent.new.items }
{
    if sent.reserve(MOST_OUTPUTS).is_err() {
        return Err(AllocError);
    }
    let Outputs { messages, lost } = entries[index].receive(alloc, &sent[number]);
    send(sent, messages);
    Ok(lost)
}

/// What a node sends on an input.
pub struct Outputs {
    /// The messages.
    pub messages: Vec<Message>,
    /// The input was lost: an allocation failed.
    pub lost: bool,
}

/// Delivers a copy of a message to a node, and returns the messages that it sends. If the copy
/// can't be allocated, the message is lost and nothing is sent. A halted node gets no copy, so it
/// loses nothing.
pub fn hand<T: Tape>(alloc: Global, node: &mut Node<T>, message: &Message) -> Outputs
    ensures takes { Takes T.Tape result.lost (Deliver (view_message message.now)) node.old node.new
        result.messages.items }
    ensures cause { result.lost ≡ true → MayBeLost message.now node.old }
    ensures few { length result.messages.items ≤ most_reports }
    ensures sturdy { IsSturdy T.Tape node.old node.new }
{
    if is_halted(node) {
        return quiet(alloc, false);
    }
    match message.copy() {
        Ok(copy) => consume(alloc, node, Input::Deliver(copy)),
        Err(_) => quiet(alloc, true),
    }
}

/// Gives a node an input, and returns the messages that it sends: none if it rejects, if its tape
/// fails and it is halted, or if an allocation fails and the input is lost.
pub fn consume<T: Tape>(alloc: Global, node: &mut Node<T>, input: Input) -> Outputs
    ensures takes { Takes T.Tape result.lost (view input) node.old node.new result.messages.items }
    ensures cause { result.lost ≡ true → TakesMemory node.old (view input) }
    ensures few { length result.messages.items ≤ most_reports }
    ensures cut { T.durable → IsCutWithin T.Tape (view input) node.old node.new }
    ensures sturdy { IsSturdy T.Tape node.old node.new }
{
    match step(alloc, node, input) {
        Ok(messages) => Outputs {
            messages,
            lost: false,
        },
        Err(fault) => quiet(alloc, wants_memory(fault)),
    }
}

/// The outputs of a node that sends nothing, by whether its input was lost. Allocates nothing.
pub fn quiet(alloc: Global, lost: bool) -> Outputs
    ensures none { result.messages.items ≡ [] }
    ensures lost { result.lost ≡ lost }
{
    Outputs {
        messages: Vec::new(alloc),
        lost,
    }
}

/// Whether the error is allocation failure.
fn wants_memory(fault: NodeFault) -> bool
    ensures { result ≡ is_memory fault }
{
    match fault {
        NodeFault::Memory => true,
        NodeFault::Busy
        | NodeFault::SequenceFull
        | NodeFault::RoundsFull
        | NodeFault::Halted
        | NodeFault::TapeFailed
        | NodeFault::Nothing => false,
    }
}

/// Whether the node is halted. Allocates nothing.
pub fn is_halted<T: Tape>(node: &Node<T>) -> bool
    ensures { result ≡ node.now.halted }
{
    is_halt_reported(node.proposal_step_rejection())
}

/// Whether this is the rejection of a halted node.
fn is_halt_reported(step_rejection: Option<NodeFault>) -> bool
    ensures { result ≡ reports_halt step_rejection }
{
    match step_rejection {
        Some(fault) => sends_halt(fault),
        None => false,
    }
}

/// Whether the error is that of a halted node.
fn sends_halt(fault: NodeFault) -> bool
    ensures { result ≡ is_halt fault }
{
    match fault {
        NodeFault::Halted => true,
        NodeFault::Memory
        | NodeFault::Busy
        | NodeFault::SequenceFull
        | NodeFault::RoundsFull
        | NodeFault::TapeFailed
        | NodeFault::Nothing => false,
    }
}

/// Performs a step of a node. Returns the messages that it sends, or an error, after which it has
/// sent none.
fn step<T: Tape>(alloc: Global, node: &mut Node<T>, input: Input) -> Result<Vec<Message>, NodeFault>
    ensures answers { IfOk result (λ outputs.
        Answers T.Tape (view input) node.old node.new outputs.items) }
    ensures takes { IfErr result (λ fault.
        Takes T.Tape (is_memory fault) (view input) node.old node.new []) }
    ensures cause { IfErr result (λ fault.
        is_memory fault ≡ true → TakesMemory node.old (view input)) }
    ensures few { IfOk result (λ outputs. length outputs.items ≤ most_reports) }
    ensures cut { T.durable → IsCutWithin T.Tape (view input) node.old node.new }
    ensures sturdy { IsSturdy T.Tape node.old node.new }
{
    // Theorem of the model: no transition sends more than eight messages.
    transitions_are_short::<Canon>();
    node.step(alloc, input)
}

/// Appends the messages that a node sends to those sent before. There is room for them, so nothing
/// fails.
pub fn send(sent: &mut Vec<Message>, mut outputs: Vec<Message>)
    requires { vec_len sent.old + vec_len outputs ≤ vec_capacity sent.old }
    ensures { sent.new.items ≡ sent.old.items ++ outputs.items }
{
    let Ok(()) = sent.append(&mut outputs) else {
        unreachable!()
    };
}
