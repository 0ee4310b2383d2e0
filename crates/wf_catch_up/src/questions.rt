//! Nodes that are behind catch up, over any kind of tape.

ghost use Rattle.std.specs.Prelude.{◌≡◌, ◌⊎◌, ◌<◌, ◌≤◌, ◌+◌, ◌||◌, ℕ, [], false, true, is_err, length, map, IfOk, OnErr, OnOk, Some};
ghost use Rattle.wf_ballot.specs.Sequence.{last_sequence};
ghost use Rattle.wf_codec.specs.Message.{view};
ghost use Rattle.wf_model.specs.Table.{most_reports, reports_from};
ghost use Rattle.wf_catch_up.specs.CatchUp.{AreCaughtUp, BringsOn, CatchUpIsReachable, EndsUp, FirstEndUp, HasReceived, HasMost, HaveAsked, HaveCaughtUp, ReceivesAt, AreAnswersTo, IsBehind, IsOneQuestion, IsDeliveryTaken, LevelRests, OneChanges, StandLevel, rank, rank_at};
ghost use Rattle.wf_delivery.specs.NodeInput.{IsSturdy};
ghost use Rattle.wf_delivery.specs.Reachability.{AreReachableFrom};
ghost use Rattle.wf_farm.specs.Nodes.{KeepEntries, KeepHosts, RunsAt, node_in, nodes_in, nodes_of};
ghost use Rattle.wf_delivery.specs.Delivery.{StandInTurn};

use std::alloc::{AllocError, Global};
use wf_codec::Message;
use wf_delivery::{Outputs, hand, is_halted};
use wf_farm::{Farm, FarmClient, NodeHost};
use wf_node::Node;
use wf_tape::Tape;

/// Nodes that catch up are led on, and nodes that stand level stay as they are. A theorem: the call
/// does nothing.
pub fn a_catch_up_is_reachable<T: Tape>()
    ensures reachable { CatchUpIsReachable T.Tape }
    ensures rests { LevelRests T.Tape }
{}

/// Lets each node of a farm that is behind catch up. It asks one that has published the most for
/// the definitions after its last one, and that one answers with at most eight, to it alone; it
/// asks again until it has them all, or its tape fails and it is halted. Afterwards all nodes that
/// run have published equally many. If none was behind, no node is asked. All messages are
/// forgotten, those sent before too.
///
/// Err: an allocation failed, and the node that it failed for is behind still. The other nodes have
/// caught up, if none failed for them.
pub fn catch_up<T: Tape>(alloc: Global, farm: &mut Farm<T>) -> Result<(), AllocError>
    ensures caught { HaveCaughtUp T.Tape (nodes_in farm.old) (is_err result) (nodes_in farm.new) }
    ensures level { OnOk result (StandLevel (nodes_in farm.new)) }
    ensures behind { OnErr result (StandLevel (nodes_in farm.new) → ⊥) }
    ensures reachable { AreReachableFrom T.Tape (nodes_in farm.old) (nodes_in farm.new) }
    ensures kept { KeepHosts farm.old.hosts farm.new.hosts }
    ensures forgets { farm.new ≡ record farm.old {
      hosts = farm.new.hosts;
      sent = [];
      pumped = 0;
      complete = false;
    } }
{
    let mut questions = CatchUpClient { lost: false };
    farm.change(alloc, &mut questions);
    outcome(questions.lost)
}

/// The questions of the nodes that are behind.
#[derive(Clone, Copy)]
struct CatchUpClient {
    // A delivery was lost to an allocation failure.
    lost: bool,
}

impl<T: Tape> FarmClient<T> for CatchUpClient {
    ghost changes = { λ _ nodes nodes_after questions.
        AreCaughtUp T.Tape nodes questions.lost nodes_after };

    fn change(&mut self, alloc: Global, hosts: &mut [NodeHost<T>]) {
        self.lost = catch_up_in(alloc, hosts);
    }
}

/// An error if a delivery was lost to an allocation failure.
fn outcome(lost: bool) -> Result<(), AllocError>
    ensures { is_err result ≡ lost }
{
    if lost { Err(AllocError) } else { Ok(()) }
}

/// Lets each node that is behind catch up; returns whether a delivery was lost.
fn catch_up_in<T: Tape>(alloc: Global, hosts: &mut [NodeHost<T>]) -> bool
    requires some { 0 < length hosts.old }
    requires in_turn { StandInTurn (nodes_of hosts.old) }
    ensures caught { AreCaughtUp T.Tape (nodes_of hosts.old) result (nodes_of hosts.new) }
    ensures reachable { AreReachableFrom T.Tape (nodes_of hosts.old) (nodes_of hosts.new) }
    ensures entries { KeepEntries T.Tape hosts.old hosts.new }
{
    let asked = furthest(hosts);
    ask_each(alloc, hosts, asked)
}

/// The index of a node than which none has come further.
fn furthest<T: Tape>(hosts: &[NodeHost<T>]) -> usize
    requires some { 0 < length hosts.now }
    ensures within { result < length hosts.now }
    ensures most { HasMost (nodes_of hosts.now) result }
{
    let mut most = 0;
    for number in 0..hosts.len() {
        most = further(hosts, most, number);
    }
    most
}

/// Which of two nodes has come further.
fn further<T: Tape>(hosts: &[NodeHost<T>], first: usize, second: usize) -> usize
    requires first { first < length hosts.now }
    requires second { second < length hosts.now }
    ensures within { result < length hosts.now }
    ensures first { rank_at (nodes_of hosts.now) first ≤ rank_at (nodes_of hosts.now) result }
    ensures second { rank_at (nodes_of hosts.now) second ≤ rank_at (nodes_of hosts.now) result }
{
    if rank_at(hosts, second) > rank_at(hosts, first) {
        second
    } else {
        first
    }
}

/// Lets each node ask the one at an index, as long as it is behind that one; returns whether a
/// delivery was lost.
fn ask_each<T: Tape>(alloc: Global, hosts: &mut [NodeHost<T>], asked: usize) -> bool
    requires most { HasMost (nodes_of hosts.old) asked }
    ensures have_asked { HaveAsked T.Tape asked (nodes_of hosts.old) result
        (nodes_of hosts.new) }
    ensures ends { FirstEndUp asked (length hosts.old) result (nodes_of hosts.new) }
    ensures entries { KeepEntries T.Tape hosts.old hosts.new }
{
    let mut lost = false;
    for requester in 0..hosts.len() {
        lost = either(lost, ask_while_behind(alloc, hosts, asked, requester));
    }
    lost
}

/// Whether one of the two holds.
fn either(a: bool, b: bool) -> bool
    ensures { result ≡ (a || b) }
{
    a || b
}

/// Lets a node ask the one at an index, as long as it is behind that one; returns whether a
/// delivery was lost, after which it asks no more.
fn ask_while_behind<T: Tape>(
    alloc: Global,
    hosts: &mut [NodeHost<T>],
    asked: usize,
    requester: usize,
) -> bool
    requires within { rank_at (nodes_of hosts.old) requester ≤ rank_at (nodes_of hosts.old) asked }
    ensures have_asked { HaveAsked T.Tape asked (nodes_of hosts.old) result
        (nodes_of hosts.new) }
    ensures one { OneChanges asked requester (nodes_of hosts.old) (nodes_of hosts.new) }
    ensures ends { EndsUp asked requester result (nodes_of hosts.new) }
    ensures entries { KeepEntries T.Tape hosts.old hosts.new }
{
    while is_behind(hosts, asked, requester) {
        if ask(alloc, hosts, asked, requester) {
            return true;
        }
    }
    false
}

/// Whether a node runs and is behind another.
fn is_behind<T: Tape>(hosts: &[NodeHost<T>], asked: usize, requester: usize) -> bool
    ensures behind { result ≡ true → IsBehind (nodes_of hosts.now) asked requester }
    ensures level { result ≡ false → rank_at (nodes_of hosts.now) requester ≡ 0
        ⊎ (rank_at (nodes_of hosts.now) asked ≤ rank_at (nodes_of hosts.now) requester) }
{
    let rank = rank_at(hosts, requester);
    0 < rank && rank < rank_at(hosts, asked)
}

/// How far the node of a number has come: 0 if it doesn't run, or its tape has failed; otherwise
/// one more than the number of maps that it published.
fn rank_at<T: Tape>(hosts: &[NodeHost<T>], number: usize) -> usize
    ensures { result ≡ rank_at (nodes_of hosts.now) number }
{
    match hosts.get(number) {
        Some(host) => rank_in(host),
        None => 0,
    }
}

/// How far the node in an entry has come.
fn rank_in<T: Tape>(host: &NodeHost<T>) -> usize
    ensures { (n : ℕ) (i : ℕ) → result ≡ rank (Some (node_in n i host.now)) }
{
    match host {
        NodeHost::Running(node) => rank_of(node),
        NodeHost::Stopped(_) => 0,
    }
}

/// How far a node has come.
fn rank_of<T: Tape>(node: &Node<T>) -> usize
    ensures { result ≡ rank (Some node.now) }
{
    if is_halted(node) {
        0
    } else {
        node.published().number() as usize + 1
    }
}

/// Lets a node that is behind ask another, and delivers the answer to it; returns whether a
/// delivery was lost.
fn ask<T: Tape>(alloc: Global, hosts: &mut [NodeHost<T>], asked: usize, requester: usize) -> bool
    requires behind { IsBehind (nodes_of hosts.old) asked requester }
    ensures question { IsOneQuestion T.Tape asked requester (nodes_of hosts.old) result
        (nodes_of hosts.new) }
    ensures one { OneChanges asked requester (nodes_of hosts.old) (nodes_of hosts.new) }
    ensures on { BringsOn asked requester (nodes_of hosts.old) result (nodes_of hosts.new) }
    ensures entries { KeepEntries T.Tape hosts.old hosts.new }
{
    match answer_at(alloc, hosts, asked, requester) {
        Ok(answer) => {
            let lost = consume_at(alloc, hosts, requester, &answer);
            drop(answer);
            lost
        }
        Err(_) => true,
    }
}

/// The answer of one node to the question of another, which is behind it: at most eight
/// definitions, from the one after the requester's last one on. The model's steps of both nodes for
/// that change neither of them.
fn answer_at<T: Tape>(
    alloc: Global,
    hosts: &[NodeHost<T>],
    asked: usize,
    requester: usize,
) -> Result<Vec<Message>, AllocError>
    requires behind { IsBehind (nodes_of hosts.now) asked requester }
    ensures answer { IfOk result (λ answer.
        AreAnswersTo (nodes_of hosts.now) asked requester answer.items) }
    ensures most { rank_at (nodes_of hosts.now) asked ≤ last_sequence + 1 }
{
    let NodeHost::Running(node) = &hosts[requester] else {
        unreachable!();
    };
    let NodeHost::Running(other) = &hosts[asked] else {
        unreachable!();
    };
    answer(alloc, node, other)
}

/// The answer of a node to the question of one that has published fewer definitions.
fn answer<T: Tape>(
    alloc: Global,
    node: &Node<T>,
    other: &Node<T>,
) -> Result<Vec<Message>, AllocError>
    requires behind { length node.now.parts.history < length other.now.parts.history }
    ensures answer { IfOk result (λ answer. map view answer.items ≡
        reports_from other.now.parts.history (length node.now.parts.history + 1) most_reports) }
    ensures most { length other.now.parts.history ≤ last_sequence }
{
    // No node has published more than the last sequence, so that there is one after the requester's
    // last one.
    let _ = other.published();
    match node.history().next_slot() {
        Some(next) => other.history().answer_ask(alloc, next),
        None => unreachable!(),
    }
}

/// Delivers messages to a node that runs, one after the other, until one is lost; returns whether
/// one was.
fn consume_at<T: Tape>(
    alloc: Global,
    hosts: &mut [NodeHost<T>],
    number: usize,
    messages: &[Message],
) -> bool
    requires within { number < length hosts.old }
    requires runs { RunsAt hosts.old number }
    ensures receives { ReceivesAt T.Tape number messages.now result hosts.old hosts.new }
    ensures entries { KeepEntries T.Tape hosts.old hosts.new }
{
    match &mut hosts[number] {
        NodeHost::Running(node) => consume(alloc, node, messages),
        NodeHost::Stopped(_) => unreachable!(),
    }
}

/// Delivers messages to a node, one after the other, until one is lost; returns whether one was.
fn consume<T: Tape>(alloc: Global, node: &mut Node<T>, messages: &[Message]) -> bool
    ensures receives { HasReceived T.Tape messages.now result node.old node.new }
    ensures sturdy { IsSturdy T.Tape node.old node.new }
{
    match messages {
        [] => false,
        [first, rest @ ..] => {
            if deliver(alloc, node, first) {
                return true;
            }
            consume(alloc, node, rest)
        }
    }
}

/// Delivers a message to a node; returns whether the delivery was lost. What the node sends is
/// dropped.
fn deliver<T: Tape>(alloc: Global, node: &mut Node<T>, message: &Message) -> bool
    ensures taken { IsDeliveryTaken T.Tape result message.now node.old node.new }
    ensures sturdy { IsSturdy T.Tape node.old node.new }
{
    let Outputs { messages, lost } = hand(alloc, node, message);
    drop(messages);
    lost
}
