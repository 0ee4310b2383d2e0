//! What is done to a process: by each of these its run goes on, and nothing of a suspended node
//! changes.
ghost use Rattle.std.specs.Prelude.{◌≡◌, ◌++◌, ◌∷◌, [], ℕ, List, Option, IsTrue, false, true};
ghost use Rattle.wf_codec.specs.Message.{view};
ghost use Rattle.wf_peer.specs.Told.{IsHeardOf};
ghost use Rattle.wf_voter.specs.Continuation.{Continues, IsNextRun, IsHeardKept, KeepsEarlier, is_ask, is_chosen};

use crate::voter::Voter;
use std::alloc::Global;
use std::mem::replace;
use wf_actor::Process;
use wf_ballot::NodeId;
use wf_codec::Message;
use wf_membership::Gate;
use wf_tape::Tape;
use wf_wire::PeerMessage;

impl<T: Tape> Voter<T> {
    /// Whether the node is given messages, and says what it has to.
    pub fn acts(&self) -> bool
        ensures gate { IsTrue result → self.now.gate ≡ Gate.Open }
        ensures agrees { IsTrue result → self.now.is_outvoted ≡ false }
        ensures votes { IsTrue result → self.now.membership.joins ≡ false }
    {
        self.learns() && !self.membership.joins
    }

    /// Whether it asks its peers for definitions, by which they learn that it is there: also where
    /// it is outvoted or joins.
    fn asks(&self) -> bool
        ensures { IsTrue result → self.now.gate ≡ Gate.Open }
    {
        self.gate == Gate::Open
    }

    /// Whether the node is given a message of a peer: each if it acts, one that asks for what is
    /// published if it is outvoted, and one that says what is published if it joins.
    pub fn takes(&self, message: &Message) -> bool
        ensures gate { IsTrue result → self.now.gate ≡ Gate.Open }
        ensures asks { IsTrue result → self.now.is_outvoted ≡ true → is_ask message.now ≡ true }
        ensures says { IsTrue result → self.now.membership.joins ≡ true →
            is_chosen message.now ≡ true }
    {
        if self.membership.joins {
            self.learns() && is_chosen(message)
        } else if self.is_outvoted {
            self.asks() && is_ask(message)
        } else {
            self.acts()
        }
    }

    /// Whether it takes in what is published: not while it is outvoted.
    fn learns(&self) -> bool
        ensures gate { IsTrue result → self.now.gate ≡ Gate.Open }
        ensures agrees { IsTrue result → self.now.is_outvoted ≡ false }
    {
        self.gate == Gate::Open && !self.is_outvoted
    }

    /// Whether clients are answered: not before it acts, not once it is suspended or outvoted, and
    /// not while it joins.
    pub fn answers(&self) -> bool
        ensures awake { IsTrue result → ¬ (self.now.gate ≡ Gate.Suspended) }
        ensures agrees { IsTrue result → self.now.is_outvoted ≡ false }
        ensures votes { IsTrue result → self.now.membership.joins ≡ false }
    {
        matches!(self.gate, Gate::Open | Gate::Unwritten)
            && !self.is_outvoted
            && !self.membership.joins
    }

    /// Whether it has connections with its peers.
    pub fn connects(&self) -> bool {
        matches!(self.gate, Gate::Open | Gate::Starting)
    }

    /// A turn begins, in which it acts so, and is outvoted or not. A suspended one stays suspended.
    pub fn judge(&mut self, gate: Gate, is_outvoted: bool)
        ensures process { self.new.process ≡ self.old.process }
        ensures outvoted { self.new.is_outvoted ≡ is_outvoted }
        ensures membership { self.new.membership ≡ self.old.membership }
        ensures kept { self.new.kept ≡ self.old.kept }
        ensures suspended { self.old.gate ≡ Gate.Suspended → self.new.gate ≡ Gate.Suspended }
    {
        self.is_outvoted = is_outvoted;
        self.set_gate(gate);
    }

    /// From now on it acts so. A suspended one stays suspended.
    pub fn set_gate(&mut self, gate: Gate)
        ensures on { Continues T.Tape self.old self.new }
        ensures process { self.new.process ≡ self.old.process }
        ensures outvoted { self.new.is_outvoted ≡ self.old.is_outvoted }
        ensures membership { self.new.membership ≡ self.old.membership }
        ensures kept { self.new.kept ≡ self.old.kept }
        ensures stays { self.old.gate ≡ Gate.Suspended → self.new.gate ≡ Gate.Suspended }
        ensures suspended { gate ≡ Gate.Suspended → self.new.gate ≡ Gate.Suspended }
    {
        if self.gate != Gate::Suspended {
            self.gate = gate;
        }
    }
}

/// Begins the running proposal again, if the node acts.
pub fn retry<T: Tape>(alloc: Global, voter: &mut Voter<T>)
    ensures { Continues T.Tape voter.old voter.new }
{
    if voter.acts() {
        let _ = voter.process.retry(alloc);
    }
}

/// Delivers the first of its own messages that wait, if the node acts. Returns whether one waited.
pub fn handle_own<T: Tape>(alloc: Global, voter: &mut Voter<T>) -> bool
    ensures { Continues T.Tape voter.old voter.new }
{
    if voter.acts() {
        voter.process.handle_own(alloc).is_some()
    } else {
        false
    }
}

/// Whether a message asks for what is published.
fn is_ask(message: &Message) -> bool
    ensures { result ≡ is_ask message.now }
{
    matches!(message, Message::Ask(_))
}

/// Whether a message says what is published.
fn is_chosen(message: &Message) -> bool
    ensures { result ≡ is_chosen message.now }
{
    matches!(message, Message::Chosen(_, _))
}

/// Delivers a message of a peer, if the node is given it, and what it tells of the peer is in the
/// folder; else it is lost.
pub fn deliver<T: Tape>(alloc: Global, voter: &mut Voter<T>, message: PeerMessage)
    ensures { Continues T.Tape voter.old voter.new }
{
    if voter.takes(message.message()) && is_heard(voter, &message) {
        let _ = voter.process.deliver(alloc, message);
    } else {
        drop(message);
    }
}

/// Whether the round and the promise that a message of a peer tells are in the folder.
fn is_heard<T: Tape>(voter: &Voter<T>, message: &PeerMessage) -> bool
    ensures { IsTrue result → IsHeardOf voter.now.kept message.now.from (view message.now.message) }
{
    voter.kept.has_heard(message.from(), message.message())
}

/// The first post was given to those of the peers that it is for: what it has for the node itself
/// waits for that now.
pub fn finish_post<T: Tape>(voter: &mut Voter<T>)
    ensures { Continues T.Tape voter.old voter.new }
{
    voter.process.finish_post();
}

/// Asks a peer for the next definition, if the node acts, is outvoted, or joins.
pub fn ask<T: Tape>(alloc: Global, voter: &mut Voter<T>, peer: NodeId)
    ensures { Continues T.Tape voter.old voter.new }
{
    if voter.asks() {
        let _ = voter.process.catch_up(alloc, peer);
    }
}

/// Begins the process's next run, after which what it was is one of those that have ended. It
/// doesn't act before its peers have answered.
pub fn begin_run<T: Tape + Drop>(voter: &mut Voter<T>, next: Process<T>)
    requires ended { next.ended.items ≡
        voter.old.process.ended.items ++ (voter.old.process.actor, 0) ∷ [] }
    requires given { next.actor.given.items ≡ [] }
    requires follows { voter.old.process.actor.node.halted ≡ true →
        IsNextRun T.Tape voter.old.process.actor next.actor }
    ensures process { voter.new.process ≡ next }
    ensures kept { (heard : Option (List ℕ)) →
        IsHeardKept heard voter.old → IsHeardKept heard voter.new }
    ensures earlier { voter.old.process.actor.node.halted ≡ true →
        KeepsEarlier T.Tape voter.old.process voter.new.process }
    ensures suspended { voter.old.gate ≡ Gate.Suspended → voter.new.gate ≡ Gate.Suspended }
    ensures membership { voter.new.membership ≡ voter.old.membership }
{
    voter.gate = gate_of_start(voter.gate);
    drop(replace(&mut voter.process, next));
}

/// How a node acts once it was opened again, by how it did before.
fn gate_of_start(before: Gate) -> Gate
    ensures { before ≡ Gate.Suspended → result ≡ Gate.Suspended }
{
    match before {
        Gate::Suspended => Gate::Suspended,
        Gate::Open | Gate::Starting | Gate::Unwritten => Gate::Starting,
    }
}
