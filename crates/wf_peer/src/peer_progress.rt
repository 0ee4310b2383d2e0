//! What was last heard of each peer.
use crate::heard::Heard;
use crate::progress::Progress;
use crate::rejection::PeerRejection;
use std::marker::Model;
use wf_ballot::{Ballot, NodeId, Seq, Slot};
use wf_codec::Message;
use wf_folder::{HighestVote, higher_promise, higher_vote, raise_promise, raise_vote};

/// What was last heard of each node that a farm may have, in the order of the nodes; nothing of one
/// that never greeted.
#[derive(Clone, Copy)]
pub struct PeerProgress {
    pub(crate) nodes: [Option<Heard>; 64],
}

impl Model for PeerProgress {
    ghost use Rattle.std.specs.Prelude.{List, Option};
    ghost use Rattle.wf_peer.specs.declared.heard.Heard.{Heard};

    ghost Value = { List (Option Heard) };

    ghost view = { λ known. known.nodes };

    ghost inverse = { λ nodes. record { nodes = nodes } };
}

impl PeerProgress {
    ghost use Rattle.std.specs.Prelude.{◌≡◌, Some, None, List, Option, replicate, slice_set};
    ghost use Rattle.wf_codec.specs.Message.{view};
    ghost use Rattle.wf_peer.specs.Progress.{HasKept, greeted, progress_in};
    ghost use Rattle.wf_peer.specs.Sender.{NeverFalls, heard_of, with_accusation, with_reported};

    /// Nothing was heard of any node.
    pub fn new() -> PeerProgress
        ensures { result ≡ replicate 64 None }
    {
        PeerProgress { nodes: [None; 64] }
    }

    /// What was last heard of a node, if anything was, and what it was accused of.
    pub fn heard(&self, node: NodeId) -> Option<Heard>
        ensures { result ≡ heard_of self.now node }
    {
        match self.nodes.get(node.number() as usize) {
            Some(heard) => *heard,
            None => None,
        }
    }

    /// How far a node was when it was last heard of, if it was.
    pub fn of(&self, node: NodeId) -> Option<Progress>
        ensures { result ≡ progress_in (heard_of self.now node) }
    {
        match self.heard(node) {
            Some(heard) => Some(heard.progress),
            None => None,
        }
    }

    /// A node that was let in greeted with this progress: together with what was heard of it, that
    /// is kept.
    pub fn greet(&mut self, node: NodeId, progress: Progress)
        requires { HasKept (progress_in (heard_of self.old node)) progress }
        ensures value { self.new ≡ slice_set self.old node
            (Some (greeted (heard_of self.old node) progress)) }
        ensures falls { NeverFalls self.old self.new }
    {
        let heard = greeted(&self.heard(node), &progress);
        self.put(node, heard);
    }

    /// Sets what was heard of a node.
    fn put(&mut self, node: NodeId, heard: Heard)
        ensures { self.new ≡ slice_set self.old node (Some heard) }
    {
        self.nodes[node.number() as usize] = Some(heard);
    }

    /// A message came from a node that greeted: what it tells of the node's progress is kept. From
    /// another one nothing is.
    #[tactic(auto, using(crate::proofs::Kept::nothing_falls))]
    pub fn receive(&mut self, node: NodeId, message: &Message)
        ensures value { self.new ≡ with_reported self.old node (heard_of self.old node)
            (view message.now) }
        ensures falls { NeverFalls self.old self.new }
    {
        let Some(heard) = self.heard(node) else {
            return;
        };
        let heard = reported(&heard, message);
        self.put(node, heard);
    }

    /// A node was told that it forgot something: that is kept, and its folder is rejected for it
    /// from then on. The first accusation stays. Nothing is kept of a node of which nothing was
    /// heard, nor for a cause that accuses no folder.
    #[tactic(auto, using(crate::proofs::Kept::nothing_falls))]
    pub fn accuse(&mut self, node: NodeId, why: PeerRejection)
        ensures value { self.new ≡ with_accusation self.old node (heard_of self.old node) why }
        ensures falls { NeverFalls self.old self.new }
    {
        let Some(heard) = self.heard(node) else {
            return;
        };
        let heard = accused(&heard, why);
        self.put(node, heard);
    }
}

ghost use Rattle.std.specs.Prelude.{◌≡◌};
ghost use Rattle.wf_ballot.specs.Sequence.{IsSequence};
ghost use Rattle.wf_codec.specs.Message.{view};
ghost use Rattle.wf_peer.specs.Progress.{accused, first_accusation, greeted, together};
ghost use Rattle.wf_peer.specs.Sender.{promised, publish_up_to, advance_by, tried, voted};

/// What was heard of a node, if anything was, once it greets with this progress.
fn greeted(heard: &Option<Heard>, claimed: &Progress) -> Heard
    ensures { result ≡ greeted heard.now claimed.now }
{
    match heard {
        Some(heard) => Heard {
            progress: together(&heard.progress, claimed),
            accusation: heard.accusation,
        },
        None => Heard {
            progress: *claimed,
            accusation: None,
        },
    }
}

/// What was heard of a node, once it is accused of this.
fn accused(heard: &Heard, why: PeerRejection) -> Heard
    ensures { result ≡ accused heard.now why }
{
    Heard {
        progress: heard.progress,
        accusation: first_accusation(heard.accusation, why),
    }
}

/// The first accusation.
fn first_accusation(earlier: Option<PeerRejection>, why: PeerRejection) -> Option<PeerRejection>
    ensures { result ≡ first_accusation earlier why }
{
    match earlier {
        Some(earlier) => Some(earlier),
        None => { if why.accuses() { Some(why) } else { None } }
    }
}

/// What was heard of a node, once this message came from it.
fn reported(heard: &Heard, message: &Message) -> Heard
    ensures { result ≡
        record heard.now { progress = advance_by heard.now.progress (view message.now) } }
{
    Heard {
        progress: advance_by(&heard.progress, message),
        accusation: heard.accusation,
    }
}

/// The progress that was heard and the one that is said, together.
fn together(known: &Progress, claimed: &Progress) -> Progress
    ensures { result ≡ together known.now claimed.now }
{
    let number = known.published.number().max(claimed.published.number());
    Progress {
        round: known.round.max(claimed.round),
        promise: higher_promise(known.promise, claimed.promise),
        vote: higher_vote(&known.vote, &claimed.vote),
        published: Seq::new(number).unwrap(),
        ..*claimed
    }
}

/// The progress that a message of the node tells.
fn advance_by(progress: &Progress, message: &Message) -> Progress
    ensures { result ≡ advance_by progress.now (view message.now) }
{
    match message {
        Message::Prepare(_, ballot) => with_round(progress, *ballot),
        Message::Promise(_, ballot, _) => with_promise(progress, *ballot),
        Message::Accept(_, ballot, _) => with_round(progress, *ballot),
        Message::Accepted(_, slot, ballot) => with_vote(
            &with_promise(progress, *ballot),
            *slot,
            *ballot,
        ),
        Message::Nack(_, _, _, promise) => with_promise(progress, *promise),
        Message::Chosen(slot, _) => publish_up_to(progress, slot.number()),
        Message::Ask(slot) => publish_up_to(progress, slot.number() - 1),
    }
}

/// The progress of a node that tried the round of this ballot.
fn with_round(progress: &Progress, ballot: Ballot) -> Progress
    ensures { result ≡ tried progress.now ballot.round }
{
    Progress {
        round: progress.round.max(ballot.round()),
        ..*progress
    }
}

/// The progress of a node that promised this ballot.
fn with_promise(progress: &Progress, ballot: Ballot) -> Progress
    ensures { result ≡ promised progress.now ballot }
{
    Progress {
        promise: Some(raise_promise(progress.promise, ballot)),
        ..*progress
    }
}

/// The progress of a node that voted for this ballot at this sequence.
fn with_vote(progress: &Progress, sequence: Slot, ballot: Ballot) -> Progress
    ensures { result ≡ voted progress.now sequence ballot }
{
    let vote = HighestVote { ballot, sequence };
    Progress {
        vote: Some(raise_vote(&progress.vote, &vote)),
        ..*progress
    }
}

/// The progress of a node that published this sequence.
fn publish_up_to(progress: &Progress, number: u16) -> Progress
    requires { IsSequence number }
    ensures { result ≡ publish_up_to progress.now number }
{
    let number = progress.published.number().max(number);
    Progress {
        published: Seq::new(number).unwrap(),
        ..*progress
    }
}
