//! What is to be written to the folder about replacements before the node goes by it.
ghost use Rattle.std.specs.Prelude.{◌≡◌, ◌⊎◌, IfSome};
ghost use Rattle.wf_peer_connections.specs.Joining.{IsOrderBy, IsToldIn};
ghost use Rattle.wf_peer_connections.specs.Told.{answer_in};

use crate::event::NodeEvent;
use crate::joiner::Joiner;
use crate::peer_connections::{MOST_NODES, PeerConnections, id_of};
use std::time::Clock;
use wf_ballot::{NodeId, Seq};
use wf_membership::Membership;
use wf_peer::{Greeting, NodeState};
use wf_rejoin::{Answer, JoinStep, Replacements};
use wf_sockets::Network;
use wf_store::FileName;
use wf_visitors::{Context, Log};

/// For how long a node that votes goes on under what it knew of replacements when it began, once it
/// was told of more, in milliseconds: not all nodes are to end within one second.
const NOTING_MILLIS: u64 = 30_000;

/// For how long a folder that joins does, in milliseconds: another peer may tell of more.
const JOINER_NOTING_MILLIS: u64 = 1_000;

/// What is to be written to the folder about replacements before the node goes by it.
#[derive(Clone, Copy)]
pub enum Order {
    /// What is known of replacements from now on, for the next start.
    Note(Replacements),
    /// What a folder that joins is told.
    Join(JoinStep),
    /// The folder has joined: the next start may vote.
    Joined,
}

impl Order {
    /// The file that says it.
    pub fn file(&self) -> FileName {
        match self {
            Order::Note(_) => FileName::Replaced,
            Order::Join(_) | Order::Joined => FileName::Joins,
        }
    }

    /// Whether only the next start goes by it.
    fn ends_the_run(&self) -> bool {
        match self {
            Order::Note(_) | Order::Joined => true,
            Order::Join(_) => false,
        }
    }
}

impl<N: Network> PeerConnections<N> {
    /// Takes in what the greeting of a peer that is let in says of replacements. Of one that
    /// replies to this node's greeting, a folder that joins hears whether the peer has agreed to
    /// it, and how far the peer is.
    pub(crate) fn hear_of_replacements(
        &mut self,
        membership: &Membership,
        is_reply: bool,
        greeting: &Greeting,
        time: u64,
    )
        ensures { (self.new.order ≡ self.old.order)
            ⊎ IsOrderBy self.old.plan membership.now greeting.now self.new.order }
    {
        self.learn_of_replacements(greeting, time);
        if is_reply && self.order.is_none() {
            self.hear_as_joiner(membership, greeting);
        }
    }

    /// Takes in what the greeting of a peer says of replacements that is turned away because its
    /// own isn't known here. Only a folder that joins does, which may know nobody else.
    pub(crate) fn hear_of_replacements_untold(
        &mut self,
        membership: &Membership,
        greeting: &Greeting,
        time: u64,
    )
        ensures { self.new.order ≡ self.old.order }
    {
        if membership.joins {
            self.learn_of_replacements(greeting, time);
        }
    }

    /// Takes in what a greeting says of the replacements of other nodes, unless its folder joins:
    /// that one has it from others.
    fn learn_of_replacements(&mut self, greeting: &Greeting, time: u64)
        ensures order { self.new.order ≡ self.old.order }
        ensures plan { self.new.plan ≡ self.old.plan }
    {
        if greeting.state == NodeState::Joins {
            return;
        }
        let latest = news_of(&self.learned, greeting, self.plan.peers.len());
        if latest != self.learned {
            self.learned = latest;
            self.learned_at = Some(time);
        }
    }

    /// What a folder that joins takes in of a peer's reply to its greeting: nothing before it began
    /// with its own replacement among those that it knows of.
    fn hear_as_joiner(&mut self, membership: &Membership, greeting: &Greeting)
        ensures { (self.new.order ≡ self.old.order)
            ⊎ IsOrderBy self.old.plan membership.now greeting.now self.new.order }
    {
        let Some(joiner) = self.plan.joining else {
            return;
        };
        if let Some(step) = step_by(&joiner, self.plan.own.node, membership, greeting) {
            self.order = Some(Order::Join(step));
        }
    }

    /// Notes what is to be written now: what was learned, if it is time to, or that the folder has
    /// joined, once it may vote by what its file `joins` says.
    pub fn note_due(&mut self, published: Seq, time: u64) {
        if self.order.is_some() || self.is_over {
            return;
        }
        if self.is_noting_due(time) {
            self.order = Some(Order::Note(self.learned));
        } else if self.has_joined(published) {
            self.order = Some(Order::Joined);
        }
    }

    /// Whether what was learned of replacements is to be written.
    fn is_noting_due(&self, time: u64) -> bool {
        let least = match self.plan.joining {
            Some(_) => JOINER_NOTING_MILLIS,
            None => NOTING_MILLIS,
        };
        match self.learned_at {
            Some(since) => least <= time.saturating_sub(since),
            None => false,
        }
    }

    /// Whether the folder joins, and may vote.
    fn has_joined(&self, published: Seq) -> bool {
        match &self.plan.joining {
            Some(joiner) => joiner.may_vote(published),
            None => false,
        }
    }

    /// Goes by what was just written.
    pub fn take_order<R: Clock + Eprint>(
        &mut self,
        context: &Context<'_, '_, R, N>,
        membership: &Membership,
        published: Seq,
        order: &Order,
    ) {
        self.order = None;
        self.note_written(order.file());
        match order {
            Order::Note(latest) => log_news(context.log, &membership.replacements, latest),
            Order::Join(step) => self.tell_joiner(step, context.time),
            Order::Joined => context.log.write(&NodeEvent::Joined {
                published: published.number(),
            }),
        }
        if order.ends_the_run() {
            self.is_over = true;
            self.close_all(context.time);
        }
    }

    /// The folder that joins was told this. Once half of all nodes have agreed, each is to say on a
    /// new connection how far it is.
    fn tell_joiner(&mut self, step: &JoinStep, time: u64) {
        let Some(joiner) = self.plan.joining else {
            return;
        };
        if let Some(next) = joiner.after(step) {
            self.plan.joining = Some(next);
            if next.has_half() && !joiner.has_half() {
                self.close_all(time);
            }
        }
    }
}

/// What the greeting of a peer tells a folder that joins, if anything that counts: only of its own
/// replacement, as the latest of its node that both know of.
fn step_by(
    joiner: &Joiner,
    own: NodeId,
    membership: &Membership,
    greeting: &Greeting,
) -> Option<JoinStep>
    ensures { IfSome result (IsToldIn own membership.now greeting.now joiner.now) }
{
    let replacement = joiner.replacement();
    if !membership.replacements.has_agreed(own, &replacement)
        || !greeting.replacements.has_agreed(own, &replacement)
    {
        return None;
    }
    joiner.hear(greeting.node, &replacement, &answer_of(greeting))
}

/// How far a peer is by its greeting, if it votes.
fn answer_of(greeting: &Greeting) -> Option<Answer>
    ensures { result ≡ answer_in greeting.now }
{
    match greeting.state {
        NodeState::Serves => Some(Answer::new(greeting.progress.published, greeting.voted)),
        NodeState::Halted | NodeState::Suspended | NodeState::Joins | NodeState::Outvoted => None,
    }
}

/// What is known of the replacements of so many nodes after the greeting of a peer.
fn news_of(known: &Replacements, greeting: &Greeting, nodes: usize) -> Replacements {
    let mut latest = *known;
    for number in 0..nodes {
        latest = news_at(&latest, greeting, number);
    }
    latest
}

/// What is known after what the greeting says of the node of this number.
fn news_at(known: &Replacements, greeting: &Greeting, number: usize) -> Replacements {
    let Some(node) = id_of(number) else {
        return *known;
    };
    let Some(replacement) = greeting.replacements.latest(node) else {
        return *known;
    };
    match known.learn(greeting.node, node, replacement) {
        Some(latest) => latest,
        None => *known,
    }
}

/// Writes which replacements are new to the log.
fn log_news<R: Clock + Eprint>(log: &Log<'_, R>, known: &Replacements, latest: &Replacements) {
    for number in 0..MOST_NODES {
        let Some(node) = id_of(number) else {
            return;
        };
        if let Some(replacement) = latest.latest(node) {
            if !known.has_agreed(node, &replacement) {
                log.write(&NodeEvent::ReplacementNoted {
                    node: number,
                    count: replacement.count,
                });
            }
        }
    }
}
