//! The connections from peers of a node: they are accepted, let in or not, and end.
ghost use Rattle.std.specs.Prelude.{◌≡◌, ◌⊎◌, [], OnOk};
ghost use Rattle.wf_peer_connections.specs.Joining.{IsOrderBy};
ghost use Rattle.wf_peer.specs.Admission.{IsNodesFolder};

use crate::event::{NodeEvent, PeerEnd};
use crate::inbound::Inbound;
use crate::intake::close;
use crate::peer_connections::PeerConnections;
use crate::peer_state::Greeted;
use crate::token::inbound_token;
use std::alloc::Global;
use std::mem::replace;
use std::net::SocketAddr;
use std::time::Clock;
use wf_ballot::{NodeId, SEQUENCES};
use wf_folder::PeerAddress;
use wf_learner::History;
use wf_membership::Membership;
use wf_peer::{Greeting, PeerRejection};
use wf_sockets::{Connection, Network};
use wf_visitors::Context;

impl<N: Network> PeerConnections<N> {
    /// A connection that was accepted from a peer's address, on which nothing was read, and the
    /// slot that is free for it.
    pub fn place<R: Clock + Eprint + AllocGlobal>(
        &mut self,
        context: &Context<'_, '_, R, N>,
        mut connection: N::Connection,
        address: SocketAddr,
    ) -> Option<(usize, Inbound<N::Connection>)>
        requires { N.Connection.came connection ≡ [] }
    {
        if !is_known(self.plan.peers.as_slice(), address) {
            if self.unlisted.is_to_be_told(address, context.time) {
                context.log.write(&NodeEvent::Unlisted { address });
            }
            return None;
        }
        let Some(index) = first_free(self.inbounds.as_slice()) else {
            context.log.write(&NodeEvent::Dropped {
                peer: None,
                why: PeerEnd::NoSlot,
            });
            return None;
        };
        connection.send_at_once();
        if context.network.watch(&mut connection, inbound_token(index)) {
            let inbound = Inbound::new(context.alloc(), connection, address, context.time);
            Some((index, inbound))
        } else {
            None
        }
    }

    /// The connection in a slot, if there is one, until it is kept again.
    pub fn take_inbound(&mut self, index: usize) -> Option<Inbound<N::Connection>> {
        match self.inbounds.get_mut(index) {
            Some(slot) => slot.take(),
            None => None,
        }
    }

    /// Keeps a connection from a peer in its slot. Where more of it is to be read, it is watched
    /// anew.
    pub fn keep<R>(
        &mut self,
        context: &Context<'_, '_, R, N>,
        index: usize,
        mut inbound: Inbound<N::Connection>,
    ) {
        if self.is_busy {
            let _ = inbound.watch(context.network, inbound_token(index));
        }
        match self.inbounds.get_mut(index) {
            Some(slot) => drop(replace(slot, Some(inbound))),
            None => drop(inbound),
        }
    }

    /// Whether a peer is let in that greets so, by all that the node has published and by what it
    /// goes by of replacements: one that was dialed, or one from an address. What is heard of it is
    /// kept, and so is of what it is accused, what it says of replacements, and whether its history
    /// differs.
    pub fn admit<R: Clock + Eprint>(
        &mut self,
        context: &Context<'_, '_, R, N>,
        history: &History,
        membership: &Membership,
        address: Option<SocketAddr>,
        index: Option<NodeId>,
        greeting: &Greeting,
    ) -> Result<(), PeerRejection>
        // Only the folder that stands for its node by what this node goes by.
        ensures folder { OnOk result (IsNodesFolder membership.now.replacements greeting.now) }
        // A folder that joins is to write nothing but what this greeting says to it.
        ensures order { (self.new.order ≡ self.old.order)
            ⊎ IsOrderBy self.old.plan membership.now greeting.now self.new.order }
    {
        self.table.extend(history);
        let published = history.published().number();
        let number = greeting.node.number() as usize;
        let greeted = self.greeted(number, index);
        let admitted = if self.is_listed(number, address) {
            self.table.admit(&membership.replacements, index, greeting)
        } else {
            Err(PeerRejection::OtherNode)
        };
        match admitted {
            Ok(()) => {
                if let Some(state) = self.states.get_mut(number) {
                    state.take(greeting, greeted, published);
                }
                self.hear_of_replacements(membership, index.is_some(), greeting, context.time);
            }
            Err(PeerRejection::OtherHistory) => {
                self.count_rejection(number);
                self.note_difference(context, greeting.node, greeting.progress.published.number());
            }
            Err(PeerRejection::NotTold) => {
                self.count_rejection(number);
                self.hear_of_replacements_untold(membership, greeting, context.time);
            }
            Err(_) => self.count_rejection(number),
        }
        admitted
    }

    /// Says to a peer why it isn't let in, and what is remembered of it.
    pub fn reject(
        &self,
        alloc: Global,
        inbound: &mut Inbound<N::Connection>,
        node: NodeId,
        why: PeerRejection,
    ) {
        let remembered = self.table.remembered(node, why);
        inbound.reject(alloc, why, &remembered);
    }

    /// A peer is let in on its own connection: its answers can come from now on.
    pub fn note_accepted<R: Clock + Eprint>(
        &mut self,
        context: &Context<'_, '_, R, N>,
        peer: NodeId,
    ) {
        let number = peer.number() as usize;
        self.catch_up.connect(number, context.time);
        self.connected_at = context.time;
        context.log.write(&NodeEvent::Accepted { peer: number });
    }

    /// So many messages came from the node of this number.
    pub fn note_received(&mut self, number: usize, count: usize, time: u64) {
        if let Some(state) = self.states.get_mut(number) {
            state.received = state.received.saturating_add(count as u64);
            state.heard_at = Some(time);
        }
    }

    /// On which connection the node of this number greets: one that this node dialed, or its own.
    fn greeted(&self, number: usize, index: Option<NodeId>) -> Greeted {
        match index {
            None => Greeted::Comes,
            Some(_) if self.is_open(number) => Greeted::Again,
            Some(_) => Greeted::LetsIn,
        }
    }

    /// A peer isn't let in.
    fn count_rejection(&mut self, number: usize)
        ensures order { self.new.order ≡ self.old.order }
        ensures plan { self.new.plan ≡ self.old.plan }
    {
        if let Some(state) = self.states.get_mut(number) {
            state.rejected = state.rejected.saturating_add(1);
        }
    }

    /// Whether the node of this number is listed at an address; its port is any.
    fn is_listed(&self, number: usize, address: Option<SocketAddr>) -> bool {
        match (self.plan.peers.get(number), address) {
            (Some(listed), Some(address)) => is_same_host(*listed, address),
            _ => true,
        }
    }

    /// Closes the connections of a peer, in whose place a newer one comes.
    pub fn close_older<R: Clock + Eprint>(
        &mut self,
        context: &Context<'_, '_, R, N>,
        peer: NodeId,
    ) {
        for slot in &mut self.inbounds {
            if is_of(slot, peer) {
                context.log.write(&NodeEvent::Dropped {
                    peer: Some(peer.number() as usize),
                    why: PeerEnd::Replaced,
                });
                close(slot);
            }
        }
    }

    /// A connection from a peer has ended. Its line is in the log once the peer sees that it was
    /// closed.
    pub fn drop_inbound<R: Clock + Eprint>(
        &self,
        context: &Context<'_, '_, R, N>,
        inbound: Inbound<N::Connection>,
        why: PeerEnd,
    ) {
        let peer = number_of(inbound.from());
        context.log.write(&NodeEvent::Dropped { peer, why });
        drop(inbound);
    }

    /// Greets each peer again on the connection from it.
    pub fn greet_again(&mut self, alloc: Global, own: &Greeting) {
        for slot in &mut self.inbounds {
            greet(alloc, slot, own);
        }
    }

    /// Closes the connections from peers on which nothing came for too long. Once the last sequence
    /// is published nobody asks any more, and none is closed: peers hear the node by its greetings
    /// then.
    pub fn close_silent<R: Clock + Eprint>(
        &mut self,
        context: &Context<'_, '_, R, N>,
        published: u16,
    ) {
        if published == SEQUENCES {
            return;
        }
        for slot in &mut self.inbounds {
            if is_silent_at(slot, context.time) {
                context.log.write(&NodeEvent::Dropped {
                    peer: peer_in(slot),
                    why: PeerEnd::Silent,
                });
                close(slot);
            }
        }
    }
}

/// Whether nothing came for too long on the connection in a slot.
fn is_silent_at<C: Connection + Drop>(slot: &Option<Inbound<C>>, time: u64) -> bool {
    match slot {
        Some(inbound) => inbound.is_silent(time),
        None => false,
    }
}

/// The number of the peer in a slot, if it is known.
fn peer_in<C: Connection + Drop>(slot: &Option<Inbound<C>>) -> Option<usize> {
    match slot {
        Some(inbound) => number_of(inbound.from()),
        None => None,
    }
}

/// Whether a connection is one of this peer.
fn is_of<C: Connection + Drop>(slot: &Option<Inbound<C>>, peer: NodeId) -> bool {
    match slot {
        Some(inbound) => inbound.from() == Some(peer),
        None => false,
    }
}

/// The number of a node, if it is known.
fn number_of(node: Option<NodeId>) -> Option<usize> {
    match node {
        Some(node) => Some(node.number() as usize),
        None => None,
    }
}

/// Whether a connection comes from a peer's address; its port is any.
fn is_known(peers: &[SocketAddr], address: SocketAddr) -> bool {
    for peer in peers {
        if is_same_host(*peer, address) {
            return true;
        }
    }
    false
}

/// Whether two addresses are of one host: that of IPv4 is the one of IPv6 to which it is mapped.
fn is_same_host(first: SocketAddr, second: SocketAddr) -> bool {
    PeerAddress::of(first).ip == PeerAddress::of(second).ip
}

/// The first free slot.
fn first_free<C: Connection + Drop>(slots: &[Option<Inbound<C>>]) -> Option<usize> {
    for (index, slot) in slots.iter().enumerate() {
        if slot.is_none() {
            return Some(index);
        }
    }
    None
}

/// Greets the peer of a connection again, if there is one.
fn greet<C: Connection + Drop>(alloc: Global, slot: &mut Option<Inbound<C>>, own: &Greeting) {
    match slot {
        Some(inbound) => inbound.greet_again(alloc, own),
        None => {}
    }
}
