//! The connections to the peers of a node: they are opened, end, and are tried again.
ghost use Rattle.std.specs.Prelude.{map};
ghost use Rattle.wf_codec.specs.Message.{view};
ghost use Rattle.wf_peer_connections.specs.Dials.{ArePosted};

use crate::call::post_to_all;
use crate::event::{NodeEvent, PeerEnd};
use crate::peer_connections::{MOST_NODES, PeerConnections};
use std::net::Net;
use std::time::Clock;
use wf_ballot::{NodeId, SEQUENCES};
use wf_folder::{PeerAddress, Suspension};
use wf_learner::History;
use wf_peer::{Greeting, GreetingReply, PeerRejection};
use wf_sockets::Network;
use wf_visitors::Context;
use wf_wire::Post;

impl<N: Network> PeerConnections<N> {
    /// The connection to a peer is open from now on, if all of the greeting was sent on it. Returns
    /// whether it is.
    pub fn open<R: Clock + Eprint + AllocGlobal>(
        &mut self,
        context: &Context<'_, '_, R, N>,
        index: usize,
    ) -> bool {
        let Some(dial) = self.dials.get_mut(index) else {
            return false;
        };
        if !dial.open(context.alloc(), context.time) {
            return false;
        }
        context.log.write(&NodeEvent::Connected {
            peer: index,
            address: dial.address(),
        });
        self.catch_up.connect(index, context.time);
        self.connected_at = context.time;
        true
    }

    /// Whether the connection to a peer is there.
    pub fn is_established(&self, index: usize) -> bool {
        match self.dials.get(index) {
            Some(dial) => dial.is_established(),
            None => false,
        }
    }

    /// A peer has greeted again. It is heard by its messages; by this only once it has the last
    /// sequence, since it asks nobody any more then.
    pub fn note_heard_again(&mut self, index: usize, reply: &GreetingReply, time: u64) {
        let GreetingReply::Greeting(greeting) = reply else {
            return;
        };
        if greeting.progress.published.number() < SEQUENCES {
            return;
        }
        if let Some(state) = self.states.get_mut(index) {
            state.heard_at = Some(time);
        }
    }

    /// Notes who suspended the node, and closes all connections.
    pub fn suspend<R: Clock + Eprint>(
        &mut self,
        context: &Context<'_, '_, R, N>,
        peer: NodeId,
        why: PeerRejection,
    ) {
        if self.suspension.is_some() {
            return;
        }
        let number = peer.number() as usize;
        if let Some(address) = self.plan.peers.get(number) {
            self.suspension = Some(Suspension {
                accuser: peer,
                address: PeerAddress::of(*address),
                cause: why.byte(),
            });
            context.log.write(&NodeEvent::Suspended {
                peer: number,
                address: *address,
                why,
            });
        }
        self.is_suspension_new = true;
        self.close_all(context.time);
    }

    /// Ends the connection to a peer. Returns whether the farm has that node.
    pub fn end<R: Clock + Eprint>(
        &mut self,
        context: &Context<'_, '_, R, N>,
        index: usize,
        why: PeerEnd,
    ) -> bool {
        let Some(dial) = self.dials.get_mut(index) else {
            return false;
        };
        let was_open = dial.is_open();
        let why = if why == PeerEnd::Closed && !was_open {
            PeerEnd::Unanswered
        } else {
            why
        };
        let is_told = was_open || (why != PeerEnd::Failed && dial.is_to_be_told(why, context.time));
        dial.end(context.time);
        if is_told {
            context.log.write(&NodeEvent::Lost { peer: index, why });
        }
        true
    }

    /// Why the connection to a node ends, and another is to begin, if so: it takes too long, or the
    /// histories are to be compared.
    pub fn why_anew(&self, index: usize, published: u16, time: u64) -> Option<PeerEnd> {
        if self.is_late(index, time) {
            Some(PeerEnd::Silent)
        } else if self.is_to_be_compared(index, published, time) {
            Some(PeerEnd::Compared)
        } else {
            None
        }
    }

    /// Connects to a peer, and greets it so.
    pub fn connect_to<R: Net + AllocGlobal>(
        &mut self,
        context: &Context<'_, '_, R, N>,
        index: usize,
        greeting: &Greeting,
    ) {
        if let Some(dial) = self.dials.get_mut(index) {
            dial.connect(context, index, greeting);
        }
    }

    /// Whether there is no connection to a node, and it is time to connect.
    pub fn is_due(&self, index: usize, time: u64) -> bool {
        match self.dials.get(index) {
            Some(dial) => dial.is_due(time),
            None => false,
        }
    }

    /// Whether a connection to a peer takes too long to open, or nothing comes on it.
    fn is_late(&self, index: usize, time: u64) -> bool {
        match self.dials.get(index) {
            Some(dial) => dial.is_late(time),
            None => false,
        }
    }

    /// Whether messages can be sent to a peer.
    pub fn is_open(&self, index: usize) -> bool {
        match self.dials.get(index) {
            Some(dial) => dial.is_open(),
            None => false,
        }
    }

    /// Posts messages on the connection to each node that they are for.
    pub fn post(&mut self, post: &Post)
        ensures { ArePosted post.now.target (map view post.now.messages.items)
            self.old.dials.items self.new.dials.items }
    {
        post_to_all(&mut self.dials, post);
    }

    /// How many bytes of messages wait for a peer.
    pub fn remaining(&self, index: usize) -> usize {
        match self.dials.get(index) {
            Some(dial) => dial.remaining(),
            None => 0,
        }
    }

    /// The peer that is to be asked now for the definitions that the node lacks, if one is.
    pub fn next_to_ask(&mut self, history: &History, time: u64) -> Option<usize> {
        let mut connected = [false; MOST_NODES];
        for (flag, dial) in connected.iter_mut().zip(self.dials.iter()) {
            *flag = dial.is_open();
        }
        let published = history.published().number();
        self.catch_up.ask(time, published, connected.as_slice())
    }
}
