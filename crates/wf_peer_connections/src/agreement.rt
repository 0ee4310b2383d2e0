//! Whether the histories of the peers agree with a node's.
ghost use Rattle.std.specs.Prelude.{◌≡◌};

use crate::dial::Dial;
use crate::event::NodeEvent;
use crate::peer_connections::PeerConnections;
use crate::peer_state::{Agreement, Differing, Reached};
use std::time::Clock;
use wf_ballot::NodeId;
use wf_sockets::{Connection, Network};
use wf_visitors::{Context, Log};

/// The least time between two comparisons with a peer, in milliseconds.
const COMPARING_MILLIS: u64 = 1_000;

impl<N: Network> PeerConnections<N> {
    /// Notes that a peer's history differs up to a sequence; the log has it once.
    pub fn note_difference<R: Clock + Eprint>(
        &mut self,
        context: &Context<'_, '_, R, N>,
        peer: NodeId,
        sequence: u16,
    )
        ensures order { self.new.order ≡ self.old.order }
        ensures plan { self.new.plan ≡ self.old.plan }
    {
        let number = peer.number() as usize;
        let (Some(state), Some(address)) = (
            self.states.get_mut(number),
            self.plan.peers.get(number),
        ) else {
            return;
        };
        if !matches!(state.agreement, Agreement::Differs(_)) {
            context.log.write(&NodeEvent::Differs {
                peer: number,
                address: *address,
                sequence,
            });
        }
        state.agreement = Agreement::Differs(sequence);
    }

    /// The first peer whose history differs, if one does.
    pub(crate) fn differing(&self) -> Option<Differing> {
        for (peer, state) in self.states.iter().enumerate() {
            if let Agreement::Differs(sequence) = state.agreement {
                let address = *self.plan.peers.get(peer)?;
                return Some(Differing {
                    peer,
                    address,
                    sequence,
                });
            }
        }
        None
    }

    /// Whether a peer's history differs, and those that agree with this node's and are heard,
    /// itself counted, are no majority. The log has when that begins and ends, and the connections
    /// begin anew then, so that each peer is greeted with it before anything else comes.
    pub fn judge_histories<R: Clock + Eprint>(&mut self, log: &Log<'_, R>, time: u64) -> bool {
        let differing = self.differing();
        let is_outvoted = differing.is_some() && !self.is_majority(self.agreeing(time));
        if is_outvoted != self.is_outvoted {
            self.is_outvoted = is_outvoted;
            self.close_all(time);
            match differing {
                Some(differing) if is_outvoted => log.write(&NodeEvent::Outvoted {
                    peer: differing.peer,
                    address: differing.address,
                    sequence: differing.sequence,
                }),
                _ => log.write(&NodeEvent::Agrees),
            }
        }
        is_outvoted
    }

    /// How many nodes are heard whose history agrees with this one's, itself counted.
    fn agreeing(&self, time: u64) -> usize {
        let mut count = 1usize;
        for state in &self.states {
            if state.is_agreeing(time) {
                count = count.saturating_add(1);
            }
        }
        count
    }

    /// Whether what comes from a peer may be taken in. Of one in dispute only where each other one
    /// in dispute is known to differ from this node, or to have that one's history: a node that has
    /// what is common to two histories learns from neither.
    pub fn is_trusted(&self, peer: usize) -> bool {
        match self.states.get(peer) {
            Some(state) => !state.is_in_dispute() || !self.is_another_in_dispute(state.reached),
            None => false,
        }
    }

    /// Whether a peer is connected and in dispute that isn't known to have reached the same.
    fn is_another_in_dispute(&self, reached: Option<Reached>) -> bool {
        for (index, state) in self.states.iter().enumerate() {
            if state.is_in_dispute() && self.is_open(index) && state.reached != reached {
                return true;
            }
        }
        false
    }

    /// Whether to connect to a peer anew, so that the histories are compared: while one differs,
    /// with a peer that isn't known to agree and has published as much as this node, each second.
    pub(crate) fn is_to_be_compared(&self, index: usize, published: u16, time: u64) -> bool {
        if self.differing().is_none() {
            return false;
        }
        match (self.states.get(index), self.dials.get(index)) {
            (Some(state), Some(dial)) => {
                state.agreement == Agreement::Unknown
                    && is_open_since(dial, time)
                    && published <= self.table.published(index)
            }
            _ => false,
        }
    }
}

/// Whether a connection has been open for the time between two comparisons.
fn is_open_since<C: Connection + Drop>(dial: &Dial<C>, time: u64) -> bool {
    dial.is_open() && COMPARING_MILLIS <= time.saturating_sub(dial.since())
}
