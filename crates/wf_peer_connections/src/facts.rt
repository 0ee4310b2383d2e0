//! What a node tells its operator.

use crate::order::Order;
use crate::peer_state::{Differing, PeerState};
use crate::peer_table::PeerTable;
use crate::question::{Decision, Standing};
use crate::steps::Steps;
use std::alloc::AllocError;
use std::fmt::Write;
use std::net::{Ipv6Addr, SocketAddr};
use std::rt::Files;
use wf_ballot::NodeId;
use wf_folder::{PeerAddress, Suspension};
use wf_learner::History;
use wf_membership::Tally;
use wf_operator::{
    Health, MetricType, Operated, PictureCounts, ReplaceReply, ReplaceRequest, StartTime, counter,
    gauge, head, push_open, push_requests, push_sequences, push_tape_bytes, seconds,
};
use wf_peer::{PeerRejection, hindrance_of};
use wf_proposer::ProposalState;
use wf_rejoin::Asked;
use wf_store::file_length;
use wf_visitors::Counts;

/// What a node tells its operator.
#[derive(Drop)]
pub(crate) struct NodeFacts<'a, R> {
    pub(crate) rt: &'a R,
    pub(crate) started: StartTime,
    pub(crate) history: &'a History,
    pub(crate) table: &'a PeerTable,
    pub(crate) peers: &'a [PeerState],
    pub(crate) requests: &'a Counts,
    pub(crate) rejected: &'a Tally,
    pub(crate) pictures: PictureCounts,
    pub(crate) unkept: u64,
    pub(crate) steps: Steps,
    pub(crate) tape: &'a str,
    pub(crate) is_halted: bool,
    pub(crate) proposal: ProposalState,
    pub(crate) differs: Option<Differing>,
    pub(crate) is_outvoted: bool,
    pub(crate) suspension: Option<Suspension>,
    pub(crate) is_unwritten: bool,
    pub(crate) hears_majority: bool,
    pub(crate) reader_differs: Option<u16>,
    pub(crate) latest: u16,
    pub(crate) is_behind: bool,
    pub(crate) clients: usize,
    pub(crate) readers: usize,
    pub(crate) node: NodeId,
    // since when the event loop runs, and now
    pub(crate) since: u64,
    pub(crate) time: u64,
    pub(crate) standing: Standing,
    // what an operator's question has left to write
    pub(crate) order: Option<Order>,
}

impl<'a, R: Files> Operated for NodeFacts<'a, R> {
    fn history(&self) -> &History {
        self.history
    }

    fn digest_at(&self, number: u16) -> Option<[u8; 32]> {
        self.table.digest_at(number)
    }

    fn health(&self) -> Health {
        if let Some(suspension) = self.suspension {
            return Health::Suspended {
                peer: suspension.accuser.number() as usize,
                address: socket_address(suspension.address),
                remembers: remembered(suspension.cause),
            };
        }
        if self.is_halted || self.is_unwritten {
            return Health::Halted;
        }
        if let Some(joiner) = &self.standing.joining {
            return Health::Joins(joiner.phase(self.history.published()));
        }
        if self.is_outvoted {
            if let Some(differing) = self.differs {
                return Health::Differs {
                    peer: differing.peer,
                    address: differing.address,
                    sequence: differing.sequence,
                };
            }
        }
        match self.reader_differs {
            Some(sequence) => Health::ReaderDiffers { sequence },
            None => Health::Fine,
        }
    }

    fn hears_majority(&self) -> Option<bool> {
        Some(self.hears_majority)
    }

    fn later(&self) -> Option<u16> {
        if self.is_behind {
            Some(self.latest)
        } else {
            None
        }
    }

    fn push_metrics(&self, text: &mut String) -> Result<(), AllocError> {
        self.started.push_to(text)?;
        push_sequences(text, self.history.published().number(), self.latest)?;
        push_farm(text, self)?;
        push_health(text, self)?;
        push_open(text, self.clients as u64, self.readers as u64)?;
        push_proposal(text, self.proposal)?;
        push_peers(text, self.peers)?;
        push_requests(text, self.requests)?;
        self.pictures.push_to(text, self.unkept)?;
        self.rejected.push_to(text)?;
        push_steps(text, self.steps)?;
        push_tape_bytes(text, file_length(self.rt, self.tape))
    }

    fn push_replacements(&self, text: &mut String) -> Result<bool, AllocError> {
        self.standing
            .push_to(text, self.node.number(), self.history.published())?;
        Ok(true)
    }

    fn replace(&mut self, request: &ReplaceRequest) -> ReplaceReply {
        let Some(asked) = self.asked(request) else {
            return ReplaceReply::NotANode;
        };
        let Decision { reply, order } = self.standing.decide(&asked, request);
        self.note(&order);
        reply
    }
}

impl<'a, R> NodeFacts<'a, R> {
    /// The node as it is asked. None: it is asked about one that the farm hasn't.
    fn asked(&self, request: &ReplaceRequest) -> Option<Asked> {
        let silence = match request {
            ReplaceRequest::Ask(proposed) | ReplaceRequest::Agree(proposed) => {
                let peer = self.peers.get(proposed.node.number() as usize)?;
                peer.silence(self.time)
            }
            ReplaceRequest::Begin(_) => None,
        };
        Some(Asked {
            node: self.node,
            hindrance: hindrance_of(self.standing.state),
            running: self.time.saturating_sub(self.since),
            silence,
        })
    }

    /// What is to be written: a further question is answered by it.
    fn note(&mut self, order: &Option<Order>) {
        match order {
            Some(Order::Note(latest)) => self.standing.learned = *latest,
            Some(Order::Join(step)) => self.standing.tell(step),
            Some(Order::Joined) | None => {}
        }
        if order.is_some() {
            self.order = *order;
        }
    }
}

/// The address of a peer.
fn socket_address(address: PeerAddress) -> SocketAddr {
    SocketAddr::new(
        Ipv6Addr::from_octets(address.ip).to_canonical(),
        address.port,
    )
}

/// What a peer remembers of a node, by the number of the cause for which it isn't let in.
fn remembered(cause: u8) -> &'static str {
    match PeerRejection::of_byte(cause) {
        Some(PeerRejection::OtherMark) => "another folder",
        Some(PeerRejection::OlderStart) => "a later start",
        Some(PeerRejection::OtherLife) => "another start of as many",
        Some(PeerRejection::LowerRound) => "a higher round",
        Some(PeerRejection::LowerPromise) => "a higher promise",
        Some(PeerRejection::LowerVote) => "a higher vote",
        Some(PeerRejection::LowerSequence) => "a later publication",
        Some(PeerRejection::Retired) => "another folder in its place",
        _ => "more",
    }
}

/// How many peers are heard.
fn connected_count(peers: &[PeerState]) -> u64 {
    let mut count = 0u64;
    for peer in peers {
        count = count.saturating_add(peer.is_connected as u64);
    }
    count
}

/// Appends how many nodes the farm has, and how many are heard.
fn push_farm<R>(text: &mut String, facts: &NodeFacts<'_, R>) -> Result<(), AllocError> {
    let connected = connected_count(facts.peers);
    let nodes = facts.peers.len();
    gauge(
        text,
        "wfarm_nodes",
        "Nodes of the farm, this one counted",
        nodes as u64,
    )?;
    gauge(
        text,
        "wfarm_peers_connected",
        "Peers of which a message came within five seconds",
        connected,
    )?;
    gauge(
        text,
        "wfarm_majority_connected",
        "1 where a majority of the farm is heard, this node counted",
        facts.hears_majority as u64,
    )
}

/// Appends what is wrong with the node.
fn push_health<R>(text: &mut String, facts: &NodeFacts<'_, R>) -> Result<(), AllocError> {
    let is_halted = facts.is_halted || facts.is_unwritten;
    let differs = facts.differs.is_some() || facts.reader_differs.is_some();
    gauge(
        text,
        "wfarm_halted",
        "1 where the tape has failed, or the folder can't be written",
        is_halted as u64,
    )?;
    gauge(
        text,
        "wfarm_suspended",
        "1 where a peer remembers more of the node than it has",
        facts.suspension.is_some() as u64,
    )?;
    gauge(
        text,
        "wfarm_history_differs",
        "1 where the history of a peer or a reader is another one",
        differs as u64,
    )
}

/// Appends how many messages the node took in, and for how long.
fn push_steps(text: &mut String, steps: Steps) -> Result<(), AllocError> {
    counter(
        text,
        "wfarm_steps_total",
        "Messages that the node took in, its own too",
        steps.number,
    )?;
    seconds(
        text,
        "wfarm_step_seconds_total",
        "Time that these took, writes to the tape included",
        steps.micros,
    )
}

/// Appends the state of the node's proposal.
fn push_proposal(text: &mut String, proposal: ProposalState) -> Result<(), AllocError> {
    head(
        text,
        "wfarm_proposal",
        "1 for the state of the last map that was proposed to this node",
        MetricType::Gauge,
    )?;
    let none = matches!(proposal, ProposalState::None) as u8;
    let running = matches!(proposal, ProposalState::Running) as u8;
    let published = matches!(proposal, ProposalState::Published(_)) as u8;
    let overtaken = matches!(proposal, ProposalState::Overtaken(_)) as u8;
    write!(text, "wfarm_proposal{{state=\"none\"}} {none}\n")?;
    write!(text, "wfarm_proposal{{state=\"running\"}} {running}\n")?;
    write!(text, "wfarm_proposal{{state=\"published\"}} {published}\n")?;
    write!(text, "wfarm_proposal{{state=\"overtaken\"}} {overtaken}\n")
}

/// A number that is counted of each peer.
#[derive(Clone, Copy)]
enum PeerCounter {
    Received,
    Posted,
    Lost,
    Written,
    Rejected,
}

impl PeerCounter {
    /// Its metric.
    fn name(self) -> &'static str {
        match self {
            PeerCounter::Received => "wfarm_messages_in_total",
            PeerCounter::Posted => "wfarm_messages_out_total",
            PeerCounter::Lost => "wfarm_messages_dropped_total",
            PeerCounter::Written => "wfarm_bytes_out_total",
            PeerCounter::Rejected => "wfarm_rejected_peers_total",
        }
    }

    /// What its metric tells.
    fn help(self) -> &'static str {
        match self {
            PeerCounter::Received => "Messages that came from a peer",
            PeerCounter::Posted => "Messages that were to be sent to a peer",
            PeerCounter::Lost => "Messages to a peer that were dropped",
            PeerCounter::Written => "Bytes that were written to a peer",
            PeerCounter::Rejected => "Greetings of a peer by which it wasn't let in",
        }
    }

    /// What was counted of a peer.
    fn value(self, peer: &PeerState) -> u64 {
        match self {
            PeerCounter::Received => peer.received,
            PeerCounter::Posted => peer.posted,
            PeerCounter::Lost => peer.lost,
            PeerCounter::Written => peer.written,
            PeerCounter::Rejected => peer.rejected,
        }
    }
}

/// Appends what is known of the peers.
fn push_peers(text: &mut String, peers: &[PeerState]) -> Result<(), AllocError> {
    push_peer_counter(text, peers, PeerCounter::Received)?;
    push_peer_counter(text, peers, PeerCounter::Posted)?;
    push_peer_counter(text, peers, PeerCounter::Lost)?;
    push_peer_counter(text, peers, PeerCounter::Written)?;
    push_peer_counter(text, peers, PeerCounter::Rejected)
}

/// Appends a counter with a sample of each peer.
fn push_peer_counter(
    text: &mut String,
    peers: &[PeerState],
    peer_counter: PeerCounter,
) -> Result<(), AllocError> {
    let name = peer_counter.name();
    head(text, name, peer_counter.help(), MetricType::Counter)?;
    for (number, peer) in peers.iter().enumerate() {
        let value = peer_counter.value(peer);
        write!(text, "{name}{{peer=\"{number}\"}} {value}\n")?;
    }
    Ok(())
}
