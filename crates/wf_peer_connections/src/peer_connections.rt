//! The connections to and from the peers of a node, and what is known of them.
ghost use Rattle.std.specs.Prelude.{◌≡◌};

use crate::dial::Dial;
use crate::event::FolderNotWritten;
use crate::inbound::Inbound;
use crate::intake::close;
use crate::order::Order;
use crate::peer_state::PeerState;
use crate::peer_table::PeerTable;
use crate::plan::NodePlan;
use crate::steps::Steps;
use crate::unlisted::Unlisted;
use std::alloc::{AllocError, Global};
use std::mem;
use std::net::SocketAddr;
use std::time::Clock;
use wf_ballot::NodeId;
use wf_digest::Digests;
use wf_folder::Suspension;
use wf_learner::History;
use wf_membership::{FolderError, Gate};
use wf_peer::{PeerProgress, Progress};
use wf_rejoin::Replacements;
use wf_sockets::{Connection, Network};
use wf_store::FileName;
use wf_timing::CatchUp;
use wf_visitors::Log;

/// The most bytes of a piece. Nearly all messages come in one.
const PIECE_BYTES: usize = 65_536;

/// The most sequences without a digest that a turn leaves.
const MOST_LACKING: u16 = 8;

/// For how long the answer of a peer is waited for after a start, with no connection to it and with
/// one, in milliseconds.
const UNCONNECTED_START: u64 = 1_000;

const LONGEST_START: u64 = 3_000;

/// The most nodes of a farm.
pub const MOST_NODES: usize = 64;

/// The most connections from peers at once.
pub const INBOUND_SLOTS: usize = 128;

/// The connections to and from the peers of a node, and what is known of them.
#[derive(Drop)]
pub struct PeerConnections<N: Network> {
    pub plan: NodePlan,
    pub listener: N::Listener,
    pub dials: Vec<Dial<N::Connection>>,
    pub(crate) inbounds: Vec<Option<Inbound<N::Connection>>>,
    // where a piece is read to
    pub piece: Vec<u8>,
    pub(crate) states: Vec<PeerState>,
    pub table: PeerTable,
    pub catch_up: CatchUp,
    // the replacements of nodes that peers have told of, those with which the node began too, and
    // when something new came
    pub(crate) learned: Replacements,
    pub(crate) learned_at: Option<u64>,
    // what is to be written about replacements
    pub order: Option<Order>,
    // whether what was written is for the next start
    pub is_over: bool,
    // the messages that the node took in
    pub steps: Steps,
    // whether the log has that it is outvoted
    pub(crate) is_outvoted: bool,
    // who suspended the node, and whether its folder says so
    pub suspension: Option<Suspension>,
    pub is_suspension_kept: bool,
    pub(crate) is_suspension_new: bool,
    // what can't be written to the folder
    pub(crate) unwritten: Option<FileName>,
    // when a connection with a peer last began
    pub(crate) connected_at: u64,
    // since when the event loop runs
    pub(crate) since: u64,
    // since when what peers remember is waited for; None once it was
    began: Option<u64>,
    pub(crate) unlisted: Unlisted,
    // whether more waits to be read
    pub is_busy: bool,
    // whether nothing came in this turn
    is_idle: bool,
}

/// A connection to each node, none of them open.
fn dials_of<C: Connection + Drop>(
    alloc: Global,
    peers: &[SocketAddr],
) -> Result<Vec<Dial<C>>, AllocError> {
    let mut dials = Vec::new(alloc);
    for address in peers {
        dials.push(Dial::new(alloc, *address))?;
    }
    Ok(dials)
}

/// Free slots for the connections from peers.
fn free_slots<C: Connection + Drop>(alloc: Global) -> Result<Vec<Option<Inbound<C>>>, AllocError> {
    let mut slots = Vec::new(alloc);
    for _ in 0..INBOUND_SLOTS {
        slots.push(None)?;
    }
    Ok(slots)
}

/// Nothing is known of the peers.
fn unknown_peers(alloc: Global, count: usize) -> Result<Vec<PeerState>, AllocError> {
    let mut states = Vec::new(alloc);
    for _ in 0..count {
        states.push(PeerState::default())?;
    }
    Ok(states)
}

/// What the connections to peers need, allocated.
#[derive(Drop)]
pub(crate) struct Rooms<C: Connection> {
    dials: Vec<Dial<C>>,
    inbounds: Vec<Option<Inbound<C>>>,
    piece: Vec<u8>,
    states: Vec<PeerState>,
    table: PeerTable,
}

impl<C: Connection + Drop> Rooms<C> {
    /// For the nodes of this plan, with what was heard of them before.
    pub(crate) fn new(
        alloc: Global,
        plan: &NodePlan,
        known: PeerProgress,
    ) -> Result<Self, AllocError> {
        let table = PeerTable::new(alloc, plan.own, known)?;
        let piece = vec![in alloc; 0; PIECE_BYTES]?;
        let states = unknown_peers(alloc, plan.peers.len())?;
        let dials = dials_of(alloc, plan.peers.as_slice())?;
        let inbounds = free_slots(alloc)?;
        Ok(Rooms {
            dials,
            inbounds,
            piece,
            states,
            table,
        })
    }
}

impl<N: Network> PeerConnections<N> {
    /// No connection yet.
    pub(crate) fn new(
        alloc: Global,
        plan: NodePlan,
        listener: N::Listener,
        rooms: Rooms<N::Connection>,
        time: u64,
    ) -> Self
        ensures suspended { result.suspension ≡ plan.suspension }
        ensures plan { result.plan ≡ plan }
    {
        let Rooms {
            dials,
            inbounds,
            piece,
            states,
            table,
        } = rooms;
        let suspension = plan.suspension;
        let learned = plan.replacements;
        PeerConnections {
            plan,
            listener,
            dials,
            inbounds,
            piece,
            states,
            table,
            catch_up: CatchUp::new(time),
            learned,
            learned_at: None,
            order: None,
            is_over: false,
            steps: Steps::default(),
            is_outvoted: false,
            suspension,
            is_suspension_kept: suspension.is_some(),
            is_suspension_new: false,
            unwritten: None,
            connected_at: time,
            since: time,
            began: Some(time),
            unlisted: Unlisted::new(alloc),
            is_busy: false,
            is_idle: false,
        }
    }

    /// A turn begins, in which so many sockets are ready. Where it could wait for one, and none is,
    /// there is time for the digests.
    pub fn begin_turn(&mut self, could_wait: bool, ready: usize) {
        self.is_busy = false;
        self.is_idle = could_wait && ready == 0;
    }

    /// Extends the digests to the history if there is time for it, or if too many lack. What needs
    /// one sooner extends them itself.
    pub fn extend_digests(&mut self, history: &History) {
        if self.is_idle || self.table.lacks_more_than(history, MOST_LACKING) {
            self.table.extend(history);
        }
    }

    /// Whether digests are to be made once nothing comes: some lack, and it wasn't just tried in
    /// vain.
    pub fn wants_digests(&self, history: &History) -> bool {
        !self.is_idle && self.table.lacks_more_than(history, 0)
    }

    /// Notes that what is for a file of the folder can't be written; the log has the first failure,
    /// with the file that is its cause: another one may have to be written before.
    pub fn note_unwritten<R: Clock + Eprint>(
        &mut self,
        log: &Log<'_, R>,
        time: u64,
        file: FileName,
        why: FolderError,
    ) {
        if self.unwritten.is_none() {
            self.unwritten = Some(file);
            log.write(&FolderNotWritten {
                folder: self.plan.folder.as_str(),
                file: why.file().unwrap_or(file),
                why,
            });
            self.close_all(time);
        }
    }

    /// A file of the folder can be written again.
    pub fn note_written(&mut self, file: FileName) {
        if self.unwritten == Some(file) {
            self.unwritten = None;
        }
    }

    /// The node is opened again, by this start: it greets as it is now, and connections begin anew.
    pub fn begin_run(&mut self, digests: Digests, starts: u32, time: u64)
        ensures starts { self.new.plan.start.starts ≡ starts }
        ensures digests { self.new.table.digests ≡ digests }
    {
        self.close_all(time);
        for dial in &mut self.dials {
            dial.begin_run();
        }
        self.table.begin(digests);
        self.begin_start(time);
        self.plan.start = Progress {
            starts,
            ..self.plan.start
        };
    }

    /// A start begins: what the peers remember is waited for.
    fn begin_start(&mut self, time: u64)
        ensures table { self.new.table ≡ self.old.table }
    {
        self.began = Some(time);
        for state in &mut self.states {
            state.has_answered = false;
        }
    }

    /// A peer has answered this node's greeting, or closed the connection.
    pub fn note_answer(&mut self, index: usize) {
        if let Some(state) = self.states.get_mut(index) {
            state.has_answered = true;
        }
    }

    /// Whether the node may act: each peer has answered since it started, or closed the connection,
    /// or a second passed without one, or three with one.
    pub(crate) fn has_waited(&mut self, time: u64) -> bool {
        let Some(began) = self.began else {
            return true;
        };
        let elapsed = time.saturating_sub(began);
        if elapsed < LONGEST_START && self.is_waiting(elapsed) {
            return false;
        }
        self.began = None;
        true
    }

    /// Whether a peer's answer is waited for, so long after the start.
    fn is_waiting(&self, elapsed: u64) -> bool {
        let own = self.plan.own.node.number() as usize;
        for (index, dial) in self.dials.iter().enumerate() {
            if index != own
                && !self.has_answered(index)
                && (elapsed < UNCONNECTED_START || dial.is_established())
            {
                return true;
            }
        }
        false
    }

    /// Whether a peer has answered since the start.
    fn has_answered(&self, index: usize) -> bool {
        match self.states.get(index) {
            Some(state) => state.has_answered,
            None => false,
        }
    }

    /// Who suspended the node, if its folder doesn't say so yet, and that was just found or is to
    /// be tried again.
    pub fn unkept_suspension(&mut self, is_due: bool) -> Option<Suspension> {
        let is_new = mem::replace(&mut self.is_suspension_new, false);
        if self.is_suspension_kept || !(is_new || is_due) {
            return None;
        }
        self.suspension
    }

    /// How the node is to act now.
    pub fn gate(&mut self, time: u64) -> Gate {
        if self.suspension.is_some() {
            Gate::Suspended
        } else if self.unwritten.is_some() || self.is_over {
            Gate::Unwritten
        } else if self.has_waited(time) {
            Gate::Open
        } else {
            Gate::Starting
        }
    }

    /// Whether messages of a majority came within five seconds, this node counted.
    pub fn hears_majority(&self, time: u64) -> bool {
        let mut count = 1usize;
        for index in 0..self.dials.len() {
            if self.is_heard(index, time) {
                count = count.saturating_add(1);
            }
        }
        self.is_majority(count)
    }

    /// Whether so many nodes are a majority of the farm.
    pub(crate) fn is_majority(&self, count: usize) -> bool {
        self.dials.len() < count.saturating_mul(2)
    }

    /// Whether a message of a peer came a short time ago, and it serves.
    pub(crate) fn is_heard(&self, index: usize, time: u64) -> bool {
        match self.states.get(index) {
            Some(state) => state.is_heard(time),
            None => false,
        }
    }

    /// When a connection with a peer last began, to it or from it. What was said before that may be
    /// lost.
    pub(crate) fn connected_at(&self) -> u64 {
        self.connected_at
    }

    /// Closes all connections.
    pub fn close_all(&mut self, time: u64) {
        for dial in &mut self.dials {
            dial.end(time);
        }
        for slot in &mut self.inbounds {
            close(slot);
        }
    }

    /// The latest sequence that was heard of.
    pub fn latest(&self) -> u16 {
        self.table.latest(self.dials.len())
    }

    /// Notes whether a peer is heard, how many messages to it were dropped and put into its
    /// outboxes, and how many bytes were written to it.
    pub fn note_state(&mut self, index: usize, time: u64) {
        let is_heard = self.is_heard(index, time);
        if let (Some(state), Some(dial)) = (self.states.get_mut(index), self.dials.get(index)) {
            state.is_connected = is_heard;
            state.written = dial.byte_count();
            state.lost = dial.drop_count();
            state.posted = dial.post_count();
        }
    }
}

/// The node of a number.
pub fn id_of(number: usize) -> Option<NodeId> {
    match u8::try_from(number) {
        Ok(number) => NodeId::new(number),
        Err(_) => None,
    }
}
