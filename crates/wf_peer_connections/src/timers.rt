//! What a node does by the clock.
ghost use Rattle.std.specs.Prelude.{◌≡◌, ◌≤◌, ◌↔◌, IsTrue, Some};
ghost use Rattle.wf_peer_connections.specs.Alarms.{IsDue, differs};

use crate::event::{NodeEvent, TapeFailed};
use crate::peer_connections::PeerConnections;
use std::io::ErrorKind;
use std::time::Clock;
use wf_ballot::NodeId;
use wf_proposer::ProposalState;
use wf_sockets::Network;
use wf_timing::{Alarm, Backoff, SECOND, Ticker, retry_of};
use wf_visitors::{Context, Log};

/// The time between two ticks, in milliseconds.
pub const TICK_MILLIS: u64 = 100;

/// The time after which the folder says how far the node is, in milliseconds: a second at most,
/// with what a turn takes.
const KEEPING_MILLIS: u64 = 800;

/// The least time between two attempts to open a failed tape again, in milliseconds.
const LEAST_REOPENING: u64 = 1_000;

/// The greatest time between two attempts to open a failed tape again, in milliseconds.
const MOST_REOPENING: u64 = 2_000;

/// For how long a tape has to stand before the waits begin from the least one, in milliseconds.
const LONG_STANDING: u64 = 60_000;

/// How much longer than a node's first wait a round lasts at most once a connection with a peer has
/// begun, in milliseconds: with the one before it, messages of the round may be lost.
const LOST_MILLIS: u64 = 1_000;

/// What a node does by the clock, and what was last seen of it.
#[derive(Clone, Copy)]
pub struct Timers {
    node: NodeId,
    ticks: Ticker,
    seconds: Ticker,
    // when the folder is written to
    keeping: Ticker,
    retries: Backoff,
    retry: Option<Alarm>,
    // when the round of the running proposal began
    tried_at: u64,
    // how many maps were published when a preempted proposal last began again without a wait
    hastened_at: Option<u16>,
    reopenings: Backoff,
    reopening: Option<Alarm>,
    // since when the tape hasn't failed
    stands_since: u64,
    last: ProposalState,
    // whether a majority was heard at the last tick
    heard_majority: bool,
}

impl Timers {
    /// Nothing was done yet.
    pub fn new(node: NodeId, time: u64) -> Self {
        Timers {
            node,
            ticks: Ticker::new(time, TICK_MILLIS),
            seconds: Ticker::new(time, SECOND),
            keeping: Ticker::new(time, KEEPING_MILLIS),
            retries: retry_of(node),
            retry: None,
            tried_at: time,
            hastened_at: None,
            reopenings: Backoff::new(LEAST_REOPENING, MOST_REOPENING),
            reopening: None,
            stands_since: time,
            last: ProposalState::None,
            heard_majority: false,
        }
    }

    /// The time until the next tick, in milliseconds.
    pub fn rest(&self, time: u64) -> u64
        ensures { result ≤ 100 }
    {
        self.ticks.due.saturating_sub(time).min(TICK_MILLIS)
    }

    /// Whether the folder is to be written to.
    pub fn is_keeping_due(&mut self, time: u64) -> bool {
        self.keeping.tick(time)
    }

    /// Whether it is time to open the failed tape again.
    pub fn is_reopening_due(&self, time: u64) -> bool
        ensures { IsTrue result ↔ IsDue self.now.reopening time }
    {
        match self.reopening {
            Some(alarm) => alarm.is_due(time),
            None => false,
        }
    }

    /// The tape was opened again.
    pub fn note_reopening(&mut self, time: u64) {
        self.reopening = None;
        self.stands_since = time;
    }

    /// The waits begin from the least one if the tape stood long enough.
    fn begin_waits(&mut self, time: u64) {
        if LONG_STANDING <= time.saturating_sub(self.stands_since) {
            self.reopenings = Backoff::new(LEAST_REOPENING, MOST_REOPENING);
        }
    }

    /// The tape couldn't be opened again: that is tried later.
    pub fn postpone_reopening(&mut self, time: u64) {
        self.reopening = Some(Alarm::after(time, self.reopenings.wait()));
    }

    /// Whether a tick is over.
    pub fn is_tick(&mut self, time: u64) -> bool {
        self.ticks.tick(time)
    }

    /// Whether a second is over.
    pub fn is_second(&mut self, time: u64) -> bool {
        self.seconds.tick(time)
    }

    /// Whether a running proposal is to begin again: it is time to, or a majority is heard that
    /// wasn't.
    pub fn is_retry_due<N: Network>(
        &mut self,
        proposal: ProposalState,
        peers: &PeerConnections<N>,
        time: u64,
    ) -> bool {
        let is_back = self.notes_majority(peers.hears_majority(time));
        if !matches!(proposal, ProposalState::Running) {
            self.retry = None;
            self.retries = retry_of(self.node);
            return false;
        }
        let is_due = is_back || self.is_round_over(peers.connected_at(), time);
        if is_back {
            self.retries = retry_of(self.node);
        }
        if is_due || self.retry.is_none() {
            self.tried_at = time;
            self.retry = Some(Alarm::after(time, self.retries.wait()));
        }
        is_due
    }

    /// Whether a preempted proposal is to begin again at once, after this many published maps: the
    /// first time that one is after as many. A node that only waited would be overtaken each time
    /// by those whose rounds are higher; one that never waited would preempt them for ever.
    pub fn is_first_preemption(&mut self, published: u16, time: u64) -> bool
        ensures result { result ≡ differs self.old.hastened_at published }
        ensures noted { self.new.hastened_at ≡ Some published }
    {
        let is_first = match self.hastened_at {
            Some(last) => last != published,
            None => true,
        };
        self.hastened_at = Some(published);
        if is_first {
            self.tried_at = time;
            self.retry = Some(Alarm::after(time, self.retries.wait()));
        }
        is_first
    }

    /// Whether the answers to the round of a running proposal were waited for, where a connection
    /// with a peer last began at this time.
    fn is_round_over(&self, connected_at: u64, time: u64) -> bool {
        let Some(alarm) = self.retry else {
            return false;
        };
        if connected_at < self.tried_at {
            return alarm.is_due(time);
        }
        let wait = self.retries.first.saturating_add(LOST_MILLIS);
        alarm.sooner(Alarm::after(connected_at, wait)).is_due(time)
    }

    /// Whether a majority is heard that wasn't before; that it is heard is noted.
    fn notes_majority(&mut self, is_heard: bool) -> bool {
        let is_back = is_heard && !self.heard_majority;
        self.heard_majority = is_heard;
        is_back
    }

    /// The tape has failed, as the system said: once, that is written, and the connections with
    /// peers end, to which the node has nothing more to say.
    pub fn note_failed_tape<R: Clock + Eprint, N: Network>(
        &mut self,
        context: &Context<'_, '_, R, N>,
        peers: &mut PeerConnections<N>,
        cause: Option<ErrorKind>,
    ) {
        if self.reopening.is_some() {
            return;
        }
        context.log.write(&TapeFailed {
            tape: peers.plan.tape.as_str(),
            cause,
        });
        peers.close_all(context.time);
        self.begin_waits(context.time);
        self.postpone_reopening(context.time);
    }

    /// Writes what has become of the proposal, if that is new.
    pub fn watch_proposal<R: Clock + Eprint>(&mut self, log: &Log<'_, R>, proposal: ProposalState) {
        if proposal == self.last {
            return;
        }
        self.last = proposal;
        match proposal {
            ProposalState::Published(slot) => log.write(&NodeEvent::Published {
                sequence: slot.number(),
            }),
            ProposalState::Overtaken(slot) => log.write(&NodeEvent::Overtaken {
                sequence: slot.number(),
            }),
            ProposalState::None | ProposalState::Running => {}
        }
    }
}
