//! A client, and its phase.
ghost use Rattle.std.specs.Prelude.{◌≡◌, ◌↔◌, [], false, IsTrue};
ghost use Rattle.wf_client.specs.Client.{PhaseBegins, IsClientOver, is_asking, limit_of, weight_of};

use crate::limits::{ANSWER_MILLIS, LINGER_MILLIS, REQUEST_MILLIS};
use crate::partial_request::Incoming;
use crate::response_buffer::Outgoing;
use std::alloc::Global;
use std::marker::Model;

/// What is waited for.
#[derive(Clone, Copy, PartialEq, Eq)]
pub enum ClientPhase {
    /// The request isn't whole.
    Asking,
    /// The answer isn't taken.
    Taking,
    /// The answer is taken: what the client still sends is dropped.
    Lingering,
}

/// A client: its phase, since when it is in it, its request and its answer.
#[derive(Drop)]
pub struct Client {
    phase: ClientPhase,
    since: u64,
    pub incoming: Incoming,
    pub outgoing: Outgoing,
}

impl Model for Client {
    ghost use Rattle.wf_client.specs.Client.{Client as ClientValue};

    ghost Value = { ClientValue };

    ghost view = { λ c. record { phase = c.phase; since = c.since; incoming = c.incoming; outgoing = c.outgoing } };
}

impl Client {
    /// A client that came now.
    pub fn new(alloc: Global, now: u64) -> Self
        ensures phase { result.phase ≡ ClientPhase.Asking }
        ensures since { result.since ≡ now }
        ensures incoming { result.incoming ≡ record { bytes = []; needed = 1; is_closed = false } }
        ensures outgoing { result.outgoing ≡ record { bytes = []; done = 0; failures = 0 } }
    {
        Client {
            phase: ClientPhase::Asking,
            since: now,
            incoming: Incoming::new(alloc),
            outgoing: Outgoing::new(alloc),
        }
    }

    /// Its phase.
    pub fn phase(&self) -> ClientPhase
        ensures { result ≡ self.now.phase }
    {
        self.phase
    }

    /// Since when it is in this phase.
    pub fn since(&self) -> u64
        ensures { result ≡ self.now.since }
    {
        self.since
    }

    /// Whether its request isn't whole.
    pub fn is_asking(&self) -> bool
        ensures { result ≡ is_asking self.now.phase }
    {
        matches!(self.phase, ClientPhase::Asking)
    }

    /// The next phase begins now.
    pub fn begin(&mut self, phase: ClientPhase, now: u64)
        ensures { PhaseBegins phase now self.old self.new }
    {
        self.phase = phase;
        self.since = now;
    }

    /// Whether the time of its phase is over: all of it counts from the beginning of the phase.
    pub fn is_over(&self, now: u64) -> bool
        ensures { IsTrue result ↔ IsClientOver now self.now }
    {
        limit_of(self.phase) <= now.saturating_sub(self.since)
    }

    /// The bytes of its request and of its answer.
    pub fn weight(&self) -> usize
        ensures { result ≡ weight_of self.now }
    {
        self.incoming
            .len()
            .saturating_add(self.outgoing.bytes().len())
    }
}

/// The time of a phase, in milliseconds.
pub fn limit_of(phase: ClientPhase) -> u64
    ensures { result ≡ limit_of phase }
{
    match phase {
        ClientPhase::Asking => REQUEST_MILLIS,
        ClientPhase::Taking => ANSWER_MILLIS,
        ClientPhase::Lingering => LINGER_MILLIS,
    }
}
