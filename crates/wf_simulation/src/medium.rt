//! What all connections of a network share: the time, chance, and who reaches whom.

use crate::chance::Chance;
use crate::counts::Counts;
use crate::faults::Faults;
use std::alloc::{AllocError, Global};

/// The time after which a step is tried again that nothing let through, in milliseconds.
pub(crate) const RETRY_MILLIS: u64 = 200;

/// A host.
#[derive(Clone, Copy)]
pub(crate) struct Host {
    pub(crate) is_on: bool,
    pub(crate) next_port: u16,
    // the token of a socket that was closed while an event of it waited
    pub(crate) stale: Option<usize>,
}

/// What all connections share.
pub(crate) struct Medium {
    pub(crate) time: u64,
    pub(crate) chance: Chance,
    pub(crate) faults: Faults,
    pub(crate) hosts: Vec<Host>,
    pub(crate) counts: Counts,
    // until when nothing goes from a host to another, the first's row after the row of the one
    // before
    blocked: Vec<u64>,
}

impl Drop for Medium {
    fn drop(self) {
        let Medium {
            time: _,
            chance,
            faults: _,
            hosts,
            counts: _,
            blocked,
        } = self;
        drop(chance);
        drop(hosts);
        drop(blocked);
    }
}

impl Medium {
    /// A medium of so many hosts, all of which are on and reach each other.
    pub(crate) fn new(
        alloc: Global,
        seed: u64,
        faults: Faults,
        count: usize,
    ) -> Result<Self, AllocError> {
        let mut hosts = Vec::new(alloc);
        let mut blocked = Vec::new(alloc);
        for _ in 0..count {
            hosts.push(Host {
                is_on: true,
                next_port: FIRST_PORT,
                stale: None,
            })?;
            for _ in 0..count {
                blocked.push(0)?;
            }
        }
        Ok(Medium {
            time: 0,
            chance: Chance::new(seed),
            faults,
            hosts,
            counts: Counts::default(),
            blocked,
        })
    }

    /// The moment of the next step that begins now.
    pub(crate) fn soon(&mut self) -> u64 {
        let delay = self.chance.up_to(self.faults.delay);
        self.time.saturating_add(u64::from(delay))
    }

    /// The moment at which a step is tried again.
    pub(crate) fn later(&self) -> u64 {
        self.time.saturating_add(RETRY_MILLIS)
    }

    /// Whether a host is on.
    pub(crate) fn is_on(&self, host: usize) -> bool {
        match self.hosts.get(host) {
            Some(host) => host.is_on,
            None => false,
        }
    }

    /// Whether something that a host sent reaches another now.
    pub(crate) fn reaches(&self, from: usize, to: usize) -> bool {
        match self.blocked.get(self.index(from, to)) {
            Some(until) => *until <= self.time && self.is_on(to),
            None => false,
        }
    }

    /// Nothing goes from a host to another until then.
    pub(crate) fn block(&mut self, from: usize, to: usize, until: u64) {
        let index = self.index(from, to);
        if let Some(blocked) = self.blocked.get_mut(index) {
            *blocked = until;
        }
    }

    /// Where a pair of hosts is listed.
    fn index(&self, from: usize, to: usize) -> usize {
        if to < self.hosts.len() {
            from.saturating_mul(self.hosts.len()).saturating_add(to)
        } else {
            usize::MAX
        }
    }

    /// A port for a connection that a host begins.
    pub(crate) fn port(&mut self, host: usize) -> u16 {
        match self.hosts.get_mut(host) {
            Some(host) => {
                let port = host.next_port;
                host.next_port = port.checked_add(1).unwrap_or(FIRST_PORT);
                port
            }
            None => FIRST_PORT,
        }
    }

    /// A host is told of a socket that is closed.
    pub(crate) fn note_stale(&mut self, host: usize, token: usize) {
        if let Some(host) = self.hosts.get_mut(host) {
            host.stale = Some(token);
        }
    }
}

/// The first port for a connection that a host begins.
pub(crate) const FIRST_PORT: u16 = 32_768;
