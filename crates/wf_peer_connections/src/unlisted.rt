//! Connections from addresses that aren't listed.

use std::alloc::Global;
use std::net::SocketAddr;
use wf_folder::PeerAddress;

/// The time between two lines about one address, in milliseconds.
const MINUTE: u64 = 60_000;

/// The most addresses that are kept.
const MOST: usize = 16;

/// An address of which the log told, and when.
#[derive(Clone, Copy)]
struct Stranger {
    address: PeerAddress,
    since: u64,
}

/// Addresses that aren't listed and of which the log told: the last ones.
#[derive(Drop)]
pub(crate) struct Unlisted {
    strangers: Vec<Stranger>,
    next: usize,
}

impl Unlisted {
    /// None yet.
    pub(crate) fn new(alloc: Global) -> Self {
        Unlisted {
            strangers: Vec::new(alloc),
            next: 0,
        }
    }

    /// Whether the log is to tell of a connection from this address, from any port: once a minute.
    pub(crate) fn is_to_be_told(&mut self, address: SocketAddr, time: u64) -> bool {
        let address = PeerAddress {
            port: 0,
            ..PeerAddress::of(address)
        };
        for stranger in &self.strangers {
            if stranger.address == address && time.saturating_sub(stranger.since) < MINUTE {
                return false;
            }
        }
        self.put(Stranger {
            address,
            since: time,
        });
        true
    }

    /// Keeps an address, in the place of the oldest one if there are many.
    fn put(&mut self, stranger: Stranger) {
        if self.strangers.len() < MOST {
            let _ = self.strangers.push(stranger);
            return;
        }
        self.next = self.next.saturating_add(1) % MOST;
        if let Some(oldest) = self.strangers.get_mut(self.next) {
            *oldest = stranger;
        }
    }
}
