//! Strangers: connections to where only peers come, on which nobody greets as one.

use crate::names::peer_address;
use crate::scene::Scene;
use std::alloc::{AllocError, Global};
use std::mem::replace;
use wf_simulation::{Offline, SimulatedConnection, SimulatedNetwork};
use wf_sockets::{Connection, Moved, Network};

/// The most of them at a time: more than a node has slots for.
pub const MOST_STRANGERS: usize = 140;

/// What each second one of them says: no greeting.
const NONSENSE: &[u8] =
    b"GET / HTTP/1.1\r\nHost: farm\r\nUser-Agent: one that looks for open ports\r\n\r\n";

/// A connection, and how much of what is to be said was taken.
#[derive(Drop)]
struct Stranger<'a> {
    connection: SimulatedConnection<'a>,
    sent: usize,
}

/// The connections of strangers to a node's port for its peers, and until when they stay.
#[derive(Drop)]
pub struct Strangers<'a> {
    alloc: Global,
    all: Vec<Stranger<'a>>,
    until: u64,
}

impl<'a> Strangers<'a> {
    /// None.
    pub fn new(alloc: Global) -> Self {
        Strangers {
            alloc,
            all: Vec::new(alloc),
            until: 0,
        }
    }

    /// So many come to a node, from the host of this scene, and stay until then; those that are
    /// there go.
    pub fn come(
        &mut self,
        scene: &Scene<'a>,
        node: u8,
        count: usize,
        until: u64,
    ) -> Result<(), AllocError> {
        self.go();
        self.until = until;
        for index in 0..count.min(MOST_STRANGERS) {
            self.connect(scene, node, index)?;
        }
        Ok(())
    }

    /// One more comes, unless no connection is free. Each second one says nothing.
    fn connect(&mut self, scene: &Scene<'a>, node: u8, index: usize) -> Result<(), AllocError> {
        let network = SimulatedNetwork::new(scene.world, scene.host);
        if let Some(connection) = network.connect(&Offline, peer_address(node)) {
            let sent = if index % 2 == 0 { 0 } else { NONSENSE.len() };
            self.all.push(Stranger { connection, sent })?;
        }
        Ok(())
    }

    /// They say what they have to say, or go if it is time to.
    pub fn turn(&mut self, time: u64) {
        if self.until <= time {
            self.go();
        }
        for stranger in self.all.iter_mut() {
            let rest = NONSENSE.split_at(stranger.sent.min(NONSENSE.len())).1;
            if let Moved::Bytes(count) = stranger.connection.write(rest) {
                stranger.sent = stranger.sent.saturating_add(count);
            }
        }
    }

    /// They go.
    pub fn go(&mut self) {
        drop(replace(&mut self.all, Vec::new(self.alloc)));
    }
}
