//! What each part of a turn is given.

use crate::log::Log;
use std::alloc::Global;
use wf_sockets::SystemNetwork;

/// What each part of a turn is given: the runtime, the log, the network, and the time, in
/// milliseconds.
#[derive(Drop)]
pub struct Context<'a, 'b, R, N = SystemNetwork> {
    pub rt: &'a R,
    pub log: &'a Log<'b, R>,
    pub network: &'a N,
    pub time: u64,
}

impl<'a, 'b, R: AllocGlobal, N> Context<'a, 'b, R, N> {
    /// The allocator.
    pub fn alloc(&self) -> Global {
        self.rt.alloc()
    }
}
