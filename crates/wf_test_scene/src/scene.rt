//! Where and when a client does what it does.

use std::alloc::Global;
use std::cell::RefCell;
use wf_simulation::World;

/// The network, the host of the clients, and the time in milliseconds.
#[derive(Clone, Copy)]
pub struct Scene<'a> {
    pub alloc: Global,
    pub world: &'a RefCell<World>,
    pub host: usize,
    pub time: u64,
}
