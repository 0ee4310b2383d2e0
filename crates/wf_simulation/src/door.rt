//! Listeners.

use std::net::SocketAddr;

/// The most connections that wait at a listener.
pub(crate) const MOST_QUEUED: usize = 16;

/// A listener: its host and address, its token, and how many connections wait at it.
#[derive(Clone, Copy)]
pub(crate) struct Door {
    pub(crate) number: u64,
    pub(crate) host: usize,
    pub(crate) address: SocketAddr,
    pub(crate) token: usize,
    pub(crate) is_ready: bool,
    pub(crate) queued: usize,
}

impl Door {
    /// Takes the event that waits. Returns its token.
    pub(crate) fn take_event(&mut self, host: usize) -> Option<usize> {
        if self.host == host && self.is_ready {
            self.is_ready = false;
            Some(self.token)
        } else {
            None
        }
    }
}

/// The listener at an address.
pub(crate) fn door_at(doors: &[Door], address: SocketAddr) -> Option<Door> {
    for door in doors {
        if door.address == address {
            return Some(*door);
        }
    }
    None
}

/// The index of the listener of this number.
pub(crate) fn index_of(doors: &[Door], number: u64) -> Option<usize> {
    for (index, door) in doors.iter().enumerate() {
        if door.number == number {
            return Some(index);
        }
    }
    None
}
