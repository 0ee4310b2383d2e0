//! One end of a connection.

/// Which end of a connection: that of the host that connected, or that of the host that was
/// connected to.
#[derive(Clone, Copy)]
pub enum Side {
    /// The host that connected.
    Caller,
    /// The host that was connected to.
    Callee,
}

/// One end of a connection: its host, the token under which it is watched, and whether an event of
/// it waits.
#[derive(Clone, Copy)]
pub(crate) struct Endpoint {
    pub(crate) host: usize,
    pub(crate) token: Option<usize>,
    pub(crate) is_ready: bool,
    // whether a write was short, so that an event is due once there is room
    pub(crate) wants_room: bool,
    // whether the program has closed it
    pub(crate) is_closed: bool,
    // whether its host was off when it was closed, and so doesn't know the connection any more
    pub(crate) is_forgotten: bool,
}

impl Endpoint {
    /// An end that isn't watched yet.
    pub(crate) fn new(host: usize) -> Self {
        Endpoint {
            host,
            token: None,
            is_ready: false,
            wants_room: false,
            is_closed: false,
            is_forgotten: false,
        }
    }

    /// Something has come: an event waits, if it is watched. Several events are one.
    pub(crate) fn notify(&mut self) {
        self.is_ready = self.token.is_some();
    }

    /// There is room: an event waits if a write was short.
    pub(crate) fn notify_room(&mut self) {
        if self.wants_room {
            self.wants_room = false;
            self.notify();
        }
    }

    /// Takes the event that waits. Returns its token.
    pub(crate) fn take_event(&mut self, host: usize) -> Option<usize> {
        if self.host == host && self.is_ready {
            self.is_ready = false;
            self.token
        } else {
            None
        }
    }
}
