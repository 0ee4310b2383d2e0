//! What is known of a peer.

use std::net::SocketAddr;
use wf_peer::{Greeting, NodeState};

/// For how long a peer is heard after its last message, in milliseconds.
pub(crate) const HEARD_MILLIS: u64 = 5_000;

/// How the history of a peer goes with this node's.
#[derive(Clone, Copy, PartialEq, Eq)]
pub(crate) enum Agreement {
    /// They weren't compared since it connected, or the peer is behind.
    Unknown,
    /// They were equal up to this node's last sequence then.
    Agrees,
    /// They differ, up to this sequence.
    Differs(u16),
}

impl Default for Agreement {
    fn default() -> Self {
        Agreement::Unknown
    }
}

/// On which connection a peer greets.
#[derive(Clone, Copy, PartialEq, Eq)]
pub(crate) enum Greeted {
    /// On its own: it hasn't compared the histories.
    Comes,
    /// On this node's, which it lets in by this, since it has compared them.
    LetsIn,
    /// On this node's, which is open, without having compared anything.
    Again,
}

impl Agreement {
    /// What it is after a greeting of a peer that is let in and has published so far, where this
    /// node's own last sequence is this one. A peer that is ahead compares the histories itself,
    /// and then answers by a greeting or a rejection. One that greets again and isn't as far has
    /// nothing new.
    pub(crate) fn after(self, said: u16, greeted: Greeted, published: u16) -> Agreement {
        if said == published {
            return Agreement::Agrees;
        }
        match greeted {
            Greeted::Again => self,
            _ if said < published => Agreement::Unknown,
            Greeted::LetsIn => Agreement::Agrees,
            Greeted::Comes => self,
        }
    }
}

/// How far a peer's history goes, and its digest there.
#[derive(Clone, Copy, PartialEq, Eq)]
pub(crate) struct Reached {
    pub(crate) published: u16,
    pub(crate) digest: [u8; 32],
}

/// A peer whose history differs up to a sequence.
#[derive(Clone, Copy)]
pub(crate) struct Differing {
    pub(crate) peer: usize,
    pub(crate) address: SocketAddr,
    pub(crate) sequence: u16,
}

/// What is known of a peer: whether it is heard, what it does and how far it is by its last
/// greeting, how its history goes with this node's, when its last message came, whether it has
/// answered since this node's start; how many messages to it were dropped since its connection
/// opened, how many were put into its outboxes, how many came, how many bytes were written to it,
/// and by how many greetings it wasn't let in.
#[derive(Clone, Copy, Default)]
pub(crate) struct PeerState {
    pub(crate) is_connected: bool,
    pub(crate) says: Option<NodeState>,
    pub(crate) reached: Option<Reached>,
    pub(crate) agreement: Agreement,
    pub(crate) heard_at: Option<u64>,
    pub(crate) has_answered: bool,
    pub(crate) lost: u64,
    pub(crate) posted: u64,
    pub(crate) received: u64,
    pub(crate) written: u64,
    pub(crate) rejected: u64,
}

impl PeerState {
    /// It is let in with this greeting, where this node's own last sequence is this one.
    pub(crate) fn take(&mut self, greeting: &Greeting, greeted: Greeted, published: u16) {
        let said = greeting.progress.published.number();
        self.says = Some(greeting.state);
        self.reached = Some(Reached {
            published: said,
            digest: greeting.digest,
        });
        self.agreement = self.agreement.after(said, greeted, published);
    }

    /// Whether a message of it came a short time ago, and it serves.
    pub(crate) fn is_heard(&self, time: u64) -> bool {
        self.says == Some(NodeState::Serves) && self.is_recent(time)
    }

    /// Whether a message of it came a short time ago, and its history agrees: also where it serves
    /// nobody since another one's differs.
    pub(crate) fn is_agreeing(&self, time: u64) -> bool {
        self.agreement == Agreement::Agrees
            && matches!(self.says, Some(NodeState::Serves | NodeState::Outvoted))
            && self.is_recent(time)
    }

    /// Whether a message of it came a short time ago.
    fn is_recent(&self, time: u64) -> bool {
        match self.heard_at {
            Some(heard) => time.saturating_sub(heard) <= HEARD_MILLIS,
            None => false,
        }
    }

    /// For how many milliseconds no message of it came. None: none ever did.
    pub(crate) fn silence(&self, time: u64) -> Option<u64> {
        match self.heard_at {
            Some(heard) => Some(time.saturating_sub(heard)),
            None => None,
        }
    }

    /// Whether it says that another one's history differs from its own, and isn't known to differ
    /// from this node's.
    pub(crate) fn is_in_dispute(&self) -> bool {
        self.says == Some(NodeState::Outvoted) && !matches!(self.agreement, Agreement::Differs(_))
    }
}
