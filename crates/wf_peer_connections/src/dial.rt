//! The connection to a peer.

use crate::event::PeerEnd;
use std::net::SocketAddr;
use wf_peer::GreetingReply;
use wf_sockets::Connection;
use wf_timing::{Alarm, Backoff};
use wf_wire::ToPeer;

/// The connection to a peer, open, in progress, or to be tried again.
#[derive(Drop)]
pub struct Dial<C: Connection> {
    pub(crate) address: SocketAddr,
    pub(crate) to: Option<ToPeer<C>>,
    pub(crate) reply: Vec<u8>,
    // whether bytes of the greeting were taken: the connection is there
    pub(crate) is_established: bool,
    // since when it is being opened, is established, or is open
    pub(crate) since: u64,
    // when something last came on it
    pub(crate) last: u64,
    // why it ended the last time that the log told of, and when
    pub(crate) told: Option<(PeerEnd, u64)>,
    // how many bytes of messages were written to the peer
    pub(crate) written: u64,
    // how many messages were put into outboxes in this run
    pub(crate) posted: u64,
    // how many messages were dropped since it was last opened
    pub(crate) dropped: u64,
    pub(crate) due: Alarm,
    pub(crate) backoff: Backoff,
}

/// What came of a connection's turn.
#[derive(Clone, Copy)]
pub enum DialTurn {
    /// Nothing new.
    Same,
    /// The peer's reply to the greeting has come.
    Answered(GreetingReply),
    /// It has ended.
    Ended(PeerEnd),
}
