ghost use Rattle.wf_loop.specs.Readers.{AreRepliedEarlier};
ghost use Rattle.wf_peer_connections.specs.ReadersPort.{exchanges_of};
ghost use Rattle.wf_voter.specs.Answer.{AreEarlier};

use std::net::SocketAddr;
use wf_peer_connections::{LoopParts, Timers};
use wf_sockets::{Network, SystemNetwork};
use wf_tape::Tape;
use wf_voter::{Clients, Voter};

/// A node, the connections to and from its peers, its clients, and who only reads, over a network.
/// A clause sees its process, and logs that only proofs read: each client that was answered, with
/// the process before and after it: this one, as it was earlier; and each question of a reader with
/// its reply, by this process, as it was earlier.
#[derive(Drop)]
pub struct EventLoop<T: Tape, N: Network = SystemNetwork> {
    pub(crate) parts: LoopParts<N>,
    pub(crate) clients: Clients<T, N>,
    pub(crate) voter: Voter<T>,
    pub(crate) timers: Timers,
    pub(crate) http: Option<SocketAddr>,
    pub(crate) time: u64,
    pub(crate) is_busy: bool,
    ghost earlier: { ∥ AreEarlier T.Tape clients.before.items voter.process ∥₁ },
    ghost replied: { ∥ AreRepliedEarlier T.Tape voter.process (exchanges_of parts.desk.readers) ∥₁ },
}
