ghost use Rattle.wf_readers_port.specs.ReadersPort.{exchanges_of};
ghost use Rattle.wf_replica.specs.Follower.{list_of};
ghost use Rattle.wf_replica_command.specs.Readers.{AreRepliedByBeginnings};

use crate::clients::ReplicaClients;
use crate::upstream::Upstream;
use wf_ports::Desk;
use wf_sockets::{Network, SystemNetwork};
use wf_tape::Tape;
use wf_timing::Ticker;

/// A replica with its clients, the source that it asks, and who only reads, over a network. A
/// clause sees, in a log that only proofs read, each question of a reader with its reply.
#[derive(Drop)]
pub struct ReplicaLoop<T: Tape, N: Network = SystemNetwork> {
    pub(crate) network: N,
    pub(crate) desk: Desk<N>,
    pub(crate) upstream: Upstream<N>,
    pub(crate) clients: ReplicaClients<T, N>,
    // the path of its tape, whose length is told
    pub(crate) tape: String,
    pub(crate) ticks: Ticker,
    pub(crate) time: u64,
    pub(crate) is_busy: bool,
    ghost replied: { ∥ AreRepliedByBeginnings (list_of clients.renderer.follower) (exchanges_of desk.readers) ∥₁ },
}
