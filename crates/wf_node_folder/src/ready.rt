//! A node whose start is counted.

use wf_folder::NodeFile;
use wf_peer::PeerProgress;
use wf_peer_connections::NodePlan;
use wf_tape::Tape;
use wf_voter::Process;

/// A node whose start is counted in its folder, and that is ready to be served.
#[derive(Drop)]
pub struct ReadyNode<T: Tape> {
    /// Which node it is, and where the others are.
    pub plan: NodePlan,
    /// Its process, in its first run.
    pub process: Process<T>,
    /// What was heard of the peers before, but for folders that others have replaced.
    pub heard: PeerProgress,
    /// The file `farm`, as it was written at this start.
    pub file: NodeFile,
}
