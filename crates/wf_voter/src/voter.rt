use wf_actor::Process;
use wf_membership::{Gate, Membership, Tally};
use wf_operator::PictureCounts;
use wf_peer::PeerProgress;
use wf_tape::Tape;

/// A process that answers clients, whether it acts, whether a majority has another history, what it
/// goes by of replacements, what its folder has of what was heard, how many maps it rejected, and
/// which pictures it answered with.
#[derive(Drop)]
pub struct Voter<T: Tape> {
    pub process: Process<T>,
    pub gate: Gate,
    /// Whether a peer's history differs, and those that agree with this node are no majority.
    pub is_outvoted: bool,
    /// What its folder said of replacements when the process started: it stays.
    pub membership: Membership,
    /// What the file `heard` has: a message of a peer counts once its round and promise are there.
    pub kept: PeerProgress,
    pub rejected: Tally,
    pub pictures: PictureCounts,
}
