use crate::progress::Progress;
use crate::rejection::PeerRejection;

/// What was heard of a peer.
#[derive(Clone, Copy, Debug, PartialEq, Eq)]
pub struct Heard {
    /// How far it is.
    pub progress: Progress,
    /// What it forgot, if this node has said so to it: its folder is rejected from then on.
    pub accusation: Option<PeerRejection>,
}
