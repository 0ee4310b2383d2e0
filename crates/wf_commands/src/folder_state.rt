//! What a start on a folder would do.

use wf_folder::{NodeFile, NodeRejection, Start};
use wf_serve::Cause;

/// What a start on a folder would do.
#[derive(Clone, Copy)]
pub enum FolderState {
    /// The nodes of a farm, so many, would start on it.
    Farm(u8, Start),
    /// The node with this file would start on it, which it has for itself.
    Node(NodeFile),
    /// Neither would, for this cause.
    Rejected(Cause),
    /// The node whose folder it is wouldn't.
    NodeRejected(NodeRejection),
}
