use crate::responders::Responders;
use crate::volatile::{Proposing, VolatileState};
use wf_codec::Report;

/// The effect of a commit on the volatile state.
#[derive(Drop)]
pub enum Change {
    /// Nothing.
    Nothing,
    /// The new volatile state: a proposal begins and a leadership ends, or a majority has promised
    /// and a leadership begins.
    Becomes(VolatileState),
    /// What is proposed now, or how it ended; a leadership stays.
    Proposes(Proposing),
    /// These nodes have promised, and this is the report of the last one.
    CountsPromise(Responders, Report),
    /// These nodes have voted.
    CountsVote(Responders),
    /// The highest round that a Nack reported.
    Sees(u32),
}
