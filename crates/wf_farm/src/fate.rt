use crate::rejection::Rejection;
use wf_codec::Message;
use wf_model::Kept;

/// What becomes of a step that a node takes, and whose tape may fail.
#[derive(Drop)]
pub enum Fate {
    /// It is done, and sends these messages.
    Done(Vec<Message>),
    /// The tape failed: the node crashed within the step, which left this, and was opened again.
    Torn(Kept),
    /// An allocation failed. If the tape doesn't fail, the node is unchanged.
    Lost,
}

/// What becomes of an event.
#[derive(Clone, Copy)]
pub struct Happened {
    /// Why its node rejected it, if it did.
    pub why: Option<Rejection>,
    /// What the crash left, if the tape of its node failed within its step.
    pub torn: Option<Kept>,
}

/// The node whose tape may fail during some events, and the crash within its step.
#[derive(Clone, Copy)]
pub struct CrashWatch {
    /// The node; None if no tape may fail.
    pub node: Option<usize>,
    /// The number of unsynced bytes that the crash keeps.
    pub keep: usize,
}

/// What becomes of a run of events.
#[derive(Clone, Copy)]
pub struct Ran {
    /// Why the last event was rejected, if it was.
    pub why: Option<Rejection>,
    /// The number of the event within whose step the tape failed, and what the crash left.
    pub torn: Option<(usize, Kept)>,
}
