use wf_codec::Canon;
use wf_model::{Action, Kept};

/// An event of a farm; the first number is the node's. It has no effect if the node doesn't exist,
/// the message of a delivery wasn't sent, the node is stopped (except for a restart), a running
/// node is restarted, or the node rejects the step.
#[derive(Drop)]
pub enum Event {
    /// A step of the node. A delivery names its message by its number: messages are numbered in the
    /// order sent, from 0.
    Act(usize, Action<Canon, usize>),
    /// The node stops, and loses its proposal and its leadership.
    Stop(usize),
    /// The stopped node restarts with what it had stored.
    Restart(usize),
    /// The node crashes within a step: it loses its proposal, its leadership and the messages of
    /// the step, and keeps what was stored before the step or after it.
    Torn(usize, Action<Canon, usize>, Kept),
}
