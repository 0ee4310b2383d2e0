use wf_codec::Message;
use wf_node::Node;
use wf_tape::Tape;

/// The entry of a node in a farm.
#[derive(Drop)]
pub enum NodeHost<T: Tape> {
    /// The node runs; if its tape failed, it is halted.
    Running(Node<T>),
    /// The node is stopped: its tape is kept.
    Stopped(T),
}

/// The nodes of a farm and the messages that they sent, each indexed by its number.
#[derive(Drop)]
pub struct Cluster<T: Tape> {
    pub hosts: Vec<NodeHost<T>>,
    pub sent: Vec<Message>,
}
