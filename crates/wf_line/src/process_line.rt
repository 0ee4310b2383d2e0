//! The commands of a farm whose nodes and replicas are processes of their own.

use crate::node_line::NodeCommand;
use crate::replica_line::ReplicaLine;

/// A parsed command line about a process of a farm.
#[derive(Clone, Copy)]
pub enum ProcessCommand<'a> {
    /// A command about a node.
    Node(NodeCommand<'a>),
    /// Serve a replica.
    Replica(ReplicaLine<'a>),
}
