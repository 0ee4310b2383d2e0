//! Which node of a farm it is, and where the others are.

use crate::joiner::Joiner;
use std::net::SocketAddr;
use thiserror::Error;
use wf_address::AddressOption;
use wf_folder::Suspension;
use wf_peer::{Own, Progress};
use wf_ports::PortAddresses;
use wf_rejoin::Replacements;

/// Which node of a farm it is, and where the others are.
#[derive(Drop)]
pub struct NodePlan {
    /// The farm and the node.
    pub own: Own,
    /// This start of the node's folder, and how far the node was then.
    pub start: Progress,
    /// Who suspended the node, if anybody did.
    pub suspension: Option<Suspension>,
    /// The replacements of nodes that its folder knows of.
    pub replacements: Replacements,
    /// What the folder was told so far, if it joins in the place of a lost one.
    pub joining: Option<Joiner>,
    /// Whether an operator may begin replacements at this node, and ask it to agree to them.
    pub may_replace: bool,
    /// The node's folder.
    pub folder: String,
    /// The path of the node's tape, whose length is told.
    pub tape: String,
    /// The addresses of all nodes, that of node i at index i: as many as the farm has nodes.
    pub peers: Vec<SocketAddr>,
    /// Where peers come.
    pub listen: SocketAddr,
    /// Where others come.
    pub ports: PortAddresses,
    /// The number of clients at once.
    pub clients: usize,
}

/// Why a node doesn't begin.
#[derive(Clone, Copy, Debug, Error)]
pub enum LoopFault {
    /// The system gives no poll.
    #[error("no poll")]
    Poll,
    /// The address of this option is taken, or not permitted.
    #[error("the address of {0} is taken or not permitted: {1}")]
    Taken(AddressOption, SocketAddr),
    /// An allocation failed.
    #[error("out of memory")]
    Memory,
}
