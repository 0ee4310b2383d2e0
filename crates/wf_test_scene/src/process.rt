//! The processes of a simulated farm.

use std::fmt;

/// A process of a farm, by its host.
#[derive(Clone, Copy, Debug)]
pub enum Process {
    /// A node, whose host has its number.
    Node(u8),
    /// A replica.
    Replica(u8),
}

impl Process {
    /// Its host.
    pub fn host(self) -> u8 {
        match self {
            Process::Node(host) | Process::Replica(host) => host,
        }
    }

    /// Whether it is a replica.
    pub fn is_replica(self) -> bool {
        matches!(self, Process::Replica(_))
    }
}

impl fmt::Display for Process {
    fn fmt<W: fmt::Write>(&self, f: &mut fmt::Formatter<W>) -> fmt::Result {
        match self {
            Process::Node(host) => write!(f, "node {host}"),
            Process::Replica(host) => write!(f, "replica {host}"),
        }
    }
}
