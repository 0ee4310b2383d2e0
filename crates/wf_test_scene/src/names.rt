//! The command lines of the processes, and their addresses.
ghost use Rattle.wf_line.specs.NodeLine.{IsNodeCommandInRange, IsNodeInRange};
ghost use Rattle.wf_line.specs.ProcessLine.{IsReplicaInRange};

use std::alloc::{AllocError, Global};
use std::net::SocketAddr;
use wf_line::{InitLine, NodeCommand, NodeLine, ReplicaLine};
use wf_simulation::address_of;

/// The name of the farm.
pub const FARM: &str = "simulated";

/// The port of a node for its peers.
const PEER_PORT: u16 = 7_000;

/// The port of a process for its readers.
const READERS_PORT: u16 = 9_100;

/// A port of a process to which others come.
#[derive(Clone, Copy)]
pub enum Port {
    /// Clients come there.
    Http,
    /// Its operator does.
    Admin,
    /// Who only reads does.
    Readers,
}

/// The addresses of the processes of a farm, as its command lines have them: those of a host at its
/// index, and of all nodes where peers come, and readers.
#[derive(Drop)]
pub struct Names {
    peers: String,
    sources: String,
    http: Vec<String>,
    admin: Vec<String>,
    readers: Vec<String>,
}

/// The addresses of so many hosts at a port.
fn addresses(alloc: Global, hosts: u8, port: Port) -> Result<Vec<String>, AllocError> {
    let mut addresses = Vec::new(alloc);
    for host in 0..hosts {
        addresses.push(address_at(host, port).to_string(alloc)?)?;
    }
    Ok(addresses)
}

/// The addresses of so many nodes at a port, with commas between them.
fn list_of(alloc: Global, nodes: u8, port: u16) -> Result<String, AllocError> {
    let mut list = String::new(alloc);
    for node in 0..nodes {
        if node != 0 {
            list.push_str(",")?;
        }
        let address = address_of(node as usize, port).to_string(alloc)?;
        list.push_str(address.as_str())?;
        drop(address);
    }
    Ok(list)
}

impl Names {
    /// Those of a farm of so many nodes, on so many hosts.
    pub fn new(alloc: Global, nodes: u8, hosts: u8) -> Result<Names, AllocError> {
        Ok(Names {
            peers: list_of(alloc, nodes, PEER_PORT)?,
            sources: list_of(alloc, nodes, READERS_PORT)?,
            http: addresses(alloc, hosts, Port::Http)?,
            admin: addresses(alloc, hosts, Port::Admin)?,
            readers: addresses(alloc, hosts, Port::Readers)?,
        })
    }

    /// The command line that serves a node.
    pub fn node_line(&self, node: usize) -> NodeLine<'_>
        ensures { IsNodeInRange result }
    {
        NodeLine {
            state: "folder",
            peers: self.peers.as_str(),
            http: text_at(self.http.as_slice(), node),
            listen: None,
            admin: Some(text_at(self.admin.as_slice(), node)),
            readers: Some(text_at(self.readers.as_slice(), node)),
            cache: 1,
            clients: 16,
            log: true,
            may_replace: true,
        }
    }

    /// The command line that serves the replica of a host.
    pub fn replica_line(&self, host: usize) -> ReplicaLine<'_>
        ensures { IsReplicaInRange result }
    {
        ReplicaLine {
            state: "folder",
            farm: FARM,
            peers: self.sources.as_str(),
            http: text_at(self.http.as_slice(), host),
            readers: Some(text_at(self.readers.as_slice(), host)),
            admin: Some(text_at(self.admin.as_slice(), host)),
            cache: 1,
            log: true,
        }
    }
}

/// The text at an index, an empty one if there is none.
fn text_at(texts: &[String], index: usize) -> &str {
    match texts.get(index) {
        Some(text) => text.as_str(),
        None => "",
    }
}

/// The address of a host at a port.
pub fn address_at(host: u8, port: Port) -> SocketAddr {
    let port = match port {
        Port::Http => 8_000,
        Port::Admin => 9_000,
        Port::Readers => READERS_PORT,
    };
    address_of(host as usize, port)
}

/// The address of a node for its peers.
pub fn peer_address(node: u8) -> SocketAddr {
    address_of(node as usize, PEER_PORT)
}

/// The command line that makes the folder of a node of so many, which joins in the place of a lost
/// one if it replaces that.
pub fn init_line(node: u8, nodes: u8, replaces: bool) -> NodeCommand<'static>
    ensures { IsNodeCommandInRange result }
{
    NodeCommand::Init(InitLine {
        state: "folder",
        farm: FARM,
        id: node.min(63),
        nodes: nodes.clamp(1, 64),
        from: None,
        replaces,
    })
}
