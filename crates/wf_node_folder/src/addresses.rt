//! The addresses of a node's command line.
ghost use Rattle.std.specs.Prelude.{◌≡◌, ◌≤◌, IfErr, IfOk, length};
ghost use Rattle.wf_address.specs.Address.{words_of};
ghost use Rattle.wf_node_folder.specs.Fault.{fault_of};
ghost use Rattle.wf_node_folder.specs.Start.{IsWordsFault};

use crate::fault::CommandFault;
use std::alloc::Global;
use std::net::SocketAddr;
use wf_address::{AddressOption, ListFault, address, address_if_any, addresses};
use wf_line::NodeLine;

/// Where clients, peers, the operator and readers come, and where all nodes' peers do.
#[derive(Drop)]
pub(crate) struct NodeAddresses {
    pub(crate) peers: Vec<SocketAddr>,
    pub(crate) http: SocketAddr,
    pub(crate) listen: Option<SocketAddr>,
    pub(crate) admin: Option<SocketAddr>,
    pub(crate) readers: Option<SocketAddr>,
}

/// The addresses of a command line.
#[tactic(auto, using(crate::proofs::Faults::list_fault, crate::proofs::Faults::bad_http, crate::proofs::Faults::bad_listen, crate::proofs::Faults::bad_admin, crate::proofs::Faults::bad_readers, wf_address::proofs::AddressList::as_many))]
pub(crate) fn addresses_of(
    alloc: Global,
    line: &NodeLine<'_>,
) -> Result<NodeAddresses, CommandFault>
    ensures peers { IfOk result (λ node_addresses.
        length node_addresses.peers.items ≡ length (words_of line.now.peers.now)) }
    ensures most { IfOk result (λ node_addresses. length node_addresses.peers.items ≤ 64) }
    ensures fault { IfErr result (IsWordsFault line.now) }
{
    let http = match address(line.http) {
        Some(http) => http,
        None => return Err(CommandFault::BadAddress(AddressOption::Http)),
    };
    let listen = match address_if_any(line.listen) {
        Some(listen) => listen,
        None => return Err(CommandFault::BadAddress(AddressOption::Listen)),
    };
    let admin = match address_if_any(line.admin) {
        Some(admin) => admin,
        None => return Err(CommandFault::BadAddress(AddressOption::Admin)),
    };
    let readers = match address_if_any(line.readers) {
        Some(readers) => readers,
        None => return Err(CommandFault::BadAddress(AddressOption::Readers)),
    };
    match addresses(alloc, line.peers) {
        Ok(peers) => Ok(NodeAddresses {
            peers,
            http,
            listen,
            admin,
            readers,
        }),
        Err(fault) => Err(fault_of(fault)),
    }
}

/// The error of a list of peers.
fn fault_of(fault: ListFault) -> CommandFault
    ensures { result ≡ fault_of fault }
{
    match fault {
        ListFault::Bad(index) => CommandFault::BadPeer(index),
        ListFault::Count(count) => CommandFault::PeerCount(count),
        ListFault::Memory => CommandFault::Memory,
    }
}
