//! What a command line asks for, with its words tested.
ghost use Rattle.std.specs.Prelude.{◌≡◌, IfErr, IfOk};
ghost use Rattle.wf_replica_command.specs.Fault.{IsReplicaPlanOf, IsReplicaWordsFault, fault_of};

use crate::fault::ReplicaFault;
use std::alloc::Global;
use std::net::SocketAddr;
use wf_address::{AddressOption, ListFault, address, address_if_any, addresses};
use wf_folder::FarmName;
use wf_line::ReplicaLine;
use wf_ports::PortAddresses;

/// The farm of a replica, whom it asks, and where others come.
#[derive(Drop)]
pub(crate) struct ReplicaPlan {
    pub(crate) farm: FarmName,
    pub(crate) sources: Vec<SocketAddr>,
    pub(crate) ports: PortAddresses,
}

/// What a command line asks for. Err: a word of it is bad, or an allocation fails.
#[tactic(auto, using(crate::proofs::Faults::list_fault, crate::proofs::Faults::bad_http, crate::proofs::Faults::bad_admin, crate::proofs::Faults::bad_readers))]
pub(crate) fn plan_of(alloc: Global, line: &ReplicaLine<'_>) -> Result<ReplicaPlan, ReplicaFault>
    ensures plan { IfOk result (IsReplicaPlanOf line.now) }
    ensures fault { IfErr result (IsReplicaWordsFault line.now) }
{
    let Some(farm) = FarmName::new(line.farm.as_bytes()) else {
        return Err(ReplicaFault::Name);
    };
    let Some(http) = address(line.http) else {
        return Err(ReplicaFault::BadAddress(AddressOption::Http));
    };
    let Some(admin) = address_if_any(line.admin) else {
        return Err(ReplicaFault::BadAddress(AddressOption::Admin));
    };
    let Some(readers) = address_if_any(line.readers) else {
        return Err(ReplicaFault::BadAddress(AddressOption::Readers));
    };
    match addresses(alloc, line.peers) {
        Ok(sources) => Ok(ReplicaPlan {
            farm,
            sources,
            ports: PortAddresses {
                http,
                admin,
                readers,
            },
        }),
        Err(fault) => Err(fault_of(fault)),
    }
}

/// The error of a list of sources.
fn fault_of(fault: ListFault) -> ReplicaFault
    ensures { result ≡ fault_of fault }
{
    match fault {
        ListFault::Bad(index) => ReplicaFault::BadPeer(index),
        ListFault::Count(count) => ReplicaFault::PeerCount(count),
        ListFault::Memory => ReplicaFault::Memory,
    }
}
