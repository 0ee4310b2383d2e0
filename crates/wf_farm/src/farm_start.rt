//! The initial nodes of a farm.

ghost use Rattle.std.specs.Prelude.{◌≡◌, ◌<◌, ◌≤◌, ◌+◌, [], length, None, IfOk, OnOk};
ghost use Rattle.wf_model.specs.World.{start};
ghost use Rattle.wf_tape.specs.MemoryTape.{NeverFails};
ghost use Rattle.wf_delivery.specs.Reachability.{fresh_node};
ghost use Rattle.wf_farm.specs.Cluster.{AreSoundHosts, Refines};
ghost use Rattle.wf_farm.specs.Fused.{FailsOnly};
ghost use Rattle.wf_farm.specs.NodeHost.{IsHostOf, HostsNode, tape_in};
ghost use Rattle.wf_farm.specs.Start.{AreFresh};

use crate::cluster::{Cluster, NodeHost};
use std::alloc::{AllocError, Global};
use wf_ballot::NodeId;
use wf_delivery::open_fresh;
use wf_tape::MemoryTape;

impl Cluster<MemoryTape> {
    /// Returns n nodes, all running, with all parts empty, and no message.
    #[tactic(auto, using(crate::proofs::Worlds::start_shown, crate::proofs::Worlds::start_members, crate::proofs::Worlds::start_sturdy, crate::proofs::Worlds::none_fresh))]
    pub(crate) fn new(alloc: Global, n: u8) -> Result<Cluster<MemoryTape>, AllocError>
        requires { n ≤ 64 }
        ensures size { IfOk result (λ cluster. length cluster.hosts.items ≡ n) }
        ensures members { IfOk result (λ cluster. AreSoundHosts cluster.hosts.items) }
        ensures refines { IfOk result (λ cluster.
            Refines cluster.hosts.items cluster.sent.items (start n)) }
        ensures sent { IfOk result (λ cluster. cluster.sent.items ≡ []) }
        ensures fresh { IfOk result (λ cluster. AreFresh n 0 cluster.hosts.items) }
        ensures sturdy { IfOk result (λ cluster. FailsOnly None cluster.hosts.items) }
    {
        let mut hosts = Vec::new(alloc);
        for number in 0..n {
            // The index is below 64, so it is a node number.
            let id = NodeId::new(number).unwrap();
            add_node(alloc, &mut hosts, id, n)?;
        }
        Ok(Cluster {
            hosts,
            sent: Vec::new(alloc),
        })
    }
}

/// Appends node `id` of n, with an empty tape.
#[tactic(auto, using(crate::proofs::Worlds::one_more_fresh))]
fn add_node(
    alloc: Global,
    hosts: &mut Vec<NodeHost<MemoryTape>>,
    id: NodeId,
    n: u8,
) -> Result<(), AllocError>
    requires most { n ≤ 64 }
    requires member { id < n }
    requires next { length hosts.old.items ≡ id }
    requires fresh { AreFresh n 0 hosts.old.items }
    ensures fresh { OnOk result (AreFresh n 0 hosts.new.items) }
    ensures size { OnOk result (length hosts.new.items ≡ id + 1) }
{
    match first_node(alloc, id, n) {
        Ok(host) => {
            hosts.push(host)?;
            Ok(())
        }
        Err(fault) => Err(fault),
    }
}

/// Node `id` of n, with an empty tape.
#[tactic(auto, using(crate::proofs::Steps::fresh_shown))]
fn first_node(alloc: Global, id: NodeId, n: u8) -> Result<NodeHost<MemoryTape>, AllocError>
    requires most { n ≤ 64 }
    requires member { id < n }
    ensures node { IfOk result (λ host. HostsNode host fresh_node) }
    ensures member { IfOk result (IsHostOf n id) }
    ensures fuse { IfOk result (λ host. NeverFails (tape_in host)) }
{
    match open_fresh(alloc, id, n) {
        Ok(node) => Ok(NodeHost::Running(node)),
        Err(fault) => Err(fault),
    }
}
