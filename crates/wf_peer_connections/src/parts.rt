//! All of an event loop but its node: sockets, peers, and who only reads.
ghost use Rattle.std.specs.Prelude.{◌≡◌, [], IfErr, IfOk, IsSome, true};
ghost use Rattle.wf_peer_connections.specs.Membership.{membership_by};
ghost use Rattle.wf_peer_connections.specs.StartErrors.{IsStartError};
ghost use Rattle.wf_readers_port.specs.ReadersPort.{exchanges_of};
ghost use Rattle.wf_visitors.specs.Visitors.{responses_of};

use crate::peer_connections::{PeerConnections, Rooms};
use crate::plan::{LoopFault, NodePlan};
use crate::timers::Timers;
use crate::token::LISTEN;
use std::alloc::{AllocError, Global};
use std::net::Net;
use std::time::Clock;
use wf_address::AddressOption;
use wf_membership::Membership;
use wf_operator::StartTime;
use wf_peer::PeerProgress;
use wf_ports::{Desk, PortListeners, Ports, listen};
use wf_sockets::Network;
use wf_visitors::Visitors;

/// The network, and the listeners on it.
#[derive(Drop)]
struct Doors<N: Network> {
    network: N,
    listener: N::Listener,
    ports: PortListeners<N>,
}

/// What an event loop allocates before it begins.
#[derive(Drop)]
struct LoopRooms<N: Network> {
    ports: Ports<N>,
    rooms: Rooms<N::Connection>,
}

/// All of an event loop but its node and its clients.
#[derive(Drop)]
pub struct LoopParts<N: Network> {
    pub network: N,
    pub peers: PeerConnections<N>,
    pub desk: Desk<N>,
}

impl<N: Network> LoopParts<N> {
    /// What the node does by the clock, from now on.
    pub fn timers(&self, time: u64) -> Timers {
        Timers::new(self.peers.plan.own.node, time)
    }
}

impl NodePlan {
    /// What its node goes by of replacements, for its whole run.
    pub fn membership(&self) -> Membership
        ensures value { result ≡ membership_by self.now }
        ensures joins { IsSome self.now.joining → result.joins ≡ true }
    {
        let joins = match &self.joining {
            Some(_) => true,
            None => false,
        };
        Membership {
            joins,
            replacements: self.replacements,
        }
    }
}

/// All of an event loop but its node.
#[derive(Drop)]
pub struct LoopStart<N: Network> {
    pub parts: LoopParts<N>,
    pub visitors: Visitors<N>,
}

/// Binds the addresses of a node on a network.
fn doors_of<R: Net, N: Network + Drop>(
    rt: &R,
    plan: &NodePlan,
    network: N,
) -> Result<Doors<N>, LoopFault>
    ensures { IfErr result (IsStartError plan.now) }
{
    let listener = match listen(rt, &network, AddressOption::Listen, plan.listen, LISTEN) {
        Ok(listener) => listener,
        Err(taken) => return Err(LoopFault::Taken(taken.option, taken.address)),
    };
    match PortListeners::bind(rt, &network, &plan.ports) {
        Ok(ports) => Ok(Doors {
            network,
            listener,
            ports,
        }),
        Err(taken) => Err(LoopFault::Taken(taken.option, taken.address)),
    }
}

/// What an event loop allocates, with these listeners. The only error is allocation failure.
fn rooms_of<N: Network + Drop>(
    alloc: Global,
    plan: &NodePlan,
    listeners: PortListeners<N>,
    known: PeerProgress,
    started: StartTime,
) -> Result<LoopRooms<N>, AllocError>
    ensures clients { IfOk result (λ made. responses_of made.ports.clients ≡ []) }
    ensures readers { IfOk result (λ made. exchanges_of made.ports.desk.readers ≡ []) }
{
    let rooms = Rooms::new(alloc, plan, known)?;
    let ports = listeners.open(alloc, plan.clients, started)?;
    Ok(LoopRooms { ports, rooms })
}

/// All of an event loop but its node, with these listeners. The only error is allocation failure.
fn begin_at<N: Network + Drop>(
    alloc: Global,
    plan: NodePlan,
    doors: Doors<N>,
    known: PeerProgress,
    time: u64,
    started: StartTime,
) -> Result<LoopStart<N>, LoopFault>
    ensures begun { IfOk result (λ begun. responses_of begun.visitors ≡ []) }
    ensures readers { IfOk result (λ begun. exchanges_of begun.parts.desk.readers ≡ []) }
    ensures suspended { IfOk result (λ begun. begun.parts.peers.suspension ≡ plan.suspension) }
    ensures plan { IfOk result (λ begun. begun.parts.peers.plan ≡ plan) }
    ensures memory { IfErr result (λ why. why ≡ LoopFault.Memory) }
{
    let Doors {
        network,
        listener,
        ports,
    } = doors;
    match rooms_of(alloc, &plan, ports, known, started) {
        Ok(
            LoopRooms {
                ports: Ports { clients, desk },
                rooms,
            },
        ) => Ok(LoopStart {
            parts: LoopParts {
                network,
                peers: PeerConnections::new(alloc, plan, listener, rooms, time),
                desk,
            },
            visitors: clients,
        }),
        Err(_) => {
            drop(plan);
            drop(network);
            drop(listener);
            Err(LoopFault::Memory)
        }
    }
}

/// Binds the addresses of a node on a network, and makes all of its event loop but the node.
pub fn bind<R: Net + Clock + AllocGlobal, N: Network + Drop>(
    rt: &R,
    network: N,
    plan: NodePlan,
    known: PeerProgress,
    time: u64,
) -> Result<LoopStart<N>, LoopFault>
    ensures begun { IfOk result (λ begun. responses_of begun.visitors ≡ []) }
    ensures readers { IfOk result (λ begun. exchanges_of begun.parts.desk.readers ≡ []) }
    ensures suspended { IfOk result (λ begun. begun.parts.peers.suspension ≡ plan.suspension) }
    ensures plan { IfOk result (λ begun. begun.parts.peers.plan ≡ plan) }
    ensures cause { IfErr result (IsStartError plan) }
{
    match doors_of(rt, &plan, network) {
        Ok(doors) => begin_at(rt.alloc(), plan, doors, known, time, StartTime::now(rt)),
        Err(fault) => {
            drop(plan);
            drop(known);
            Err(fault)
        }
    }
}
