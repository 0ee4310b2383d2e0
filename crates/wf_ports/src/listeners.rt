//! The listeners of a process's ports, and who comes there.
ghost use Rattle.std.specs.Prelude.{◌≡◌, [], IfErr, IfOk, Some};
ghost use Rattle.wf_ports.specs.Address.{IsAddressTaken, address_of};
ghost use Rattle.wf_readers_port.specs.ReadersPort.{exchanges_of};
ghost use Rattle.wf_visitors.specs.Visitors.{responses_of};

use crate::address::{PortAddresses, TakenAddress};
use crate::desk::Desk;
use crate::socket::{CLIENT, PortSocket};
use std::alloc::{AllocError, Global};
use std::net::{Net, SocketAddr};
use wf_address::AddressOption;
use wf_operator::StartTime;
use wf_sockets::Network;
use wf_visitors::Visitors;

/// A listener at the address of an option, whose events have that token. Err: the address is taken,
/// or not permitted.
pub fn listen<R: Net, N: Network>(
    rt: &R,
    network: &N,
    option: AddressOption,
    address: SocketAddr,
    token: usize,
) -> Result<N::Listener, TakenAddress>
    ensures { IfErr result (IsAddressTaken option (Some address)) }
{
    match network.listen(rt, address, token) {
        Some(listener) => Ok(listener),
        None => Err(TakenAddress { option, address }),
    }
}

/// A listener at the address of an option, if it has one.
fn listen_if<R: Net, N: Network>(
    rt: &R,
    network: &N,
    option: AddressOption,
    address: Option<SocketAddr>,
    socket: PortSocket,
) -> Result<Option<N::Listener>, TakenAddress>
    ensures { IfErr result (IsAddressTaken option address) }
{
    match address {
        Some(address) => match listen(rt, network, option, address, socket.token()) {
            Ok(listener) => Ok(Some(listener)),
            Err(taken) => Err(taken),
        },
        None => Ok(None),
    }
}

/// The listeners of a process's ports.
#[derive(Drop)]
pub struct PortListeners<N: Network> {
    http: N::Listener,
    admin: Option<N::Listener>,
    readers: Option<N::Listener>,
}

/// The clients, the operators and the readers of a process.
#[derive(Drop)]
pub struct Ports<N: Network> {
    pub clients: Visitors<N>,
    pub desk: Desk<N>,
}

impl<N: Network> PortListeners<N> {
    /// Binds addresses on a network. Err: the first one that is taken or not permitted, of clients,
    /// operators and readers.
    pub fn bind<R: Net>(
        rt: &R,
        network: &N,
        addresses: &PortAddresses,
    ) -> Result<Self, TakenAddress>
        ensures { IfErr result (λ taken.
            address_of addresses.now taken.option ≡ Some taken.address) }
    {
        let PortAddresses {
            http,
            admin,
            readers,
        } = *addresses;
        let http = listen(
            rt,
            network,
            AddressOption::Http,
            http,
            PortSocket::Http.token(),
        )?;
        let admin = listen_if(rt, network, AddressOption::Admin, admin, PortSocket::Admin)?;
        let readers = listen_if(
            rt,
            network,
            AddressOption::Readers,
            readers,
            PortSocket::Readers,
        )?;
        Ok(PortListeners {
            http,
            admin,
            readers,
        })
    }

    /// Who comes at these listeners: nobody yet, and so many clients at once at most. The only
    /// error is allocation failure.
    pub fn open(
        self,
        alloc: Global,
        clients: usize,
        started: StartTime,
    ) -> Result<Ports<N>, AllocError>
        ensures clients { IfOk result (λ ports. responses_of ports.clients ≡ []) }
        ensures readers { IfOk result (λ ports. exchanges_of ports.desk.readers ≡ []) }
    {
        let PortListeners {
            http,
            admin,
            readers,
        } = self;
        let clients = Visitors::new(alloc, clients, Some(http), CLIENT)?;
        let desk = Desk::new(alloc, admin, readers, started)?;
        Ok(Ports { clients, desk })
    }
}
