use std::fmt;
use std::net::{IpAddr, Ipv6Addr, SocketAddr};
use wf_ballot::NodeId;

/// The address of a peer, in one form: an address of IPv4 is the one of IPv6 that it is mapped to.
#[derive(Clone, Copy, Debug, PartialEq, Eq)]
pub struct PeerAddress {
    /// The sixteen bytes of the address.
    pub ip: [u8; 16],
    /// The port.
    pub port: u16,
}

/// Why a node is suspended: a peer remembers more of it than it has.
#[derive(Clone, Copy, Debug, PartialEq, Eq)]
pub struct Suspension {
    /// The peer.
    pub accuser: NodeId,
    /// Its address.
    pub address: PeerAddress,
    /// The number of the cause, as a rejection has it.
    pub cause: u8,
}

impl PeerAddress {
    ghost use Rattle.std.specs.Prelude.{◌≡◌};
    ghost use Rattle.std.specs.Net.Addr.{MatchIp, embedded_segments, ipv6_octets, octets_of};
    ghost use Rattle.std.specs.Net.Socket.{socket_ip, socket_port};

    /// The address of a peer; what an address of IPv6 has besides its bytes isn't kept.
    pub fn of(address: SocketAddr) -> PeerAddress
        ensures ip { MatchIp (socket_ip address) (λ ip. result.ip ≡
            octets_of (embedded_segments 0xffff ip)) (λ ip. result.ip ≡ ipv6_octets ip) }
        ensures port { result.port ≡ socket_port address }
    {
        let ip = match address.ip() {
            IpAddr::V4(ip) => ip.to_ipv6_mapped().octets(),
            IpAddr::V6(ip) => ip.octets(),
        };
        PeerAddress {
            ip,
            port: address.port(),
        }
    }
}

impl fmt::Display for PeerAddress {
    fn fmt<W: fmt::Write>(&self, f: &mut fmt::Formatter<W>) -> fmt::Result {
        let address = SocketAddr::new(Ipv6Addr::from_octets(self.ip).to_canonical(), self.port);
        write!(f, "{address}")
    }
}

impl fmt::Display for Suspension {
    fn fmt<W: fmt::Write>(&self, f: &mut fmt::Formatter<W>) -> fmt::Result {
        let accuser = self.accuser;
        let address = self.address;
        let cause = self.cause;
        write!(
            f,
            "node {accuser} at {address} remembers more of this node (cause {cause})"
        )
    }
}
