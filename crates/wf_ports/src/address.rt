//! The addresses of a process's ports.

use std::net::SocketAddr;
use wf_address::AddressOption;

/// Where clients come, and, if anywhere, operators and readers.
#[derive(Clone, Copy)]
pub struct PortAddresses {
    /// Where clients come.
    pub http: SocketAddr,
    /// Where operators come, if anywhere.
    pub admin: Option<SocketAddr>,
    /// Where readers come, if anywhere.
    pub readers: Option<SocketAddr>,
}

/// An address that is taken, or not permitted, and its option.
#[derive(Clone, Copy)]
pub struct TakenAddress {
    pub option: AddressOption,
    pub address: SocketAddr,
}
