//! Where others than peers come to a process: clients, and, if anywhere, operators and readers.
//!
//! [`PortAddresses`] says where. [`PortListeners::bind`] binds these addresses,
//! [`PortListeners::open`] makes the [`Ports`]: the clients, and the [`Desk`], which has the
//! operators and the readers, who only read. [`PortSocket`] says whose a token is; from
//! [`FIRST_OWN`] on a process has tokens for sockets of its own.
//!
//! **Promises.** An address that is taken is that of the option that is named
//! (`specs/Address.antt`). Whose a token is, a table says (`specs/Socket.antt`). Where ports were
//! opened nobody was answered yet, and no call of a desk replies to a reader.
//!
//! **Doesn't.** Who answers, and by what, is the process's. That a token's socket is the one that
//! was watched with it is only tested.
#![tactic(auto)]

mod address;
mod desk;
mod listeners;
mod socket;

pub use address::{PortAddresses, TakenAddress};
pub use desk::Desk;
pub use listeners::{PortListeners, Ports, listen};
pub use socket::{FIRST_OWN, PortSocket};
