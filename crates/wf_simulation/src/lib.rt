//! A network in plain data, behind the traits of sockets, that a driver plays by a seed.
//!
//! - A [`World`] has hosts, what listens on them, their connections, and the time, which its driver
//!   sets ([`World::advance`]). Its [`Faults`] say what goes wrong by chance; [`World::block`],
//!   [`World::turn_off`] and [`World::turn_on`] are the driver's.
//! - A [`SimulatedNetwork`] is the network as one host sees it, over a cell with the world. The
//!   driver asks for the tokens of sockets that may be ready ([`World::take_ready`]). [`Offline`]
//!   is the runtime of a program on such a host.
//!
//! **Model.** A direction of a connection is a [`Pipe`]: all bytes that were taken at the one end,
//! all that were read at the other, and how many wait at most (`specs/Pipe.antt`).
//!
//! **Promises.** What is read of a pipe is always a beginning of what was sent
//! ([`Pipe::always_carries`]): whatever goes wrong, no byte is changed, skipped, repeated or
//! invented. Every step but a read and a write leaves both lists of both directions of a connection
//! as they are. At most so many bytes wait in a direction as it has room for, and at most so many
//! connections are there as the world was made for.
//!
//! **What goes wrong.** Bytes come in pieces of any size, at any time, several pieces in one read;
//! a write is short where there is no room, and a reader makes room only once the writer hears of
//! it. A connection is reset at any byte; each end learns of it by itself, with what it hadn't read
//! or without, or never. A direction is lost in silence; a host doesn't reach another for a time,
//! in one direction or both, and what was sent then comes after it. A host is off: what is closed
//! there is closed in silence, what it had sent may be lost, and once it is on again what comes for
//! a connection from before is answered by a reset. An attempt to connect is refused, or nothing
//! answers; a queue at a listener is full, or what waits there is reset. Several events are one,
//! some are false, and some are of a socket that is closed.
//!
//! **Doesn't.** No clause says what a cell has: that a [`SimulatedNetwork`]'s connection reads the
//! pipe of its own end is one line of `src/network.rt`, and no test of it stands yet. Nothing is
//! promised of when something arrives.
#![tactic(auto)]

mod chance;
mod channel;
mod counts;
mod door;
mod endpoint;
mod faults;
mod flow;
mod medium;
mod network;
mod offline;
mod pipe;
mod world;

pub use counts::Counts;
pub use endpoint::Side;
pub use faults::Faults;
pub use network::{SimulatedConnection, SimulatedListener, SimulatedNetwork};
pub use offline::Offline;
pub use pipe::Pipe;
pub use world::{World, address_of};
