//! Sockets that never block, and that show their bytes.
//!
//! - A [`Connection`] is read, written and ended; a [`Network`] listens, accepts and connects, and
//!   watches connections. What a read or a write moved is [`Moved`].
//! - [`SystemConnection`] and [`SystemNetwork`] are those of the system, over mio. What waits, by
//!   [`SystemNetwork::wait`], is told the tokens of the sockets that are ready.
//! - A [`ConnectionSink`] is a connection to be written to as a sink of `wf_stream`.
//!
//! **Model.** A connection is two lists that only proofs read, [`Trail`]s: all bytes that came on
//! it, and all bytes that it took to be sent, since it was opened (`specs/Moved.antt` says which
//! bytes a result moved).
//!
//! **Promises.** Of any connection: a read adds to what came exactly the bytes that it returns, and
//! a write to what was sent exactly those that it reports as taken, from the front of what it was
//! given; nothing else changes either list. Of any network: a connection that was accepted, or that
//! is being opened, begins with two empty lists, and watching it changes neither.
//!
//! **Doesn't.** No clause says that what a read returns is what the other side sent: that the
//! system's calls move the bytes that they report is the one premise of this crate, `src/system.rt`
//! the text that is to be read for it, and `wf_simulation` a network of which it is proved. Nor
//! does one say which sockets are ready, and when: waiting is in no trait, and who waits is told of
//! a socket by the token under which it is watched, maybe too often.
#![tactic(auto)]

mod connection;
mod moved;
mod network;
mod sink;
mod system;
mod trail;

pub use connection::Connection;
pub use moved::Moved;
pub use network::{Network, NetworkError, NotAccepted};
pub use sink::ConnectionSink;
pub use system::{SystemConnection, SystemListener, SystemNetwork};
pub use trail::Trail;
