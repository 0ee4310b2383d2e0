//! Messages cross a connection, in pieces, and come out of an inbox at its other end.
//!
//! [`cross`] writes a message's encoding to a writer in pieces of at most 4,096 bytes, and after
//! each it reads as many bytes from a reader into an inbox of wf_mail. [`cut_off`] does the same
//! with the first bytes of a message. A [`Connection`] is a carrier of wf_farm: it lets each
//! message cross a TCP connection of this machine to itself.
//!
//! Model: of the writer the bytes written, of the reader the bytes still to be read, if known
//! (wf_stream); of the inbox the messages that came out of it (`specs/Arrival.antt`).
//!
//! Promises: [`cross`] writes the message's encoding, and a prefix of it if it fails. What it
//! returns is the one message that came out, of exactly as many bytes as were written, with nothing
//! behind it. If the reader has the bytes that are written, that is the message itself. [`cut_off`]
//! never writes a whole message; after Ok no message came out. A failure has its cause: a message
//! is lost where a write or a read failed, the reader ended too early, or what came is something
//! else; where an allocation failed, no call did. A [`Connection`] writes exactly the bytes of a
//! message that it cuts off, loses none for an allocation, and is closed by a failure.
//!
//! Not here: what a socket gives. No contract says it, so a [`Connection`] isn't faithful; a farm
//! tests what it brings. A read or write at a connection that waits for ten seconds fails.
#![tactic(auto)]

mod connection;
mod message_crossing;
mod receiver;

pub use connection::Connection;
pub use message_crossing::{PIECE_BYTES, cross, cut_off};
