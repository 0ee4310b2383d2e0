//! The two connections between a node and a peer: one on which messages come from it, one on which
//! messages are sent to it. Each is one value with its end of the messages.
//!
//! **Model.** A [`FromPeer`] is a connection, the peer's greeting, and the receiver of what comes
//! after it (`specs/FromPeer.antt`). A [`PeerMessage`] is a message that came on one, with what had
//! come on it by then. A [`Post`] is messages that a node returned, with whom they are for, and
//! with all that the node had returned by then (`specs/Post.antt`). A [`ToPeer`] is a connection,
//! the node's greeting, and the outbox of what is sent after it (`specs/ToPeer.antt`).
//!
//! **Promises.**
//! - All bytes that came on a connection from a peer are its greeting, and then what its receiver
//!   took: so each message that it gives is one of the whole messages that these bytes begin with
//!   ([`FromPeer::pop`], [`PeerMessage::into_parts`]). A receiver can't outlive its connection.
//! - What a read of such a connection returns says what came: nothing, a part of a greeting, the
//!   rest of one, or the messages that the receiver returned, which wait then, all of them and in
//!   order; or why nothing more comes ([`FromPeer::receive`], `specs/Reception.antt`). The peer is
//!   known once it has greeted and is let in ([`FromPeer::from`]).
//! - All bytes that were sent on a connection to a peer are a beginning of the node's greeting and
//!   of the encodings of what was put into its outbox, and each of these messages was returned by
//!   the node before it was posted ([`ToPeer::always_sent`]).
//! - The greeting is the one that was given, and is sent first; messages are sent once all of it
//!   was ([`ToPeer::open`]). The bytes that a write moves are the first of those that are left of
//!   the greeting, or that wait, and the others are left ([`ToPeer::greet`], [`ToPeer::send`]).
//!   Each message that is posted is put in or dropped, in order, and counted ([`ToPeer::post`]).
//! - Where all bytes that came on a connection are a beginning of what was sent on another one,
//!   each message that came was put into that one's outbox ([`only_posted_messages_come`]).
//!
//! **Doesn't.** A connection may move nothing at each call: no clause says when it moves bytes, so
//! none says that a call has tried it. That what comes on a connection is a beginning of what was
//! sent at its other end is TCP's promise, and a premise. Who may be let in, what a node makes of a
//! message, and time are elsewhere.
#![tactic(auto)]

mod from_peer;
mod peer_message;
mod post;
mod receipt;
mod reception;
mod sending;
mod target;
mod theorem;
mod to_peer;

pub use from_peer::FromPeer;
pub use peer_message::PeerMessage;
pub use post::Post;
pub use receipt::{Received, ReceptionFault};
pub use sending::{OUTBOX_BYTES, PostCount};
pub use target::{Target, reply_target};
pub use theorem::only_posted_messages_come;
pub use to_peer::ToPeer;
