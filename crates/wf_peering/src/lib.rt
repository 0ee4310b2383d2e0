//! What a node in a process of its own does for its peers and hears from them, step by step, and
//! never blocks on one. `wf_loop` is above, and says when.
//!
//! **Model.** A step acts on a `Voter` with its `NodeFolder` (`wf_voter`), of which clauses speak,
//! and on a `PeerConnections` (`wf_peer_connections`), which has the connections to and from the
//! peers, over any network (`wf_sockets`).
//!
//! - [`accept`] and [`read_inbound`] take in connections, greetings and messages, a bounded part
//!   of what came. [`connect`] and [`call`] open the connections to peers.
//! - [`send_all`] writes what the node returned; [`call_all`] and [`ask_all`] ask for definitions
//!   that it lacks; [`greet_again`] tells peers that it is there.
//! - [`save`] writes to the folder what was heard, [`obey`] what is to be written about
//!   replacements, [`keep_reach`] how far the node is.
//!
//! **Promises.** By each step the node goes on as `wf_voter` says (its `specs/Continuation.antt`).
//! What was given to the node from a peer came on a connection from that peer (`wf_wire`). Peers
//! are let in by what the voter goes by of replacements, not by what they say of them; it greets
//! with these, and with this start of its folder and how far it is (`specs/Greeting.antt`). One
//! that is told that it forgot is suspended. [`state_of`] is what it says that it does now.
//!
//! **Doesn't.** How connections are made anew is tested with the built program. No clause says
//! that a step tells or asks anybody, nor that what is to be in the folder could be written.
#![tactic(auto)]

mod greeting;
mod heard;
mod order;
mod peer_calls;
mod peer_reads;

pub use greeting::state_of;
pub use heard::save;
pub use order::{keep_reach, obey};
pub use peer_calls::{ask_all, call, call_all, connect, greet_again, send_all};
pub use peer_reads::{accept, read_inbound};
