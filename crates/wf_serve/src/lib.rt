//! A farm's nodes served over HTTP on one machine, one connection after the other.
//!
//! A [`Service`] gives the number of nodes, the port, the number of connections, the number of
//! pictures cached for each node, and the folder of the nodes' tapes. [`serve`] binds the port,
//! opens the nodes, and goes on in steps that a caller can also take alone:
//! - [`listen`] returns a listener at 127.0.0.1.
//! - [`open_folder`] opens the nodes on their tapes in a folder, and [`serve_folder`] serves these
//!   at a listener.
//! - [`serve_nodes`] lets a farm's nodes catch up ([`catch_up`]), prints the port and serves them.
//! - [`serve_connections`] serves a number of connections.
//! - [`serve_connection`] serves one, over any reader and writer.
//!
//! [`inspect`] looks what is in a folder, [`check_tapes`] reads its tapes, [`examine`] says whether
//! the nodes of its farm would start on it, a [`TapeCheck`] whether tapes that others read are
//! sound, and no two contradict each other (`specs/TapesTaken.antt`). A [`Log`] writes each
//! [`ServeEvent`] and each `FolderEvent` of `wf_folder_log` on standard error, a [`StartFault`]
//! with its [`Cause`].
//!
//! **Promises.**
//! - A connection is served by the farm's node at the given index with its cache, as by `wf_edge`'s
//!   `serve_one_cached`: the request is read first; one that only reads is answered from what the
//!   node has published, and a publish is an exchange (`Farm::exchange` of `wf_farm`;
//!   `specs/NodeRequest.antt`). Each other node is unchanged, and each cache's pictures are of its
//!   node's maps throughout (`specs/CacheSet.antt`). Then exactly the messages that the node sent
//!   are delivered to all nodes, and those sent in reply. Then, if a proposal of that node still
//!   runs, the node is asked once to restart it, and the messages that it sends are delivered
//!   likewise; otherwise nothing happens. Then the nodes catch up (`specs/ConnectionEffect.antt`).
//! - Many connections: connection c, counted from 0, is served so by node c mod n, or changes
//!   nothing if it can't be accepted (`specs/Connections.antt`).
//! - Catching up: each node that is behind asks one that has published the most, which answers to
//!   it alone. If no delivery was lost, all nodes that run have published equally many maps
//!   afterwards.
//! - A tape: [`open_shortened`] opens a node on its tape and shortens it. On a durable tape the
//!   node has stored what the tape's records fold to, and the tape holds exactly the records of a
//!   shortened one, or is as it was if an allocation failed. If the tape fails meanwhile, what a
//!   crash leaves of it reads as before, or stands for the same (`specs/Compaction.antt`).
//! - Node i of n is at index i throughout. A folder is a `Store` of `wf_store`, and a start on it a
//!   list of its calls (`specs/Start.antt`): it is locked; its file `farm` is read, and which tapes
//!   are there is seen; by just this `admit` of `wf_folder` returned the start; the nodes' tapes
//!   are read, their records fold, and no two contradict each other (`specs/TapeCheck.antt`); only
//!   then each is opened, node i's as `node-i.tape`; and a folder without a file `farm` gets it
//!   last, with a mark that was drawn. A start that is rejected before a tape is opened changed no
//!   file; of a later one it is known which tapes were opened. If it is rejected for a call of the
//!   folder that failed, that was the last one, and the cause says which (`specs/FailedCall.antt`).
//! - [`first_difference`] of two histories: the sequence under which they have different
//!   definitions, none only if they have no different ones (`specs/Difference.antt`).
//! - The port: the line that is written names it, and it is the requested one unless that is 0. An
//!   error reports why the nodes aren't served, and what is written of that line by then
//!   (`specs/PortLine.antt`).
//! - Of that line and of each response a failed write is the last call of its writer.
//! - All of this is one run of the farm's model: whatever world of it the nodes were, some of its
//!   events lead to what they are afterwards, and no node's published sequence goes back. If they
//!   are reached from its start, as those of a farm in memory are, no two of them have published
//!   different maps under one sequence, whatever the connections sent, and two that stand at one
//!   sequence respond to equal requests for maps with equal bytes (`headline` of [`serve_nodes`],
//!   [`serve_connections`] and [`serve_connection`]; `HaveGoneOn` of `specs/Agreement.antt`).
//! - [`serve`] promises all of it of the nodes that it opens: there are as many as the service has,
//!   each at its own index, new ones if it has no folder; they served its number of connections,
//!   each with a cache for its number of pictures (`specs/Served.antt`).
//! - A map that one of three new nodes accepted over a connection is published on all three, if no
//!   delivery was lost, the deliveries didn't stop early and no tape failed (`published` of
//!   [`serve_connection`], whose [`ConnectionOutcome`] tells of the deliveries;
//!   [`an_accepted_map_is_published`], `specs/Publication.antt`). New nodes that caught up before
//!   are new still ([`caught_up_nodes_stay_new`]), and what the first connection published all of
//!   them have published after any later ones ([`the_first_map_is_published`], `specs/First.antt`).
//!
//! **Doesn't.** It doesn't state that memory suffices for a delivery, what a file holds, that a
//! tape which is opened has the bytes that were read of it before, what the log's lines are, what a
//! socket receives or sends, that a connection is accepted, which port the system chooses, how long
//! a client is waited for, that a response is one write where the socket takes all of it, nor that
//! a proposal is published: sockets and clocks have no model. Tests cover these
//! (`wf_test_failures`), as do runs of the built program that aren't in CI.
#![tactic(auto)]

mod cache_set;
mod check;
mod compaction;
mod connection_effect;
mod connections;
mod event;
mod fault;
mod limited;
mod node_request;
mod node_start;
mod noted;
mod parting;
mod port;
mod port_listener;
mod publication;
mod survey;
mod tape_check;
mod timed_reader;
mod timed_writer;
mod watch;

pub use check::{check_tapes, examine, first_difference};
pub use compaction::open_shortened;
pub use connection_effect::{ConnectionOutcome, catch_up, serve_connection};
pub use connections::serve_connections;
pub use event::{Cause, ServeEvent, StartFault};
pub use fault::ServeFault;
pub use node_start::open_folder;
pub use port::listen;
pub use port_listener::{serve, serve_folder, serve_nodes};
pub use publication::{
    an_accepted_map_is_published, caught_up_nodes_stay_new, the_first_map_is_published,
};
pub use survey::{Survey, inspect};
pub use tape_check::TapeCheck;
pub use wf_service::Service;
pub use wf_visitors::{Level, Log};
