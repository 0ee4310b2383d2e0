//! The parts of a node's loop that don't touch its process: the connections with its peers, what is
//! known of them, its clock, and what it answers operators. `wf_loop` is above: it hands messages
//! from here to the process, and what the process returns back, as posts (`wf_wire`).
//!
//! - [`PeerConnections`] has the connections to the peers ([`Dial`]), each with its outbox, and
//!   from them ([`Inbound`]), each with its receiver and the messages that wait, and what is known
//!   of each peer: whether it is heard, how its history goes with the node's, and by [`PeerTable`]
//!   how far it is. It admits who greets, says why a peer isn't let in, judges which peers' word
//!   counts, and gives a post to the connections to those that it is for.
//! - [`NodePlan`] says which node it is, and where the others are. `wf_membership` says what the
//!   node goes by of replacements, constant for a run; an [`Order`] is what is to be written about
//!   them for the next one. [`Joiner`] is a folder that joins in the place of a lost one.
//! - Operators are answered from a [`NodeView`]. [`Timers`] says what is due by the clock.
//!   [`LoopParts`] has the connections and the desk of `wf_ports`, over any network (`wf_sockets`),
//!   and [`bind`] binds all addresses.
//! - [`NodeEvent`] is a line of the log; [`Socket`] says whose a token is.
//!
//! **Promises.** A peer is let in only with the folder that is taken for its node by the membership
//! that is handed in ([`PeerConnections::admit`]), and a greeting has the replacements that are
//! handed in ([`PeerTable::greeting`]). The membership is the plan's (`specs/Membership.antt`). A
//! node agrees to a replacement only where its operator may ask for that and nothing stands against
//! it. A folder that joins is to write, as an agreement or an answer of a peer, only what counts as
//! `wf_rejoin` says and what the peer's greeting says (`specs/Joining.antt`). What is remembered of
//! the peers is never less than what the file `heard` has ([`PeerTable::hold`]). An error of
//! [`bind`] names the address that is taken (`specs/StartErrors.antt`). The peer of a connection is
//! the one that has greeted on it, once it is let in ([`Inbound::let_in`]), and messages can be
//! sent on one while it has an outbox ([`Dial::is_open`]). The messages of a peer are taken out in
//! the order in which they wait (`specs/Inbound.antt`, [`Inbound::pop`]), and what is posted is
//! offered to the outbox of each connection that it is for and to no other one (`specs/Dials.antt`,
//! [`Dial::post`], [`PeerConnections::post`]). What `wf_wire` says of each connection's bytes rests
//! on nothing here but that a connection is handed in as it was accepted.
//!
//! **Doesn't.** When a connection begins, opens, is tried again and ends, when something is written
//! on it, how a greeting is answered, which events the log has, what the metrics count and when
//! something is due by the clock (but for the opening of a failed tape) has no clause: that is
//! tested with the built program. Nor is a token's socket promised to be the one that was watched
//! with it.
#![tactic(auto)]

mod agreement;
mod call;
mod dial;
mod dials;
mod event;
mod facts;
mod inbound;
mod inbounds;
mod intake;
mod joiner;
mod operators;
mod order;
mod parts;
mod peer_connections;
mod peer_state;
mod peer_table;
mod plan;
mod question;
mod socket;
mod steps;
mod timers;
mod token;
mod unlisted;

pub use dial::{Dial, DialTurn};
pub use event::{NodeEvent, PeerEnd};
pub use inbound::{Came, Inbound};
pub use joiner::Joiner;
pub use operators::NodeView;
pub use order::Order;
pub use parts::{LoopParts, LoopStart, bind};
pub use peer_connections::{INBOUND_SLOTS, PeerConnections, id_of};
pub use peer_table::{PeerTable, Told};
pub use plan::{LoopFault, NodePlan};
pub use socket::Socket;
pub use steps::Steps;
pub use timers::{TICK_MILLIS, Timers};
