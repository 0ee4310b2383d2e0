//! A farm of Paxos nodes over any kind of tape, the events that may happen to one in memory, and
//! the agreement theorem.
//!
//! **Model.** The world of `wf_model`: its nodes and all messages ever sent. A [`Farm`] is modelled
//! as its entries, one per node, its messages, the number of the first message not pumped yet, and
//! whether these are all messages ever sent. `Refines` (`specs/Farm.antt`) relates it to a world: a
//! running node has both its parts, stored and working; a stopped one has the durable state that
//! its tape stands for. An [`Event`] is the model's event; it names a message by its number.
//!
//! **Promises** over tapes in memory:
//! - A new farm is the model's start.
//! - A run of events leaves exactly the model's world after them. A pump is a run of deliveries
//!   only, of each message not pumped yet to each of its targets (`specs/Pump.antt`). If an
//!   allocation fails, the farm is the world after the events or deliveries done, whose number the
//!   error reports; it fails only at an event that has an effect (`specs/Allocation.antt`).
//! - Messages may be brought to the nodes by a [`Carrier`]: a delivery ([`Farm::deliver_by`]) or a
//!   pump ([`Farm::pump_by`]) is what it would be without, whatever the carrier does. A message
//!   that isn't brought, or isn't the one that was sent, is an error and not delivered.
//! - A run in which one call of a node's tape fails ([`run_fused`]) is the model's run of the same
//!   events, but for the event within whose step the tape failed a crash within that step and a
//!   restart of the node (`specs/Fused.antt`). No other tape of a farm fails. There is one way to
//!   apply an event, whether a tape may fail or not.
//! - What a node published stays a prefix of what it publishes after a run, a pump or a delivery.
//! - No two nodes, running or stopped, publish different definitions under one sequence, since
//!   every farm is reached from the start: [`Farm::agree`].
//! - A running node answers clients as `wf_wms` does, from what it published ([`Farm::answer`]).
//!   Two nodes with the same last published sequence, or asked for the same map, answer the same
//!   query with the same bytes: [`Farm::answers_agree`].
//!
//! Over any kind of tape:
//! - [`Farm::open`] makes a farm of nodes that a caller has opened on tapes that aren't known to be
//!   durable, as files aren't.
//! - [`Farm::exchange`] lets a [`NodeClient`] ask a node, delivers the node's messages to every
//!   node, and those sent meanwhile, and forgets them then. Some events of the model lead from what
//!   the nodes were to what they are afterwards (`specs/Exchange.antt`).
//! - [`Farm::change`] lets a [`FarmClient`] change the nodes, whatever it does to them, if some
//!   events of the model lead to what they are afterwards.
//! - [`Farm::nodes_agree`]: over durable tapes some events led to the farm from the start, so no
//!   two of its nodes publish different definitions under one sequence; over others, if some events
//!   did.
//!
//! **Doesn't.** There is no time, and no promise that an allocation had to fail, that a carrier is
//! used, or that anything is ever published.
#![tactic(auto)]

mod carrier;
mod change;
mod client_answers;
mod cluster;
mod entry;
mod event;
mod event_run;
mod exchange;
mod farm;
mod farm_event;
mod farm_start;
mod fate;
mod fault;
mod fused;
mod node_access;
mod node_step;
mod progress;
mod pump;
mod rejection;
mod same;
mod targets;

pub use carrier::{Carrier, CarrierFault, Copies};
pub use change::FarmClient;
pub use cluster::NodeHost;
pub use event::Event;
pub use exchange::NodeClient;
pub use farm::Farm;
pub use fault::FarmFault;
pub use fused::{Fused, run_fused};
pub use rejection::Rejection;
pub use wf_delivery::{
    Pumped, agreement, deliver_all, kept_promises, own_ballots, promised_majority,
};
pub use wf_model::{Action, Kept};
