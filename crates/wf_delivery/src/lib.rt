//! Nodes that a caller holds, over any kind of tape: what one does with an input, the delivery of
//! their messages, and the theorems that whatever happens to them, step by step, is one run of the
//! model, so that they agree.
//!
//! **Model.** The world of `wf_model`: its nodes and all messages ever sent. `Refines`
//! (`specs/Delivery.antt`) relates the nodes and their messages to a world; node i of a list is
//! node i of n, where n is its length. A node whose tape failed is halted, and is the model's
//! stopped one.
//!
//! **Promises.**
//! - A node takes an input ([`consume`], [`hand`]): it halts, rejects it, makes its transition,
//!   fails with its tape, or loses it for want of memory, and what it sends is returned
//!   (`specs/NodeInput.antt`, [`a_step_is_answered`]).
//! - Nodes receive one another's messages by [`deliver_all`]: each message is delivered to each
//!   node in turn, until none is left or the deliveries report that they stopped early, and they
//!   report how many an allocation failure lost. Only a message that has a definition is lost, or
//!   one on which the node stores or sends something. Whatever world of the model the nodes and
//!   their messages were, at most the reported number of deliveries leads to the world that they
//!   are afterwards (`specs/Delivery.antt`). [`deliver_each`] is that loop over whatever holds the
//!   nodes ([`Recipient`]), as the entries of a farm.
//! - Successive calls are one run of the model: a step of a node, and the deliveries of the
//!   messages that it sent, lead on from whatever world the nodes were, however many messages were
//!   sent before ([`a_step_is_reachable`], [`deliveries_are_reachable`], [`reachability_goes_on`];
//!   `specs/Reachability.antt`). Nodes opened on empty tapes are the model's start ([`open_fresh`],
//!   [`fresh_nodes_are_reachable`]); nodes led on from reached nodes are reached
//!   ([`reachable_stays`]); and so are nodes opened again from what reached nodes left on their
//!   tapes ([`reopen`], [`reopened_nodes_are_reachable`]; `specs/ReopenedNodes.antt`).
//! - Reached nodes agree, and answer alike: [`reachable_nodes_agree`],
//!   [`reachable_nodes_answer_alike`].
//! - The four theorems of `wf_safety` hold for the program's definitions ([`agreement`]).
//! - Deliveries of which none is lost are those of whole rounds, of one message after the other to
//!   every node, from whatever world the nodes were ([`deliveries_are_rounds`];
//!   `specs/Rounds.antt` defines them); a farm's pump makes such rounds too. What one of three new
//!   nodes proposes is published on all three, by 27 deliveries ([`new_nodes_publish`],
//!   `specs/Publication.antt`). New nodes of which one catches up are new still
//!   ([`new_nodes_stay_new`]).
//!
//! **Doesn't.** There is no time, no promise that a message is delivered where allocations fail,
//! and none that anything is ever published where messages or deliveries are lost, or by other
//! numbers of nodes than three.
#![tactic(auto)]

mod delivery;
mod node_start;
mod progress;
mod publication;
mod reachability;
mod recipient;
mod theorem;

pub use delivery::{
    MOST_OUTPUTS, Outputs, Pumped, consume, deliver_all, deliver_each, hand, is_halted, quiet, send,
};
pub use node_start::{open_fresh, reopen};
pub use progress::{MOST_DELIVERIES, PumpProgress};
pub use publication::{deliveries_are_rounds, new_nodes_publish, new_nodes_stay_new};
pub use reachability::{
    a_step_is_reachable, deliveries_are_reachable, fresh_nodes_are_reachable, reachability_goes_on,
    reachable_nodes_agree, reachable_nodes_answer_alike, reachable_stays,
    reopened_nodes_are_reachable,
};
pub use recipient::Recipient;
pub use theorem::{
    a_step_is_answered, agreement, kept_promises, limits_are_as_defined, own_ballots,
    promised_majority,
};
