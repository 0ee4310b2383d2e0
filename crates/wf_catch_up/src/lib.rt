//! The nodes of a farm that are behind catch up, over any kind of tape.
//!
//! **Model.** A farm's nodes, running, halted or stopped, as `wf_farm` has them. A node that runs
//! is behind one that has published more (`specs/CatchUp.antt`).
//!
//! **Promises.**
//! - [`catch_up`] lets each node that is behind ask one that has published the most, which answers
//!   to it alone, until all that run have published equally many maps; an error tells that an
//!   allocation failed for one, which is behind still. Nodes that aren't behind are unchanged.
//! - Some events of the model lead to what the nodes are afterwards; and nodes that stand level
//!   stay as they are ([`a_catch_up_is_reachable`]).
//!
//! **Doesn't.** There is no time, and no promise that an allocation had to fail.
#![tactic(auto)]

mod questions;

pub use questions::{a_catch_up_is_reachable, catch_up};
