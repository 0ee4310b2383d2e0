//! The commands of a node in a process of its own: `wfarm init`, `wfarm node`, which serves it, and
//! `wfarm clear`. What they do to its folder stands in `wf_node_folder`.
//!
//! [`run`] runs a parsed command line on a folder, returns its error ([`CommandFault`]), and hands
//! the folder back. [`RunningNode`] is a node that `node` has started, stepped by its caller over
//! any network and at times that it is handed.
//!
//! **Promises** (`specs/Done.antt`), beside those of `wf_node_folder`.
//! - However many turns `node` was to take, and however it ended after it had begun, its process
//!   has lived as `HasLived` of `wf_voter` says, from the node that was started on, and each client
//!   was sent the response to exactly what had come of its request (`HasAnswered`).
//! - What its process went by of replacements, from its first turn to its last one, is what the
//!   file `replaced` said that was read at its start, whatever it was told meanwhile.
//! - Where the file `joins` said that the folder joins, the node was given no message but those
//!   that say what is published, in each of its runs: it voted for nothing, and promised nothing
//!   (`specs/Learned.antt`).
//!
//! **Doesn't.** What the system does with sockets and clocks has no model.
#![tactic(auto)]

mod command;
mod node;
mod running_node;
mod serve;

pub use command::run;
pub use running_node::RunningNode;
pub use wf_node_folder::{AddressOption, CommandFault, FromRejection, ReplacementFault};
