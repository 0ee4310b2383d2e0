//! The learner of a node: its history, the list of published map definitions.
//!
//! Model: a `History` is the list of its definitions, sequence 1 first, and whether there is room
//! for one more (`specs/History.antt`). The list is what the node published, as in wf_model.
//!
//! Promises: the list grows by its next definition or is unchanged. The effect of a chosen
//! definition on it is that of the transition of wf_model's step table, and the learner returns
//! which slot is missing if the transition asks for it. An Ask is answered by the transition's
//! messages, at most eight. Learning doesn't allocate if there is room. Each definition is within
//! the limits, and sequence 0 is the empty map.
//!
//! Not here: whether a definition was chosen, and storing records (the node writes a definition's
//! record to its tape before the learner learns it).
#![tactic(auto)]

mod history;

pub use history::{History, Learned, MOST_REPORTS};
