//! A node whose disk is lost comes back on a new folder: what the other nodes agree to, and when
//! the new folder may vote.
//!
//! A [`Replacement`] of a node is a new folder, by its mark, under a count. An operator begins it;
//! each other node that is asked ([`Asked`]) agrees, or says what stands against it
//! ([`Objection`]). What a node knows of replacements ([`Replacements`], its file `replaced`) only
//! ever gets later: a higher count supersedes a lower one, and of one count it takes one folder.
//! From then on it admits no other folder as that node's ([`FolderRejection`]), and other nodes
//! learn of it by greetings.
//!
//! The new folder joins ([`Joining`], its file `joins`). Once at least half of all nodes have
//! agreed, it asks just these how far they are, by what they have published and by the sequences at
//! which they have votes ([`Answer`]). What it is told comes one thing after the other
//! ([`JoinStep`]). The highest of all answers is m. It may vote once it has published all
//! definitions up to four after m, or all that there can be, and answer clients once it has m maps
//! ([`Phase`]).
//!
//! **How to use it.** Each call gives the next value and changes nothing. Its text is written, and
//! synced, before anything else goes by it: `replaced` before a node says that it agreed, `joins`
//! before a folder asks, serves or votes by what it says.
//!
//! **Promises.** Each value has one text, and a text is read as that value or rejected with its
//! first malformed line (`specs/ReplacementsText.antt`, `specs/JoiningText.antt`). Agreements and
//! answers count as `specs/Agreement.antt` and `specs/Joining.antt` say, and no others. Of two
//! folders under one count, half of all nodes agree to one at most ([`one_folder_is_agreed_to`]),
//! and no node goes back to a lower count ([`counts_never_fall`]). A folder that may vote has the
//! facts that a replacement needs in the theorem of agreement ([`voters_are_guarded`],
//! [`answers_are_bounds`]).
//!
//! **Not here**, and so premises: that the lost folder's process has ended and never starts again,
//! that an answer is true to the node that gave it, at a moment after the loss, that a node keeps
//! what it knows of replacements, through one of its own too, and that a folder sends nothing but
//! questions until it votes. Files, connections, and time are the caller's.
#![tactic(auto)]

mod admission;
mod agreement;
mod answer;
mod fault;
mod join_step;
mod joining;
mod joining_reader;
mod joining_text;
mod phase;
mod replacement;
mod replacements;
mod replacements_reader;
mod replacements_text;
mod theorem;

pub use admission::{FolderRejection, GreetedFolder};
pub use agreement::{Asked, Hindrance, Objection, QUIET_TIME};
pub use answer::Answer;
pub use fault::{JoiningFault, ReplacementsFault};
pub use join_step::JoinStep;
pub use joining::{Joining, Stage};
pub use phase::Phase;
pub use replacement::Replacement;
pub use replacements::Replacements;
pub use theorem::{
    answers_are_bounds, counts_never_fall, one_folder_is_agreed_to, voters_are_guarded,
};
