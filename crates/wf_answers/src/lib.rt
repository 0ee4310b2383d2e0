//! What holds of answers, beyond what each call that gives one promises. It has no code.
//!
//! - What the service metadata of a map offers, a GetMap request takes, and nothing else
//!   (`specs/Offer.antt`): so a request that keeps to the metadata, with a VERSION and a MAPSEQ
//!   that are accepted, is rejected only for its BBOX or its BGCOLOR.
//! - A text that is escaped in a document is what an XML processor reads there
//!   (`specs/XmlText.antt`): so no title, name or address of a map can be taken for markup, and
//!   none is changed.
//! - An answer that a node sent to an earlier attempt of a proposer doesn't count for a later one
//!   (`specs/LateAnswers.antt`): runs, proved by computing them. Only nodes answer
//!   (`specs/Senders.antt`).
//!
//! It doesn't promise that a document is well formed as a whole.
#![tactic(auto)]

mod theorem;

pub use theorem::{
    escaped_texts_are_read_back, late_answers_do_not_count, only_nodes_answer,
    requests_within_the_offer_are_taken, what_is_offered_is_taken,
};
