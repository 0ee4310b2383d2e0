//! A running digest of a node's history: one for each sequence, so that two nodes find out whether
//! what both published is equal.
//!
//! The digest at sequence 0 is 32 zeros. That of a sequence is SHA-256 (FIPS 180-4) of the digest
//! before it and the canonical text of its definition. [`Digests`] keeps them, extended as the
//! history grows.
//!
//! Promises: the digests are those of the history that they were extended to (`specs/Digest.antt`).
//! Histories that are equal up to a sequence have equal digests there; where the digests are equal
//! and the histories differ, two different texts have one SHA-256.
//!
//! Not here: that nobody finds two such texts, and when digests are compared.
#![tactic(auto)]

mod digests;
mod theorem;

pub use digests::Digests;
pub use theorem::{equal_digests_mean_equal_histories, equal_histories_have_equal_digests};
