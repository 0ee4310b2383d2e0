//! The digests of a history.
use sha2::{Digest, Sha256};
use std::alloc::{AllocError, Global};
use std::marker::Model;
use wf_ballot::{Seq, Slot};
use wf_canon::Canon;
use wf_learner::History;

/// The digest of a history at each sequence, from that of the empty history at 0 on.
pub struct Digests {
    digests: Vec<[u8; 32]>,
}

// Written by hand: callers then prove one call where they drop digests.
impl Drop for Digests {
    fn drop(self) {
        let Digests { digests } = self;
        drop(digests);
    }
}

impl Model for Digests {
    ghost use Rattle.std.specs.Prelude.{ℕ, ◌≤◌, List, length};

    ghost Value = { List (List ℕ) };

    ghost view = { λ d. d.digests.items };

    ghost invariant = { λ d. 1 ≤ length d.digests.items };
}

impl Digests {
    ghost use Rattle.std.specs.Prelude.{◌≡◌, ◌≤◌, ◌<◌, ◌+◌, ℕ, List, [], length, take, Some, None, slice_get, IfOk, OnOk, OnErr};
    ghost use Rattle.wf_def.specs.Definition.{Definition};
    ghost use Rattle.wf_digest.specs.Digest.{AreDigestsOf, digest_at};

    /// Those of the empty history. The only error is allocation failure.
    #[tactic(auto, unfolding(crate::specs::Digest::digests_after))]
    pub fn new(alloc: Global) -> Result<Digests, AllocError>
        ensures { IfOk result (AreDigestsOf []) }
    {
        let mut digests = Vec::new(alloc);
        digests.push([0; 32])?;
        Ok(Digests { digests })
    }

    /// Goes on to the last published sequence of a history, if these are the digests of a front of
    /// it. The only error is allocation failure, which changes nothing.
    pub fn extend(&mut self, history: &History) -> Result<(), AllocError>
        ensures ok { OnOk result ((k : ℕ) → AreDigestsOf (take k history.now.definitions) self.old →
            AreDigestsOf history.now.definitions self.new) }
        ensures err { OnErr result (self.new ≡ self.old) }
    {
        let count = history.published().number() as usize + 1;
        let missing = count.saturating_sub(self.digests.len());
        self.digests.reserve(missing)?;
        extend_to(&mut self.digests, history, count);
        Ok(())
    }

    /// The digest at a sequence; None above the one to which they go.
    pub fn at(&self, seq: Seq) -> Option<[u8; 32]>
        ensures value { result ≡ slice_get self.now seq }
        ensures of_history { (history : List Definition) → AreDigestsOf history self.now →
            seq ≤ length history → result ≡ Some (digest_at history seq) }
        ensures above { (history : List Definition) → AreDigestsOf history self.now →
            length history < seq → result ≡ None }
    {
        get(&self.digests, seq)
    }
}

ghost use Rattle.std.specs.Prelude.{◌≡◌, ◌≤◌, ◌<◌, ◌+◌, ◌-◌, ◌++◌, ◌∷◌, [], ℕ, List, Some, length, slice_get, take, vec_len, vec_capacity};
ghost use Rattle.wf_digest.specs.Digest.{AreDigestsOf, next_digest};

/// Appends the digests of a history up to so many in all, for which there is room.
fn extend_to(digests: &mut Vec<[u8; 32]>, history: &History, count: usize)
    requires some { 1 ≤ vec_len digests.old }
    requires all { count ≡ length history.now.definitions + 1 }
    requires room { vec_len digests.old + (count - vec_len digests.old) ≤ vec_capacity digests.old }
    ensures some { 1 ≤ vec_len digests.new }
    ensures value { (k : ℕ) → AreDigestsOf (take k history.now.definitions) digests.old.items →
        AreDigestsOf history.now.definitions digests.new.items }
{
    while digests.len() < count {
        append_next(digests, history);
    }
}

/// Appends the next digest of a history, for which there is room.
#[tactic(auto, using(crate::proofs::Chain::is_there))]
fn append_next(digests: &mut Vec<[u8; 32]>, history: &History)
    requires some { 1 ≤ vec_len digests.old }
    requires published { vec_len digests.old ≤ length history.now.definitions }
    requires room { vec_len digests.old < vec_capacity digests.old }
    ensures len { vec_len digests.new ≡ vec_len digests.old + 1 }
    ensures capacity { vec_capacity digests.old ≤ vec_capacity digests.new }
    ensures value { AreDigestsOf (take (vec_len digests.old - 1) history.now.definitions)
        digests.old.items →
        AreDigestsOf (take (vec_len digests.old) history.now.definitions) digests.new.items }
{
    // A history is no longer than there are slots.
    let _ = history.published();
    let slot = Slot::new(digests.len() as u16).unwrap();
    let Some(canon) = history.canon(slot) else {
        unreachable!();
    };
    push_next(digests, canon);
}

/// Appends the digest after the last one, for which there is room.
fn push_next(digests: &mut Vec<[u8; 32]>, canon: &Canon)
    requires some { 1 ≤ vec_len digests.old }
    requires room { vec_len digests.old < vec_capacity digests.old }
    ensures len { vec_len digests.new ≡ vec_len digests.old + 1 }
    ensures capacity { vec_capacity digests.old ≤ vec_capacity digests.new }
    ensures items { (last : List ℕ) →
        slice_get digests.old.items (vec_len digests.old - 1) ≡ Some last →
        digests.new.items ≡ digests.old.items ++ next_digest last canon.now ∷ [] }
{
    let next = next_digest(&digests[digests.len() - 1], canon);
    digests.push_reserved(next);
}

/// The digest at a sequence.
fn get(digests: &[[u8; 32]], seq: Seq) -> Option<[u8; 32]>
    ensures { result ≡ slice_get digests.now seq }
{
    digests.get(seq.number() as usize).copied()
}

/// The digest after this one.
#[tactic(auto, unfolding(crate::specs::Digest::next_digest))]
fn next_digest(digest: &[u8; 32], canon: &Canon) -> [u8; 32]
    ensures { result ≡ next_digest digest.now canon.now }
{
    let mut hasher = Sha256::new();
    hasher.update(digest.as_slice());
    hasher.update(canon.text());
    hasher.finalize()
}
