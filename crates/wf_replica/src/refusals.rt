//! Which of its sources refuse a replica.

use std::alloc::{AllocError, Global};
use std::marker::Model;

/// Which of its sources refuse a replica, as each of them last replied: they are of another farm,
/// or of another history. Model: for each whether it does.
#[derive(Drop)]
pub struct Refusals {
    refusals: Vec<bool>,
}

impl Model for Refusals {
    ghost use Rattle.std.specs.Prelude.{Bool, List};

    ghost Value = { List Bool };

    ghost view = { λ r. r.refusals.items };
}

impl Refusals {
    ghost use Rattle.std.specs.Prelude.{◌≡◌, ◌<◌, ◌≤◌, IfOk, false, length, replicate, slice_set};
    ghost use Rattle.wf_replica.specs.Refusals.{all_refuse};

    /// None of so many sources does. The only error is allocation failure.
    pub fn new(alloc: Global, count: usize) -> Result<Refusals, AllocError>
        ensures { IfOk result (λ refusals. refusals ≡ replicate count false) }
    {
        let refusals = vec![in alloc; false; count]?;
        Ok(Refusals { refusals })
    }

    /// Notes whether a source refuses the replica. There is nothing to note of one that isn't among
    /// them.
    pub fn note(&mut self, source: usize, refuses: bool)
        ensures noted { source < length self.old → self.new ≡ slice_set self.old source refuses }
        ensures other { length self.old ≤ source → self.new ≡ self.old }
    {
        if let Some(refusal) = self.refusals.get_mut(source) {
            *refusal = refuses;
        }
    }

    /// Whether all of them do.
    pub fn are_all(&self) -> bool
        ensures { result ≡ all_refuse self.now }
    {
        self.refusals.iter().all(|refuses| *refuses)
    }
}
