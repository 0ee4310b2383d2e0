//! A tape on which every append fails.
use std::alloc::Global;
use std::io::ErrorKind;
use wf_tape::{Tape, TapeFault};

/// An empty tape whose device fails where something is to be appended.
#[derive(Drop)]
pub(crate) struct BrokenTape {
    failures: u64,
}

impl BrokenTape {
    /// A tape that hasn't failed yet.
    pub(crate) fn new() -> Self {
        BrokenTape { failures: 0 }
    }
}

impl Tape for BrokenTape {
    ghost use Rattle.std.specs.Prelude.{[]};

    ghost durable = { ⊥ };

    ghost content = { λ _. [] };

    ghost images = { λ _ _. Unit {0} };

    ghost failed = { λ t. t.failures };

    ghost certain_is_durable = { λ no. absurd no };

    ghost is_now = { λ no. absurd no };

    ghost nested = { λ no. absurd no };

    fn read(&mut self, alloc: Global) -> Result<Vec<u8>, TapeFault> {
        Ok(Vec::new(alloc))
    }

    fn append(&mut self, _bytes: &[u8]) -> Result<(), TapeFault> {
        self.failures = self.failures.saturating_add(1);
        Err(TapeFault::Device)
    }

    fn sync(&mut self) -> Result<(), TapeFault> {
        Ok(())
    }

    fn replace(&mut self, _bytes: &[u8]) -> Result<(), TapeFault> {
        Ok(())
    }

    fn failures(&self) -> u64 {
        self.failures
    }

    fn cause(&self) -> Option<ErrorKind> {
        None
    }

    fn is_doubtful(&self) -> bool {
        false
    }
}
