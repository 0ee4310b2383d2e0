use thiserror::Error;

/// Why a node rejects a step.
#[derive(Clone, Copy, Debug, PartialEq, Eq, Error)]
pub enum Rejection {
    /// N2: a proposal was requested while one is running.
    #[error("N2: a proposal runs")]
    Busy,
    /// N3: a proposal was requested, and the last sequence, 4,096, is published.
    #[error("N3: the last sequence is published")]
    SequenceFull,
    /// N4: a proposal would begin in a new round, and there is none above those tried and reported.
    #[error("N4: no higher round")]
    RoundsFull,
    /// N7: a retry was requested while no proposal is running.
    #[error("N7: no proposal runs")]
    NothingToRetry,
}

impl Rejection {
    ghost use Rattle.std.specs.Prelude.{◌≡◌};
    ghost use Rattle.wf_farm.specs.Fault.{number_of};

    /// The number of the node's error: 2, 3, 4 or 7.
    pub fn number(self) -> u8
        ensures { result ≡ number_of self }
    {
        match self {
            Rejection::Busy => 2,
            Rejection::SequenceFull => 3,
            Rejection::RoundsFull => 4,
            Rejection::NothingToRetry => 7,
        }
    }
}
