ghost use Rattle.std.specs.Prelude.{◌≡◌};
ghost use Rattle.wf_mail.specs.declared.dropped.Dropped.TheVariants.{Memory};

use std::alloc::AllocError;
use thiserror::Error;

/// Why an outbox drops a message.
#[derive(Clone, Copy, Debug, PartialEq, Eq, Error)]
pub enum Dropped {
    /// So many bytes wait that the message's encoding would take them over the limit.
    #[error("no room")]
    NoRoom,
    /// Allocation failed.
    #[error("out of memory")]
    Memory,
}

impl From<AllocError> for Dropped {
    ghost from_gives = { λ _ dropped. dropped ≡ Memory };

    fn from(_: AllocError) -> Self {
        Dropped::Memory
    }
}
