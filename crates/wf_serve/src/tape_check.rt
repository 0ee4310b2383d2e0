//! The tapes of a folder, taken one after the other from whoever reads them.
ghost use Rattle.std.specs.Prelude.{◌<◌, ◌∷◌, [], List, None, Some, IfOk};
ghost use Rattle.wf_serve.specs.LongestTape.{AreTaken, HasTakenTapes, HasFoundCause};
ghost use Rattle.wf_serve.specs.TapesTaken.{AreSoundOr, NumberedTape};

use crate::check::{Longest, with_next};
use crate::event::Cause;
use std::alloc::{AllocError, Global};
use wf_ballot::NODES;

/// Tapes that were taken: whether each is sound, and no two contradict each other; else the first
/// cause why not.
#[derive(Drop)]
pub struct TapeCheck {
    longest: Option<Longest>,
    cause: Option<Cause>,
}

impl TapeCheck {
    /// No tape was taken.
    #[tactic(auto, using(crate::proofs::Taken::none_taken))]
    pub fn new() -> TapeCheck
        ensures { HasTakenTapes [] result }
    {
        TapeCheck {
            longest: None,
            cause: None,
        }
    }

    /// Takes the tape of one more node, with these bytes. The only error is allocation failure.
    pub fn take(self, alloc: Global, number: u8, bytes: Vec<u8>) -> Result<TapeCheck, AllocError>
        requires { number < 64 }
        ensures { (tapes : List NumberedTape) → HasTakenTapes tapes self →
            IfOk result (HasTakenTapes ((number, bytes.items) ∷ tapes)) }
    {
        let TapeCheck { longest, cause } = self;
        match cause {
            None => take_sound(alloc, longest, number, bytes),
            Some(cause) => {
                drop(longest);
                drop(bytes);
                Ok(TapeCheck {
                    longest: None,
                    cause: Some(cause),
                })
            }
        }
    }

    /// The first cause why the tapes aren't sound, in the order in which they were taken. None:
    /// each is sound, and no two contradict each other.
    #[tactic(auto, using(crate::proofs::Taken::sound_or))]
    pub fn cause(&self) -> Option<Cause>
        ensures { (tapes : List NumberedTape) → HasTakenTapes tapes self.now →
            AreSoundOr tapes result }
    {
        self.cause
    }
}

/// Takes one more tape, where all before it are sound.
fn take_sound(
    alloc: Global,
    longest: Option<Longest>,
    number: u8,
    bytes: Vec<u8>,
) -> Result<TapeCheck, AllocError>
    requires { number < 64 }
    ensures { (tapes : List NumberedTape) → AreTaken tapes longest →
        IfOk result (HasTakenTapes ((number, bytes.items) ∷ tapes)) }
{
    match with_next(alloc, longest, bytes, number, NODES) {
        Ok(longer) => Ok(TapeCheck {
            longest: Some(longer),
            cause: None,
        }),
        Err(cause) => rejected(cause),
    }
}

/// The check that has found a cause, unless that is allocation failure.
fn rejected(cause: Cause) -> Result<TapeCheck, AllocError>
    ensures { IfOk result (HasFoundCause cause) }
{
    match cause {
        Cause::Memory => Err(AllocError),
        _ => Ok(TapeCheck {
            longest: None,
            cause: Some(cause),
        }),
    }
}
