//! Copies of texts, and what is known of one.
ghost use Rattle.std.specs.Prelude.{◌≡◌, IfOk};
ghost use Rattle.wf_text.specs.Text.{IsText};

use std::alloc::AllocError;
use wf_text::Text;

/// Makes it known to the prover that a text is within its limits.
pub(crate) fn know_text(text: &Text)
    ensures { IsText text.now }
{
    let _ = text.as_bytes();
}

/// Copies of two texts: a value of many texts is copied pair by pair, so that fewer are dropped at
/// each allocation failure.
pub(crate) fn clone_both(first: &Text, second: &Text) -> Result<(Text, Text), AllocError>
    ensures { IfOk result (λ copies. copies ≡ (first.now, second.now)) }
{
    let first = first.clone()?;
    let second = second.clone()?;
    Ok((first, second))
}
