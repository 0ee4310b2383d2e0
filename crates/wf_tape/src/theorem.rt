//! Theorems about what a crash may leave after an append.

ghost use Rattle.wf_tape.specs.TapeTheorems.{CutsShort};

use crate::tape::Tape;

/// Where each image before an append was a prefix of the content, as it is unless a replacement
/// failed, each image after it is a prefix of the new content and begins with one from before.
pub fn an_append_cuts_short<T: Tape>()
    ensures { CutsShort T.Tape }
{}
