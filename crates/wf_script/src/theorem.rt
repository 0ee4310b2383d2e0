//! The theorem about long inputs.

ghost use Rattle.wf_script.specs.Text.{ExaminedAlike};

/// The first bytes of an input, one more than a script may have, are judged as the whole input is:
/// a caller needs to read no further. A theorem: the call does nothing.
#[tactic(auto, using(crate::proofs::WholeInput::examined_alike))]
pub fn a_beginning_is_examined_alike()
    ensures { ExaminedAlike }
{}
