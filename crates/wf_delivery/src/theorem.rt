//! The agreement theorems for the program's definitions.

ghost use Rattle.std.specs.Prelude.{◌≡◌};
ghost use Rattle.wf_def.specs.Definition.{Definition};
ghost use Rattle.wf_safety.specs.Theorems.{Agreement, KeptPromises, OwnBallots, PromisedMajority};
ghost use Rattle.wf_model.specs.Table.{most_reports};
ghost use Rattle.wf_delivery.specs.Outcome.{StepIsAnswered};

use crate::delivery::MOST_OUTPUTS;
use wf_codec::Canon;
use wf_tape::Tape;

/// A node that is asked for a step, whatever the input, halts, rejects it, makes its transition,
/// fails with its tape, or loses it for want of memory; and sends what it returned. A theorem: the
/// call does nothing.
pub fn a_step_is_answered<T: Tape>()
    ensures { StepIsAnswered T.Tape }
{}

/// The limits in the code equal those in the specifications.
pub fn limits_are_as_defined()
    ensures outputs { MOST_OUTPUTS ≡ most_reports }
{}

/// A ballot is used only by proposals of its own node, at a round that the node stored before.
/// Promises are requested at it from one sequence on, and votes for one definition at each
/// sequence, even after a restart that lost the proposal.
pub fn own_ballots()
    ensures { OwnBallots Definition }
{
    wf_safety::own_ballots::<Canon>();
}

/// A node keeps its promises: its promise never decreases, it sends no vote below it at any
/// sequence, and for each vote that it stored or reported an Accept was sent.
pub fn kept_promises()
    ensures { KeptPromises Definition }
{
    wf_safety::kept_promises::<Canon>();
}

/// Each Accept is backed by a majority of promises, made from its sequence or one of the three
/// before it on, and carries the highest vote that they reported for its sequence. So each Accept
/// at a ballot above one at which a definition was chosen carries that definition.
pub fn promised_majority()
    ensures { PromisedMajority Definition }
{
    wf_safety::promised_majority::<Canon>();
}

/// At most one definition is chosen for a sequence; whatever is published or sent as Chosen is
/// chosen; so nodes that both published a sequence have the same definition there; and lists only
/// grow.
pub fn agreement()
    ensures { Agreement Definition }
{
    wf_safety::agreement::<Canon>();
}
