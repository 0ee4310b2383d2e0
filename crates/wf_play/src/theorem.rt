//! The theorems about a farm on which scripts are played.

ghost use Rattle.std.specs.Prelude.{◌≡◌, true};
ghost use Rattle.wf_farm.specs.Agreement.{HasNoTwoDefinitions, IsOneWorld};
ghost use Rattle.wf_play.specs.Theorem.{HasKeptPromises, HasOwnBallots, HasPromisedMajorities};

use wf_farm::Farm;

/// The theorems about the farm, which has all messages, hold of it as it is, whatever led to it.
#[tactic(auto, using(crate::proofs::Worlds::own_ballots_there, crate::proofs::Worlds::kept_promises_there, crate::proofs::Worlds::promised_majorities_there))]
pub(crate) fn farm_obeys_theorems(farm: &Farm)
    requires { farm.now.complete ≡ true }
    ensures agree { HasNoTwoDefinitions farm.now }
    ensures world { IsOneWorld farm.now }
    ensures ballots { HasOwnBallots farm.now }
    ensures promises { HasKeptPromises farm.now }
    ensures majorities { HasPromisedMajorities farm.now }
{
    farm.agree();
}
