//! Theorems about folders. Each call does nothing.
ghost use Rattle.wf_node_folder.specs.Damage.{AreBadNowhere};
ghost use Rattle.wf_node_folder.specs.PowerCut.{ClearsAreSound, CutsAreReadBack, CutsKeepFarm, FilesAreWhole, InitsAreSound, InitsAreWhole, NodesAreSound, StartsAgain, StartsAreSound, StartsKeepFarm, StopsAreSound};

use wf_canon::one_text_one_map;
use wf_tape::Tape;

/// Whole records are bad nowhere. A theorem: the call does nothing.
#[tactic(auto, using(crate::proofs::Damage::bad_nowhere))]
pub(crate) fn whole_records_are_bad_nowhere()
    ensures { AreBadNowhere }
{
    // Maps with equal texts are equal.
    one_text_one_map();
}

/// Wherever the power is cut between calls of a folder, or inside one, of which each that writes a
/// file other than a tape writes one that is read back (`specs/Sound.antt`): each such file isn't
/// there, or is there whole, and the next start reads it back (`specs/PowerCut.antt`). Those of
/// `init` are such calls, and after such those of `clear`, of a start, whether it comes to serve or
/// ends with an error, and of a node that is served. A theorem.
#[tactic(auto, using(crate::proofs::PowerCut::files_are_whole, crate::proofs::PowerCut::cuts_are_read_back, crate::proofs::PowerCut::starts_are_sound))]
pub fn cut_folders_are_read_back()
    ensures whole { FilesAreWhole }
    ensures read { CutsAreReadBack }
    ensures init { InitsAreSound }
    ensures clear { ClearsAreSound }
    ensures start { StartsAreSound }
    ensures stop { StopsAreSound }
    ensures nodes { NodesAreSound }
{}

/// Wherever the power is cut while `init` makes a folder, there is no file `farm`, or all is there:
/// it, the tape to begin with, and the file `joins` of a folder that joins. A theorem.
#[tactic(auto, using(crate::proofs::PowerCut::inits_are_whole))]
pub fn made_folders_are_whole()
    ensures { InitsAreWhole }
{}

/// Whatever a power cut leaves of the file `farm` of a node that is served says no less than what
/// was put there last, by its start or since. So does what is left after each call of a start that
/// follows, if that reads what is there, whether or not it comes to serve. A theorem.
pub fn farm_files_are_kept()
    ensures nodes { CutsKeepFarm }
    ensures starts { StartsKeepFarm }
{}

/// Whatever a power cut leaves of the tape of a node that was started, if the tape is durable,
/// holds all that the file `farm` says, the one from before the start and the one that counts it:
/// the next start takes it. A theorem.
#[tactic(auto, using(crate::proofs::PowerCut::starts_again))]
pub fn started_folders_start_again<T: Tape>()
    ensures { StartsAgain T.Tape }
{}
