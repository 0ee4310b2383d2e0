//! What a start on a folder would do, by what is in it, whose it is, and whether its tapes are
//! sound.
ghost use Rattle.std.specs.Prelude.{◌≡◌, List, IfSome, length};
ghost use Rattle.wf_commands.specs.FolderEnd.{IsFarmState, IsNodeState, IsStateOf};
ghost use Rattle.wf_folder.specs.NodeFile.{IsNodeFile};
ghost use Rattle.wf_serve.specs.TapesTaken.{AreSoundOr, NumberedTape};

use crate::folder_state::FolderState;
use wf_folder::{NodeFile, NodeFound, admit_node};
use wf_serve::{Cause, Survey, examine};

/// What a start on a folder with this in it would do: one of the node with the owner's file, or one
/// of the nodes of a farm. The cause is why its tapes aren't sound.
#[tactic(auto, using(crate::proofs::FolderStart::of_farm, crate::proofs::FolderStart::of_node))]
pub(crate) fn state_of(
    survey: &Survey,
    owner: Option<NodeFile>,
    cause: Option<Cause>,
) -> FolderState
    requires size { length survey.now.tapes ≡ 64 }
    requires file { IfSome owner IsNodeFile }
    ensures { (tapes : List NumberedTape) → AreSoundOr tapes cause →
        IsStateOf survey.now owner tapes result }
{
    match owner {
        Some(file) => state_of_node(survey, &file, cause),
        None => state_of_farm(survey, cause),
    }
}

/// What a start of the nodes of a farm would do.
#[tactic(auto, using(crate::proofs::FolderStart::farm_starts, crate::proofs::FolderStart::farm_with_cause, crate::proofs::FolderStart::farm_rejected))]
fn state_of_farm(survey: &Survey, cause: Option<Cause>) -> FolderState
    requires { length survey.now.tapes ≡ 64 }
    ensures { (tapes : List NumberedTape) → AreSoundOr tapes cause →
        IsFarmState survey.now tapes result }
{
    match examine(survey) {
        Ok((nodes, start)) => match cause {
            None => FolderState::Farm(nodes, start),
            Some(cause) => FolderState::Rejected(cause),
        },
        Err(why) => FolderState::Rejected(why),
    }
}

/// What a start of the node with this file would do on its folder. Zeros that a power cut left
/// behind the tape's records are bad here, although a start drops them; what was heard of peers
/// isn't read.
#[tactic(auto, using(crate::proofs::FolderStart::node_starts, crate::proofs::FolderStart::node_with_cause, crate::proofs::FolderStart::node_rejected))]
fn state_of_node(survey: &Survey, file: &NodeFile, cause: Option<Cause>) -> FolderState
    requires size { length survey.now.tapes ≡ 64 }
    requires file { IsNodeFile file.now }
    ensures { (tapes : List NumberedTape) → AreSoundOr tapes cause →
        IsNodeState file.now survey.now tapes result }
{
    match admit_node(
        file.nodes,
        NodeFound::File(*file),
        survey.tapes[file.node as usize],
    ) {
        Ok(_) => match cause {
            None => FolderState::Node(*file),
            Some(cause) => FolderState::Rejected(cause),
        },
        Err(rejection) => FolderState::NodeRejected(rejection),
    }
}
