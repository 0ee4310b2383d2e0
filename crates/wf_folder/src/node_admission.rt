//! What a node's folder may be made in, and whether a node may start on what is in a folder.
ghost use Rattle.std.specs.Prelude.{◌≡◌, ◌↔◌, IfErr, IfNone, IfOk, IfSome, IsOk, IsTrue, Some};
ghost use Rattle.wf_folder.specs.NodeFile.{IsNodeFile};
ghost use Rattle.wf_folder.specs.NodeAdmission.{IsNodeRejection, IsNodeStart, IsSoundFind, IsTapeAdmitted, IsTapeRejection};
ghost use Rattle.wf_folder.specs.Reach.{IsNoLower, IsNoLowerVote};

use crate::fault::NodeFileFault;
use crate::node_file::NodeFile;
use crate::presence::Presence;
use crate::reach::{HighestVote, Known, Reach};
use crate::vote::{is_no_lower, is_no_lower_vote, open_vote};
use thiserror::Error;
use wf_ballot::Ballot;

/// What was found as the file `farm` of a folder in which a node starts.
#[derive(Clone, Copy, Debug, PartialEq, Eq)]
pub enum NodeFound {
    /// There is no such file.
    Nothing,
    /// This one.
    File(NodeFile),
    /// A file that can't be read as one.
    Bad(NodeFileFault),
}

/// Why a node doesn't start.
#[derive(Clone, Copy, Debug, PartialEq, Eq, Error)]
pub enum NodeRejection {
    /// There is no file `farm`.
    #[error("not a node's folder: wfarm init makes one")]
    NoFile,
    /// The file can't be read as a node's file `farm`.
    #[error("{0}")]
    BadFile(NodeFileFault),
    /// The file says another number of nodes than there are peers.
    #[error("a folder of a farm of {0} nodes")]
    OtherNodes(u8),
    /// There is no tape.
    #[error("tape missing")]
    MissingTape,
    /// The file counts no further start.
    #[error("no further start can be counted")]
    NoFurtherStart,
    /// The node had published the first sequence, and the tape goes to the second one.
    #[error("the tape went back: it had published {0}, now {1}")]
    LowerSequence(u16, u16),
    /// The tape's history up to this sequence isn't the one that the node had.
    #[error("the tape has another history up to {0}")]
    OtherHistory(u16),
    /// The node had tried the first round, and the tape's highest is the second one.
    #[error("the tape went back: it had tried round {0}, now {1}")]
    LowerRound(u32, u32),
    /// The node had made this promise, and the tape has a lower one or none.
    #[error("the tape went back: it had promised {0}")]
    LowerPromise(Ballot),
    /// The node had this vote at a sequence that the tape doesn't have as published, and the tape's
    /// highest vote is lower, or none.
    #[error("the tape went back: it had voted for {0}")]
    LowerVote(HighestVote),
}

/// Why a node's folder can't be made where something is.
#[derive(Clone, Copy, Debug, PartialEq, Eq, Error)]
#[error("the folder isn't empty")]
pub struct NotEmpty;

/// Whether a node's folder may be made in a folder with so many names: in an empty one alone.
pub fn admit_new(names: usize) -> Result<(), NotEmpty>
    ensures { IsOk result ↔ (names ≡ 0) }
{
    if names == 0 { Ok(()) } else { Err(NotEmpty) }
}

/// Whether a node may start on a folder, by its file `farm` and its tape, in a farm of as many
/// nodes as peers are listed. It starts on a folder that was made for a node of such a farm and has
/// its tape, never on an empty or an unknown one. What the tape holds is for [`admit_tape`]. A
/// suspended node may start: it stays suspended. Ok is the file of this start, with one start more,
/// which is to replace the one that was found before the node says anything.
pub fn admit_node(nodes: u8, found: NodeFound, tape: Presence) -> Result<NodeFile, NodeRejection>
    requires { IsSoundFind found }
    ensures start { IfOk result (IsNodeStart nodes found tape) }
    ensures rejection { IfErr result (IsNodeRejection nodes found tape) }
{
    match found {
        NodeFound::Nothing => Err(NodeRejection::NoFile),
        NodeFound::Bad(fault) => Err(NodeRejection::BadFile(fault)),
        NodeFound::File(file) => admit_file(nodes, &file, tape),
    }
}

/// Whether a node may start on a folder with this file.
fn admit_file(nodes: u8, file: &NodeFile, tape: Presence) -> Result<NodeFile, NodeRejection>
    requires { IsNodeFile file.now }
    ensures start { IfOk result (IsNodeStart nodes (NodeFound.File file.now) tape) }
    ensures rejection { IfErr result (IsNodeRejection nodes (NodeFound.File file.now) tape) }
{
    if file.nodes != nodes {
        return Err(NodeRejection::OtherNodes(file.nodes));
    }
    if !tape.is_there() {
        return Err(NodeRejection::MissingTape);
    }
    match file.next_start() {
        Some(file) => Ok(file),
        None => Err(NodeRejection::NoFurtherStart),
    }
}

/// Whether the node may start on a tape that holds so much, by how far it is known to have been.
/// `digest` is that of the tape's history up to the sequence that the node is known to have
/// published; None where it has none. A tape that holds less, or another history, is rejected; a
/// vote at a sequence that the tape has as published needn't be there. Nothing is changed.
pub fn admit_tape(
    known: &Known,
    tape: &Reach,
    digest: Option<[u8; 32]>,
) -> Result<(), NodeRejection>
    ensures admitted { IsOk result ↔ IsTapeAdmitted known.now tape.now digest }
    ensures cause { IfErr result (IsTapeRejection known.now tape.now digest) }
{
    let had = known.reach.published.number();
    let has = tape.published.number();
    if has < had {
        return Err(NodeRejection::LowerSequence(had, has));
    }
    if !is_digest(digest, &known.digest) {
        return Err(NodeRejection::OtherHistory(had));
    }
    if tape.round < known.reach.round {
        return Err(NodeRejection::LowerRound(known.reach.round, tape.round));
    }
    if let Some(ballot) = lost_promise(known.reach.promise, tape.promise) {
        return Err(NodeRejection::LowerPromise(ballot));
    }
    let owed = open_vote(known.reach.vote, tape.published);
    match lost_vote(&owed, &tape.vote) {
        Some(vote) => Err(NodeRejection::LowerVote(vote)),
        None => Ok(()),
    }
}

/// Whether a digest is the one that is known.
fn is_digest(digest: Option<[u8; 32]>, known: &[u8; 32]) -> bool
    ensures { IsTrue result ↔ (digest ≡ Some known.now) }
{
    match digest {
        Some(digest) => digest == *known,
        None => false,
    }
}

/// The promise that is known, if the tape's is lower.
fn lost_promise(known: Option<Ballot>, tape: Option<Ballot>) -> Option<Ballot>
    ensures none { IfNone result (IsNoLower known tape) }
    ensures some { IfSome result (λ ballot. known ≡ Some ballot) }
    ensures lost { IfSome result (λ _. ¬ IsNoLower known tape) }
{
    match known {
        Some(ballot) if !is_no_lower(known, tape) => Some(ballot),
        _ => None,
    }
}

/// The vote that is to be there, if the tape's is lower.
fn lost_vote(owed: &Option<HighestVote>, tape: &Option<HighestVote>) -> Option<HighestVote>
    ensures none { IfNone result (IsNoLowerVote owed.now tape.now) }
    ensures some { IfSome result (λ vote. owed.now ≡ Some vote) }
    ensures lost { IfSome result (λ _. ¬ IsNoLowerVote owed.now tape.now) }
{
    match owed {
        Some(vote) if !is_no_lower_vote(*owed, *tape) => Some(*vote),
        _ => None,
    }
}
