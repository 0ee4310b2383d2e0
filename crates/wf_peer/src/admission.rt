//! Whether a peer is let in.
ghost use Rattle.std.specs.Prelude.{◌≡◌, ◌<◌, ◌↔◌, IfErr, IfNone, IfSome, IsOk, IsTrue, Some};
ghost use Rattle.wf_peer.specs.Admission.{AgreesWith, IsAdmitted, IsFolderRejection, IsForgotten, IsLess, IsNodesFolder, IsPlaced, IsRejectionCause, greeted_folder, is_joins};
ghost use Rattle.wf_peer.specs.declared.rejection.PeerRejection.{PeerRejection as RejectionValue};
ghost use Rattle.wf_peer.specs.Progress.{HasKept, IsAccusedOf, IsNoLess, IsSameStart, owed, progress_in};
ghost use Rattle.wf_rejoin.specs.Replacements.{latest_of};

use crate::greeting::Greeting;
use crate::heard::Heard;
use crate::progress::Progress;
use crate::rejection::PeerRejection;
use crate::state::NodeState;
use wf_ballot::NodeId;
use wf_folder::{FarmName, is_no_lower, is_no_lower_vote, open_vote};
use wf_rejoin::{FolderRejection, GreetedFolder, Replacement, Replacements};

/// The node that lets peers in.
#[derive(Clone, Copy, Debug, PartialEq, Eq)]
pub struct Own {
    /// The name of its farm.
    pub farm: FarmName,
    /// The number of the farm's nodes.
    pub nodes: u8,
    /// Which of them it is.
    pub node: NodeId,
}

/// Whether a peer that greets so is let in, by what this node knows of replacements, what was last
/// heard of this peer, if anything was, what it was accused of, and this node's digest of its own
/// history up to the sequence that the peer published last, if this node has published that one.
/// `index` is the node that is listed at the address that was dialed; None for a peer that
/// connected, which may be any other node of the farm.
///
/// A peer that is let in takes the place of an older connection from it: its start is no older.
pub fn admit(
    own: &Own,
    replacements: &Replacements,
    index: Option<NodeId>,
    heard: Option<Heard>,
    digest: Option<[u8; 32]>,
    greeting: &Greeting,
) -> Result<(), PeerRejection>
    ensures admitted { IsOk result ↔
        IsAdmitted own.now replacements.now index heard digest greeting.now }
    ensures cause { IfErr result
        (IsRejectionCause own.now replacements.now index heard digest greeting.now) }
{
    if greeting.farm != own.farm {
        return Err(PeerRejection::OtherFarm);
    }
    if greeting.nodes != own.nodes {
        return Err(PeerRejection::OtherNodes);
    }
    if !is_placed(own, index, greeting.node) {
        return Err(PeerRejection::OtherNode);
    }
    if let Some(why) = folder_rejection(replacements, greeting) {
        return Err(why);
    }
    if let Some(why) = accusation_of(&heard, &greeting.progress) {
        return Err(why);
    }
    if let Some(why) = forgotten_since(&heard, &greeting.progress) {
        return Err(why);
    }
    if agrees(digest, &greeting.digest) {
        Ok(())
    } else {
        Err(PeerRejection::OtherHistory)
    }
}

/// Whether the node is the one that is listed, or, if none was dialed, another node of the farm.
fn is_placed(own: &Own, index: Option<NodeId>, node: NodeId) -> bool
    ensures { IsTrue result ↔ IsPlaced own.now index node }
{
    match index {
        Some(index) => node == index,
        None => node.number() < own.nodes && node != own.node,
    }
}

/// Why the folder that greets isn't taken for the node's, by what is known of replacements.
fn folder_rejection(replacements: &Replacements, greeting: &Greeting) -> Option<PeerRejection>
    ensures none { IfNone result (IsNodesFolder replacements.now greeting.now) }
    ensures some { IfSome result (λ why. IsFolderRejection
        (latest_of replacements.now greeting.now.node) (greeted_folder greeting.now) why) }
    ensures other { IfSome result (λ _. ¬ IsNodesFolder replacements.now greeting.now) }
{
    match replacements.admit(greeting.node, &greeted_folder(greeting)) {
        Ok(()) => None,
        Err(FolderRejection::NotBegun) => Some(PeerRejection::NotBegun),
        Err(FolderRejection::NotTold) => Some(PeerRejection::NotTold),
        Err(FolderRejection::Retired(_)) => Some(PeerRejection::Retired),
    }
}

/// The folder that greets.
fn greeted_folder(greeting: &Greeting) -> GreetedFolder
    ensures { result ≡ greeted_folder greeting.now }
{
    let count = match greeting.replacements.latest(greeting.node) {
        Some(own) => own.count,
        None => 0,
    };
    GreetedFolder {
        replacement: Replacement {
            count,
            mark: greeting.progress.mark,
        },
        joins: is_joins(greeting.state),
    }
}

/// Whether a node's folder joins.
fn is_joins(state: NodeState) -> bool
    ensures { result ≡ is_joins state }
{
    matches!(state, NodeState::Joins)
}

/// What the folder was accused of before.
fn accusation_of(heard: &Option<Heard>, claimed: &Progress) -> Option<PeerRejection>
    ensures some { IfSome result (λ why. IsAccusedOf heard.now claimed.now.mark why) }
    ensures none { IfNone result ((why : RejectionValue) →
        ¬ IsAccusedOf heard.now claimed.now.mark why) }
{
    match heard {
        Some(heard) if claimed.mark == heard.progress.mark => heard.accusation,
        _ => None,
    }
}

/// What a peer forgot that was heard of it.
fn forgotten_since(heard: &Option<Heard>, claimed: &Progress) -> Option<PeerRejection>
    ensures none { IfNone result (HasKept (progress_in heard.now) claimed.now) }
    ensures some { IfSome result (λ why. IsForgotten (progress_in heard.now) claimed.now why) }
    ensures lost { IfSome result (λ _. ¬ HasKept (progress_in heard.now) claimed.now) }
{
    match heard {
        Some(heard) if !is_same_start(&heard.progress, claimed) => {
            match forgotten(&heard.progress, claimed) {
                Some(why) => Some(why),
                None => None,
            }
        }
        _ => None,
    }
}

/// Whether both tell of one start of one folder.
fn is_same_start(known: &Progress, claimed: &Progress) -> bool
    ensures { IsTrue result ↔ IsSameStart known.now claimed.now }
{
    claimed.mark == known.mark && claimed.starts == known.starts && claimed.life == known.life
}

/// What is less than what was heard.
fn forgotten(known: &Progress, claimed: &Progress) -> Option<PeerRejection>
    ensures none { IfNone result (IsNoLess (owed known.now claimed.now.published) claimed.now) }
    ensures some { IfSome result (λ why. IsLess known.now claimed.now why) }
    ensures less { IfSome result (λ _.
        ¬ IsNoLess (owed known.now claimed.now.published) claimed.now) }
{
    if claimed.mark != known.mark {
        return Some(PeerRejection::OtherMark);
    }
    if claimed.starts < known.starts {
        return Some(PeerRejection::OlderStart);
    }
    if claimed.starts == known.starts && claimed.life != known.life {
        return Some(PeerRejection::OtherLife);
    }
    if claimed.round < known.round {
        return Some(PeerRejection::LowerRound);
    }
    if !is_no_lower(known.promise, claimed.promise) {
        return Some(PeerRejection::LowerPromise);
    }
    if !is_no_lower_vote(open_vote(known.vote, claimed.published), claimed.vote) {
        return Some(PeerRejection::LowerVote);
    }
    if claimed.published.number() < known.published.number() {
        return Some(PeerRejection::LowerSequence);
    }
    None
}

/// Whether digests agree, as far as this node has one.
fn agrees(own: Option<[u8; 32]>, claimed: &[u8; 32]) -> bool
    ensures { IsTrue result ↔ AgreesWith own claimed.now }
{
    match own {
        Some(own) => own == *claimed,
        None => true,
    }
}
