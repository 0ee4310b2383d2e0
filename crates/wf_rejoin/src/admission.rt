//! Which folder a node takes for a peer's.
ghost use Rattle.std.specs.Prelude.{◌↔◌, ◌<◌, IfErr, IsOk, IsTrue};
ghost use Rattle.wf_rejoin.specs.Admission.{IsFolderCause, IsFolderTaken, IsUnbegun};
ghost use Rattle.wf_rejoin.specs.Replacements.{latest_of};

use crate::replacement::Replacement;
use crate::replacements::Replacements;
use std::fmt;
use wf_ballot::NodeId;

/// What a peer's greeting says of its own folder.
#[derive(Clone, Copy, Debug, PartialEq, Eq)]
pub struct GreetedFolder {
    /// The folder's mark, and the count under which it took a lost folder's place, or joins; 0 if
    /// under none.
    pub replacement: Replacement,
    /// Whether it joins.
    pub joins: bool,
}

/// Why a folder isn't taken for a node's. None of these suspends a node but the last, and that only
/// where a peer tells it of the replacement.
#[derive(Clone, Copy, Debug, PartialEq, Eq)]
pub enum FolderRejection {
    /// It joins, and no operator has begun its replacement.
    NotBegun,
    /// The node wasn't told of the replacement yet.
    NotTold,
    /// This replacement took its place: its process is to end, and never starts again.
    Retired(Replacement),
}

impl Replacements {
    /// Whether a peer's folder is taken for that of this node, or why not. Where no replacement of
    /// the node is known, what was heard of it decides further.
    pub fn admit(&self, node: NodeId, greeted: &GreetedFolder) -> Result<(), FolderRejection>
        ensures taken { IsOk result ↔ IsFolderTaken (latest_of self.now node) greeted.now }
        ensures cause { IfErr result (IsFolderCause (latest_of self.now node) greeted.now) }
    {
        match self.latest(node) {
            Some(known) => admit_after(&known, greeted),
            None => admit_first(greeted),
        }
    }
}

/// Whether a folder is taken where a replacement is known.
fn admit_after(known: &Replacement, greeted: &GreetedFolder) -> Result<(), FolderRejection>
    ensures taken { IsOk result ↔ IsFolderTaken (Some known.now) greeted.now }
    ensures cause { IfErr result (IsFolderCause (Some known.now) greeted.now) }
{
    if greeted.replacement.mark == known.mark {
        return Ok(());
    }
    if is_unbegun(greeted) {
        return Err(FolderRejection::NotBegun);
    }
    if known.count < greeted.replacement.count {
        Err(FolderRejection::NotTold)
    } else {
        Err(FolderRejection::Retired(*known))
    }
}

/// Whether a folder is taken where no replacement is known.
fn admit_first(greeted: &GreetedFolder) -> Result<(), FolderRejection>
    ensures taken { IsOk result ↔ IsFolderTaken None greeted.now }
    ensures cause { IfErr result (IsFolderCause None greeted.now) }
{
    if is_unbegun(greeted) {
        return Err(FolderRejection::NotBegun);
    }
    if 0 < greeted.replacement.count {
        return Err(FolderRejection::NotTold);
    }
    Ok(())
}

/// Whether a folder joins whose replacement wasn't begun.
fn is_unbegun(greeted: &GreetedFolder) -> bool
    ensures { IsTrue result ↔ IsUnbegun greeted.now }
{
    greeted.joins && greeted.replacement.count == 0
}

impl fmt::Display for FolderRejection {
    fn fmt<W: fmt::Write>(&self, f: &mut fmt::Formatter<W>) -> fmt::Result {
        match self {
            FolderRejection::NotBegun => {
                f.write_str("it joins in the place of another folder: begin with wfarmctl replace")
            }
            FolderRejection::NotTold => f.write_str("not told of the replacement"),
            FolderRejection::Retired(known) => write!(
                f,
                "retired: {known} took its place; end it, and never start its folder again"
            ),
        }
    }
}
