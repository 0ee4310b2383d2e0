//! Whether an asked node agrees to a replacement.
ghost use Rattle.std.specs.Prelude.{◌≡◌, ◌↔◌, IfErr, IfNone, IfOk, IfSome, IsOk, Some, None, slice_set};
ghost use Rattle.wf_rejoin.specs.Agreement.{Agrees, IsNewTo, IsObjection, IsObjectionNow, IsObjectionTo, HasBeenQuiet};
ghost use Rattle.wf_rejoin.specs.Replacements.{AreNoOlder, IsNoOlder};

use crate::replacement::Replacement;
use crate::replacements::Replacements;
use std::fmt;
use wf_ballot::NodeId;

/// For how many milliseconds a node has to have run, and heard nothing of the node that is
/// replaced, before it agrees.
pub const QUIET_TIME: u64 = 10_000;

/// What keeps a node from voting.
#[derive(Clone, Copy, Debug, PartialEq, Eq)]
pub enum Hindrance {
    /// Its tape has failed.
    Halted,
    /// A peer remembers more of it than it has.
    Suspended,
    /// Its own folder joins.
    Joins,
    /// A peer has another history, and no majority agrees with its own.
    Outvoted,
}

/// A node that is asked whether it agrees to a replacement.
#[derive(Clone, Copy, Debug, PartialEq, Eq)]
pub struct Asked {
    /// Its number.
    pub node: NodeId,
    /// What keeps it from voting, if anything does.
    pub hindrance: Option<Hindrance>,
    /// For how many milliseconds its process has run.
    pub running: u64,
    /// How many milliseconds ago it last heard the node that is to be replaced; None if its process
    /// never did.
    pub silence: Option<u64>,
}

/// Why an asked node doesn't agree to a replacement.
#[derive(Clone, Copy, Debug, PartialEq, Eq)]
pub enum Objection {
    /// It is the node that is to be replaced.
    Itself,
    /// It doesn't vote itself.
    Hindered(Hindrance),
    /// The replacement has no count yet.
    NotBegun,
    /// It knows of this replacement, which has a higher count.
    Superseded(Replacement),
    /// It has agreed to this one, which has the same count, or was told of it.
    OtherFolder(Replacement),
    /// Its process hasn't run for ten seconds. It agrees where it is forced.
    StartedRecently,
    /// It heard the node that is to be replaced within ten seconds. It agrees where it is forced.
    HeardRecently,
}

impl Replacements {
    /// Whether an asked node agrees to this replacement of a node, or what stands against it.
    /// `force` is for the two times alone.
    pub fn would_agree(
        &self,
        asked: &Asked,
        node: NodeId,
        replacement: &Replacement,
        force: bool,
    ) -> Result<(), Objection>
        ensures agrees { IsOk result ↔ Agrees self.now asked.now node replacement.now force }
        ensures cause { IfErr result (IsObjection self.now asked.now node replacement.now force) }
    {
        if asked.node == node {
            return Err(Objection::Itself);
        }
        if let Some(hindrance) = asked.hindrance {
            return Err(Objection::Hindered(hindrance));
        }
        if let Some(why) = objection_to(&self.latest(node), replacement) {
            return Err(why);
        }
        match objection_now(asked) {
            Some(why) if !force => Err(why),
            _ => Ok(()),
        }
    }

    /// Once an asked node agrees to this replacement of a node: the replacements that it knows of
    /// then. They are to be written, and its peers' connections closed, before it says so. Err:
    /// what stands against it.
    pub fn agree(
        &self,
        asked: &Asked,
        node: NodeId,
        replacement: Replacement,
        force: bool,
    ) -> Result<Replacements, Objection>
        ensures agrees { IsOk result ↔ Agrees self.now asked.now node replacement force }
        ensures value { IfOk result (λ next. next ≡ slice_set self.now node (Some replacement)) }
        ensures kept { IfOk result (AreNoOlder self.now) }
        ensures cause { IfErr result (IsObjection self.now asked.now node replacement force) }
    {
        match self.would_agree(asked, node, &replacement, force) {
            Ok(()) => Ok(self.with(node, replacement)),
            Err(why) => Err(why),
        }
    }
}

/// What stands against it in what the asked node knows.
fn objection_to(known: &Option<Replacement>, replacement: &Replacement) -> Option<Objection>
    ensures none { IfNone result (IsNewTo known.now replacement.now) }
    ensures some { IfSome result (IsObjectionTo known.now replacement.now) }
    ensures old { IfSome result (λ _. ¬ IsNewTo known.now replacement.now) }
{
    if replacement.count == 0 {
        return Some(Objection::NotBegun);
    }
    match known {
        Some(known) => objection_after(known, replacement),
        None => None,
    }
}

/// What stands against it where a replacement is known.
fn objection_after(known: &Replacement, replacement: &Replacement) -> Option<Objection>
    ensures none { IfNone result (IsNoOlder (Some known.now) (Some replacement.now)) }
    ensures some { IfSome result (IsObjectionTo (Some known.now) replacement.now) }
    ensures old { IfSome result (λ _. ¬ IsNoOlder (Some known.now) (Some replacement.now)) }
{
    if replacement.count < known.count {
        return Some(Objection::Superseded(*known));
    }
    if replacement.count == known.count && replacement.mark != known.mark {
        return Some(Objection::OtherFolder(*known));
    }
    None
}

/// What stands against it in time, unless it is forced.
fn objection_now(asked: &Asked) -> Option<Objection>
    ensures none { IfNone result (HasBeenQuiet asked.now) }
    ensures some { IfSome result (IsObjectionNow asked.now) }
    ensures early { IfSome result (λ _. ¬ HasBeenQuiet asked.now) }
{
    if asked.running < QUIET_TIME {
        return Some(Objection::StartedRecently);
    }
    match asked.silence {
        Some(silence) if silence < QUIET_TIME => Some(Objection::HeardRecently),
        _ => None,
    }
}

impl fmt::Display for Hindrance {
    fn fmt<W: fmt::Write>(&self, f: &mut fmt::Formatter<W>) -> fmt::Result {
        f.write_str(match self {
            Hindrance::Halted => "it is halted",
            Hindrance::Suspended => "it is suspended",
            Hindrance::Joins => "it joins itself",
            Hindrance::Outvoted => "its history differs, and it doesn't vote",
        })
    }
}

impl fmt::Display for Objection {
    fn fmt<W: fmt::Write>(&self, f: &mut fmt::Formatter<W>) -> fmt::Result {
        match self {
            Objection::Itself => f.write_str("it is the node that is to be replaced"),
            Objection::Hindered(hindrance) => write!(f, "{hindrance}"),
            Objection::NotBegun => f.write_str("the replacement has no count"),
            Objection::Superseded(known) => write!(f, "it knows of {known}, which is later"),
            Objection::OtherFolder(known) => write!(f, "it has agreed to {known}, another folder"),
            Objection::StartedRecently => f.write_str("it has run for less than ten seconds"),
            Objection::HeardRecently => f.write_str("it heard the node within ten seconds"),
        }
    }
}
