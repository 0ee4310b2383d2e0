//! Whether the nodes of a farm may start on what is in a folder.
ghost use Rattle.std.specs.Prelude.{◌≡◌, ◌≤◌, ◌<◌, ℕ, length, false, true, IfErr, IfNone, IfOk, IfSome};
ghost use Rattle.wf_folder.specs.Admission.{AllAreEmpty, AllAreThere, HasByte, IsFirstMissing, IsFirstSurplus, IsAdmissionFault, IsStart, NoneIsSurplus};

use crate::farm_file::FarmFile;
use crate::fault::FileFault;
use crate::presence::Presence;
use thiserror::Error;

/// What was found as the file `farm` of a folder.
#[derive(Clone, Copy, Debug, PartialEq, Eq)]
pub enum FoundFile {
    /// There is no such file.
    Nothing,
    /// This one.
    File(FarmFile),
    /// A file that can't be read as one.
    Bad(FileFault),
}

/// On what the nodes start.
#[derive(Clone, Copy, Debug, PartialEq, Eq)]
pub enum Start {
    /// The folder is new: its tapes are to be made, and then its file.
    New,
    /// The folder is the farm's own, by this file.
    Own(FarmFile),
    /// The folder is taken over: it has the farm's tapes, and its file is to be made.
    TakenOver,
}

/// Why the nodes don't start.
#[derive(Clone, Copy, Debug, PartialEq, Eq, Error)]
pub enum StartRejection {
    /// The file can't be read as a file `farm`.
    #[error("{0}")]
    BadFile(FileFault),
    /// The file says another number of nodes.
    #[error("a folder of {0} nodes")]
    OtherNodes(u8),
    /// There is a tape too many: the first one.
    #[error("a tape too many")]
    SurplusTape(usize),
    /// A tape is missing: the first one.
    #[error("tape missing")]
    MissingTape(usize),
}

/// Whether a farm of n nodes may start on a folder, by its file `farm` and its tapes: tape i is the
/// one of node i.
///
/// With the file the farm must have its number of nodes, and exactly these nodes' tapes must be
/// there. Without it the folder is new where no tape has a byte, and taken over where exactly the
/// nodes' tapes are there. A tape of a node that the farm doesn't have is rejected in any case,
/// also if it has no byte: it would be one too many at the next start.
pub fn admit(nodes: u8, found: FoundFile, tapes: &[Presence]) -> Result<Start, StartRejection>
    requires { nodes ≤ length tapes.now }
    ensures start { IfOk result (IsStart nodes found tapes.now) }
    ensures rejection { IfErr result (IsAdmissionFault nodes found tapes.now) }
{
    match found {
        FoundFile::Nothing => admit_without_file(nodes as usize, tapes),
        FoundFile::File(file) => admit_with_file(nodes, file, tapes),
        FoundFile::Bad(fault) => Err(StartRejection::BadFile(fault)),
    }
}

/// Whether it may start on a folder with a file `farm`.
fn admit_with_file(nodes: u8, file: FarmFile, tapes: &[Presence]) -> Result<Start, StartRejection>
    requires { nodes ≤ length tapes.now }
    ensures start { IfOk result (IsStart nodes (FoundFile.File file) tapes.now) }
    ensures rejection { IfErr result (IsAdmissionFault nodes (FoundFile.File file) tapes.now) }
{
    if file.nodes != nodes {
        return Err(StartRejection::OtherNodes(file.nodes));
    }
    if let Some(tape) = first_surplus(nodes as usize, tapes) {
        return Err(StartRejection::SurplusTape(tape));
    }
    match first_missing(nodes as usize, tapes) {
        Some(tape) => Err(StartRejection::MissingTape(tape)),
        None => Ok(Start::Own(file)),
    }
}

/// Whether it may start on a folder without one.
fn admit_without_file(nodes: usize, tapes: &[Presence]) -> Result<Start, StartRejection>
    requires { nodes ≤ length tapes.now }
    ensures start { IfOk result (IsStart nodes FoundFile.Nothing tapes.now) }
    ensures rejection { IfErr result (IsAdmissionFault nodes FoundFile.Nothing tapes.now) }
{
    if let Some(tape) = first_surplus(nodes, tapes) {
        return Err(StartRejection::SurplusTape(tape));
    }
    if !is_any_written(tapes) {
        return Ok(Start::New);
    }
    match first_missing(nodes, tapes) {
        Some(tape) => Err(StartRejection::MissingTape(tape)),
        None => Ok(Start::TakenOver),
    }
}

/// The first tape that is there, of a node that a farm of n nodes doesn't have.
fn first_surplus(nodes: usize, tapes: &[Presence]) -> Option<usize>
    ensures some { IfSome result (IsFirstSurplus nodes tapes.now) }
    ensures none { IfNone result (NoneIsSurplus nodes tapes.now) }
{
    for (number, tape) in tapes.iter().enumerate() {
        if nodes <= number && tape.is_there() {
            return Some(number);
        }
    }
    None
}

/// The first tape that isn't there, of the nodes of a farm of n.
fn first_missing(nodes: usize, tapes: &[Presence]) -> Option<usize>
    requires { nodes ≤ length tapes.now }
    ensures some { IfSome result (IsFirstMissing nodes tapes.now) }
    ensures none { IfNone result (AllAreThere nodes tapes.now) }
{
    for (number, tape) in tapes.iter().enumerate() {
        if number < nodes && !tape.is_there() {
            return Some(number);
        }
    }
    None
}

/// Whether a tape has a byte.
fn is_any_written(tapes: &[Presence]) -> bool
    ensures some { result ≡ true → (i : ℕ) × HasByte tapes.now i }
    ensures none { result ≡ false → AllAreEmpty tapes.now }
{
    for tape in tapes {
        if tape.has_byte() {
            return true;
        }
    }
    false
}
