//! The listing of a folder's tapes.
ghost use Rattle.std.specs.Prelude.{◌≡◌, ◌≤◌, ◌<◌, ◌++◌, [], ◌∷◌, Some, IfOk, IfSome, OnOk, length, string_bytes};
ghost use Rattle.wf_commands.specs.FailureCount.{CountsWrites, FailsLast};
ghost use Rattle.wf_commands.specs.Folder.{AreTakenUpTo, HasListingAppended, HasTakenNext, HasLastLine, IsFolderListed, IsFolderListing, IsListedAndTaken, IsNamedAndTaken, IsNamedListing, IsNextTaken, HasRejection, ListingsAreDistinct, tape_line};
ghost use Rattle.wf_commands.specs.FolderEnd.{IsOwnerOf, IsOwnerRead, is_own, node_line, own_line, rejection_line, taken_over_line};
ghost use Rattle.wf_folder.specs.Admission.{is_there};
ghost use Rattle.wf_folder.specs.NodeFile.{IsNodeFile};
ghost use Rattle.wf_listing.specs.TapeBytes.{most_tape_bytes};
ghost use Rattle.wf_store.specs.Call.{OnlyReads, read};
ghost use Rattle.wf_store.specs.declared.file_name.FileName.TheVariants.{NodeTape};

use crate::fault::RunFault;
use crate::folder_start::state_of;
use crate::folder_state::FolderState;
use crate::tapes::whole_tape;
use std::alloc::{AllocError, Global};
use std::fmt::Write;
use wf_folder::{Beginning, NodeFile, NodeRejection, Presence, Start};
use wf_listing::{MOST_TAPE_BYTES, TapeReadFault, list};
use wf_serve::{Cause, StartFault, Survey, TapeCheck};
use wf_store::{FileName, FolderFault, Store};
use wf_stream::{Sink, write_all};

/// More bytes than a node's file `farm` has.
const MOST_FILE_BYTES: usize = 512;

/// Writes the listing of the tapes in a folder with this in it, whose path a fault names: each
/// tape's, after a line with its name, and a line that says whether the nodes of its farm would
/// start on it. Nothing is written if a tape can't be read or an allocation fails.
#[tactic(auto, using(crate::proofs::Folders::folder_whole, crate::proofs::Folders::folder_in_part, crate::proofs::Folders::folder_unread, crate::proofs::Last::none_failed, crate::proofs::Last::one_failed))]
pub fn run_folder<K: Sink, S: Store>(
    alloc: Global,
    path: &str,
    survey: &Survey,
    store: &mut S,
    sink: &mut K,
) -> Result<(), RunFault>
    requires { length survey.now.tapes ≡ 64 }
    ensures listed { IsFolderListed survey.now (S.calls store.old) (S.calls store.new)
        (K.written sink.old) (K.written sink.new) result }
    ensures reads { OnlyReads (S.calls store.old) (S.calls store.new) }
    ensures writes { CountsWrites result (K.failures sink.old) (K.failures sink.new) }
    ensures last { FailsLast K.Sink sink.old sink.new }
{
    let text = match text_of(alloc, path, survey, store) {
        Ok(text) => text,
        Err(fault) => return Err(RunFault::Tape(fault)),
    };
    let written = write_all(sink, text.as_bytes());
    drop(text);
    match written {
        Ok(()) => Ok(()),
        Err(_) => Err(RunFault::Write),
    }
}

/// The listing of a folder.
fn text_of<S: Store>(
    alloc: Global,
    path: &str,
    survey: &Survey,
    store: &mut S,
) -> Result<String, TapeReadFault>
    requires { length survey.now.tapes ≡ 64 }
    ensures listed { IfOk result (λ text. IsFolderListing survey.now
        (S.calls store.old) (S.calls store.new) (string_bytes text)) }
    ensures reads { OnlyReads (S.calls store.old) (S.calls store.new) }
{
    let mut text = String::new(alloc);
    let pushed = push_all(alloc, &mut text, path, survey, store);
    match pushed {
        Ok(()) => Ok(text),
        Err(fault) => {
            drop(text);
            Err(fault)
        }
    }
}

/// Appends the listing of a folder.
#[tactic(auto, using(wf_store::specs::CallTheorems::reads_both))]
fn push_all<S: Store>(
    alloc: Global,
    text: &mut String,
    path: &str,
    survey: &Survey,
    store: &mut S,
) -> Result<(), TapeReadFault>
    requires tapes { length survey.now.tapes ≡ 64 }
    requires empty { string_bytes text.old ≡ [] }
    ensures listed { OnOk result (IsFolderListing survey.now (S.calls store.old)
        (S.calls store.new) (string_bytes text.new)) }
    ensures reads { OnlyReads (S.calls store.old) (S.calls store.new) }
{
    let owner = read_owner(store);
    match push_tapes(alloc, text, survey, &owner, store) {
        Ok(check) => {
            let cause = check.cause();
            drop(check);
            match push_end(alloc, text, path, &state_of(survey, owner, cause)) {
                Ok(()) => Ok(()),
                Err(AllocError) => Err(TapeReadFault::Memory),
            }
        }
        Err(fault) => Err(fault),
    }
}

/// The file `farm` of a folder, if that is a node's. None also if it can't be read.
#[tactic(auto, using(crate::proofs::FolderStart::owner_found, crate::proofs::FolderStart::owner_absent, crate::proofs::FolderStart::owner_unread))]
fn read_owner<S: Store>(store: &mut S) -> Option<NodeFile>
    ensures file { IfSome result IsNodeFile }
    ensures read { IsOwnerRead result (S.calls store.old) (S.calls store.new) }
    ensures reads { OnlyReads (S.calls store.old) (S.calls store.new) }
{
    match store.read(FileName::Farm, MOST_FILE_BYTES) {
        Ok(Some(bytes)) => {
            let owner = owner_of(&bytes);
            drop(bytes);
            owner
        }
        Ok(None) => None,
        Err(_) => None,
    }
}

/// The file of a node with these bytes.
fn owner_of(bytes: &[u8]) -> Option<NodeFile>
    ensures file { IfSome result IsNodeFile }
    ensures owner { IsOwnerOf (Some bytes.now) result }
{
    match NodeFile::read(bytes) {
        Ok(file) => Some(file),
        Err(_) => None,
    }
}

/// Appends the listing of each tape that is there. Returns the check of those that have to be
/// sound, by the file of the folder's owner.
fn push_tapes<S: Store>(
    alloc: Global,
    text: &mut String,
    survey: &Survey,
    owner: &Option<NodeFile>,
    store: &mut S,
) -> Result<TapeCheck, TapeReadFault>
    requires size { length survey.now.tapes ≡ 64 }
    requires empty { string_bytes text.old ≡ [] }
    ensures taken { IfOk result (λ check. AreTakenUpTo survey.now.tapes
        (length survey.now.tapes) owner.now check (S.calls store.old) (S.calls store.new)
        (string_bytes text.new)) }
    ensures reads { OnlyReads (S.calls store.old) (S.calls store.new) }
{
    let mut check = TapeCheck::new();
    for (number, tape) in survey.tapes.iter().enumerate() {
        match push_next(alloc, text, number, *tape, owner, check, store) {
            Ok(after) => check = after,
            Err(fault) => return Err(fault),
        }
    }
    Ok(check)
}

/// Appends the listing of a tape, if it is there, and lets the check take it.
#[tactic(auto, using(crate::proofs::Folders::next_there, crate::proofs::Folders::next_absent, wf_store::specs::CallTheorems::reads_none))]
fn push_next<S: Store>(
    alloc: Global,
    text: &mut String,
    number: usize,
    presence: Presence,
    owner: &Option<NodeFile>,
    check: TapeCheck,
    store: &mut S,
) -> Result<TapeCheck, TapeReadFault>
    requires { number < 64 }
    ensures taken { IfOk result (λ after. IsNextTaken number (is_there presence) owner.now check
        after (S.calls store.old) (S.calls store.new) (string_bytes text.old)
        (string_bytes text.new)) }
    ensures reads { OnlyReads (S.calls store.old) (S.calls store.new) }
{
    if presence.is_there() {
        push_tape(alloc, text, number, owner, check, store)
    } else {
        Ok(check)
    }
}

/// Appends the listing of a tape, after a line with its name, and lets the check take it.
#[tactic(auto, using(crate::proofs::Folders::appended))]
fn push_tape<S: Store>(
    alloc: Global,
    text: &mut String,
    number: usize,
    owner: &Option<NodeFile>,
    check: TapeCheck,
    store: &mut S,
) -> Result<TapeCheck, TapeReadFault>
    requires { number < 64 }
    ensures taken { IfOk result (λ after. IsListedAndTaken number owner.now check after
        (S.calls store.old) (S.calls store.new) (string_bytes text.old)
        (string_bytes text.new)) }
    ensures reads { OnlyReads (S.calls store.old) (S.calls store.new) }
{
    match read_tape(store, number) {
        Ok(bytes) => push_read(alloc, text, number, owner, check, bytes),
        Err(fault) => {
            drop(check);
            Err(fault)
        }
    }
}

/// The bytes of a tape that was there. Err: `Failed` if it can't be read or is longer than the
/// longest tape, or `Memory`.
fn read_tape<S: Store>(store: &mut S, number: usize) -> Result<Vec<u8>, TapeReadFault>
    requires { number < 64 }
    ensures read { IfOk result (λ bytes.
        S.calls store.new ≡ read (NodeTape number) (Some bytes.items) ∷ S.calls store.old) }
    ensures short { IfOk result (λ bytes. length bytes.items ≤ most_tape_bytes) }
    ensures reads { OnlyReads (S.calls store.old) (S.calls store.new) }
{
    match store.read(FileName::NodeTape(number as u8), MOST_TAPE_BYTES + 1) {
        Ok(Some(bytes)) => whole_tape(bytes),
        Ok(None) => Err(TapeReadFault::Failed),
        Err(FolderFault::Memory) => Err(TapeReadFault::Memory),
        Err(_) => Err(TapeReadFault::Failed),
    }
}

/// Appends the listing of a tape's bytes, after a line with its name, and lets the check take them.
#[tactic(auto, using(crate::proofs::Folders::named_and_taken))]
fn push_read(
    alloc: Global,
    text: &mut String,
    number: usize,
    owner: &Option<NodeFile>,
    check: TapeCheck,
    bytes: Vec<u8>,
) -> Result<TapeCheck, TapeReadFault>
    requires { number < 64 }
    ensures { IfOk result (λ after. IsNamedAndTaken bytes.items number owner.now check after
        (string_bytes text.old) (string_bytes text.new)) }
{
    match push_bytes(alloc, text, number, &bytes) {
        Ok(()) => match take_own(alloc, number, owner, check, bytes) {
            Ok(after) => Ok(after),
            Err(AllocError) => Err(TapeReadFault::Memory),
        },
        Err(AllocError) => {
            drop(bytes);
            drop(check);
            Err(TapeReadFault::Memory)
        }
    }
}

/// Lets the check take a tape, if it has to be sound.
#[tactic(auto, using(crate::proofs::Folders::own_taken, crate::proofs::Folders::other_taken))]
fn take_own(
    alloc: Global,
    number: usize,
    owner: &Option<NodeFile>,
    check: TapeCheck,
    bytes: Vec<u8>,
) -> Result<TapeCheck, AllocError>
    requires { number < 64 }
    ensures { IfOk result (HasTakenNext owner.now number bytes.items check) }
{
    if is_own(owner, number) {
        check.take(alloc, number as u8, bytes)
    } else {
        drop(bytes);
        Ok(check)
    }
}

/// Whether the tape of a node has to be sound: the owner's, or each in a farm's folder.
fn is_own(owner: &Option<NodeFile>, number: usize) -> bool
    ensures { result ≡ is_own owner.now number }
{
    match owner {
        Some(file) => file.node as usize == number,
        None => true,
    }
}

/// Appends the listing of a tape's bytes, after a line with its name.
#[tactic(auto, using(crate::proofs::Folders::named))]
fn push_bytes(
    alloc: Global,
    text: &mut String,
    number: usize,
    bytes: &[u8],
) -> Result<(), AllocError>
    ensures { OnOk result (IsNamedListing bytes.now number (string_bytes text.old)
        (string_bytes text.new)) }
{
    match push_name(text, number) {
        Ok(()) => match push_listing(alloc, text, bytes) {
            Ok(()) => Ok(()),
            Err(error) => Err(error),
        },
        Err(error) => Err(error),
    }
}

/// Appends the line with the name of a tape.
fn push_name(text: &mut String, number: usize) -> Result<(), AllocError>
    ensures { OnOk result
        (string_bytes text.new ≡ string_bytes text.old ++ tape_line number) }
{
    writeln!(text, "node-{number}.tape")
}

/// Appends the listing of bytes.
#[tactic(auto, using(crate::proofs::Folders::listed))]
fn push_listing(alloc: Global, text: &mut String, bytes: &[u8]) -> Result<(), AllocError>
    ensures { OnOk result (HasListingAppended bytes.now (string_bytes text.old)
        (string_bytes text.new)) }
{
    let listing = list(alloc, bytes)?;
    let pushed = text.push_str(listing.as_str());
    drop(listing);
    match pushed {
        Ok(()) => Ok(()),
        Err(error) => Err(error),
    }
}

/// Appends the last line, that of a state of the folder at a path.
#[tactic(auto, using(crate::proofs::Folders::cause_ended, crate::proofs::Folders::node_ended, crate::proofs::Folders::rejection_ended))]
fn push_end(
    alloc: Global,
    text: &mut String,
    path: &str,
    state: &FolderState,
) -> Result<(), AllocError>
    ensures { OnOk result (HasLastLine state.now (string_bytes text.old) (string_bytes text.new)) }
{
    match state {
        FolderState::Farm(nodes, start) => push_farm(text, *nodes, start),
        FolderState::Node(file) => push_node(text, file.node),
        FolderState::Rejected(cause) => push_cause(alloc, text, path, cause),
        FolderState::NodeRejected(rejection) => push_node_rejection(alloc, text, rejection),
    }
}

/// Appends the last line of a folder on which so many nodes of a farm would start.
#[tactic(auto, using(crate::proofs::Folders::new_ended, crate::proofs::Folders::taken_over_ended, crate::proofs::Folders::own_ended))]
fn push_farm(text: &mut String, nodes: u8, start: &Start) -> Result<(), AllocError>
    ensures { OnOk result (HasLastLine (FolderState.Farm nodes start.now)
        (string_bytes text.old) (string_bytes text.new)) }
{
    match start {
        Start::New => text.push_str("new, no tape has a byte\n"),
        Start::TakenOver => push_taken_over(text, nodes),
        Start::Own(file) => push_own(text, nodes, file.beginning),
    }
}

/// Appends the line of a folder that nodes would take over.
fn push_taken_over(text: &mut String, nodes: u8) -> Result<(), AllocError>
    ensures { OnOk result
        (string_bytes text.new ≡ string_bytes text.old ++ taken_over_line nodes) }
{
    writeln!(text, "whole, {nodes} tapes, no file farm")
}

/// Appends the line of a folder that is the farm's own.
fn push_own(text: &mut String, nodes: u8, beginning: Beginning) -> Result<(), AllocError>
    ensures { OnOk result
        (string_bytes text.new ≡ string_bytes text.old ++ own_line nodes beginning) }
{
    match beginning {
        Beginning::Empty => writeln!(text, "whole, {nodes} tapes of one farm, began empty"),
        Beginning::Found => writeln!(text, "whole, {nodes} tapes of one farm, began found"),
    }
}

/// Appends the line of a node's own folder.
fn push_node(text: &mut String, node: u8) -> Result<(), AllocError>
    ensures { OnOk result (string_bytes text.new ≡ string_bytes text.old ++ node_line node) }
{
    writeln!(text, "whole, the tape of node {node}")
}

/// Appends the line of a start that is rejected for a cause.
#[tactic(auto, using(crate::proofs::Folders::rejected))]
fn push_cause(alloc: Global, text: &mut String, path: &str, cause: &Cause) -> Result<(), AllocError>
    ensures { OnOk result (HasRejection (string_bytes text.old) (string_bytes text.new)) }
{
    let fault = StartFault {
        cause: *cause,
        folder: Some(path),
    };
    let why = format!(in alloc; "{fault}")?;
    let pushed = push_rejection(text, why.as_str());
    drop(why);
    match pushed {
        Ok(()) => Ok(()),
        Err(error) => Err(error),
    }
}

/// Appends the line of a node's start that is rejected.
#[tactic(auto, using(crate::proofs::Folders::rejected))]
fn push_node_rejection(
    alloc: Global,
    text: &mut String,
    rejection: &NodeRejection,
) -> Result<(), AllocError>
    ensures { OnOk result (HasRejection (string_bytes text.old) (string_bytes text.new)) }
{
    let why = format!(in alloc; "{rejection}")?;
    let pushed = push_rejection(text, why.as_str());
    drop(why);
    match pushed {
        Ok(()) => Ok(()),
        Err(error) => Err(error),
    }
}

/// Appends the line of a rejected start, which says why.
fn push_rejection(text: &mut String, why: &str) -> Result<(), AllocError>
    ensures { OnOk result
        (string_bytes text.new ≡ string_bytes text.old ++ rejection_line why.now) }
{
    writeln!(text, "not whole, {why}")
}

/// No text is the listing of a file and of a folder. A theorem: the call does nothing.
pub fn listings_are_distinct()
    ensures { ListingsAreDistinct }
{}
