//! `wfarm init`.
ghost use Rattle.std.specs.Prelude.{◌≡◌, ◌<◌, ◌⊎◌, ◌↔◌, IfErr, IfOk, IsSome, IsTrue, OnErr, OnOk, true};
ghost use Rattle.wf_folder.specs.Name.{pad};
ghost use Rattle.wf_line.specs.NodeLine.{IsInitInRange};
ghost use Rattle.wf_node_folder.specs.Made.{IsFirstJoinsTried, IsFolderMade, IsFirstTape, IsInitCause, IsInitDone, IsUnfilled, IsWhyNotEmpty, made_empty, with_joins};
ghost use Rattle.wf_node_folder.specs.Fault.{IsFromSystem};
ghost use Rattle.wf_store.specs.Call.{OnlyReads};
ghost use Rattle.wf_store.specs.Fault.{IsWhyUnwritten};
ghost use Rattle.wf_store.specs.declared.file_name.FileName.TheVariants as names;

use crate::fault::CommandFault;
use crate::folder::write_farm;
use crate::from::{FirstTape, tape_from};
use std::alloc::Global;
use std::rt::Files;
use wf_ballot::NodeId;
use wf_folder::{FarmName, NodeFile, admit_new};
use wf_line::InitLine;
use wf_rejoin::Joining;
use wf_store::{FileName, FolderFault, Store};

/// Makes the folder of a node, by its command line. A tape to begin with of which no file says
/// whose it is is taken with a warning on standard error. Err: the cause; the folder may have a
/// file then without being a node's.
#[tactic(auto, using(crate::proofs::Making::not_made))]
pub fn init_folder<R: Files + Eprint + AllocGlobal, S: Store>(
    rt: &R,
    store: &mut S,
    line: &InitLine<'_>,
) -> Result<(), CommandFault>
    requires { IsInitInRange line.now }
    ensures { IsInitDone line.now (S.calls store.old) (S.calls store.new) result }
{
    if line.nodes <= line.id {
        return Err(CommandFault::Id(line.id, line.nodes));
    }
    if joins_with_tape(line) {
        return Err(CommandFault::ReplaceFrom);
    }
    match FarmName::new(line.farm.as_bytes()) {
        Some(farm) => make(rt, store, line, farm),
        None => Err(CommandFault::Name),
    }
}

/// Whether a folder is to join, and to begin with a tape.
fn joins_with_tape(line: &InitLine<'_>) -> bool
    ensures { IsTrue result ↔ ((line.now.replaces ≡ true) × IsSome line.now.from) }
{
    line.replaces && line.from.is_some()
}

/// Makes the folder: the tape to begin with is read first, so that nothing is made where that isn't
/// taken.
#[tactic(auto, using(crate::proofs::Making::not_made))]
fn make<R: Files + Eprint + AllocGlobal, S: Store>(
    rt: &R,
    store: &mut S,
    line: &InitLine<'_>,
    farm: FarmName,
) -> Result<(), CommandFault>
    requires range { IsInitInRange line.now }
    requires member { line.now.id < line.now.nodes }
    requires farm { farm ≡ pad line.now.farm.now }
    requires alone { ¬ ((line.now.replaces ≡ true) × IsSome line.now.from) }
    ensures { IsInitDone line.now (S.calls store.old) (S.calls store.new) result }
{
    let FirstTape { bytes, is_known } = match first_tape(rt, line) {
        Ok(tape) => tape,
        Err(fault) => return Err(fault),
    };
    let made = make_with(rt.alloc(), store, line, farm, bytes);
    if made.is_ok() && !is_known {
        warn(rt, line);
    }
    made
}

/// Writes that no file says whose the tape is that the folder begins with.
fn warn<R: Eprint>(rt: &R, line: &InitLine<'_>) {
    if let Some(from) = line.from {
        let id = line.id;
        let _ = eprintln!(rt;
            "warning: no file farm beside --from {from} says that this is the tape of node {id}"
        );
    }
}

/// Makes the folder that begins with a tape of these bytes, if its parent is there and the folder
/// has no names, and the files in it.
#[tactic(auto, using(crate::proofs::Making::not_empty, crate::proofs::Making::made_so))]
fn make_with<S: Store>(
    alloc: Global,
    store: &mut S,
    line: &InitLine<'_>,
    farm: FarmName,
    tape: Vec<u8>,
) -> Result<(), CommandFault>
    requires range { IsInitInRange line.now }
    requires member { line.now.id < line.now.nodes }
    requires farm { farm ≡ pad line.now.farm.now }
    requires tape { IsFirstTape line.now tape.items }
    requires alone { ¬ ((line.now.replaces ≡ true) × IsSome line.now.from) }
    ensures { IsInitDone line.now (S.calls store.old) (S.calls store.new) result }
{
    match make_empty(store) {
        Ok(()) => write_files(alloc, store, line, farm, tape),
        Err(fault) => {
            drop(tape);
            Err(fault)
        }
    }
}

/// Makes a folder, if it isn't there, locks it, and sees that it has no names.
#[tactic(auto, using(wf_store::specs::CallTheorems::reads_both, crate::proofs::Making::not_counted, crate::proofs::Making::has_names, crate::proofs::Making::is_empty))]
fn make_empty<S: Store>(store: &mut S) -> Result<(), CommandFault>
    ensures empty { OnOk result
        (S.calls store.new ≡ made_empty (S.calls store.old)) }
    ensures reads { OnlyReads (S.calls store.old) (S.calls store.new) }
    ensures fault { IfErr result (IsWhyNotEmpty (S.calls store.old) (S.calls store.new)) }
{
    if let Err(fault) = store.make() {
        return Err(CommandFault::Folder(fault));
    }
    if let Err(fault) = store.lock() {
        return Err(CommandFault::Folder(fault));
    }
    let names = match store.count_names() {
        Ok(names) => names,
        Err(fault) => return Err(CommandFault::Folder(fault)),
    };
    match admit_new(names) {
        Ok(()) => Ok(()),
        Err(why) => Err(CommandFault::NotEmpty(why)),
    }
}

/// Writes the tape, the file `joins` where the folder joins, and the file `farm` of an empty
/// folder: that one last, so that a folder with a file `farm` has a tape, and doesn't vote where it
/// is to join.
#[tactic(auto, using(crate::proofs::Making::tape_failed, crate::proofs::Making::tape_alone, crate::proofs::Making::no_farm, crate::proofs::Making::filled))]
fn write_files<S: Store>(
    alloc: Global,
    store: &mut S,
    line: &InitLine<'_>,
    farm: FarmName,
    tape: Vec<u8>,
) -> Result<(), CommandFault>
    requires range { IsInitInRange line.now }
    requires member { line.now.id < line.now.nodes }
    requires farm { farm ≡ pad line.now.farm.now }
    ensures filled { OnOk result (IsFolderMade line.now tape.items (S.calls store.old)
        (S.calls store.new)) }
    ensures left { OnErr result (IsUnfilled line.now tape.items (S.calls store.old)
        (S.calls store.new)) }
    ensures fault { IfErr result IsFromSystem }
{
    let mark = match store.draw() {
        Ok(mark) => mark,
        Err(fault) => {
            drop(tape);
            return Err(CommandFault::Folder(fault));
        }
    };
    if let Err(fault) = store.replace(FileName::NodeTape(line.id), tape) {
        return Err(CommandFault::Folder(fault));
    }
    if let Err(fault) = write_joins(alloc, store, line, mark) {
        return Err(CommandFault::Folder(fault));
    }
    let file = NodeFile::new(line.id, line.nodes, farm, mark);
    match write_farm(alloc, store, &file) {
        Ok(()) => Ok(()),
        Err(fault) => Err(CommandFault::Folder(fault)),
    }
}

/// Writes the file `joins` of the folder with this mark, if it joins.
fn write_joins<S: Store>(
    alloc: Global,
    store: &mut S,
    line: &InitLine<'_>,
    mark: [u8; 16],
) -> Result<(), FolderFault>
    requires range { IsInitInRange line.now }
    requires member { line.now.id < line.now.nodes }
    ensures written { OnOk result (S.calls store.new ≡
        with_joins line.now mark (S.calls store.old)) }
    ensures unwritten { OnErr result ((S.calls store.new ≡ S.calls store.old)
        ⊎ IsFirstJoinsTried line.now mark (S.calls store.old) (S.calls store.new)) }
    ensures cause { IfErr result (IsWhyUnwritten names.Joins) }
{
    if !line.replaces {
        return Ok(());
    }
    let joining = Joining::new(NodeId::new(line.id).unwrap(), line.nodes, mark);
    match joining.text(alloc) {
        Ok(text) => store.replace(FileName::Joins, text),
        Err(_) => Err(FolderFault::Memory),
    }
}

/// The tape that a node begins with.
#[tactic(auto, using(crate::proofs::Faults::from_fault))]
fn first_tape<R: Files + AllocGlobal>(
    rt: &R,
    line: &InitLine<'_>,
) -> Result<FirstTape, CommandFault>
    requires range { IsInitInRange line.now }
    requires member { line.now.id < line.now.nodes }
    ensures tape { IfOk result (λ tape. IsFirstTape line.now tape.bytes.items) }
    ensures fault { IfErr result (IsInitCause line.now) }
{
    match line.from {
        Some(from) => tape_from(rt, from, line.id, line.nodes),
        None => Ok(FirstTape {
            bytes: Vec::new(rt.alloc()),
            is_known: true,
        }),
    }
}
