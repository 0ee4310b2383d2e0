//! Opening the nodes.
ghost use Rattle.std.specs.Prelude.{◌≡◌, ◌<◌, ◌≤◌, ◌+◌, ◌∷◌, length, IfErr, IfOk, OnErr, OnOk};
ghost use Rattle.wf_farm.specs.Farm.{size};
ghost use Rattle.wf_farm.specs.Nodes.{AllRun, nodes_in};
ghost use Rattle.wf_folder.specs.Admission.{IsStart};
ghost use Rattle.wf_folder.specs.FarmFile.{IsFarmFile, farm_text};
ghost use Rattle.wf_serve.specs.FailedCall.{unopened_cause};
ghost use Rattle.wf_serve.specs.OpenedNodes.{AreOpened, WasRead, WereRead};
ghost use Rattle.wf_serve.specs.Start.{HaveOpened, IsMarkDrawn, IsFarmAdmitted, IsFarmBegun, IsFarmRejected, IsFarmStarted, IsFiled, IsNodeTapeOpened, IsTapeStopped, IsFarmUnwritten, IsFarmWritten};
ghost use Rattle.wf_store.specs.Call.{OnlyReads, failed, locked, replaced};
ghost use Rattle.wf_store.specs.Fault.{IsWhyUndrawn};

use crate::check::{cause_of_rejection, check_tapes};
use crate::compaction::open_shortened;
use crate::event::Cause;
use crate::survey::{Survey, inspect};
use std::alloc::{AllocError, Global};
use std::time::Clock;
use wf_ballot::NodeId;
use wf_farm::{Farm, NodeHost};
use wf_folder::{Beginning, FarmFile, Start, admit};
use wf_folder_log::FolderEvent;
use wf_node::Node;
use wf_store::{FileName, FolderFault, Store, path_in};
use wf_tape::Tape;
use wf_visitors::Log;

/// Locks the folder at a path, and opens the farm of n nodes on their tapes in it, if it is new,
/// this farm's or taken over; then it has its file `farm`. It is locked before anything in it is
/// read, and its tapes are read before any is opened: if another program has locked it, it isn't
/// the farm's, a tape is bad or two differ, nothing in it changes. The path is for the log alone.
/// The folder's tapes are of a kind that isn't known to be durable, as a file isn't (`Farm::open`).
#[tactic(auto, using(crate::proofs::Started::unlocked))]
pub fn open_folder<R: Eprint + Clock, S: Store>(
    alloc: Global,
    log: &Log<'_, R>,
    store: &mut S,
    n: u8,
    folder: &str,
) -> Result<Farm<S::Tape>, Cause>
    requires some { 1 ≤ n }
    requires most { n ≤ 64 }
    requires outside { S.Tape.Tape.durable → ⊥ }
    ensures size { IfOk result (λ farm. size farm ≡ n) }
    ensures running { IfOk result (λ farm. AllRun farm.hosts) }
    ensures read { IfOk result (λ farm. WereRead (nodes_in farm)) }
    ensures started { OnOk result
        (IsFarmStarted n (locked ∷ S.calls store.old) (S.calls store.new)) }
    ensures rejected { IfErr result
        (λ cause. IsFarmRejected n cause (S.calls store.old) (S.calls store.new)) }
{
    match store.lock() {
        Ok(()) => open_locked(alloc, log, store, n, folder),
        Err(fault) => Err(Cause::Folder(fault)),
    }
}

/// The farm of n nodes on their tapes in a locked folder.
#[tactic(auto, using(crate::proofs::Started::unsurveyed))]
fn open_locked<R: Eprint + Clock, S: Store>(
    alloc: Global,
    log: &Log<'_, R>,
    store: &mut S,
    n: u8,
    folder: &str,
) -> Result<Farm<S::Tape>, Cause>
    requires some { 1 ≤ n }
    requires most { n ≤ 64 }
    requires outside { S.Tape.Tape.durable → ⊥ }
    ensures size { IfOk result (λ farm. size farm ≡ n) }
    ensures running { IfOk result (λ farm. AllRun farm.hosts) }
    ensures read { IfOk result (λ farm. WereRead (nodes_in farm)) }
    ensures started { OnOk result (IsFarmStarted n (S.calls store.old) (S.calls store.new)) }
    ensures rejected { IfErr result
        (λ cause. IsFarmRejected n cause (S.calls store.old) (S.calls store.new)) }
{
    match inspect(store) {
        Ok(survey) => match admit(n, survey.found, survey.tapes.as_slice()) {
            Ok(start) => open_admitted(alloc, log, store, n, folder, &survey, start),
            Err(why) => Err(cause_of_rejection(why)),
        },
        Err(fault) => Err(Cause::Folder(fault)),
    }
}

/// The farm on a folder on which it may start, once its tapes were read.
#[tactic(auto, using(crate::proofs::Started::only_read))]
fn open_admitted<R: Eprint + Clock, S: Store>(
    alloc: Global,
    log: &Log<'_, R>,
    store: &mut S,
    n: u8,
    folder: &str,
    survey: &Survey,
    start: Start,
) -> Result<Farm<S::Tape>, Cause>
    requires some { 1 ≤ n }
    requires most { n ≤ 64 }
    requires outside { S.Tape.Tape.durable → ⊥ }
    requires tapes { length survey.now.tapes ≡ 64 }
    requires start { IsStart n survey.now.found survey.now.tapes start }
    ensures size { IfOk result (λ farm. size farm ≡ n) }
    ensures running { IfOk result (λ farm. AllRun farm.hosts) }
    ensures read { IfOk result (λ farm. WereRead (nodes_in farm)) }
    ensures admitted { OnOk result
        (IsFarmAdmitted n survey.now start (S.calls store.old) (S.calls store.new)) }
    ensures rejected { IfErr result
        (λ cause. IsFarmRejected n cause (S.calls store.old) (S.calls store.new)) }
{
    match check_tapes(alloc, store, n, survey.tapes.as_slice()) {
        Ok(()) => open_started(alloc, log, store, n, folder, start),
        Err(cause) => Err(cause),
    }
}

/// The farm on such a folder, whose tapes were read.
fn open_started<R: Eprint + Clock, S: Store>(
    alloc: Global,
    log: &Log<'_, R>,
    store: &mut S,
    n: u8,
    folder: &str,
    start: Start,
) -> Result<Farm<S::Tape>, Cause>
    requires some { 1 ≤ n }
    requires most { n ≤ 64 }
    requires outside { S.Tape.Tape.durable → ⊥ }
    ensures size { IfOk result (λ farm. size farm ≡ n) }
    ensures running { IfOk result (λ farm. AllRun farm.hosts) }
    ensures read { IfOk result (λ farm. WereRead (nodes_in farm)) }
    ensures begun { OnOk result (IsFarmBegun n start (S.calls store.old) (S.calls store.new)) }
    ensures rejected { IfErr result
        (λ cause. IsFarmRejected n cause (S.calls store.old) (S.calls store.new)) }
{
    match start {
        Start::Own(file) => {
            write_folder(log, folder, &file);
            open_tapes(alloc, log, store, n, folder)
        }
        Start::New => open_new(alloc, log, store, n, folder, Beginning::Empty),
        Start::TakenOver => open_new(alloc, log, store, n, folder, Beginning::Found),
    }
}

/// The farm on a folder that has no file: it gets one once the tapes are open.
#[tactic(auto, using(crate::proofs::Started::undrawn))]
fn open_new<R: Eprint + Clock, S: Store>(
    alloc: Global,
    log: &Log<'_, R>,
    store: &mut S,
    n: u8,
    folder: &str,
    beginning: Beginning,
) -> Result<Farm<S::Tape>, Cause>
    requires some { 1 ≤ n }
    requires most { n ≤ 64 }
    requires outside { S.Tape.Tape.durable → ⊥ }
    ensures size { IfOk result (λ farm. size farm ≡ n) }
    ensures running { IfOk result (λ farm. AllRun farm.hosts) }
    ensures read { IfOk result (λ farm. WereRead (nodes_in farm)) }
    ensures filed { OnOk result (IsFiled n beginning (S.calls store.old) (S.calls store.new)) }
    ensures rejected { IfErr result
        (λ cause. IsFarmRejected n cause (S.calls store.old) (S.calls store.new)) }
{
    match draw_file(store, n, beginning) {
        Ok(file) => open_with(alloc, log, store, n, folder, &file),
        Err(fault) => Err(Cause::Folder(fault)),
    }
}

/// A file `farm` with a new mark.
fn draw_file<S: Store>(store: &mut S, n: u8, beginning: Beginning) -> Result<FarmFile, FolderFault>
    requires some { 1 ≤ n }
    requires most { n ≤ 64 }
    ensures drawn { IfOk result
        (λ file. IsMarkDrawn n beginning file (S.calls store.old) (S.calls store.new)) }
    ensures reads { OnlyReads (S.calls store.old) (S.calls store.new) }
    ensures last { OnErr result (S.calls store.new ≡ failed ∷ S.calls store.old) }
    ensures cause { IfErr result IsWhyUndrawn }
{
    match store.draw() {
        Ok(mark) => Ok(FarmFile::new(n, beginning, mark)),
        Err(fault) => Err(fault),
    }
}

/// The farm on a folder whose file is written once the tapes are open.
#[tactic(auto, using(crate::proofs::Started::written_last))]
fn open_with<R: Eprint + Clock, S: Store>(
    alloc: Global,
    log: &Log<'_, R>,
    store: &mut S,
    n: u8,
    folder: &str,
    file: &FarmFile,
) -> Result<Farm<S::Tape>, Cause>
    requires some { 1 ≤ n }
    requires most { n ≤ 64 }
    requires outside { S.Tape.Tape.durable → ⊥ }
    requires file { IsFarmFile file.now }
    ensures size { IfOk result (λ farm. size farm ≡ n) }
    ensures running { IfOk result (λ farm. AllRun farm.hosts) }
    ensures read { IfOk result (λ farm. WereRead (nodes_in farm)) }
    ensures written { OnOk result
        (IsFarmWritten n file.now (S.calls store.old) (S.calls store.new)) }
    ensures rejected { IfErr result
        (λ cause. IsFarmRejected n cause (S.calls store.old) (S.calls store.new)) }
{
    write_folder(log, folder, file);
    match open_tapes(alloc, log, store, n, folder) {
        Ok(farm) => match write_file(alloc, store, file) {
            Ok(()) => Ok(farm),
            Err(cause) => {
                drop(farm);
                Err(cause)
            }
        },
        Err(cause) => Err(cause),
    }
}

/// Writes to the log whose the folder is.
fn write_folder<R: Eprint + Clock>(log: &Log<'_, R>, folder: &str, file: &FarmFile) {
    log.write(&FolderEvent::Farm {
        folder,
        nodes: file.nodes,
        beginning: file.beginning,
    });
}

/// Writes the file `farm`.
#[tactic(auto, using(crate::proofs::Started::not_written))]
fn write_file<S: Store>(alloc: Global, store: &mut S, file: &FarmFile) -> Result<(), Cause>
    requires { IsFarmFile file.now }
    ensures written { OnOk result
        (S.calls store.new ≡ replaced FileName.Farm (farm_text file.now) ∷ S.calls store.old) }
    ensures unwritten { IfErr result
        (λ cause. IsFarmUnwritten cause (S.calls store.old) (S.calls store.new)) }
{
    let Ok(text) = file.text(alloc) else {
        return Err(Cause::Memory);
    };
    match store.replace(FileName::Farm, text) {
        Ok(()) => Ok(()),
        Err(fault) => Err(Cause::Folder(fault)),
    }
}

/// The farm of n nodes on their tapes, `node-0.tape` and so on; a missing tape is created.
fn open_tapes<R: Eprint + Clock, S: Store>(
    alloc: Global,
    log: &Log<'_, R>,
    store: &mut S,
    n: u8,
    folder: &str,
) -> Result<Farm<S::Tape>, Cause>
    requires some { 1 ≤ n }
    requires most { n ≤ 64 }
    requires outside { S.Tape.Tape.durable → ⊥ }
    ensures size { IfOk result (λ farm. size farm ≡ n) }
    ensures running { IfOk result (λ farm. AllRun farm.hosts) }
    ensures read { IfOk result (λ farm. WereRead (nodes_in farm)) }
    ensures opened { OnOk result (HaveOpened n (S.calls store.old) (S.calls store.new)) }
    ensures rejected { IfErr result
        (λ cause. IsFarmRejected n cause (S.calls store.old) (S.calls store.new)) }
{
    let mut hosts = Vec::new(alloc);
    for number in 0..n {
        match open_tape(alloc, log, store, &mut hosts, number, n, folder) {
            Ok(()) => {}
            Err(cause) => {
                drop(hosts);
                return Err(cause);
            }
        }
    }
    Ok(Farm::open(alloc, hosts))
}

/// Appends the node of this number, of n, opened from its tape.
#[tactic(auto, using(crate::proofs::Started::none_stopped))]
fn open_tape<R: Eprint + Clock, S: Store>(
    alloc: Global,
    log: &Log<'_, R>,
    store: &mut S,
    hosts: &mut Vec<NodeHost<S::Tape>>,
    number: u8,
    n: u8,
    folder: &str,
) -> Result<(), Cause>
    requires most { n ≤ 64 }
    requires member { number < n }
    requires next { length hosts.old.items ≡ number }
    requires opened { AreOpened n hosts.old.items }
    ensures opened { OnOk result (AreOpened n hosts.new.items) }
    ensures size { OnOk result (length hosts.new.items ≡ number + 1) }
    ensures tape { OnOk result (IsNodeTapeOpened number (S.calls store.old) (S.calls store.new)) }
    ensures stopped { IfErr result
        (λ cause. IsTapeStopped number cause (S.calls store.old) (S.calls store.new)) }
{
    let Ok(path) = path_in(alloc, folder, FileName::NodeTape(number)) else {
        return Err(Cause::Memory);
    };
    let added = add_node(alloc, log, store, hosts, number, n, path.as_str());
    drop(path);
    added
}

/// Appends the node of this number, of n, opened from its tape, which is shortened then. The path
/// is for the log.
fn add_node<R: Eprint + Clock, S: Store>(
    alloc: Global,
    log: &Log<'_, R>,
    store: &mut S,
    hosts: &mut Vec<NodeHost<S::Tape>>,
    number: u8,
    n: u8,
    path: &str,
) -> Result<(), Cause>
    requires most { n ≤ 64 }
    requires member { number < n }
    requires next { length hosts.old.items ≡ number }
    requires opened { AreOpened n hosts.old.items }
    ensures opened { OnOk result (AreOpened n hosts.new.items) }
    ensures size { OnOk result (length hosts.new.items ≡ number + 1) }
    ensures tape { OnOk result (IsNodeTapeOpened number (S.calls store.old) (S.calls store.new)) }
    ensures stopped { IfErr result
        (λ cause. IsTapeStopped number cause (S.calls store.old) (S.calls store.new)) }
{
    let before = store.length(FileName::NodeTape(number));
    let tape = match store.open(FileName::NodeTape(number)) {
        Ok(tape) => tape,
        Err(fault) => return Err(unopened(number, fault)),
    };
    match open_shortened(alloc, tape, id_of(number), n) {
        Ok((node, is_short)) => {
            let after = store.length(FileName::NodeTape(number));
            log.write(&FolderEvent::TapeOpened {
                path,
                before,
                after,
                is_short,
            });
            match put(hosts, node, n) {
                Ok(()) => Ok(()),
                Err(AllocError) => Err(Cause::Memory),
            }
        }
        Err(tape) => {
            drop(tape);
            Err(Cause::TapeFailed(number as usize))
        }
    }
}

/// The cause of a tape that isn't opened: an allocation that fails there counts as the tape's, and
/// the line in the log names that.
fn unopened(number: u8, fault: FolderFault) -> Cause
    ensures { result ≡ unopened_cause number fault }
{
    match fault {
        FolderFault::Memory => Cause::TapeFailed(number as usize),
        _ => Cause::Folder(fault),
    }
}

/// The node of this number.
fn id_of(number: u8) -> NodeId
    requires { number < 64 }
    ensures { result ≡ number }
{
    NodeId::new(number).unwrap()
}

/// Appends the next node of n.
fn put<T: Tape + Drop>(hosts: &mut Vec<NodeHost<T>>, node: Node<T>, n: u8) -> Result<(), AllocError>
    requires next { node.id ≡ length hosts.old.items }
    requires of { node.n ≡ n }
    requires read { WasRead node }
    requires opened { AreOpened n hosts.old.items }
    ensures opened { OnOk result (AreOpened n hosts.new.items) }
    ensures size { OnOk result (length hosts.new.items ≡ length hosts.old.items + 1) }
{
    match hosts.push(NodeHost::Running(node)) {
        Ok(()) => Ok(()),
        Err(back) => {
            drop(back);
            Err(AllocError)
        }
    }
}
