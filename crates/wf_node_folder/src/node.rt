//! The start of a node on its folder.
ghost use Rattle.std.specs.Prelude.{◌≡◌, ◌≤◌, ◌⊎◌, ◌∷◌, IfErr, IfOk, OnErr, OnOk, length};
ghost use Rattle.wf_address.specs.Address.{words_of};
ghost use Rattle.wf_folder.specs.NodeFile.{IsNodeFile, raised_known};
ghost use Rattle.wf_folder.specs.Reach.{IsReachNoLess};
ghost use Rattle.wf_line.specs.NodeLine.{IsNodeInRange};
ghost use Rattle.wf_node.specs.Node.{stored_of};
ghost use Rattle.wf_node_folder.specs.Fault.{IsFromSystem, IsWhyUnheard};
ghost use Rattle.wf_node_folder.specs.Folder.{StandsForRead, tape_in};
ghost use Rattle.wf_node_folder.specs.Held.{IsKnownOf, IsRaisedTo};
ghost use Rattle.wf_node_folder.specs.Ready.{IsPlanOf, IsNodeReady, IsReadyAs};
ghost use Rattle.wf_node_folder.specs.ReplacementFiles.{AreNoted};
ghost use Rattle.wf_node_folder.specs.Start.{IsFileAdmitted, IsFileCause, IsReadyCounted, IsStartAdmitted, IsStartCounted, IsLifeDrawn, IsHeldCause, IsLeftUncounted, IsNodeFault, IsNotCounted, IsProcessStarted, IsStopFault, IsStartCutShort, IsTapeOpened, IsUnopened, IsWhyNotAdmitted, IsWhyNotCompared, node_in};
ghost use Rattle.wf_store.specs.Call.{OnlyReads, locked};

use crate::addresses::{NodeAddresses, addresses_of};
use crate::fault::CommandFault;
use crate::folder::{find_in, read_peer_progress, write_farm};
use crate::ready::ReadyNode;
use crate::replacement_files::{ReplacementFiles, read_replacement_files};
use crate::tape::{examine_tape, fault_of_tape, open_process};
use std::alloc::Global;
use std::fs::File;
use std::rt::Files;
use std::time::Clock;
use wf_ballot::NodeId;
use wf_folder::{Known, NodeFile, NodeFound, Reach, admit_node};
use wf_folder_log::FolderEvent;
use wf_line::NodeLine;
use wf_peer::{Own, PeerProgress, Progress};
use wf_peer_connections::NodePlan;
use wf_ports::PortAddresses;
use wf_store::{FileName, Store, path_in};
use wf_visitors::Log;
use wf_voter::Process;

/// Starts a node on its folder, by its command line: locks the folder, opens the tape and counts
/// the start. Err: the cause; by then the tape may be written anew, and the start counted.
#[tactic(auto, using(crate::proofs::Starting::bad_words, crate::proofs::Starting::not_locked, crate::proofs::Starting::ready_so, crate::proofs::Starting::not_ready))]
pub fn start_node<R: Files<File = File> + Clock + Eprint + AllocGlobal, S: Store>(
    rt: &R,
    store: &mut S,
    line: &NodeLine<'_>,
) -> Result<ReadyNode<S::Tape>, CommandFault>
    requires { IsNodeInRange line.now }
    ensures ready { IfOk result (λ ready.
        IsNodeReady S.Tape.Tape line.now ready (locked ∷ S.calls store.old) (S.calls store.new)) }
    ensures sound { IfOk result (λ ready. IsNodeFile ready.file) }
    ensures fault { IfErr result (IsNodeFault line.now (S.calls store.old) (S.calls store.new)) }
{
    let node_addresses = match addresses_of(rt.alloc(), line) {
        Ok(node_addresses) => node_addresses,
        Err(fault) => return Err(fault),
    };
    match store.lock() {
        Ok(()) => start_held(rt, store, line, node_addresses),
        Err(fault) => {
            drop(node_addresses);
            Err(CommandFault::Folder(fault))
        }
    }
}

/// Starts the node on its folder, which is locked.
#[tactic(auto, using(crate::proofs::Starting::ready_as, crate::proofs::Starting::not_admitted, crate::proofs::Starting::left_so, crate::proofs::Starting::stopped_so))]
fn start_held<R: Files<File = File> + Clock + Eprint + AllocGlobal, S: Store>(
    rt: &R,
    store: &mut S,
    line: &NodeLine<'_>,
    node_addresses: NodeAddresses,
) -> Result<ReadyNode<S::Tape>, CommandFault>
    requires range { IsNodeInRange line.now }
    requires peers { length node_addresses.peers.items ≡ length (words_of line.now.peers.now) }
    requires most { length node_addresses.peers.items ≤ 64 }
    ensures ready { IfOk result (λ ready.
        IsNodeReady S.Tape.Tape line.now ready (S.calls store.old) (S.calls store.new)) }
    ensures sound { IfOk result (λ ready. IsNodeFile ready.file) }
    ensures left { OnErr result (OnlyReads (S.calls store.old) (S.calls store.new)
        ⊎ IsStartCutShort line.now (S.calls store.old) (S.calls store.new)) }
    ensures cause { IfErr result (IsHeldCause line.now (S.calls store.old) (S.calls store.new)) }
{
    match admit(store, line, node_addresses.peers.len() as u8) {
        Ok((file, files)) => start_as(rt, store, line, node_addresses, &file, &files),
        Err(fault) => {
            drop(node_addresses);
            Err(fault)
        }
    }
}

/// The file of this start of one of so many nodes, by what is in the folder, and what the folder
/// says of replacements.
#[tactic(auto, using(crate::proofs::Started::noted_by, crate::proofs::Started::start_admitted, crate::proofs::Started::not_file, crate::proofs::Started::bad_file, wf_store::specs::CallTheorems::reads_both))]
fn admit<S: Store>(
    store: &mut S,
    line: &NodeLine<'_>,
    nodes: u8,
) -> Result<(NodeFile, ReplacementFiles), CommandFault>
    requires { nodes ≡ length (words_of line.now.peers.now) }
    ensures admit { IfOk result (λ admitted.
        IsStartAdmitted line.now admitted.0 (S.calls store.old) (S.calls store.new)) }
    ensures file { IfOk result (λ admitted. IsNodeFile admitted.0) }
    ensures nodes { IfOk result (λ admitted. admitted.0.nodes ≡ nodes) }
    ensures noted { IfOk result (λ admitted.
        AreNoted admitted.0 admitted.1 (S.calls store.new)) }
    ensures reads { OnlyReads (S.calls store.old) (S.calls store.new) }
    ensures fault { IfErr result
        (IsWhyNotAdmitted line.now (S.calls store.old) (S.calls store.new)) }
{
    let file = match admit_file(store, line, nodes) {
        Ok(file) => file,
        Err(fault) => return Err(fault),
    };
    match read_replacement_files(store, &file) {
        Ok(files) => Ok((file, files)),
        Err(fault) => Err(fault),
    }
}

/// The file of this start of one of so many nodes, by the file `farm` and the tape.
#[tactic(auto, using(crate::proofs::Started::admitted_by, crate::proofs::Started::rejected_by, wf_store::specs::CallTheorems::reads_both, crate::proofs::Started::start_is_file, crate::proofs::Started::start_has_nodes))]
fn admit_file<S: Store>(
    store: &mut S,
    line: &NodeLine<'_>,
    nodes: u8,
) -> Result<NodeFile, CommandFault>
    requires { nodes ≡ length (words_of line.now.peers.now) }
    ensures admit { IfOk result (λ file.
        IsFileAdmitted line.now file (S.calls store.old) (S.calls store.new)) }
    ensures file { IfOk result IsNodeFile }
    ensures nodes { IfOk result (λ file. file.nodes ≡ nodes) }
    ensures reads { OnlyReads (S.calls store.old) (S.calls store.new) }
    ensures fault { IfErr result
        (IsFileCause line.now (S.calls store.old) (S.calls store.new)) }
{
    let found = match find_in(store) {
        Ok(found) => found,
        Err(fault) => return Err(CommandFault::Folder(fault)),
    };
    let tape = match store.presence(FileName::NodeTape(node_in(&found))) {
        Ok(tape) => tape,
        Err(fault) => return Err(CommandFault::Folder(fault)),
    };
    match admit_node(nodes, found, tape) {
        Ok(file) => Ok(file),
        Err(why) => Err(CommandFault::Rejected(why)),
    }
}

/// The node whose file was found; 0 if none was.
fn node_in(found: &NodeFound) -> u8
    ensures { result ≡ node_in found.now }
{
    match found {
        NodeFound::File(file) => file.node,
        NodeFound::Nothing | NodeFound::Bad(_) => 0,
    }
}

/// Starts the node on its folder, as this file says. The tape is opened first: where it doesn't
/// open, no start is counted.
#[tactic(auto, using(crate::proofs::Starting::plan_still, crate::proofs::Starting::unopened, crate::proofs::Starting::unplanned, crate::proofs::Starting::counted_on, crate::proofs::Starting::uncounted_on, crate::proofs::Starting::stop_of_system, crate::proofs::Starting::stop_unopened, crate::proofs::Starting::stop_unheard))]
fn start_as<R: Files<File = File> + Clock + Eprint + AllocGlobal, S: Store>(
    rt: &R,
    store: &mut S,
    line: &NodeLine<'_>,
    node_addresses: NodeAddresses,
    file: &NodeFile,
    files: &ReplacementFiles,
) -> Result<ReadyNode<S::Tape>, CommandFault>
    requires range { IsNodeInRange line.now }
    requires file { IsNodeFile file.now }
    requires nodes { file.now.nodes ≡ length node_addresses.peers.items }
    ensures ready { IfOk result (λ ready.
        IsReadyAs S.Tape.Tape file.now ready (S.calls store.old) (S.calls store.new)) }
    ensures plan { IfOk result (λ ready. IsPlanOf line.now files.now ready.plan) }
    ensures sound { IfOk result (λ ready. IsNodeFile ready.file) }
    ensures left { OnErr result (IsLeftUncounted file.now (S.calls store.old) (S.calls store.new)) }
    ensures cause { IfErr result (IsStopFault file.now (S.calls store.old) (S.calls store.new)) }
{
    match open_node(rt, store, line, file) {
        Ok((process, known)) => match plan_of(
            rt.alloc(),
            store,
            line,
            node_addresses,
            file,
            files,
            &known.reach,
        ) {
            Ok(plan) => make_ready(rt.alloc(), store, file, plan, process, &known),
            Err(fault) => {
                drop(process);
                Err(fault)
            }
        },
        Err(fault) => {
            drop(node_addresses);
            Err(fault)
        }
    }
}

/// The process of the node of this file on its tape, and how far the node is. The node is opened on
/// what is read of the tape, and compared with what is known of it, before anything is written;
/// then it moves to the tape.
#[tactic(auto, using(crate::proofs::Opening::untouched, crate::proofs::Opening::only_read, crate::proofs::Opening::uncompared_of_system, crate::proofs::Opening::not_opened, crate::proofs::Opening::opened_so, crate::proofs::Opening::opened_alone, crate::proofs::Opening::opened_read, crate::proofs::Opening::opened_of_system))]
fn open_node<R: Files + Clock + Eprint + AllocGlobal, S: Store>(
    rt: &R,
    store: &mut S,
    line: &NodeLine<'_>,
    file: &NodeFile,
) -> Result<(Process<S::Tape>, Known), CommandFault>
    requires range { IsNodeInRange line.now }
    requires file { IsNodeFile file.now }
    ensures started { IfOk result (λ opened. IsProcessStarted S.Tape.Tape file.now opened.0) }
    ensures read { IfOk result (λ opened.
        StandsForRead (stored_of opened.0.actor.node) (tape_in (S.calls store.new))) }
    ensures known { IfOk result (λ opened.
        IsKnownOf file.now.known (stored_of opened.0.actor.node) opened.1) }
    ensures calls { OnOk result (IsTapeOpened file.now (S.calls store.old) (S.calls store.new)) }
    ensures left { OnErr result (IsUnopened file.now (S.calls store.old) (S.calls store.new)) }
    ensures fault { IfErr result
        (IsWhyNotCompared file.now (S.calls store.old) (S.calls store.new)) }
{
    let log = Log::new(rt, line.log);
    log.write(&FolderEvent::NodeStarts {
        node: file.node,
        folder: line.state,
    });
    let tape_file = FileName::NodeTape(file.node);
    let Ok(path) = path_in(rt.alloc(), line.state, tape_file) else {
        return Err(CommandFault::Memory);
    };
    let copy = match examine_tape(rt.alloc(), store, file) {
        Ok(copy) => copy,
        Err(fault) => return Err(fault),
    };
    match store.open(tape_file) {
        Ok(tape) => open_process(rt, &log, file, tape, path.as_str(), copy, line.cache),
        Err(fault) => {
            drop(copy);
            Err(fault_of_tape(rt, path.as_str(), fault))
        }
    }
}

/// Which node it is, how far it is at this start, and where the others are.
fn plan_of<S: Store>(
    alloc: Global,
    store: &mut S,
    line: &NodeLine<'_>,
    node_addresses: NodeAddresses,
    file: &NodeFile,
    files: &ReplacementFiles,
    reach: &Reach,
) -> Result<NodePlan, CommandFault>
    requires file { IsNodeFile file.now }
    requires nodes { file.now.nodes ≡ length node_addresses.peers.items }
    ensures plan { IfOk result (IsPlanOf line.now files.now) }
    ensures drawn { OnOk result (IsLifeDrawn (S.calls store.old) (S.calls store.new)) }
    ensures reads { OnlyReads (S.calls store.old) (S.calls store.new) }
    ensures fault { IfErr result IsFromSystem }
{
    let life = match store.draw() {
        Ok(life) => life,
        Err(fault) => {
            drop(node_addresses);
            return Err(CommandFault::Folder(fault));
        }
    };
    plan_with(alloc, line, node_addresses, file, files, life, reach)
}

/// Which node it is, how far it is in the life that these bits mark, and where the others are.
fn plan_with(
    alloc: Global,
    line: &NodeLine<'_>,
    node_addresses: NodeAddresses,
    file: &NodeFile,
    files: &ReplacementFiles,
    life: [u8; 16],
    reach: &Reach,
) -> Result<NodePlan, CommandFault>
    requires file { IsNodeFile file.now }
    requires nodes { file.now.nodes ≡ length node_addresses.peers.items }
    ensures plan { IfOk result (IsPlanOf line.now files.now) }
    ensures fault { IfErr result IsFromSystem }
{
    let NodeAddresses {
        peers,
        http,
        listen,
        admin,
        readers,
    } = node_addresses;
    let Ok(folder) = String::from_str(alloc, line.state) else {
        drop(peers);
        return Err(CommandFault::Memory);
    };
    let Ok(tape) = path_in(alloc, line.state, FileName::NodeTape(file.node)) else {
        drop(peers);
        drop(folder);
        return Err(CommandFault::Memory);
    };
    let own = peers[file.node as usize];
    Ok(NodePlan {
        own: Own {
            farm: file.farm,
            nodes: file.nodes,
            node: NodeId::new(file.node).unwrap(),
        },
        start: Progress::new(file.mark, file.starts, life, reach),
        suspension: file.suspension,
        replacements: files.known,
        joining: files.joining,
        may_replace: line.may_replace,
        folder,
        tape,
        peers,
        listen: listen.unwrap_or(own),
        ports: PortAddresses {
            http,
            admin,
            readers,
        },
        clients: line.clients as usize,
    })
}

/// Counts the start in the folder: the node is ready to be served then. What was heard of a folder
/// that another one has replaced since is left out.
#[tactic(auto, using(crate::proofs::Starting::raised_by))]
fn make_ready<S: Store>(
    alloc: Global,
    store: &mut S,
    file: &NodeFile,
    plan: NodePlan,
    process: Process<S::Tape>,
    known: &Known,
) -> Result<ReadyNode<S::Tape>, CommandFault>
    requires file { IsNodeFile file.now }
    requires known { IsKnownOf file.now.known (stored_of process.actor.node) known.now }
    ensures process { IfOk result (λ ready. ready.process ≡ process) }
    ensures plan { IfOk result (λ ready. ready.plan ≡ plan) }
    ensures counted { IfOk result (λ ready. IsReadyCounted plan.replacements ready.heard ready.file
        (S.calls store.old) (S.calls store.new)) }
    ensures raised { IfOk result (λ ready.
        IsRaisedTo (stored_of process.actor.node) file.now ready.file) }
    ensures sound { IfOk result (λ ready. IsNodeFile ready.file) }
    ensures left { OnErr result
        (IsNotCounted file.now (S.calls store.old) (S.calls store.new)) }
    ensures fault { IfErr result (IsWhyUnheard (S.calls store.new)) }
{
    match count_start(alloc, store, file, known) {
        Ok((heard, written)) => Ok(ReadyNode {
            heard: heard.without(&plan.replacements),
            plan,
            process,
            file: written,
        }),
        Err(fault) => {
            drop(plan);
            drop(process);
            Err(fault)
        }
    }
}

/// Counts the start in the folder's file, raised to how far the node is. Ok is what was heard of
/// the peers before, and the file as it was written.
#[tactic(auto, using(crate::proofs::Starting::counted_by, crate::proofs::Starting::unwritten_by))]
fn count_start<S: Store>(
    alloc: Global,
    store: &mut S,
    file: &NodeFile,
    known: &Known,
) -> Result<(PeerProgress, NodeFile), CommandFault>
    requires { IsNodeFile file.now }
    ensures counted { IfOk result (λ counted.
        IsStartCounted counted.0 counted.1 (S.calls store.old) (S.calls store.new)) }
    ensures raised { IfOk result (λ counted. counted.1 ≡ record file.now {
      known = raised_known file.now.known known.now.reach known.now.digest;
    }) }
    ensures no_less { IfOk result (λ counted.
        IsReachNoLess file.now.known.reach counted.1.known.reach) }
    ensures sound { IfOk result (λ counted. IsNodeFile counted.1) }
    ensures left { OnErr result
        (IsNotCounted file.now (S.calls store.old) (S.calls store.new)) }
    ensures fault { IfErr result (IsWhyUnheard (S.calls store.new)) }
{
    let heard = match read_peer_progress(store) {
        Ok(heard) => heard,
        Err(fault) => return Err(fault),
    };
    let raised = file.raise(&known.reach, known.digest);
    match write_farm(alloc, store, &raised) {
        Ok(()) => Ok((heard, raised)),
        Err(fault) => Err(CommandFault::Folder(fault)),
    }
}
