//! The tape of a node that starts.
ghost use Rattle.std.specs.Prelude.{◌≡◌, ◌≤◌, IfErr, IfOk, OnOk};
ghost use Rattle.wf_folder.specs.NodeFile.{IsNodeFile};
ghost use Rattle.wf_node.specs.Images.{StandsFor};
ghost use Rattle.wf_node.specs.Node.{stored_of};
ghost use Rattle.wf_node.specs.OpenedNode.{IsFoldOf, IsWhyBad};
ghost use Rattle.wf_node_folder.specs.Damage.{IsWhyDamaged};
ghost use Rattle.wf_node_folder.specs.Fault.{IsFromSystem};
ghost use Rattle.wf_node_folder.specs.Folder.{StandsForRead, tape_in};
ghost use Rattle.wf_node_folder.specs.Held.{HasHeld, IsExamined, IsKnownOf, IsOpenedFor, IsWhyNotHeldBy, copy_fault_of};
ghost use Rattle.wf_node_folder.specs.Start.{IsCompared, IsProcessStarted, IsWhyNotCompared};
ghost use Rattle.wf_store.specs.Call.{OnlyReads};

use crate::fault::CommandFault;
use crate::held_state::examine_node;
use crate::read_node::ReadNode;
use crate::settled::settle;
use crate::theorem::whole_records_are_bad_nowhere;
use std::alloc::Global;
use std::io::ErrorKind;
use std::rt::Files;
use std::time::Clock;
use wf_ballot::NodeId;
use wf_folder::{Known, NodeFile};
use wf_folder_log::FolderEvent;
use wf_journal::OpenFault;
use wf_node::{Node, NodeFault};
use wf_store::{FileName, FolderFault, ProbeFault, Store, probe_file};
use wf_tape::{MemoryTape, Tape};
use wf_visitors::Log;
use wf_voter::Process;

/// The greatest length of a tape, in bytes.
pub(crate) const MOST_TAPE_BYTES: usize = 8_589_934_592;

/// The node of this file on a copy of its tape's bytes in memory, if it holds all that is known of
/// it: no file is changed.
#[tactic(auto, using(crate::proofs::Opening::compared_by, crate::proofs::Opening::read_by, crate::proofs::Opening::not_compared_by, crate::proofs::Opening::uncompared_of_system))]
pub(crate) fn examine_tape<S: Store>(
    alloc: Global,
    store: &mut S,
    file: &NodeFile,
) -> Result<ReadNode, CommandFault>
    requires { IsNodeFile file.now }
    ensures examined { IfOk result (λ copy. IsExamined file.now copy.node copy.known) }
    ensures read { IfOk result (λ copy.
        StandsForRead (stored_of copy.node) (tape_in (S.calls store.new))) }
    ensures compared { OnOk result (IsCompared file.now (S.calls store.old) (S.calls store.new)) }
    ensures reads { OnlyReads (S.calls store.old) (S.calls store.new) }
    ensures fault { IfErr result
        (IsWhyNotCompared file.now (S.calls store.old) (S.calls store.new)) }
{
    match store.read(FileName::NodeTape(file.node), MOST_TAPE_BYTES) {
        Ok(Some(bytes)) => examine_bytes(alloc, file, bytes),
        Ok(None) => Err(CommandFault::TapeUnread(ErrorKind::NotFound)),
        Err(fault) => Err(unread(fault)),
    }
}

/// The error of a tape that can't be read.
fn unread(fault: FolderFault) -> CommandFault
    ensures { IsFromSystem result }
{
    match fault {
        FolderFault::Unread(_, kind) => CommandFault::TapeUnread(kind),
        _ => CommandFault::Folder(fault),
    }
}

/// The error of a tape at a path that can't be opened.
pub(crate) fn fault_of_tape<R: Files + AllocGlobal>(
    rt: &R,
    path: &str,
    fault: FolderFault,
) -> CommandFault
    ensures { IsFromSystem result }
{
    match fault {
        FolderFault::Unopened(_) => cause_of_failure(rt, path),
        _ => CommandFault::Folder(fault),
    }
}

/// The node of this file on a tape of these bytes, in memory, if it holds all that is known of it.
#[tactic(auto, using(crate::proofs::Kept::held_by, crate::proofs::Kept::not_held_by, crate::proofs::Kept::not_opened_by))]
fn examine_bytes(alloc: Global, file: &NodeFile, bytes: Vec<u8>) -> Result<ReadNode, CommandFault>
    requires { IsNodeFile file.now }
    ensures examined { IfOk result (λ copy. IsExamined file.now copy.node copy.known) }
    ensures stands { IfOk result (λ copy. StandsFor (stored_of copy.node) bytes.items) }
    ensures holds { OnOk result (HasHeld file.now bytes.items) }
    ensures fault { IfErr result (IsWhyNotHeldBy file.now bytes.items) }
{
    match open_copy(alloc, file, bytes) {
        Ok((node, dropped)) => match examine_node(alloc, &file.known, &node) {
            Ok(known) => Ok(ReadNode {
                node,
                known,
                dropped,
            }),
            Err(fault) => {
                drop(node);
                Err(fault)
            }
        },
        Err(fault) => Err(copy_fault(fault)),
    }
}

/// The node of this file on a tape of these bytes, in memory, and how many zeros were dropped
/// behind its records.
#[tactic(auto, using(crate::proofs::Kept::stands_back, crate::proofs::Damage::damaged_back))]
fn open_copy(
    alloc: Global,
    file: &NodeFile,
    bytes: Vec<u8>,
) -> Result<(Node<MemoryTape>, usize), OpenFault>
    requires { IsNodeFile file.now }
    ensures opened { IfOk result (λ copy. IsOpenedFor file.now copy.0) }
    ensures stands { IfOk result (λ copy. StandsFor (stored_of copy.0) bytes.items) }
    ensures why { IfErr result (λ fault. IsWhyDamaged fault bytes.items) }
{
    whole_records_are_bad_nowhere();
    match settle(alloc, MemoryTape::new(bytes)) {
        Ok((tape, dropped)) => match open_node(alloc, file, tape) {
            Ok(node) => Ok((node, dropped)),
            Err(fault) => Err(fault),
        },
        Err(fault) => Err(fault),
    }
}

/// The node of this file on a tape in memory.
fn open_node(
    alloc: Global,
    file: &NodeFile,
    tape: MemoryTape,
) -> Result<Node<MemoryTape>, OpenFault>
    requires { IsNodeFile file.now }
    ensures opened { IfOk result (IsOpenedFor file.now) }
    ensures stored { IfOk result (λ node. IsFoldOf (stored_of node) tape.bytes) }
    ensures bad { IfErr result (λ fault. IsWhyBad fault tape.bytes) }
{
    match Node::open(alloc, tape, id_of(file), file.nodes) {
        Ok(node) => Ok(node),
        Err((tape, fault)) => {
            drop(tape);
            Err(fault)
        }
    }
}

/// The error of a tape in memory that doesn't open: it is damaged at an offset, or an allocation
/// failed.
fn copy_fault(fault: OpenFault) -> CommandFault
    ensures { result ≡ copy_fault_of fault }
{
    match fault {
        OpenFault::BadRecord(offset) => CommandFault::TapeBad(offset),
        OpenFault::TapeFailed | OpenFault::Memory => CommandFault::Memory,
    }
}

/// The process of a node that was read, on its tape, and how far the node is: what it has stored
/// replaces what the tape held, in one call, and nothing is read of the tape. Zeros behind the
/// records that were read are gone then.
pub(crate) fn open_process<R: Files + Clock + Eprint + AllocGlobal, T: Tape + Drop>(
    rt: &R,
    log: &Log<'_, R>,
    file: &NodeFile,
    tape: T,
    path: &str,
    copy: ReadNode,
    pictures: u8,
) -> Result<(Process<T>, Known), CommandFault>
    requires file { IsNodeFile file.now }
    requires examined { IsExamined file.now copy.node copy.known }
    requires least { 1 ≤ pictures }
    requires most { pictures ≤ 64 }
    ensures started { IfOk result (λ opened. IsProcessStarted T.Tape file.now opened.0) }
    ensures same { IfOk result (λ opened. stored_of opened.0.actor.node ≡ stored_of copy.node) }
    ensures known { IfOk result (λ opened.
        IsKnownOf file.now.known (stored_of opened.0.actor.node) opened.1) }
    ensures fault { IfErr result IsFromSystem }
{
    let ReadNode {
        node,
        known,
        dropped,
    } = copy;
    match node.move_to(rt.alloc(), tape) {
        Ok(node) => {
            if dropped != 0 {
                log.write(&FolderEvent::ZerosDropped(dropped));
            }
            match Process::of(rt.alloc(), node, pictures as usize) {
                Ok(process) => Ok((process, known)),
                Err(_) => Err(CommandFault::Memory),
            }
        }
        Err((tape, fault)) => {
            drop(tape);
            Err(fault_of_move(rt, path, fault))
        }
    }
}

/// The node of a file.
fn id_of(file: &NodeFile) -> NodeId
    requires { IsNodeFile file.now }
    ensures { result ≡ file.now.node }
{
    NodeId::new(file.node).unwrap()
}

/// The error of a tape to which a node doesn't move.
fn fault_of_move<R: Files + AllocGlobal>(rt: &R, path: &str, fault: NodeFault) -> CommandFault
    ensures { IsFromSystem result }
{
    match fault {
        NodeFault::TapeFailed => cause_of_failure(rt, path),
        _ => CommandFault::Memory,
    }
}

/// Why a tape has failed. A start writes a second copy beside it, which then gets its name: it is
/// read, and that is tried once more, for the system's cause.
fn cause_of_failure<R: Files + AllocGlobal>(rt: &R, path: &str) -> CommandFault
    ensures { IsFromSystem result }
{
    match probe_file(rt, path, MOST_TAPE_BYTES) {
        Ok(()) => CommandFault::TapeFailed,
        Err(ProbeFault::Unwritten(kind)) => CommandFault::TapeUnwritten(kind),
        Err(ProbeFault::Unread(kind)) => CommandFault::TapeUnread(kind),
    }
}
