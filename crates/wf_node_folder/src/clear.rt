//! `wfarm clear`.
ghost use Rattle.std.specs.Prelude.{IfErr, IfOk, OnErr, OnOk};
ghost use Rattle.wf_folder.specs.NodeFile.{IsNodeFile};
ghost use Rattle.wf_node_folder.specs.Cleared.{HasReadFarmFile, IsClearDone, IsClearFault, IsCleared, IsRewritten, IsUncleared, IsUnwritten};
ghost use Rattle.wf_store.specs.Call.{OnlyReads};

use crate::fault::CommandFault;
use crate::folder::{find_in, write_farm, write_heard};
use std::alloc::Global;
use wf_folder::{NodeFile, NodeFound, NodeRejection};
use wf_peer::PeerProgress;
use wf_store::{FolderFault, Store};

/// Ends the suspension of the node of a folder, and forgets what was heard of its peers, what they
/// were accused of too: the folder's lock says that no process uses it. After an error a suspension
/// stays, unless the folder alone couldn't be synced.
#[tactic(auto, using(crate::proofs::Clearing::not_locked, crate::proofs::Clearing::locked_first))]
pub fn clear_folder<S: Store>(alloc: Global, store: &mut S) -> Result<(), CommandFault>
    ensures { IsClearDone (S.calls store.old) (S.calls store.new) result }
{
    match store.lock() {
        Ok(()) => clear_held(alloc, store),
        Err(fault) => Err(CommandFault::Folder(fault)),
    }
}

/// Clears a folder, which is locked.
#[tactic(auto, using(crate::proofs::Clearing::not_read, crate::proofs::Clearing::not_written, crate::proofs::Clearing::written))]
fn clear_held<S: Store>(alloc: Global, store: &mut S) -> Result<(), CommandFault>
    ensures cleared { OnOk result (IsCleared (S.calls store.old) (S.calls store.new)) }
    ensures left { OnErr result (IsUncleared (S.calls store.old) (S.calls store.new)) }
    ensures fault { IfErr result IsClearFault }
{
    let file = match file_in(store) {
        Ok(file) => file,
        Err(fault) => return Err(fault),
    };
    match write_cleared(alloc, store, &file) {
        Ok(()) => Ok(()),
        Err(fault) => Err(CommandFault::Folder(fault)),
    }
}

/// Writes the files of a folder with this file `farm`: what was heard first, so that a suspension
/// stays where that can't be written.
#[tactic(auto, using(crate::proofs::Clearing::not_heard, crate::proofs::Clearing::heard_alone, crate::proofs::Clearing::rewritten))]
fn write_cleared<S: Store>(alloc: Global, store: &mut S, file: &NodeFile) -> Result<(), FolderFault>
    requires { IsNodeFile file.now }
    ensures written { OnOk result (IsRewritten file.now (S.calls store.old) (S.calls store.new)) }
    ensures left { OnErr result (IsUnwritten file.now (S.calls store.old) (S.calls store.new)) }
{
    if let Err(fault) = write_heard(alloc, store, &PeerProgress::new()) {
        return Err(fault);
    }
    write_farm(alloc, store, &file.clear())
}

/// The node's file of a folder.
#[tactic(auto, using(crate::proofs::Clearing::is_read))]
fn file_in<S: Store>(store: &mut S) -> Result<NodeFile, CommandFault>
    ensures file { IfOk result (λ file.
        HasReadFarmFile file (S.calls store.old) (S.calls store.new)) }
    ensures reads { OnlyReads (S.calls store.old) (S.calls store.new) }
    ensures fault { IfErr result IsClearFault }
{
    match find_in(store) {
        Ok(NodeFound::File(file)) => Ok(file),
        Ok(NodeFound::Nothing) => Err(CommandFault::Rejected(NodeRejection::NoFile)),
        Ok(NodeFound::Bad(fault)) => { Err(CommandFault::Rejected(NodeRejection::BadFile(fault))) }
        Err(fault) => Err(CommandFault::Folder(fault)),
    }
}
