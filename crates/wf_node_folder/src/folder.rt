//! The files of a node's folder that say how far it is, and what it heard.
ghost use Rattle.std.specs.Prelude.{◌≡◌, ◌⊎◌, ◌∷◌, Some, IfErr, IfOk, OnErr, OnOk};
ghost use Rattle.wf_folder.specs.NodeAdmission.{IsSoundFind};
ghost use Rattle.wf_folder.specs.NodeFile.{IsNodeFile, node_text};
ghost use Rattle.wf_node_folder.specs.Fault.{IsWhyUnheard};
ghost use Rattle.wf_node_folder.specs.Folder.{IsFarmFound, IsFoundIn, IsHeardFound};
ghost use Rattle.wf_peer.specs.PeerProgressText.{peer_progress_text};
ghost use Rattle.wf_store.specs.Call.{OnlyReads, failed, replaced, unreplaced};
ghost use Rattle.wf_store.specs.Fault.{IsWhyUnread, IsWhyUnwritten};
ghost use Rattle.wf_store.specs.declared.file_name.FileName.TheVariants as names;

use crate::fault::CommandFault;
use std::alloc::Global;
use wf_folder::{NodeFile, NodeFound};
use wf_peer::PeerProgress;
use wf_store::{FileName, FolderFault, Store};

/// More bytes than a node's file `farm` has.
pub(crate) const MOST_FILE_BYTES: usize = 512;

/// More bytes than a file `heard` has.
const MOST_PEER_PROGRESS_BYTES: usize = 65_536;

/// The file `farm` of a folder.
pub(crate) fn find_in<S: Store>(store: &mut S) -> Result<NodeFound, FolderFault>
    ensures found { IfOk result (λ found.
        IsFarmFound found (S.calls store.old) (S.calls store.new)) }
    ensures unread { OnErr result (S.calls store.new ≡ failed ∷ S.calls store.old) }
    ensures reads { OnlyReads (S.calls store.old) (S.calls store.new) }
    ensures sound { IfOk result IsSoundFind }
    ensures cause { IfErr result (IsWhyUnread names.Farm) }
{
    match store.read(FileName::Farm, MOST_FILE_BYTES) {
        Ok(Some(bytes)) => Ok(found_in(&bytes)),
        Ok(None) => Ok(NodeFound::Nothing),
        Err(fault) => Err(fault),
    }
}

/// What these bytes of a file `farm` say.
fn found_in(bytes: &[u8]) -> NodeFound
    ensures found { IsFoundIn (Some bytes.now) result }
    ensures sound { IsSoundFind result }
{
    match NodeFile::read(bytes) {
        Ok(file) => NodeFound::File(file),
        Err(fault) => NodeFound::Bad(fault),
    }
}

/// What was heard of the peers before, by the file `heard` of a folder: nothing if there is none. A
/// file that can't be read as one is an error.
#[tactic(auto, using(crate::proofs::Found::heard_bad))]
pub(crate) fn read_peer_progress<S: Store>(store: &mut S) -> Result<PeerProgress, CommandFault>
    ensures known { IfOk result (λ known.
        IsHeardFound known (S.calls store.old) (S.calls store.new)) }
    ensures reads { OnlyReads (S.calls store.old) (S.calls store.new) }
    ensures fault { IfErr result (IsWhyUnheard (S.calls store.new)) }
{
    match store.read(FileName::Heard, MOST_PEER_PROGRESS_BYTES) {
        Ok(Some(bytes)) => match PeerProgress::read(&bytes) {
            Ok(known) => Ok(known),
            Err(fault) => Err(CommandFault::PeerProgress(fault)),
        },
        Ok(None) => Ok(PeerProgress::new()),
        Err(fault) => Err(CommandFault::Folder(fault)),
    }
}

/// Puts a file `farm` in the place of the one that is there, synced with the folder. Err:
/// `Unwritten`, and either may be there; or `Memory`.
pub(crate) fn write_farm<S: Store>(
    alloc: Global,
    store: &mut S,
    file: &NodeFile,
) -> Result<(), FolderFault>
    requires { IsNodeFile file.now }
    ensures written { OnOk result
        (S.calls store.new ≡ replaced names.Farm (node_text file.now) ∷ S.calls store.old) }
    ensures unwritten { OnErr result ((S.calls store.new ≡ S.calls store.old)
        ⊎ (S.calls store.new ≡ unreplaced names.Farm (node_text file.now) ∷ S.calls store.old)) }
    ensures cause { IfErr result (IsWhyUnwritten names.Farm) }
{
    match file.text(alloc) {
        Ok(text) => store.replace(FileName::Farm, text),
        Err(_) => Err(FolderFault::Memory),
    }
}

/// Puts a file `heard` in the place of the one that is there, synced with the folder. Err:
/// `Unwritten`, and either may be there; or `Memory`.
pub(crate) fn write_heard<S: Store>(
    alloc: Global,
    store: &mut S,
    heard: &PeerProgress,
) -> Result<(), FolderFault>
    ensures written { OnOk result
        (S.calls store.new ≡ replaced names.Heard (peer_progress_text heard.now) ∷ S.calls store.old) }
    ensures unwritten { OnErr result ((S.calls store.new ≡ S.calls store.old)
        ⊎ (S.calls store.new ≡
        unreplaced names.Heard (peer_progress_text heard.now) ∷ S.calls store.old)) }
    ensures cause { IfErr result (IsWhyUnwritten names.Heard) }
{
    match heard.text(alloc) {
        Ok(text) => store.replace(FileName::Heard, text),
        Err(_) => Err(FolderFault::Memory),
    }
}
