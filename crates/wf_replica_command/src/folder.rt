//! The file `farm` of a replica's folder.
ghost use Rattle.std.specs.Prelude.{◌≡◌, ◌⊎◌, ◌∷◌, IfErr, OnErr, OnOk};
ghost use Rattle.wf_replica.specs.FarmFile.{replica_text};
ghost use Rattle.wf_replica_command.specs.Start.{IsClaimed, IsReplicaFolderCause, IsOtherText, IsUnclaimed, IsWhyUnmadeText, IsWhyUnwrittenText};
ghost use Rattle.wf_store.specs.declared.file_name.FileName.TheVariants.{Farm};
ghost use Rattle.wf_store.specs.Call.{OnlyReads, counted, replaced, unreplaced};

use crate::fault::ReplicaFault;
use std::alloc::Global;
use wf_folder::{FarmName, after};
use wf_replica::replica_text;
use wf_store::{FileName, Store};

/// More bytes than a replica's file `farm` has.
const MOST_FILE_BYTES: usize = 512;

/// The lines that a replica's file `farm` begins with.
const FIRST_LINE: &[u8] = b"wfarm folder 1\n";

const KIND_LINE: &[u8] = b"kind replica\n";

/// Makes sure that a folder is that of a replica of this farm: its file `farm` says so, or the
/// folder is empty, and gets such a file.
#[tactic(auto, using(crate::proofs::Starting::claimed_anew, crate::proofs::Starting::unclaimed_anew, crate::proofs::Starting::unclaimed_on, crate::proofs::Starting::other_found, crate::proofs::Starting::unmade_there))]
pub(crate) fn claim<S: Store>(
    alloc: Global,
    store: &mut S,
    farm: &FarmName,
) -> Result<(), ReplicaFault>
    ensures claimed { OnOk result (IsClaimed (replica_text farm.now) (S.calls store.old)
        (S.calls store.new)) }
    ensures unclaimed { OnErr result
        (IsUnclaimed (replica_text farm.now) (S.calls store.old) (S.calls store.new)) }
    ensures cause { IfErr result (IsReplicaFolderCause (replica_text farm.now) (S.calls store.old)
        (S.calls store.new)) }
{
    match store.read(FileName::Farm, MOST_FILE_BYTES) {
        Ok(Some(bytes)) => judge(alloc, &bytes, farm),
        Ok(None) => make(alloc, store, farm),
        Err(fault) => Err(ReplicaFault::Folder(fault)),
    }
}

/// Whether these bytes are the file of a replica of this farm.
fn judge(alloc: Global, bytes: &[u8], farm: &FarmName) -> Result<(), ReplicaFault>
    ensures ours { OnOk result (bytes.now ≡ replica_text farm.now) }
    ensures other { IfErr result (IsOtherText (replica_text farm.now) bytes.now) }
{
    let text = replica_text(alloc, farm)?;
    if text.as_slice() == bytes {
        return Ok(());
    }
    drop(text);
    let Some(rest) = after(bytes, FIRST_LINE) else {
        return Err(ReplicaFault::Version);
    };
    match after(rest, KIND_LINE) {
        Some(_) => Err(ReplicaFault::OtherFarm),
        None => Err(ReplicaFault::Kind),
    }
}

/// Makes the file of a replica of this farm in an empty folder.
#[tactic(auto, using(crate::proofs::Starting::unwritten_there))]
fn make<S: Store>(alloc: Global, store: &mut S, farm: &FarmName) -> Result<(), ReplicaFault>
    ensures made { OnOk result
        (S.calls store.new ≡ replaced Farm (replica_text farm.now) ∷ counted 0 ∷ S.calls store.old) }
    ensures unmade { OnErr result (OnlyReads (S.calls store.old) (S.calls store.new)
        ⊎ (S.calls store.new ≡
        unreplaced Farm (replica_text farm.now) ∷ counted 0 ∷ S.calls store.old)) }
    ensures cause { IfErr result (IsWhyUnmadeText (replica_text farm.now) (S.calls store.old)
        (S.calls store.new)) }
{
    match store.count_names() {
        Ok(0) => write(alloc, store, farm),
        Ok(_) => Err(ReplicaFault::NotEmpty),
        Err(fault) => Err(ReplicaFault::Folder(fault)),
    }
}

/// Writes the file of a replica of this farm.
fn write<S: Store>(alloc: Global, store: &mut S, farm: &FarmName) -> Result<(), ReplicaFault>
    ensures written { OnOk result
        (S.calls store.new ≡ replaced Farm (replica_text farm.now) ∷ S.calls store.old) }
    ensures unwritten { OnErr result ((S.calls store.new ≡ S.calls store.old)
        ⊎ (S.calls store.new ≡ unreplaced Farm (replica_text farm.now) ∷ S.calls store.old)) }
    ensures cause { IfErr result (IsWhyUnwrittenText (replica_text farm.now) (S.calls store.old)
        (S.calls store.new)) }
{
    let text = replica_text(alloc, farm)?;
    match store.replace(FileName::Farm, text) {
        Ok(()) => Ok(()),
        Err(fault) => Err(ReplicaFault::Folder(fault)),
    }
}
