//! What is in a farm's folder: its file `farm`, and its tapes.
ghost use Rattle.std.specs.Prelude.{◌≡◌, Some, length, IfErr, IfOk};
ghost use Rattle.wf_folder.specs.declared.presence.Presence.TheVariants.{Absent};
ghost use Rattle.wf_serve.specs.FailedCall.{IsWhyUnsurveyed};
ghost use Rattle.wf_serve.specs.Start.{HasFound, IsFarmFileFound, IsSurveyed, looks};
ghost use Rattle.wf_store.specs.Call.{OnlyReads};

use wf_ballot::NODES;
use wf_folder::{FarmFile, FoundFile, Presence};
use wf_store::{FileName, FolderFault, Store};

/// More bytes than a file `farm` has.
const MOST_FILE_BYTES: usize = 256;

/// What is in a folder.
#[derive(Clone, Copy)]
pub struct Survey {
    /// Its file `farm`.
    pub found: FoundFile,
    /// The tape of each node that a farm may have, that of node i at index i.
    pub tapes: [Presence; 64],
}

/// Looks what is in a folder, and changes nothing. Err: the system doesn't say, or an allocation
/// fails.
#[tactic(auto, using(crate::proofs::Surveyed::surveyed, wf_store::specs::CallTheorems::reads_both))]
pub fn inspect<S: Store>(store: &mut S) -> Result<Survey, FolderFault>
    ensures surveyed { IfOk result
        (λ survey. IsSurveyed survey (S.calls store.old) (S.calls store.new)) }
    ensures size { IfOk result (λ survey. length survey.tapes ≡ 64) }
    ensures reads { OnlyReads (S.calls store.old) (S.calls store.new) }
    ensures cause { IfErr result
        (λ why. IsWhyUnsurveyed why (S.calls store.old) (S.calls store.new)) }
{
    match find_farm(store) {
        Ok(found) => match look_for_tapes(store) {
            Ok(tapes) => Ok(Survey { found, tapes }),
            Err(fault) => Err(fault),
        },
        Err(fault) => Err(fault),
    }
}

/// Whether each tape that a farm may have is there.
#[tactic(auto, using(wf_store::specs::CallTheorems::reads_both))]
fn look_for_tapes<S: Store>(store: &mut S) -> Result<[Presence; 64], FolderFault>
    ensures seen { IfOk result
        (λ tapes. S.calls store.new ≡ looks tapes 64 (S.calls store.old)) }
    ensures size { IfOk result (λ tapes. length tapes ≡ 64) }
    ensures reads { OnlyReads (S.calls store.old) (S.calls store.new) }
    ensures cause { IfErr result
        (λ why. IsWhyUnsurveyed why (S.calls store.old) (S.calls store.new)) }
{
    let mut tapes = [Presence::Absent; 64];
    for number in 0..NODES {
        match store.presence(FileName::NodeTape(number)) {
            Ok(there) => tapes[number as usize] = there,
            Err(fault) => return Err(fault),
        }
    }
    Ok(tapes)
}

/// What the file `farm` says, if it is there.
#[tactic(auto, using(crate::proofs::Surveyed::none_found, crate::proofs::Surveyed::one_found, crate::proofs::Surveyed::unread))]
fn find_farm<S: Store>(store: &mut S) -> Result<FoundFile, FolderFault>
    ensures found { IfOk result (λ found. HasFound found (S.calls store.old) (S.calls store.new)) }
    ensures reads { OnlyReads (S.calls store.old) (S.calls store.new) }
    ensures cause { IfErr result
        (λ why. IsWhyUnsurveyed why (S.calls store.old) (S.calls store.new)) }
{
    match store.read(FileName::Farm, MOST_FILE_BYTES) {
        Ok(None) => Ok(FoundFile::Nothing),
        Ok(Some(bytes)) => {
            let found = classify_file(&bytes);
            drop(bytes);
            Ok(found)
        }
        Err(fault) => Err(fault),
    }
}

/// What a file with these bytes says.
fn classify_file(bytes: &[u8]) -> FoundFile
    ensures { IsFarmFileFound (Some bytes.now) result }
{
    match FarmFile::read(bytes) {
        Ok(file) => FoundFile::File(file),
        Err(fault) => FoundFile::Bad(fault),
    }
}
