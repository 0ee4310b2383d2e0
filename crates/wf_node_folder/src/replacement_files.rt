//! The files of a node's folder about replacements.
ghost use Rattle.std.specs.Prelude.{◌↔◌, IfErr, IfOk, IfSome, IsTrue, Some, option_map};
ghost use Rattle.wf_node_folder.specs.ReplacementFiles.{AreFilesFound, IsJoinsFault, IsJoinsFound, IsJoinsIn, IsJoinsTextFault, IsOwnJoining, IsReplacedFault, IsReplacedFound, IsReplacementCause};
ghost use Rattle.wf_store.specs.Call.{OnlyReads};

use crate::fault::CommandFault;
use crate::replacement_fault::ReplacementFault;
use wf_folder::NodeFile;
use wf_peer_connections::Joiner;
use wf_rejoin::{Joining, Replacements};
use wf_store::{FileName, Store};

/// More bytes than a file `replaced` or `joins` has.
pub(crate) const MOST_BYTES: usize = 65_536;

/// What the files `replaced` and `joins` of a folder say.
#[derive(Clone, Copy)]
pub(crate) struct ReplacementFiles {
    /// The replacements that its node knows of.
    pub(crate) known: Replacements,
    /// The folder, if it joins: it doesn't vote yet.
    pub(crate) joining: Option<Joiner>,
}

/// What a folder with this file `farm` says of replacements. Without a file `replaced` its node
/// knows of none; without a file `joins`, or with an empty one, it doesn't join. A file that can't
/// be read as one is an error, and a file `joins` of another folder.
#[tactic(auto, using(wf_store::specs::CallTheorems::reads_both, crate::proofs::ReplacementFiles::cause_of_joins, crate::proofs::ReplacementFiles::cause_of_replaced))]
pub(crate) fn read_replacement_files<S: Store>(
    store: &mut S,
    file: &NodeFile,
) -> Result<ReplacementFiles, CommandFault>
    ensures found { IfOk result (λ files.
        AreFilesFound file.now files (S.calls store.old) (S.calls store.new)) }
    ensures reads { OnlyReads (S.calls store.old) (S.calls store.new) }
    ensures fault { IfErr result (IsReplacementCause file.now (S.calls store.new)) }
{
    let known = match read_replaced(store) {
        Ok(known) => known,
        Err(fault) => return Err(fault),
    };
    match read_joins(store, file) {
        Ok(joining) => Ok(ReplacementFiles { known, joining }),
        Err(fault) => Err(fault),
    }
}

/// The replacements that the file `replaced` says.
#[tactic(auto, using(crate::proofs::ReplacementFiles::replaced_bad))]
fn read_replaced<S: Store>(store: &mut S) -> Result<Replacements, CommandFault>
    ensures found { IfOk result (λ known.
        IsReplacedFound known (S.calls store.old) (S.calls store.new)) }
    ensures reads { OnlyReads (S.calls store.old) (S.calls store.new) }
    ensures fault { IfErr result (IsReplacedFault (S.calls store.new)) }
{
    match store.read(FileName::Replaced, MOST_BYTES) {
        Ok(Some(bytes)) => match Replacements::read(&bytes) {
            Ok(known) => Ok(known),
            Err(fault) => Err(CommandFault::Replacement(ReplacementFault::Replaced(fault))),
        },
        Ok(None) => Ok(Replacements::new()),
        Err(fault) => Err(CommandFault::Folder(fault)),
    }
}

/// The folder of this file `farm`, if it joins by its file `joins`.
#[tactic(auto, using(crate::proofs::ReplacementFiles::joins_bad))]
fn read_joins<S: Store>(store: &mut S, file: &NodeFile) -> Result<Option<Joiner>, CommandFault>
    ensures found { IfOk result (λ joining.
        IsJoinsFound file.now joining (S.calls store.old) (S.calls store.new)) }
    ensures reads { OnlyReads (S.calls store.old) (S.calls store.new) }
    ensures fault { IfErr result (IsJoinsFault file.now (S.calls store.new)) }
{
    match store.read(FileName::Joins, MOST_BYTES) {
        Ok(Some(bytes)) => match joiner_of(&bytes, file) {
            Ok(joining) => Ok(joining),
            Err(fault) => Err(CommandFault::Replacement(fault)),
        },
        Ok(None) => Ok(None),
        Err(fault) => Err(CommandFault::Folder(fault)),
    }
}

/// The folder of this file `farm`, if it joins by a file `joins` of these bytes.
#[tactic(auto, using(crate::proofs::ReplacementFiles::joins_by, crate::proofs::ReplacementFiles::no_joining, crate::proofs::ReplacementFiles::own_by))]
fn joiner_of(bytes: &[u8], file: &NodeFile) -> Result<Option<Joiner>, ReplacementFault>
    ensures read { IfOk result (λ joining.
        IsJoinsIn (Some bytes.now) (option_map (λ joiner. joiner.joining) joining)) }
    ensures own { IfOk result (λ joining.
        IfSome joining (λ joiner. IsOwnJoining file.now joiner.joining)) }
    ensures fault { IfErr result (IsJoinsTextFault file.now bytes.now) }
{
    if bytes.is_empty() {
        return Ok(None);
    }
    match Joining::read(bytes) {
        Ok(joining) if is_own(&joining, file) => Ok(Some(Joiner::new(joining))),
        Ok(_) => Err(ReplacementFault::OtherFolder),
        Err(fault) => Err(ReplacementFault::Joins(fault)),
    }
}

/// Whether a folder that joins is that of this file `farm`.
fn is_own(joining: &Joining, file: &NodeFile) -> bool
    ensures { IsTrue result ↔ IsOwnJoining file.now joining.now }
{
    joining.node.number() == file.node
        && joining.nodes == file.nodes
        && joining.replacement.mark == file.mark
}
