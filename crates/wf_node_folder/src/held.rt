//! The folder of a node, as its process has locked it: there a tape that failed is opened again,
//! and is written how far the node is, and what it heard.
ghost use Rattle.std.specs.Prelude.{◌≡◌, ◌≤◌, ◌+◌, ◌↔◌, ◌⊎◌, ◌∷◌, IfErr, IfOk, IfSome, IsTrue, None, OnOk, Option, Some};
ghost use Rattle.wf_folder.specs.NodeFile.{IsNodeFile, last_start, node_text};
ghost use Rattle.wf_folder.specs.Reach.{IsReachNoLess};
ghost use Rattle.wf_folder.specs.declared.node_file.NodeFile.{NodeFile as NodeFileValue};
ghost use Rattle.wf_membership.specs.declared.folder_error.FolderError.TheVariants.{Store};
ghost use Rattle.wf_node_folder.specs.Cause.{IsOwn, IsOwnFound, uncounted_of};
ghost use Rattle.wf_node_folder.specs.FarmPut.{HasPut, IsOwnFarm, IsPutBetween, WasPut, latest_of, published_in};
ghost use Rattle.wf_node_folder.specs.Folder.{AreFiles, StaysFrom, calls_in, heard_in, is_own};
ghost use Rattle.wf_node_folder.specs.Joined.{SaysPublished};
ghost use Rattle.wf_node_folder.specs.NodeFileTheorems.{are_files_prop, put_between_prop};
ghost use Rattle.wf_store.specs.Call.{IsAfter, read};
ghost use Rattle.wf_store.specs.declared.fault.FolderFault.TheVariants.{Memory, Unwritten};
ghost use Rattle.wf_store.specs.declared.file_name.FileName.TheVariants as names;
ghost use Rattle.wf_voter.specs.Cause.{IsCausedBy, IsWhyFarmUnwritten};
ghost use Rattle.wf_voter.specs.Folder.{HasFarmText};

use crate::folder::MOST_FILE_BYTES;
use crate::running::{RunningStore, not_reopened};
use std::alloc::Global;
use std::io::ErrorKind;
use wf_folder::{NodeFile, Reach, Suspension, is_no_lower, is_no_lower_vote};
use wf_membership::FolderError;
use wf_peer::PeerProgress;
use wf_rejoin::{JoinStep, Replacements};
use wf_store::{FileName, FolderFault, Store};
use wf_voter::{NodeFolder, NotReopened};

/// The folder of a node, as its process has locked it, with the file `farm` that the process wrote
/// last.
pub struct HeldFolder<S: Store> {
    alloc: Global,
    running: RunningStore<S>,
    // the number of the last start that was counted
    starts: u32,
    // the file that was written last
    file: NodeFile,
    // what may be there in its place: writing it failed
    attempted: Option<NodeFile>,
    ghost sound: { AreFiles file attempted } by { are_files_prop file attempted },
    ghost put: { IsPutBetween file attempted (S.calls running.store) } by { put_between_prop file attempted (S.calls running.store) },
}

impl<S: Store> HeldFolder<S> {
    /// The folder that is locked, with the file that was written at this start.
    #[tactic(auto, using(crate::proofs::FarmPut::put_first))]
    pub fn new(alloc: Global, store: S, file: NodeFile) -> Self
        requires file { IsNodeFile file }
        requires put { HasPut file (S.calls store) }
        ensures began { calls_in S.calls result.running.began.items ≡ S.calls store }
        ensures same { S.calls result.running.store ≡ S.calls store }
        ensures file { result.file ≡ file }
        ensures starts { result.starts ≡ file.starts }
        ensures attempted { result.attempted ≡ None }
    {
        HeldFolder {
            alloc,
            running: RunningStore::new(store),
            starts: file.starts,
            file,
            attempted: None,
        }
    }

    /// The folder, once the node isn't served any more.
    pub fn close(self) -> S
        ensures stays { ∥ StaysFrom (calls_in S.calls self.running.began.items)
            (S.calls result) ∥₁ }
        ensures same { S.calls result ≡ S.calls self.running.store }
    {
        let HeldFolder {
            alloc: _,
            running,
            starts: _,
            file: _,
            attempted: _,
        } = self;
        running.close()
    }

    /// Which of the files that this process wrote is there: the last one, or a later one whose
    /// writing failed. None: another file `farm`, or none.
    #[tactic(auto, using(crate::proofs::FarmPut::put_still, crate::proofs::FarmPut::own_there, crate::proofs::Joined::says_there, crate::proofs::Causes::own_found, crate::proofs::Causes::no_farm, crate::proofs::Causes::neither))]
    fn find_own(&mut self) -> Result<Option<NodeFile>, FolderFault>
        ensures starts { self.new.starts ≡ self.old.starts }
        ensures last { self.new.file ≡ self.old.file }
        ensures attempted { self.new.attempted ≡ self.old.attempted }
        ensures own { is_own (S.calls self.new.running.store) ≡
            is_own (S.calls self.old.running.store) }
        ensures began { self.new.running.began.items ≡ self.old.running.began.items }
        ensures heard { heard_in (S.calls self.new.running.store) ≡
            heard_in (S.calls self.old.running.store) }
        ensures after { IsAfter (S.calls self.old.running.store) (S.calls self.new.running.store) }
        ensures found { IfOk result (λ found. IsOwnFound found self.old.file self.old.attempted
            (S.calls self.old.running.store) (S.calls self.new.running.store)) }
        ensures farm { IfOk result (λ found. IfSome found (λ there.
            IsOwnFarm (S.calls self.new.running.store))) }
        ensures put { IfOk result (λ found. IfSome found (λ there.
            WasPut (node_text there) (S.calls self.new.running.store))) }
        ensures says { IfOk result (λ found. IfSome found (λ there.
            SaysPublished (published_in there) (S.calls self.new.running.store))) }
        ensures err { IfErr result (λ fault. IsCausedBy (Store fault)
            (S.calls self.old.running.store) (S.calls self.new.running.store)) }
    {
        let text = match self.running.read(FileName::Farm, MOST_FILE_BYTES) {
            Ok(Some(text)) => text,
            Ok(None) => return Ok(None),
            Err(fault) => return Err(fault),
        };
        own_of(self.alloc, &self.file, self.attempted, &text)
    }

    /// The file that says most: the one whose writing failed, if there is one.
    fn latest(&self) -> NodeFile
        ensures file { IsNodeFile result }
        ensures is { result ≡ latest_of self.now.file self.now.attempted }
    {
        match self.attempted {
            Some(attempted) => attempted,
            None => self.file,
        }
    }

    /// The file of the next start. None: there can be no further one.
    fn next_start(&self) -> Option<NodeFile>
        ensures none { result ≡ None → last_start ≤ self.now.starts }
        ensures file { IfSome result IsNodeFile }
        ensures starts { IfSome result (λ file. file.starts ≡ self.now.starts + 1) }
        ensures published { IfSome result (λ file.
            published_in (latest_of self.now.file self.now.attempted) ≤ published_in file) }
    {
        let latest = self.latest();
        with_starts(&latest, self.starts).next_start()
    }

    /// Which file is there after a failed writing, so that no more than two can be.
    #[tactic(auto, using(crate::proofs::FarmPut::no_more_there, crate::proofs::FarmPut::is_file_there, crate::proofs::Causes::unwritten_unread, crate::proofs::Causes::unwritten_other, crate::proofs::Causes::unwritten_call, crate::proofs::Causes::after_same))]
    fn settle(&mut self) -> Result<NodeFile, FolderError>
        ensures file { IfOk result IsNodeFile }
        ensures there { IfOk result (λ there. published_in there ≤
            published_in (latest_of self.old.file self.old.attempted)) }
        ensures put { IfOk result (λ there.
            WasPut (node_text there) (S.calls self.new.running.store)) }
        ensures read { IfOk result (λ there. (self.old.attempted ≡ None)
            ⊎ (S.calls self.new.running.store ≡
            read names.Farm (Some (node_text there)) ∷ S.calls self.old.running.store)) }
        ensures last { self.new.file ≡ self.old.file }
        ensures attempted { self.new.attempted ≡ self.old.attempted }
        ensures starts { self.new.starts ≡ self.old.starts }
        ensures own { is_own (S.calls self.new.running.store) ≡
            is_own (S.calls self.old.running.store) }
        ensures began { self.new.running.began.items ≡ self.old.running.began.items }
        ensures heard { heard_in (S.calls self.new.running.store) ≡
            heard_in (S.calls self.old.running.store) }
        ensures after { IsAfter (S.calls self.old.running.store) (S.calls self.new.running.store) }
        ensures err { IfErr result (λ error.
            IsWhyFarmUnwritten error self.old.file self.old.attempted
            (S.calls self.old.running.store) (S.calls self.new.running.store)) }
    {
        if self.attempted.is_none() {
            return Ok(self.file);
        }
        match self.find_own() {
            Ok(Some(there)) => Ok(there),
            Ok(None) => Err(unwritten(ErrorKind::InvalidData)),
            Err(FolderFault::Unread(_, kind)) => Err(unwritten(kind)),
            Err(fault) => Err(FolderError::Store(fault)),
        }
    }

    /// Writes another file `farm`, synced, with the folder: only into the folder that is locked.
    /// After an error either may be there.
    #[tactic(auto, using(crate::proofs::Put::farm_put, crate::proofs::FarmPut::put_still, crate::proofs::FarmPut::may_be_raised, crate::proofs::Causes::unwritten_call, crate::proofs::Causes::unwritten_later, crate::proofs::Causes::unwritten_then, wf_store::specs::CallTheorems::after_both))]
    fn write(&mut self, next: &NodeFile) -> Result<(), FolderError>
        requires file { IsNodeFile next.now }
        requires no_less { published_in (latest_of self.old.file self.old.attempted) ≤
            published_in next.now }
        ensures starts { self.new.starts ≡ self.old.starts }
        ensures file { OnOk result (self.new.file ≡ next.now) }
        ensures written { OnOk result
            (HasFarmText self.new.file (S.calls self.new.running.store)) }
        ensures began { self.new.running.began.items ≡ self.old.running.began.items }
        ensures heard { heard_in (S.calls self.new.running.store) ≡
            heard_in (S.calls self.old.running.store) }
        ensures err { IfErr result (λ error.
            IsWhyFarmUnwritten error self.old.file self.old.attempted
            (S.calls self.old.running.store) (S.calls self.new.running.store)) }
    {
        if let Err(error) = self.running.examine() {
            return Err(error);
        }
        let there = match self.settle() {
            Ok(there) => there,
            Err(error) => return Err(error),
        };
        let Ok(text) = next.text(self.alloc) else {
            return Err(FolderError::Store(FolderFault::Memory));
        };
        let HeldFolder {
            running,
            file,
            attempted,
            ..
        } = self;
        match running.replace(FileName::Farm, text) {
            Ok(()) => {
                *file = *next;
                *attempted = None;
                Ok(())
            }
            Err(error) => {
                *file = there;
                *attempted = Some(*next);
                Err(error)
            }
        }
    }
}

impl<S: Store> NodeFolder<S::Tape> for HeldFolder<S> {
    ghost stands = { λ held. record { starts = held.starts; begun = calls_in S.calls held.running.began.items; heard = heard_in (S.calls held.running.store) } };

    ghost calls = { λ held. S.calls held.running.store };

    ghost farm = { λ held. held.file };

    ghost attempted = { λ held. held.attempted };

    #[tactic(auto, using(crate::proofs::FarmPut::put_still, crate::proofs::Causes::halted_why, crate::proofs::Causes::other_then))]
    fn open(&mut self) -> Result<S::Tape, NotReopened> {
        let node = self.file.node;
        if let Err(error) = self.running.examine() {
            return Err(not_reopened(error));
        }
        match self.find_own() {
            Ok(Some(_)) => {}
            Ok(None) => return Err(NotReopened::OtherFarm),
            Err(fault) => return Err(not_reopened(FolderError::Store(fault))),
        }
        self.running.open_tape(node)
    }

    #[tactic(auto, using(crate::proofs::Causes::not_counted_why))]
    fn count_start(&mut self) -> Result<u32, NotReopened> {
        let Some(next) = self.next_start() else {
            return Err(NotReopened::NoFurtherStart);
        };
        match self.write(&next) {
            Ok(()) => {
                self.starts = next.starts;
                Ok(next.starts)
            }
            Err(error) => Err(not_counted(error)),
        }
    }

    #[tactic(auto, using(crate::proofs::Put::reach_written, crate::proofs::Put::written_now))]
    fn keep(&mut self, reach: &Reach, digest: [u8; 32]) -> Result<(), FolderError> {
        if self.attempted.is_none() && says(&self.file, reach) {
            return Ok(());
        }
        let latest = self.latest();
        let next = latest.raise(reach, digest);
        self.write(&next)
    }

    #[tactic(auto, using(crate::proofs::Put::suspended_by, crate::proofs::FarmPut::suspended_no_less))]
    fn suspend(&mut self, suspension: Suspension) -> Result<(), FolderError> {
        let latest = self.latest();
        let next = latest.suspend(suspension);
        self.write(&next)
    }

    #[tactic(auto, using(crate::proofs::FarmPut::put_still))]
    fn keep_heard(&mut self, heard: &PeerProgress) -> Result<(), FolderError> {
        if let Err(error) = self.running.examine() {
            return Err(error);
        }
        match heard.text(self.alloc) {
            Ok(text) => self.running.replace(FileName::Heard, text),
            Err(_) => Err(FolderError::Store(FolderFault::Memory)),
        }
    }

    #[tactic(auto, using(crate::proofs::Put::replaced_put, crate::proofs::Put::replaced_or_not, crate::proofs::Put::not_replaced, crate::proofs::FarmPut::put_still))]
    fn keep_replaced(&mut self, known: &Replacements) -> Result<(), FolderError> {
        if let Err(error) = self.running.examine() {
            return Err(error);
        }
        match known.text(self.alloc) {
            Ok(text) => self.running.replace(FileName::Replaced, text),
            Err(_) => Err(FolderError::Store(FolderFault::Memory)),
        }
    }

    #[tactic(auto, using(crate::proofs::FarmPut::put_still, crate::proofs::Causes::by_read))]
    fn keep_joining(&mut self, step: &JoinStep) -> Result<(), FolderError> {
        if let Err(error) = self.running.examine() {
            return Err(error);
        }
        self.running.tell_joining(self.alloc, step)
    }

    #[tactic(auto, using(crate::proofs::FarmPut::put_still, crate::proofs::FarmPut::put_at_least, crate::proofs::FarmPut::last_there, crate::proofs::Causes::joining_call, crate::proofs::Causes::joining_beside))]
    fn finish_joining(&mut self) -> Result<(), FolderError> {
        if let Err(error) = self.running.examine() {
            return Err(error);
        }
        let found = match self.find_own() {
            Ok(found) => found,
            Err(fault) => return Err(FolderError::Store(fault)),
        };
        let published = match found {
            Some(there) if self.attempted.is_none() => there.known.reach.published,
            _ => return Err(unwritten(ErrorKind::InvalidData)),
        };
        self.running.finish_joining(self.alloc, published)
    }
}

/// Whether a file says that its node was no less far.
#[tactic(auto, using(crate::proofs::Put::no_less))]
fn says(file: &NodeFile, reach: &Reach) -> bool
    ensures { IsTrue result ↔ IsReachNoLess reach.now file.now.known.reach }
{
    let known = &file.known.reach;
    if known.round < reach.round || known.published.number() < reach.published.number() {
        return false;
    }
    is_no_lower(reach.promise, known.promise) && is_no_lower_vote(reach.vote, known.vote)
}

/// The one of these files whose text that is. None: it is that of neither.
fn own_of(
    alloc: Global,
    file: &NodeFile,
    attempted: Option<NodeFile>,
    text: &[u8],
) -> Result<Option<NodeFile>, FolderFault>
    requires { AreFiles file.now attempted }
    ensures found { IfOk result (λ found. IfSome found (λ there.
        IsOwn there file.now attempted × (text.now ≡ node_text there))) }
    ensures last { IfOk result (λ found. found ≡ None → ¬ (text.now ≡ node_text file.now)) }
    ensures attempted { IfOk result (λ found. found ≡ None → (tried : NodeFileValue) →
        attempted ≡ Some tried → ¬ (text.now ≡ node_text tried)) }
    ensures err { IfErr result (λ fault. fault ≡ Memory) }
{
    if is_text_of(alloc, file, text)? {
        return Ok(Some(*file));
    }
    let Some(attempted) = attempted else {
        return Ok(None);
    };
    if is_text_of(alloc, &attempted, text)? {
        Ok(Some(attempted))
    } else {
        Ok(None)
    }
}

/// Whether that is the text of a file. Err: `Memory`.
fn is_text_of(alloc: Global, file: &NodeFile, text: &[u8]) -> Result<bool, FolderFault>
    requires { IsNodeFile file.now }
    ensures is { IfOk result (λ is. IsTrue is ↔ (text.now ≡ node_text file.now)) }
    ensures err { IfErr result (λ fault. fault ≡ Memory) }
{
    match file.text(alloc) {
        Ok(own) => Ok(own.as_slice() == text),
        Err(_) => Err(FolderFault::Memory),
    }
}

/// A file that counts so many starts.
#[tactic(auto, using(crate::specs::NodeFileTheorems::with_starts))]
fn with_starts(file: &NodeFile, starts: u32) -> NodeFile
    requires { IsNodeFile file.now }
    ensures file { IsNodeFile result }
    ensures starts { result.starts ≡ starts }
    ensures known { result.known ≡ file.now.known }
{
    NodeFile { starts, ..*file }
}

/// The file `farm` can't be written.
fn unwritten(kind: ErrorKind) -> FolderError
    ensures { result ≡ Store (Unwritten names.Farm kind) }
{
    FolderError::Store(FolderFault::Unwritten(FileName::Farm, kind))
}

/// Why a start isn't counted, by the error of the folder.
fn not_counted(error: FolderError) -> NotReopened
    ensures { result ≡ uncounted_of error }
{
    match error {
        FolderError::Store(FolderFault::Unwritten(_, kind)) => NotReopened::Uncounted(kind),
        error => not_reopened(error),
    }
}
