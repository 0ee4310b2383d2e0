//! The folder of a node while it is served.
ghost use Rattle.std.specs.Prelude.{◌≡◌, ◌∷◌, ◌⊎◌, ℕ, false, true, [], IfErr, IfOk, IfSome, None, OnErr, OnOk, Some};
ghost use Rattle.std.specs.declared.io.ErrorKind.TheVariants.{InvalidData};
ghost use Rattle.wf_folder.specs.declared.presence.Presence.TheVariants as presences;
ghost use Rattle.wf_membership.specs.declared.folder_error.FolderError.TheVariants.{Store};
ghost use Rattle.wf_node_folder.specs.Cause.{IsWhyNotJoined, IsWhyTapeUnopened, ShowsJoining, why_of};
ghost use Rattle.wf_node_folder.specs.FarmPut.{IsOwnFarm, IsPublishedPut, NothingPut, farm_in, farms_put};
ghost use Rattle.wf_node_folder.specs.Folder.{StaysFrom, calls_in, heard_in, is_own};
ghost use Rattle.wf_node_folder.specs.Joined.{MayBePutAt, SaysJoining, SaysPublished};
ghost use Rattle.wf_rejoin.specs.JoiningText.{IsJoins, joins_text};
ghost use Rattle.wf_rejoin.specs.declared.joining.Joining.{Joining as JoiningValue};
ghost use Rattle.wf_store.specs.Call.{IsAfter, bytes_of, read, seen};
ghost use Rattle.wf_store.specs.Texts.{IsTextPut, MayBeIn, TextsStay, is_farm, is_heard, is_tape};
ghost use Rattle.wf_store.specs.declared.fault.FolderFault.TheVariants.{Unread};
ghost use Rattle.wf_store.specs.declared.file_name.FileName.TheVariants as names;
ghost use Rattle.wf_voter.specs.Cause.{EndsWith, IsCausedBy, IsWhyUntold, ShowsNoJoining};
ghost use Rattle.wf_voter.specs.Folder.{IsTold, JoinsNoMore};

use crate::replacement_files::MOST_BYTES;
use std::alloc::Global;
use std::io::ErrorKind;
use wf_ballot::Seq;
use wf_membership::FolderError;
use wf_past::Past;
use wf_rejoin::{JoinStep, Joining};
use wf_store::{FileName, FolderFault, Store};
use wf_voter::NotReopened;

/// The folder of a node while it is served. A clause sees the folder as it was when that began,
/// which only proofs read. The calls that came later made no tape, and put none in the place of
/// another; and only the folder that is locked is written to.
pub(crate) struct RunningStore<S: Store> {
    store: S,
    pub(crate) began: Past<S, usize>,
    ghost stays: { ∥ StaysFrom (calls_in S.calls began.items) (S.calls store) ∥₁ },
}

impl<S: Store> RunningStore<S> {
    /// The folder as a start left it.
    #[tactic(auto, using(crate::proofs::Stays::stays_still))]
    pub(crate) fn new(store: S) -> Self
        ensures began { calls_in S.calls result.began.items ≡ S.calls store }
        ensures same { S.calls result.store ≡ S.calls store }
    {
        let began = Past::new().and(&store, &0);
        RunningStore { store, began }
    }

    /// The folder, once the node isn't served any more.
    pub(crate) fn close(self) -> S
        ensures stays { ∥ StaysFrom (calls_in S.calls self.began.items) (S.calls result) ∥₁ }
        ensures same { S.calls result ≡ S.calls self.store }
    {
        let RunningStore { store, began } = self;
        drop(began);
        store
    }

    /// Whether the folder at its path is the one that is locked.
    #[tactic(auto, using(crate::proofs::Stays::own_compared, crate::proofs::Stays::texts_comparing, crate::proofs::FarmPut::farm_comparing, crate::proofs::Causes::after_reading, crate::proofs::Causes::other_folder, crate::proofs::Causes::no_folder))]
    pub(crate) fn examine(&mut self) -> Result<(), FolderError>
        ensures began { self.new.began.items ≡ self.old.began.items }
        ensures own { OnOk result (is_own (S.calls self.new.store) ≡ true) }
        ensures texts { TextsStay (S.calls self.old.store) (S.calls self.new.store) }
        ensures heard { heard_in (S.calls self.new.store) ≡ heard_in (S.calls self.old.store) }
        ensures farm { NothingPut (S.calls self.old.store) (S.calls self.new.store) }
        ensures after { IsAfter (S.calls self.old.store) (S.calls self.new.store) }
        ensures err { IfErr result (λ error.
            IsCausedBy error (S.calls self.old.store) (S.calls self.new.store)) }
    {
        match self.store.is_same() {
            Ok(true) => Ok(()),
            Ok(false) => Err(FolderError::Other),
            Err(fault) => Err(FolderError::Store(fault)),
        }
    }

    /// The first bytes of a file, so many at most. None: there is no such file.
    #[tactic(auto, using(crate::proofs::Stays::own_reading, crate::proofs::Stays::heard_reading, crate::proofs::FarmPut::farm_reading, crate::proofs::Causes::after_reading, crate::proofs::Causes::read_caused))]
    pub(crate) fn read(
        &mut self,
        file: FileName,
        most: usize,
    ) -> Result<Option<Vec<u8>>, FolderFault>
        requires { is_heard file ≡ false }
        ensures began { self.new.began.items ≡ self.old.began.items }
        ensures own { is_own (S.calls self.new.store) ≡ is_own (S.calls self.old.store) }
        ensures heard { heard_in (S.calls self.new.store) ≡ heard_in (S.calls self.old.store) }
        ensures farm { NothingPut (S.calls self.old.store) (S.calls self.new.store) }
        ensures read { IfOk result (λ found.
            S.calls self.new.store ≡ read file (bytes_of found) ∷ S.calls self.old.store) }
        ensures after { IsAfter (S.calls self.old.store) (S.calls self.new.store) }
        ensures err { IfErr result (λ fault.
            IsCausedBy (Store fault) (S.calls self.old.store) (S.calls self.new.store)) }
    {
        self.store.read(file, most)
    }

    /// What the file `joins` says of a folder that joins. None: it doesn't join.
    #[tactic(auto, using(crate::proofs::Joined::farm_beside, crate::proofs::Joined::joining_said, crate::proofs::Joined::none_joins, crate::proofs::Causes::joining_shown, crate::proofs::Causes::none_there, crate::proofs::Causes::none_shown, crate::proofs::Causes::bad_text, crate::proofs::Causes::by_read))]
    fn find_joining(&mut self) -> Result<Option<Joining>, FolderError>
        ensures began { self.new.began.items ≡ self.old.began.items }
        ensures own { is_own (S.calls self.new.store) ≡ is_own (S.calls self.old.store) }
        ensures heard { heard_in (S.calls self.new.store) ≡ heard_in (S.calls self.old.store) }
        ensures farm { NothingPut (S.calls self.old.store) (S.calls self.new.store) }
        ensures published { OnOk result ((published : ℕ) →
            SaysPublished published (S.calls self.old.store) →
            SaysPublished published (S.calls self.new.store)) }
        ensures says { IfOk result (λ found. IfSome found (λ joining.
            SaysJoining joining (S.calls self.new.store))) }
        ensures none { IfOk result (λ found. found ≡ None →
            JoinsNoMore (S.calls self.new.store)) }
        ensures after { IsAfter (S.calls self.old.store) (S.calls self.new.store) }
        ensures shown { IfOk result (λ found. IfSome found (λ joining. EndsWith
            (ShowsJoining joining) (S.calls self.old.store) (S.calls self.new.store))) }
        ensures none_shown { IfOk result (λ found. found ≡ None →
            EndsWith ShowsNoJoining (S.calls self.old.store) (S.calls self.new.store)) }
        ensures err { IfErr result (λ error.
            IsWhyUntold error (S.calls self.old.store) (S.calls self.new.store)) }
    {
        match self.read(FileName::Joins, MOST_BYTES) {
            Ok(Some(bytes)) => joining_in(&bytes),
            Ok(None) => Ok(None),
            Err(fault) => Err(FolderError::Store(fault)),
        }
    }

    /// Puts in the place of the file `joins` what it says once the folder, which joins, was told
    /// this, in the folder that is locked. What doesn't count after what the file says changes
    /// nothing. After an error the text from before or this one is there.
    #[tactic(auto, using(crate::proofs::Joined::may_be_told, crate::proofs::Joined::told_so, crate::proofs::Joined::told_before, crate::proofs::Causes::untold_none))]
    pub(crate) fn tell_joining(&mut self, alloc: Global, step: &JoinStep) -> Result<(), FolderError>
        requires own { is_own (S.calls self.old.store) ≡ true }
        ensures began { self.new.began.items ≡ self.old.began.items }
        ensures told { OnOk result (IsTold step.now (S.calls self.new.store)) }
        ensures heard { heard_in (S.calls self.new.store) ≡ heard_in (S.calls self.old.store) }
        ensures farm { NothingPut (S.calls self.old.store) (S.calls self.new.store) }
        ensures err { IfErr result (λ error.
            IsWhyUntold error (S.calls self.old.store) (S.calls self.new.store)) }
    {
        let joining = match self.find_joining() {
            Ok(Some(joining)) => joining,
            Ok(None) => return Err(bad_joins()),
            Err(error) => return Err(error),
        };
        let Some(next) = joining.after(step) else {
            return Ok(());
        };
        match next.text(alloc) {
            Ok(text) => self.replace(FileName::Joins, text),
            Err(_) => Err(FolderError::Store(FolderFault::Memory)),
        }
    }

    /// Puts an empty text in the place of the file `joins`, in the folder that is locked, whose
    /// file `farm` says that its node has published so far, as its process wrote it. Err: by its
    /// files the folder may not vote, or a call failed. After an error the text from before or none
    /// is there.
    #[tactic(auto, using(crate::proofs::Joined::emptied, crate::proofs::Causes::not_joined_untold, crate::proofs::Causes::not_joined_early))]
    pub(crate) fn finish_joining(
        &mut self,
        alloc: Global,
        published: Seq,
    ) -> Result<(), FolderError>
        requires own { is_own (S.calls self.old.store) ≡ true }
        requires farm { SaysPublished published (S.calls self.old.store) }
        requires put { IsPublishedPut published (S.calls self.old.store) }
        ensures began { self.new.began.items ≡ self.old.began.items }
        ensures joined { OnOk result (JoinsNoMore (S.calls self.new.store)) }
        ensures heard { heard_in (S.calls self.new.store) ≡ heard_in (S.calls self.old.store) }
        ensures farm { NothingPut (S.calls self.old.store) (S.calls self.new.store) }
        ensures err { IfErr result (λ error.
            IsWhyNotJoined error published (S.calls self.old.store) (S.calls self.new.store)) }
    {
        let joining = match self.find_joining() {
            Ok(Some(joining)) => joining,
            Ok(None) => return Ok(()),
            Err(error) => return Err(error),
        };
        if !joining.may_vote(published) {
            return Err(bad_joins());
        }
        self.replace(FileName::Joins, Vec::new(alloc))
    }

    /// Whether there is a tape of a node.
    #[tactic(auto, using(crate::proofs::Stays::own_seen, crate::proofs::Stays::heard_seeing, crate::proofs::FarmPut::farm_seeing, crate::proofs::FarmPut::own_seeing, crate::proofs::Causes::after_reading, crate::proofs::Causes::unread, crate::proofs::Causes::no_tape))]
    fn has_tape(&mut self, node: u8) -> Result<bool, FolderFault>
        ensures began { self.new.began.items ≡ self.old.began.items }
        ensures own { is_own (S.calls self.new.store) ≡ is_own (S.calls self.old.store) }
        ensures heard { heard_in (S.calls self.new.store) ≡ heard_in (S.calls self.old.store) }
        ensures farm { NothingPut (S.calls self.old.store) (S.calls self.new.store) }
        ensures own_farm { OnOk result
            (IsOwnFarm (S.calls self.old.store) → IsOwnFarm (S.calls self.new.store)) }
        ensures after { IsAfter (S.calls self.old.store) (S.calls self.new.store) }
        ensures absent { IfOk result (λ there. there ≡ false → EndsWith
            (λ call. call ≡ seen (names.NodeTape node) presences.Absent)
            (S.calls self.old.store) (S.calls self.new.store)) }
        ensures err { IfErr result (λ fault.
            IsCausedBy (Store fault) (S.calls self.old.store) (S.calls self.new.store)) }
    {
        match self.store.presence(FileName::NodeTape(node)) {
            Ok(presence) => Ok(presence.is_there()),
            Err(fault) => Err(fault),
        }
    }

    /// Opens the tape of a node, which has to be there, in the folder that is locked, whose file
    /// `farm` was read, and is one that the process wrote.
    #[tactic(auto, using(crate::proofs::Stays::stays_opening, crate::proofs::Stays::heard_opening, crate::proofs::FarmPut::farm_opening, crate::proofs::Causes::tape_why, crate::proofs::Causes::tape_then, wf_store::specs::CallTheorems::after_both))]
    pub(crate) fn open_tape(&mut self, node: u8) -> Result<S::Tape, NotReopened>
        requires own { is_own (S.calls self.old.store) ≡ true }
        requires farm { IsOwnFarm (S.calls self.old.store) }
        ensures began { self.new.began.items ≡ self.old.began.items }
        ensures heard { heard_in (S.calls self.new.store) ≡ heard_in (S.calls self.old.store) }
        ensures farm { NothingPut (S.calls self.old.store) (S.calls self.new.store) }
        ensures after { IsAfter (S.calls self.old.store) (S.calls self.new.store) }
        ensures err { IfErr result (λ why.
            IsWhyTapeUnopened why node (S.calls self.old.store) (S.calls self.new.store)) }
    {
        match self.has_tape(node) {
            Ok(true) => {}
            Ok(false) => return Err(NotReopened::NoTape),
            Err(fault) => return Err(not_reopened(FolderError::Store(fault))),
        }
        match self.store.open_existing(FileName::NodeTape(node)) {
            Ok(tape) => Ok(tape),
            Err(fault) => Err(not_reopened(FolderError::Store(fault))),
        }
    }

    /// Puts a text in the place of a file that is no tape, in the folder that is locked. Meanwhile
    /// another folder may have come to the path, which is an error. After an error the text from
    /// before or this one is there.
    #[tactic(auto, using(crate::proofs::Stays::stays_replacing, crate::proofs::Stays::was_put, crate::proofs::Stays::was_put_or_not, crate::proofs::Stays::was_not_put, crate::proofs::Stays::heard_beside, crate::proofs::Stays::heard_beside_not, crate::proofs::FarmPut::farm_now, crate::proofs::FarmPut::farm_beside, crate::proofs::FarmPut::farm_or_not, crate::proofs::FarmPut::farm_beside_not, crate::proofs::FarmPut::farm_not, crate::proofs::FarmPut::farm_tried, crate::proofs::FarmPut::farm_tried_not, crate::proofs::Causes::file_unwritten))]
    pub(crate) fn replace(&mut self, file: FileName, text: Vec<u8>) -> Result<(), FolderError>
        requires file { is_tape file ≡ false }
        requires own { is_own (S.calls self.old.store) ≡ true }
        requires may { MayBePutAt file text.items (S.calls self.old.store) }
        ensures began { self.new.began.items ≡ self.old.began.items }
        ensures put { OnOk result
            (IsTextPut file text.items (S.calls self.old.store) (S.calls self.new.store)) }
        ensures err { OnErr result
            (MayBeIn file text.items (S.calls self.old.store) (S.calls self.new.store)) }
        ensures heard { is_heard file ≡ false →
            heard_in (S.calls self.new.store) ≡ heard_in (S.calls self.old.store) }
        ensures farm { is_farm file ≡ false →
            NothingPut (S.calls self.old.store) (S.calls self.new.store) }
        ensures now { OnOk result
            (is_farm file ≡ true → farm_in (S.calls self.new.store) ≡ Some text.items) }
        ensures either { (farm_in (S.calls self.new.store) ≡ farm_in (S.calls self.old.store))
            ⊎ (farm_in (S.calls self.new.store) ≡ Some text.items) }
        ensures tried { is_farm file ≡ true →
            farms_put (S.calls self.new.store) ≡ text.items ∷ farms_put (S.calls self.old.store) }
        ensures cause { IfErr result (λ error.
            IsCausedBy error (S.calls self.old.store) (S.calls self.new.store)) }
    {
        if let Err(fault) = self.store.replace(file, text) {
            return Err(FolderError::Store(fault));
        }
        self.examine()
    }
}

/// What these bytes of a file `joins` say of a folder that joins. None: they are empty.
fn joining_in(bytes: &[u8]) -> Result<Option<Joining>, FolderError>
    ensures joins { IfOk result (λ found. IfSome found IsJoins) }
    ensures text { IfOk result (λ found. IfSome found (λ joining.
        bytes.now ≡ joins_text joining)) }
    ensures none { IfOk result (λ found. found ≡ None → bytes.now ≡ []) }
    ensures only { IfOk result (λ found. IfSome found (λ joining. (other : JoiningValue) →
        IsJoins other → bytes.now ≡ joins_text other → other ≡ joining)) }
    ensures bad { IfErr result (λ error. (error ≡ Store (Unread names.Joins InvalidData))
        × ((joining : JoiningValue) → IsJoins joining → ¬ (bytes.now ≡ joins_text joining))) }
{
    if bytes.is_empty() {
        return Ok(None);
    }
    match Joining::read(bytes) {
        Ok(joining) => Ok(Some(joining)),
        Err(_) => Err(bad_joins()),
    }
}

/// The file `joins` says another thing than its process goes by.
fn bad_joins() -> FolderError
    ensures { result ≡ Store (Unread names.Joins InvalidData) }
{
    FolderError::Store(FolderFault::Unread(FileName::Joins, ErrorKind::InvalidData))
}

/// Why a tape isn't opened again, by the error of the folder.
pub(crate) fn not_reopened(error: FolderError) -> NotReopened
    ensures { result ≡ why_of error }
{
    match error {
        FolderError::Store(FolderFault::Memory) => NotReopened::Memory,
        error => NotReopened::Folder(error),
    }
}
