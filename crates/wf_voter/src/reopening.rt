//! A node whose tape has failed opens it again, as the node that it was.
ghost use Rattle.std.specs.Prelude.{◌≡◌, ◌+◌, ◌⊎◌, IfErr, IfOk, List, None, OnErr, OnOk, Option, Some};
ghost use Rattle.wf_folder.specs.Reach.{IsReachNoLess};
ghost use Rattle.wf_folder.specs.declared.node_file.NodeFile.{NodeFile};
ghost use Rattle.wf_peer.specs.PeerProgressText.{peer_progress_text};
ghost use Rattle.wf_rejoin.specs.ReplacementsText.{replaced_text};
ghost use Rattle.wf_store.specs.Call.{Call, IsAfter};
ghost use Rattle.wf_store.specs.Texts.{is_replaced, text_in};
ghost use Rattle.wf_voter.specs.Cause.{IsCausedBy, IsWhyHalted, IsWhyJoining, IsWhyUntold, IsWhyFarmUnwritten};
ghost use Rattle.wf_voter.specs.Folder.{HasFarmText, IsHeardPut, IsTold, JoinsNoMore, Stand, counted};

use std::fmt;
use std::io::ErrorKind;
use thiserror::Error;
use wf_actor::{Process, ReopenFault};
use wf_digest::Digests;
use wf_folder::{Reach, Suspension};
use wf_membership::FolderError;
use wf_peer::PeerProgress;
use wf_rejoin::{JoinStep, Replacements};
use wf_store::FileName;
use wf_tape::Tape;
use wf_visitors::{Level, LogEntry};

/// Why the tape of a halted node isn't opened again.
#[derive(Clone, Copy, Debug, Error)]
pub enum NotReopened {
    /// The node isn't halted.
    #[error("it has not failed")]
    Runs,
    /// The folder, or a file of it, can't be read.
    #[error("{0}")]
    Folder(FolderError),
    /// The file `farm` isn't the one that this process wrote last.
    #[error("it isn't the one that this process wrote")]
    OtherFarm,
    /// There is no tape.
    #[error("tape missing")]
    NoTape,
    /// A node doesn't open on the tape, or it isn't this one.
    #[error("{0}")]
    Tape(ReopenFault),
    /// The start can't be counted in the file `farm`.
    #[error("the start can't be counted: {0}")]
    Uncounted(ErrorKind),
    /// The file `farm` counts no further start.
    #[error("no further start can be counted")]
    NoFurtherStart,
    /// An allocation failed.
    #[error("out of memory")]
    Memory,
}

impl NotReopened {
    /// The file that is the cause, where the node's tape is this one. None: it is the folder
    /// itself.
    fn file(&self, tape: FileName) -> Option<FileName> {
        match self {
            NotReopened::Folder(error) => error.file(),
            NotReopened::OtherFarm | NotReopened::Uncounted(_) | NotReopened::NoFurtherStart => {
                Some(FileName::Farm)
            }
            NotReopened::Runs | NotReopened::NoTape | NotReopened::Tape(_) | NotReopened::Memory =>
                Some(tape),
        }
    }
}

/// The folder of a node, which its process has locked. An error says what the last call of the
/// folder showed (`specs/Cause.antt`), or that an allocation failed.
pub trait NodeFolder<T> {
    /// How many starts the file `farm` counts, as this process wrote it last, the calls of the
    /// folder before the node ran, and what the file `heard` has.
    ghost stands: { Self → Stand };

    /// The calls of the folder so far, the latest first.
    ghost calls: { Self → List Call };

    /// The file `farm`, as this process wrote it last.
    ghost farm: { Self → NodeFile };

    /// A later one, whose writing failed: it may be there.
    ghost attempted: { Self → Option NodeFile };

    /// Opens the node's tape, if the folder at its path is the one that is locked, and its file
    /// `farm` one that this process wrote: the last one, or a later one whose writing failed. No
    /// file is made: a tape that is absent is an error.
    fn open(&mut self) -> Result<T, NotReopened>
        ensures stands { stands self.new ≡ stands self.old }
        ensures farm { farm self.new ≡ farm self.old }
        ensures attempted { attempted self.new ≡ attempted self.old }
        ensures after { IsAfter (calls self.old) (calls self.new) }
        ensures err { IfErr result (λ why. IsWhyHalted why (stands self.old).starts
            (farm self.old) (attempted self.old) (calls self.old) (calls self.new)) };

    /// Counts one start more in the file `farm`, synced. Ok is their number. After an error the
    /// file may count it or not; the next call counts the same start.
    fn count_start(&mut self) -> Result<u32, NotReopened>
        ensures number { IfOk result (λ number. number ≡ (stands self.old).starts + 1) }
        ensures counted { OnOk result (stands self.new ≡ counted (stands self.old)) }
        ensures same { OnErr result (stands self.new ≡ stands self.old) }
        ensures file { IfOk result (λ number. (farm self.new).starts ≡ number) }
        ensures written { OnOk result (HasFarmText (farm self.new) (calls self.new)) }
        ensures err { IfErr result (λ why. IsWhyHalted why (stands self.old).starts
            (farm self.old) (attempted self.old) (calls self.old) (calls self.new)) };

    /// Raises in the file `farm` how far the node is known to have been, with the digest of its
    /// history up to its last published sequence, if that is more than the file has: synced, with
    /// the folder. Where the file that was written last says so much, and no later writing failed,
    /// nothing is called.
    fn keep(&mut self, reach: &Reach, digest: [u8; 32]) -> Result<(), FolderError>
        ensures stands { stands self.new ≡ stands self.old }
        ensures reach { OnOk result (IsReachNoLess reach.now (farm self.new).known.reach) }
        ensures written { OnOk result (HasFarmText (farm self.new) (calls self.new)
            ⊎ ((farm self.new ≡ farm self.old) × (calls self.new ≡ calls self.old))) }
        ensures spared { attempted self.old ≡ None →
            IsReachNoLess reach.now (farm self.old).known.reach →
            calls self.new ≡ calls self.old }
        ensures err { IfErr result (λ error. IsWhyFarmUnwritten error
            (farm self.old) (attempted self.old) (calls self.old) (calls self.new)) };

    /// Writes into the file `farm` that a peer has suspended the node: synced, with the folder.
    fn suspend(&mut self, suspension: Suspension) -> Result<(), FolderError>
        ensures stands { stands self.new ≡ stands self.old }
        ensures suspended { OnOk result ((farm self.new).suspension ≡ Some suspension) }
        ensures written { OnOk result (HasFarmText (farm self.new) (calls self.new)) }
        ensures err { IfErr result (λ error. IsWhyFarmUnwritten error
            (farm self.old) (attempted self.old) (calls self.old) (calls self.new)) };

    /// Puts what was heard of the peers in the place of the file `heard`: synced, with the folder,
    /// if the folder at its path is the one that is locked. After an error the file has what it had
    /// or this.
    fn keep_heard(&mut self, heard: &PeerProgress) -> Result<(), FolderError>
        ensures put { IsHeardPut result (peer_progress_text heard.now)
            (stands self.old) (stands self.new) }
        ensures err { IfErr result (λ error. IsCausedBy error (calls self.old) (calls self.new)) };

    /// Puts what is known of replacements in the place of the file `replaced`: synced, with the
    /// folder, if the folder at its path is the one that is locked. After an error the file has
    /// what it had or this.
    fn keep_replaced(&mut self, known: &Replacements) -> Result<(), FolderError>
        ensures stands { stands self.new ≡ stands self.old }
        ensures put { OnOk result
            (text_in is_replaced (calls self.new) ≡ Some (replaced_text known.now)) }
        ensures err { OnErr result
            ((text_in is_replaced (calls self.new) ≡ text_in is_replaced (calls self.old))
            ⊎ (text_in is_replaced (calls self.new) ≡ Some (replaced_text known.now))) }
        ensures cause { IfErr result (λ error.
            IsCausedBy error (calls self.old) (calls self.new)) };

    /// Puts in the place of the file `joins` what it says once the folder, which joins, was told
    /// this: synced, with the folder, if the folder at its path is the one that is locked. After an
    /// error the text from before or this one is there. What doesn't count after what the file says
    /// was written before, or never counts: the file stays as it is.
    fn keep_joining(&mut self, step: &JoinStep) -> Result<(), FolderError>
        ensures stands { stands self.new ≡ stands self.old }
        ensures told { OnOk result (IsTold step.now (calls self.new)) }
        ensures err { IfErr result (λ error.
            IsWhyUntold error (calls self.old) (calls self.new)) };

    /// Puts an empty text in the place of the file `joins`, synced, with the folder: the folder has
    /// joined, and votes from its next start on. An error is also that it may not, by what its
    /// files `joins` and `farm` say, or that the folder at its path isn't the one that is locked.
    /// After an error the text from before or none is there.
    fn finish_joining(&mut self) -> Result<(), FolderError>
        ensures stands { stands self.new ≡ stands self.old }
        ensures joined { OnOk result (JoinsNoMore (calls self.new)) }
        ensures err { IfErr result (λ error. IsWhyJoining error
            (farm self.old) (attempted self.old) (calls self.old) (calls self.new)) };
}

/// A process that goes on for one whose tape has failed, with the digests of no history yet, and
/// the number of its start.
#[derive(Drop)]
pub struct NextRun<T: Tape> {
    pub process: Process<T>,
    pub digests: Digests,
    pub starts: u32,
}

/// The tape of a halted node wasn't opened again: the path of its folder, the name of its tape, and
/// why.
#[derive(Clone, Copy)]
pub struct TapeNotReopened<'a> {
    pub folder: &'a str,
    pub tape: FileName,
    pub why: NotReopened,
}

impl<'a> LogEntry for TapeNotReopened<'a> {
    fn level(&self) -> Level {
        Level::Error
    }
}

impl<'a> fmt::Display for TapeNotReopened<'a> {
    fn fmt<W: fmt::Write>(&self, f: &mut fmt::Formatter<W>) -> fmt::Result {
        let TapeNotReopened { folder, tape, why } = self;
        match why.file(*tape) {
            None => write!(f, "tape-not-reopened file={folder} why=\"{why}\""),
            Some(file) => write!(f, "tape-not-reopened file={folder}/{file} why=\"{why}\""),
        }
    }
}
