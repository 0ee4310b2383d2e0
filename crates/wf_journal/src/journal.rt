//! The journal: whole records on a tape, each written and synced before it is acknowledged.

ghost use Rattle.std.specs.Prelude.{◌≡◌, ◌≢◌, ◌++◌, false, true, map, option_map, None, IfOk, IfErr, OnOk, OnErr, IsErrOf};
ghost use Rattle.std.specs.Option.{option_copied};
ghost use Rattle.wf_tape.specs.declared.fault.TapeFault.TheVariants.{Memory};
ghost use Rattle.wf_journal.specs.Record.{view};
ghost use Rattle.wf_journal.specs.Records.{IsTapeOf};
ghost use Rattle.wf_journal.specs.Encoding.{spelling};
ghost use Rattle.wf_tape.specs.Tape.{IsOnlyImage, IsExtended, LeavesOldOrCut, HasCause, IsNotMemory};
ghost use Rattle.wf_tape.specs.Change.{inside, Stays, GoesOn, HasFailed};
ghost use Rattle.wf_tape.specs.MemoryTape.{with_fuse};
ghost use Rattle.wf_journal.specs.Journal.{TapeHolds, TapeIsSettled, TapeGrows, LeavesBy, LeavesInsideBy, ReadsSame, ReadsOneMore, ReadsSameOrOneMore, IsWhereBad, IsWhyFailed};

use crate::encoder::encode;
use crate::found::Found;
use crate::open_error::{AddFault, OpenFault};
use crate::record::Record;
use std::alloc::Global;
use std::marker::Model;
use std::mem::replace;
use wf_canon::one_text_one_map;
use wf_tape::{MemoryTape, Tape, TapeFault};

/// The records of a node on its tape. Model: the tape, whether the journal is halted, and the
/// record that it keeps of a failure of the tape; if it isn't halted, a durable tape holds only
/// whole records, all of them synced, and a sync of the tape can be relied on.
#[derive(Drop)]
pub struct Journal<T: Tape> {
    pub(crate) tape: T,
    pub(crate) halted: bool,
    pub(crate) failed: Option<Record>,
}

impl<T: Tape> Model for Journal<T> {
    ghost use Rattle.std.specs.Prelude.{◌≡◌, false, option_map};
    ghost use Rattle.wf_journal.specs.Journal.{Journal, TapeIsSettled};
    ghost use Rattle.wf_journal.specs.Record as entry;

    ghost Value = { Journal T };

    ghost view = { λ j. record { tape = j.tape; halted = j.halted; failed = option_map entry.view j.failed } };

    ghost invariant = { λ j. (T.durable → j.halted ≡ false → TapeIsSettled T.Tape j.tape) × (j.halted ≡ false → T.doubtful j.tape ≡ false) };
}

impl<T: Tape> Journal<T> {
    /// The journal of the tape, and its records, the oldest first. A torn record after the whole
    /// ones is removed, and what is kept is synced. An error returns the tape, unchanged unless the
    /// tape itself failed. A crash at each moment inside the call leaves what reads as something
    /// that a crash could have left before it. A tape that won't fail still won't, and doesn't.
    #[tactic(auto, using(crate::proofs::CrashImages::followed_on, crate::proofs::CrashImages::unchanged_on, crate::proofs::CrashImages::why_failed_on, crate::proofs::CrashImages::not_bad_anywhere))]
    pub fn open(alloc: Global, tape: T) -> Result<(Journal<T>, Vec<Record>), (T, OpenFault)>
        ensures running { IfOk result (λ x. x.0.halted ≡ false) }
        ensures records { T.durable →
            IfOk result (λ x. (rest : _) × IsTapeOf (T.content tape) (map view x.1.items) rest) }
        ensures synced { T.durable →
            IfOk result (λ x. TapeHolds T.Tape x.0.tape (map view x.1.items)) }
        ensures images { T.durable → IfOk result (λ x. LeavesBy ReadsSame T.Tape tape x.0.tape) }
        ensures images_err { T.durable → IfErr result (λ e. LeavesBy ReadsSame T.Tape tape e.0) }
        ensures time { T.durable → IfOk result (λ x. GoesOn T.Tape tape x.0.tape) }
        ensures time_err { T.durable → IfErr result (λ e. GoesOn T.Tape tape e.0) }
        ensures inside { T.durable →
            IfOk result (λ x. LeavesInsideBy ReadsSame T.Tape tape x.0.tape) }
        ensures inside_err { T.durable →
            IfErr result (λ e. LeavesInsideBy ReadsSame T.Tape tape e.0) }
        ensures unchanged { T.durable →
            IfErr result (λ e. e.1 ≢ OpenFault.TapeFailed → Stays T.Tape tape e.0) }
        ensures bad { T.durable → IfErr result (λ e. IsWhereBad e.1 (T.content tape)) }
        ensures failed { IfErr result (λ e. IsWhyFailed e.1 (T.failed tape) (T.failed e.0)) }
        ensures sturdy { T.never_fails tape → IfOk result (λ x. T.never_fails x.0.tape) }
        ensures sturdy_err { T.never_fails tape → IfErr result (λ e. T.never_fails e.0) }
        ensures sound { T.never_fails tape → IfErr result (λ e. e.1 ≢ OpenFault.TapeFailed) }
    {
        match Found::read(alloc, tape) {
            Ok((found, records)) => match found.settle() {
                Ok(journal) => Ok((journal, records)),
                Err(rejection) => {
                    discard(records);
                    Err(rejection)
                }
            },
            Err(rejection) => Err(rejection),
        }
    }

    /// The journal of a tape that holds only whole records, all of them synced, and whose syncs can
    /// be relied on.
    pub(crate) fn over(tape: T) -> Journal<T>
        requires settled { T.durable → TapeIsSettled T.Tape tape }
        requires sure { T.doubtful tape ≡ false }
        ensures { result ≡ record { tape = tape; halted = false; failed = None } }
    {
        Journal {
            tape,
            halted: false,
            failed: None,
        }
    }

    /// Adds a record: after Ok it is on the tape and synced. After a failure of the tape the
    /// journal is halted until it is opened again, since a prefix of the record's bytes may be on
    /// the tape, after what was there. A crash at each moment inside the call leaves what reads as
    /// the records from before, or with the new one. A tape that won't fail still won't, and
    /// doesn't.
    #[tactic(auto, using(crate::proofs::CrashImages::same_kept, crate::proofs::CrashImages::now_more, crate::proofs::CrashImages::settled_more, crate::proofs::CrashImages::settled_same))]
    pub fn add(&mut self, alloc: Global, entry: &Record) -> Result<(), AddFault>
        requires { self.old.halted ≡ false }
        ensures ok { T.durable →
            OnOk result (TapeGrows (view entry.now) T.Tape self.old.tape self.new.tape) }
        ensures one_more { T.durable → OnOk result
            (LeavesBy (ReadsOneMore (view entry.now)) T.Tape self.old.tape self.new.tape) }
        ensures images { T.durable →
            LeavesBy (ReadsSameOrOneMore (view entry.now)) T.Tape self.old.tape self.new.tape }
        ensures time { T.durable → GoesOn T.Tape self.old.tape self.new.tape }
        ensures inside { T.durable → LeavesInsideBy
            (ReadsSameOrOneMore (view entry.now)) T.Tape self.old.tape self.new.tape }
        ensures running { OnOk result (self.new.halted ≡ false) }
        ensures failed { IsErrOf result AddFault.TapeFailed →
            HasFailed T.Tape self.old.tape self.new.tape }
        ensures part { T.durable → IsErrOf result AddFault.TapeFailed → IsExtended
            (T.content self.old.tape) (spelling (view entry.now)) (T.content self.new.tape) }
        ensures halted { IsErrOf result AddFault.TapeFailed → self.new.halted ≡ true }
        ensures memory { T.durable → IsErrOf result AddFault.Memory →
            Stays T.Tape self.old.tape self.new.tape }
        ensures still_running { IsErrOf result AddFault.Memory → self.new.halted ≡ false }
        ensures sturdy { T.never_fails self.old.tape → T.never_fails self.new.tape }
        ensures sound { T.never_fails self.old.tape →
            IfErr result (λ fault. fault ≢ AddFault.TapeFailed) }
    {
        // The theorem: maps with equal texts are equal, so no record reads as another.
        one_text_one_map();
        let Ok(bytes) = encode(alloc, entry) else {
            return Err(AddFault::Memory);
        };
        match write(&mut self.tape, &bytes) {
            Ok(()) => Ok(()),
            Err(TapeFault::Memory) => Err(AddFault::Memory),
            Err(TapeFault::Device) => {
                self.halted = true;
                Err(AddFault::TapeFailed)
            }
        }
    }

    /// Whether the tape failed. Then no record can be written until the journal is opened again.
    pub fn is_halted(&self) -> bool
        ensures value { result ≡ self.now.halted }
        ensures settled { T.durable → self.now.halted ≡ false → TapeIsSettled T.Tape self.now.tape }
    {
        self.halted
    }

    /// Keeps the record that couldn't be added, since the tape failed: it may be on the tape,
    /// whole, and nobody was told of it.
    pub fn keep_failed(&mut self, entry: Option<Record>)
        ensures { self.new ≡ record self.old { failed = option_map view entry } }
    {
        drop(replace(&mut self.failed, entry));
    }

    /// The record that is kept of a failure of the tape, if one is.
    pub fn failed(&self) -> Option<&Record>
        ensures { option_map view (option_copied result) ≡ self.now.failed }
    {
        self.failed.as_ref()
    }

    /// The tape. Unless the journal is halted, a durable one holds only whole records, all of them
    /// synced.
    pub fn tape(&self) -> &T
        ensures value { result.now ≡ self.now.tape }
        ensures settled { T.durable → self.now.halted ≡ false → TapeIsSettled T.Tape self.now.tape }
    {
        &self.tape
    }

    /// Returns the tape unchanged.
    pub fn close(self) -> T
        ensures { result ≡ self.tape }
    {
        let Journal { tape, .. } = self;
        tape
    }
}

impl Journal<MemoryTape> {
    /// Sets a failure of the tape (`MemoryTape::set_fuse`), and changes nothing else.
    pub fn set_fuse(&mut self, call: usize, kept: usize)
        ensures { self.new ≡ record self.old { tape = with_fuse call kept self.old.tape } }
    {
        self.tape.set_fuse(call, kept);
    }
}

/// Appends the bytes and syncs them.
#[tactic(auto, using(crate::proofs::CrashImages::cut_shorter, crate::proofs::CrashImages::cut_synced, crate::proofs::CrashImages::extended_whole))]
fn write<T: Tape>(tape: &mut T, bytes: &[u8]) -> Result<(), TapeFault>
    ensures ok { T.durable → OnOk result (T.content tape.new ≡ T.content tape.old ++ bytes.now) }
    ensures only { T.durable → T.doubtful tape.old ≡ false →
        OnOk result (IsOnlyImage (T.content tape.new) (T.images tape.new)) }
    ensures part { T.durable →
        OnErr result (IsExtended (T.content tape.old) bytes.now (T.content tape.new)) }
    ensures images { T.durable → IsNotMemory result →
        LeavesOldOrCut (T.content tape.old ++ bytes.now) (T.images tape.old) (T.images tape.new) }
    ensures memory { T.durable → IsErrOf result Memory → Stays T.Tape tape.old tape.new }
    ensures time { T.durable → GoesOn T.Tape tape.old tape.new }
    ensures inside { T.durable → LeavesOldOrCut
        (T.content tape.old ++ bytes.now) (T.images tape.old) (inside T.Tape tape.old tape.new) }
    ensures cause { HasCause (T.failed tape.old) (T.failed tape.new) result }
    ensures sturdy { T.never_fails tape.old → T.never_fails tape.new }
    ensures sound { T.never_fails tape.old → IfErr result (λ fault. fault ≢ TapeFault.Device) }
    ensures doubt { OnOk result (T.doubtful tape.new ≡ T.doubtful tape.old) }
    ensures doubt_memory { IsErrOf result Memory → T.doubtful tape.new ≡ T.doubtful tape.old }
{
    match tape.append(bytes) {
        Ok(()) => tape.sync(),
        Err(fault) => Err(fault),
    }
}

/// Drops records that aren't needed.
fn discard(_records: Vec<Record>) {}
