//! A tape that was read and not yet changed.

ghost use Rattle.std.specs.Prelude.{◌≡◌, ◌≢◌, ◌≤◌, ◌<◌, ◌^◌, false, map, take, length, IfOk, IfErr, OnOk, IsErrOf};
ghost use Rattle.wf_tape.specs.declared.fault.TapeFault.TheVariants.{Memory};
ghost use Rattle.wf_journal.specs.Record.{view};
ghost use Rattle.wf_journal.specs.Records.{length_of};
ghost use Rattle.wf_tape.specs.Tape.{IsOnlyImage, LeavesOldOr, HasCause};
ghost use Rattle.wf_tape.specs.Change.{inside, Stays, StaysInside, GoesOn};
ghost use Rattle.wf_journal.specs.Front.{HasRead};
ghost use Rattle.wf_journal.specs.OpenFault.{open_fault};
ghost use Rattle.wf_journal.specs.Journal.{TapeHolds, TapeReadsAs, LeavesBy, LeavesInsideBy, ReadsSame, IsWhereBad, IsNotBad, IsWhyFailed};

use crate::journal::Journal;
use crate::open_error::OpenFault;
use crate::record::Record;
use crate::record_reader::read_records;
use std::alloc::Global;
use std::marker::Model;
use wf_canon::one_text_one_map;
use wf_tape::{Tape, TapeFault};

/// A tape that was read and isn't a journal's yet: its records are known, and nothing is changed on
/// it. So a caller that rejects the records gets the tape back as it was. Model: the tape, the
/// bytes that were read, and how many of them are the records'.
#[derive(Drop)]
pub struct Found<T: Tape> {
    tape: T,
    bytes: Vec<u8>,
    front: usize,
}

impl<T: Tape> Model for Found<T> {
    ghost use Rattle.wf_journal.specs.Front.{HasRead};
    ghost use Rattle.wf_journal.specs.Journal.{Found, IsContent};

    ghost Value = { Found T };

    ghost view = { λ f. record { tape = f.tape; bytes = f.bytes.items; front = f.front } };

    ghost invariant = { λ f. ((records : _) × HasRead f.bytes.items records f.front) × (T.durable → IsContent f.bytes.items (T.content f.tape) (T.images f.tape)) };
}

impl<T: Tape> Found<T> {
    /// Reads the tape: its records are the longest list that its content begins with, the oldest
    /// first. The tape is unchanged; an error returns it. A tape that won't fail still won't, and
    /// doesn't.
    #[tactic(auto, using(crate::proofs::Lists::length_of_read))]
    pub fn read(alloc: Global, tape: T) -> Result<(Found<T>, Vec<Record>), (T, OpenFault)>
        ensures records { IfOk result (λ x. HasRead x.0.bytes (map view x.1.items) x.0.front) }
        ensures size { IfOk result (λ x. length_of (map view x.1.items) < 2 ^ 64) }
        ensures content { T.durable → IfOk result (λ x. x.0.bytes ≡ T.content tape) }
        ensures unchanged { T.durable → IfOk result (λ x. Stays T.Tape tape x.0.tape) }
        ensures unchanged_err { T.durable → IfErr result (λ e. Stays T.Tape tape e.0) }
        ensures time { T.durable → IfOk result (λ x. GoesOn T.Tape tape x.0.tape) }
        ensures time_err { T.durable → IfErr result (λ e. GoesOn T.Tape tape e.0) }
        ensures inside { T.durable → IfOk result (λ x. StaysInside T.Tape tape x.0.tape) }
        ensures inside_err { T.durable → IfErr result (λ e. StaysInside T.Tape tape e.0) }
        ensures bad { T.durable → IfErr result (λ e. IsWhereBad e.1 (T.content tape)) }
        ensures later { IfOk result (λ x. T.failed tape ≤ T.failed x.0.tape) }
        ensures failed { IfErr result (λ e. IsWhyFailed e.1 (T.failed tape) (T.failed e.0)) }
        ensures sturdy { T.never_fails tape → IfOk result (λ x. T.never_fails x.0.tape) }
        ensures sturdy_err { T.never_fails tape → IfErr result (λ e. T.never_fails e.0) }
        ensures sound { T.never_fails tape → IfErr result (λ e. e.1 ≢ OpenFault.TapeFailed) }
    {
        let mut tape = tape;
        let bytes = match tape.read(alloc) {
            Ok(bytes) => bytes,
            Err(fault) => return Err((tape, open_fault(fault))),
        };
        match read_records(alloc, &bytes) {
            Ok((records, front)) => Ok((Found { tape, bytes, front }, records)),
            Err(fault) => Err((tape, fault)),
        }
    }

    /// The journal of the tape. A torn record after the whole ones is removed, and what is kept is
    /// synced; a doubtful tape is replaced by it, so that no bytes stay unsynced that an earlier
    /// failed sync left. One call of the tape. An error returns the tape, unchanged unless the tape
    /// itself failed. A tape that won't fail still won't, and doesn't.
    pub fn settle(self) -> Result<Journal<T>, (T, OpenFault)>
        ensures running { IfOk result (λ journal. journal.halted ≡ false) }
        ensures synced { T.durable → (records : _) → HasRead self.bytes records self.front →
            IfOk result (λ journal. TapeHolds T.Tape journal.tape records) }
        ensures reads { T.durable → (records : _) → HasRead self.bytes records self.front →
            IfOk result (λ journal. TapeReadsAs T.Tape journal.tape records) }
        ensures images { T.durable →
            IfOk result (λ journal. LeavesBy ReadsSame T.Tape self.tape journal.tape) }
        ensures images_err { T.durable →
            IfErr result (λ e. LeavesBy ReadsSame T.Tape self.tape e.0) }
        ensures unchanged { T.durable →
            IfErr result (λ e. e.1 ≢ OpenFault.TapeFailed → Stays T.Tape self.tape e.0) }
        ensures time { T.durable → IfOk result (λ journal. GoesOn T.Tape self.tape journal.tape) }
        ensures time_err { T.durable → IfErr result (λ e. GoesOn T.Tape self.tape e.0) }
        ensures inside { T.durable →
            IfOk result (λ journal. LeavesInsideBy ReadsSame T.Tape self.tape journal.tape) }
        ensures inside_err { T.durable →
            IfErr result (λ e. LeavesInsideBy ReadsSame T.Tape self.tape e.0) }
        ensures not_bad { IfErr result (λ e. IsNotBad e.1) }
        ensures later { IfErr result (λ e. T.failed self.tape ≤ T.failed e.0) }
        ensures failed { IfErr result (λ e. IsWhyFailed e.1 (T.failed self.tape) (T.failed e.0)) }
        ensures sturdy { T.never_fails self.tape →
            IfOk result (λ journal. T.never_fails journal.tape) }
        ensures sturdy_err { T.never_fails self.tape → IfErr result (λ e. T.never_fails e.0) }
        ensures sound { T.never_fails self.tape → IfErr result (λ e. e.1 ≢ OpenFault.TapeFailed) }
    {
        // The theorem: maps with equal texts are equal, so no record reads as another.
        one_text_one_map();
        let Found {
            mut tape,
            bytes,
            front,
        } = self;
        match settle(&mut tape, &bytes, front) {
            Ok(()) => Ok(Journal::over(tape)),
            Err(fault) => Err((tape, open_fault(fault))),
        }
    }

    /// Returns the tape unchanged.
    pub fn close(self) -> T
        ensures { result ≡ self.tape }
    {
        let Found { tape, .. } = self;
        tape
    }
}

/// Keeps the first bytes of the content, and syncs them. A doubtful tape is replaced by them, since
/// a sync of it may leave bytes unsynced.
fn settle<T: Tape>(tape: &mut T, bytes: &[u8], front: usize) -> Result<(), TapeFault>
    requires within { front ≤ length bytes.now }
    ensures ok { T.durable →
        OnOk result (T.content tape.old ≡ bytes.now → T.content tape.new ≡ take front bytes.now) }
    ensures only { T.durable → OnOk result (IsOnlyImage (T.content tape.new) (T.images tape.new)) }
    ensures images { T.durable →
        LeavesOldOr (take front bytes.now) (T.images tape.old) (T.images tape.new) }
    ensures memory { T.durable → IsErrOf result Memory → Stays T.Tape tape.old tape.new }
    ensures time { T.durable → GoesOn T.Tape tape.old tape.new }
    ensures inside { T.durable →
        LeavesOldOr (take front bytes.now) (T.images tape.old) (inside T.Tape tape.old tape.new) }
    ensures cause { HasCause (T.failed tape.old) (T.failed tape.new) result }
    ensures sturdy { T.never_fails tape.old → T.never_fails tape.new }
    ensures sound { T.never_fails tape.old → IfErr result (λ fault. fault ≢ TapeFault.Device) }
    ensures sure { OnOk result (T.doubtful tape.new ≡ false) }
{
    if tape.is_doubtful() || front < bytes.len() {
        tape.replace(bytes.split_at(front).0)
    } else {
        tape.sync()
    }
}

/// The error of opening a journal, given the tape's.
fn open_fault(fault: TapeFault) -> OpenFault
    ensures value { result ≡ open_fault fault }
    ensures sound { fault ≢ TapeFault.Device → result ≢ OpenFault.TapeFailed }
{
    match fault {
        TapeFault::Device => OpenFault::TapeFailed,
        TapeFault::Memory => OpenFault::Memory,
    }
}
