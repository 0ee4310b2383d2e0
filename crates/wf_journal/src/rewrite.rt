//! A journal rewrites its tape, or begins on one with records that are there already.

ghost use Rattle.std.specs.Prelude.{◌≡◌, ◌≢◌, [], false, true, map, None, IfOk, IfErr, OnOk, OnErr, IsErrOf};
ghost use Rattle.wf_journal.specs.Encoding.{spellings};
ghost use Rattle.wf_journal.specs.Record.{view};
ghost use Rattle.wf_journal.specs.Records.{IsTapeOf};
ghost use Rattle.wf_tape.specs.Change.{inside, Stays, GoesOn, HasFailed};
ghost use Rattle.wf_journal.specs.Journal.{TapeHoldsWritten, TapeIsSettled, LeavesBy, LeavesInsideBy, LeavesOldOrWritten, IsSameOrRecords, IsSameOrReads, IsSameOrWritten};

use crate::encoder::encode_all;
use crate::journal::Journal;
use crate::open_error::AddFault;
use crate::record::Record;
use std::alloc::Global;
use wf_tape::{Tape, TapeFault};

impl<T: Tape> Journal<T> {
    /// Replaces all records by these, in one call of the tape: after Ok it holds exactly them,
    /// synced, each as it is written, whatever version it was read in. After a failure of the tape
    /// the journal is halted until it is opened again, since the tape holds the records from before
    /// or these. A crash at each moment inside the call leaves one of the two as well. A tape that
    /// won't fail still won't, and doesn't.
    #[tactic(auto, using(crate::proofs::CrashImages::holds_written, crate::proofs::CrashImages::follows_replaced, crate::proofs::CrashImages::follows_failed, crate::proofs::CrashImages::follows_unchanged, crate::proofs::CrashImages::failed_content, crate::proofs::CrashImages::failed_images, crate::proofs::CrashImages::unchanged_images, crate::proofs::CrashImages::settled_written, crate::proofs::CrashImages::settled_same))]
    pub fn rewrite(&mut self, alloc: Global, records: &[Record]) -> Result<(), AddFault>
        requires { self.old.halted ≡ false }
        ensures ok { T.durable →
            OnOk result (TapeHoldsWritten T.Tape self.new.tape (map view records.now)) }
        ensures content_err { T.durable → OnErr result (IsSameOrRecords
            (map view records.now) (T.content self.old.tape) (T.content self.new.tape)) }
        ensures images_err { T.durable → OnErr result (LeavesBy
            (IsSameOrRecords (map view records.now)) T.Tape self.old.tape self.new.tape) }
        ensures images { T.durable →
            LeavesBy (IsSameOrReads (map view records.now)) T.Tape self.old.tape self.new.tape }
        ensures time { T.durable → GoesOn T.Tape self.old.tape self.new.tape }
        ensures inside { T.durable → LeavesInsideBy
            (IsSameOrReads (map view records.now)) T.Tape self.old.tape self.new.tape }
        ensures running { OnOk result (self.new.halted ≡ false) }
        ensures failed { IsErrOf result AddFault.TapeFailed →
            HasFailed T.Tape self.old.tape self.new.tape }
        ensures halted { IsErrOf result AddFault.TapeFailed → self.new.halted ≡ true }
        ensures memory { T.durable → IsErrOf result AddFault.Memory →
            Stays T.Tape self.old.tape self.new.tape }
        ensures still_running { IsErrOf result AddFault.Memory → self.new.halted ≡ false }
        ensures sturdy { T.never_fails self.old.tape → T.never_fails self.new.tape }
        ensures sound { T.never_fails self.old.tape →
            IfErr result (λ fault. fault ≢ AddFault.TapeFailed) }
    {
        let Ok(bytes) = encode_all(alloc, records) else {
            return Err(AddFault::Memory);
        };
        match self.tape.replace(&bytes) {
            Ok(()) => Ok(()),
            Err(TapeFault::Memory) => Err(AddFault::Memory),
            Err(TapeFault::Device) => {
                self.halted = true;
                Err(AddFault::TapeFailed)
            }
        }
    }

    /// The journal of a tape on which these records replace whatever it held, in one call of it: it
    /// holds exactly them, synced, each as it is written. Nothing is read of the tape, and it may
    /// be doubtful. An error returns the tape: P3 if allocation failed, and then it is unchanged;
    /// P1 if the tape failed, and then it holds what it held, or these records. A crash at each
    /// moment inside the call leaves one of the two as well. A tape that won't fail still won't,
    /// and doesn't.
    pub fn begin_with(
        alloc: Global,
        tape: T,
        records: &[Record],
    ) -> Result<Journal<T>, (T, AddFault)>
        ensures running { IfOk result (λ journal. journal.halted ≡ false) }
        ensures none_failed { IfOk result (λ journal. journal.failed ≡ None) }
        ensures held { T.durable → IfOk result (λ journal.
            TapeHoldsWritten T.Tape journal.tape (map view records.now)) }
        ensures written { IfOk result (λ _.
            IsTapeOf (spellings (map view records.now)) (map view records.now) []) }
        ensures content_err { T.durable → IfErr result (λ e. IsSameOrWritten
            (map view records.now) (T.content tape) (T.content e.0)) }
        ensures images_err { T.durable → IfErr result (λ e. LeavesOldOrWritten
            (map view records.now) (T.images tape) (T.images e.0)) }
        ensures time { T.durable → IfOk result (λ journal. GoesOn T.Tape tape journal.tape) }
        ensures time_err { T.durable → IfErr result (λ e. GoesOn T.Tape tape e.0) }
        ensures inside { T.durable → IfOk result (λ journal. LeavesOldOrWritten
            (map view records.now) (T.images tape) (inside T.Tape tape journal.tape)) }
        ensures inside_err { T.durable → IfErr result (λ e. LeavesOldOrWritten
            (map view records.now) (T.images tape) (inside T.Tape tape e.0)) }
        ensures failed { IfErr result (λ e. e.1 ≡ AddFault.TapeFailed → HasFailed T.Tape tape e.0) }
        ensures memory { T.durable →
            IfErr result (λ e. e.1 ≡ AddFault.Memory → Stays T.Tape tape e.0) }
        ensures sturdy { T.never_fails tape →
            IfOk result (λ journal. T.never_fails journal.tape) }
        ensures sturdy_err { T.never_fails tape → IfErr result (λ e. T.never_fails e.0) }
        ensures sound { T.never_fails tape → IfErr result (λ e. e.1 ≢ AddFault.TapeFailed) }
    {
        let mut tape = tape;
        match write_only(&mut tape, alloc, records) {
            Ok(()) => Ok(Journal::over(tape)),
            Err(fault) => Err((tape, fault)),
        }
    }
}

/// Replaces whatever the tape holds by the records, in one call of it.
#[tactic(auto, using(crate::proofs::CrashImages::holds_written, crate::proofs::CrashImages::settled_held, crate::proofs::CrashImages::written_content, crate::proofs::CrashImages::written_images, crate::proofs::CrashImages::written_unchanged, crate::specs::RecordTheorems::written_tape))]
fn write_only<T: Tape>(tape: &mut T, alloc: Global, records: &[Record]) -> Result<(), AddFault>
    ensures ok { T.durable →
        OnOk result (TapeHoldsWritten T.Tape tape.new (map view records.now)) }
    ensures settled { T.durable → OnOk result (TapeIsSettled T.Tape tape.new) }
    ensures written { OnOk result
        (IsTapeOf (spellings (map view records.now)) (map view records.now) []) }
    ensures sure { OnOk result (T.doubtful tape.new ≡ false) }
    ensures content_err { T.durable → OnErr result
        (IsSameOrWritten (map view records.now) (T.content tape.old) (T.content tape.new)) }
    ensures images_err { T.durable → OnErr result
        (LeavesOldOrWritten (map view records.now) (T.images tape.old) (T.images tape.new)) }
    ensures time { T.durable → GoesOn T.Tape tape.old tape.new }
    ensures inside { T.durable → LeavesOldOrWritten
        (map view records.now) (T.images tape.old) (inside T.Tape tape.old tape.new) }
    ensures failed { IsErrOf result AddFault.TapeFailed → HasFailed T.Tape tape.old tape.new }
    ensures memory { T.durable → IsErrOf result AddFault.Memory → Stays T.Tape tape.old tape.new }
    ensures sturdy { T.never_fails tape.old → T.never_fails tape.new }
    ensures sound { T.never_fails tape.old → IfErr result (λ fault. fault ≢ AddFault.TapeFailed) }
{
    let Ok(bytes) = encode_all(alloc, records) else {
        return Err(AddFault::Memory);
    };
    match tape.replace(&bytes) {
        Ok(()) => Ok(()),
        Err(TapeFault::Memory) => Err(AddFault::Memory),
        Err(TapeFault::Device) => Err(AddFault::TapeFailed),
    }
}
