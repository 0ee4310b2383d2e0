//! A tape without what was never synced.
ghost use Rattle.std.specs.Prelude.{◌≡◌, ◌≢◌, ◌≤◌, drop, length, IfOk, IfErr, OnOk, IsErrOf};
ghost use Rattle.wf_journal.specs.Journal.{IsBadAt, LeavesBy, LeavesInsideBy, ReadsSame};
ghost use Rattle.wf_recovery.specs.Unsynced.{HoldsFront, IsUnsynced};
ghost use Rattle.wf_tape.specs.Change.{GoesOn, Stays};
ghost use Rattle.wf_tape.specs.Tape.{HasCause};
ghost use Rattle.wf_tape.specs.declared.fault.TapeFault.TheVariants.{Memory};

use crate::unsynced::is_unsynced_at;
use std::alloc::Global;
use wf_journal::records_are_read_one_way;
use wf_tape::{Tape, TapeFault};

/// Drops what is at this offset of a tape, at which a journal found it bad, if that was never
/// synced: one replacement by the whole records before it, which are synced then. Returns the
/// number of bytes dropped; none are if it is anything else, and nothing is changed. After `Device`
/// the tape is as it was or without them, after `Memory` as it was. A crash at each moment inside
/// the call leaves what reads as something that a crash could have left before it. A tape that
/// won't fail still won't, and doesn't.
#[tactic(auto, using(crate::proofs::Calls::never_there, crate::proofs::Calls::cause_on, crate::proofs::Calls::cause_on_err, wf_journal::proofs::CrashImages::same_unchanged, wf_journal::proofs::CrashImages::followed_on, wf_journal::proofs::CrashImages::unchanged_on))]
pub fn drop_unsynced<T: Tape>(
    alloc: Global,
    tape: &mut T,
    offset: usize,
) -> Result<usize, TapeFault>
    requires { T.durable → IsBadAt (T.content tape.old) offset }
    ensures count { T.durable → IsUnsynced (drop offset (T.content tape.old)) →
        IfOk result (λ count. count ≡ length (drop offset (T.content tape.old))) }
    ensures dropped { T.durable → IsUnsynced (drop offset (T.content tape.old)) → OnOk result
        (HoldsFront offset (T.content tape.old) (T.content tape.new) (T.images tape.new)) }
    ensures kept { T.durable → (IsUnsynced (drop offset (T.content tape.old)) → ⊥) →
        IfOk result (λ count. (count ≡ 0) × Stays T.Tape tape.old tape.new) }
    ensures same { T.durable → OnOk result (ReadsSame (T.content tape.old) (T.content tape.new)) }
    ensures images { T.durable → LeavesBy ReadsSame T.Tape tape.old tape.new }
    ensures memory { T.durable → IsErrOf result Memory → Stays T.Tape tape.old tape.new }
    ensures time { T.durable → GoesOn T.Tape tape.old tape.new }
    ensures inside { T.durable → LeavesInsideBy ReadsSame T.Tape tape.old tape.new }
    ensures cause { HasCause (T.failed tape.old) (T.failed tape.new) result }
    ensures sturdy { T.never_fails tape.old → T.never_fails tape.new }
    ensures sound { T.never_fails tape.old → IfErr result (λ fault. fault ≢ TapeFault.Device) }
{
    let bytes = match tape.read(alloc) {
        Ok(bytes) => bytes,
        Err(fault) => return Err(fault),
    };
    if !is_unsynced_at(&bytes, offset) {
        return Ok(0);
    }
    match keep_front(tape, &bytes, offset) {
        Ok(()) => Ok(bytes.len() - offset),
        Err(fault) => Err(fault),
    }
}

/// Replaces a tape, whose content is these bytes, by those before an offset at which they are bad.
#[tactic(auto, using(crate::proofs::Fronts::holds_front))]
fn keep_front<T: Tape>(tape: &mut T, bytes: &[u8], offset: usize) -> Result<(), TapeFault>
    requires within { offset ≤ length bytes.now }
    requires bad { T.durable → IsBadAt bytes.now offset }
    requires image { T.durable → T.images tape.old bytes.now }
    ensures kept { T.durable →
        OnOk result (HoldsFront offset bytes.now (T.content tape.new) (T.images tape.new)) }
    ensures same { T.durable → OnOk result (ReadsSame bytes.now (T.content tape.new)) }
    ensures images { T.durable → LeavesBy ReadsSame T.Tape tape.old tape.new }
    ensures memory { T.durable → IsErrOf result Memory → Stays T.Tape tape.old tape.new }
    ensures time { T.durable → GoesOn T.Tape tape.old tape.new }
    ensures inside { T.durable → LeavesInsideBy ReadsSame T.Tape tape.old tape.new }
    ensures cause { HasCause (T.failed tape.old) (T.failed tape.new) result }
    ensures sturdy { T.never_fails tape.old → T.never_fails tape.new }
    ensures sound { T.never_fails tape.old → IfErr result (λ fault. fault ≢ TapeFault.Device) }
{
    // Bytes are read as one list of records at most, so the front reads as all of them do.
    records_are_read_one_way();
    match tape.replace(bytes.split_at(offset).0) {
        Ok(()) => Ok(()),
        Err(fault) => Err(fault),
    }
}
