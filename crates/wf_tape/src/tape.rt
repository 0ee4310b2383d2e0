ghost use Rattle.std.specs.Prelude.{◌≡◌, ◌≢◌, ◌⊎◌, ◌++◌, List, ℕ, Bool, false, Option, None, IfOk, IfErr, OnOk, OnErr, IsErrOf};
ghost use Rattle.std.specs.declared.io.ErrorKind.{ErrorKind as ErrorKindValue};
ghost use Rattle.wf_tape.specs.declared.fault.TapeFault.{TapeFault};
ghost use Rattle.wf_tape.specs.declared.fault.TapeFault.TheVariants.{Device, Memory};
ghost use Rattle.wf_tape.specs.Tape.{Call, Read, Append, Sync, Replace, error_of, IsOnlyImage, IsUnchanged, LeavesNoOther, IsExtended, LeavesOldOr, LeavesOldOrCut, LeavesOldOrNew, Elapses, LeavesNow, AreNested, HasCause, IsNotMemory};

use crate::fault::TapeFault;
use std::alloc::Global;
use std::io::ErrorKind;

/// A tape: bytes that are appended to, synced and replaced as a whole. A crash may lose what isn't
/// synced yet.
///
/// Model: its content, its images (what a crash now may leave), what a crash at each earlier moment
/// could have left, those inside a call included, and the count of its failures. The contracts
/// about content, images and moments hold of a durable tape. Honesty is a property of the type, so
/// no call changes it. A tape may be doubtful (`is_doubtful`). Any tape has counted a failure if a
/// call returns `Device`. A tape may promise that its device won't fail (`never_fails`), and then
/// no call returns `Device`.
pub trait Tape {
    /// The tape holds what was written.
    ghost durable: { Type 0 };

    /// The tape is durable, and its device fails only where a failure was set. Of a tape that can't
    /// promise this it never holds.
    ghost certain: { Type 0 } = { ⊥ };

    /// The bytes that a read returns.
    ghost content: { Self → List ℕ };

    /// What a crash now may leave.
    ghost images: { Self → List ℕ → Type 0 };

    /// The number of times that the device has failed.
    ghost failed: { Self → ℕ };

    /// What the system said of the last failure. None: nothing.
    ghost said: { Self → Option ErrorKindValue } = { λ _. None };

    /// A sync that succeeds may leave bytes unsynced: an earlier one failed, or who had the tape
    /// before isn't known. Then a system may have dropped bytes that it didn't write. Only a
    /// replacement ends this. It never holds of a tape that loses no bytes so.
    ghost doubtful: { Self → Bool } = { λ _. false };

    /// The moment now, as a number that doesn't fall: each change of the tape ends a moment.
    ghost moment: { Self → ℕ } = { λ _. 0 };

    /// What a crash at this moment or a later one, up to now, could have left, inside a call or
    /// between two.
    ghost left_since: { Self → ℕ → List ℕ → Type 0 } = { λ _ _ _. ⊥ };

    /// The device won't fail: no call returns `Device` any more. Of a tape that can't promise this
    /// it never holds.
    ghost never_fails: { Self → Type 0 } = { λ _. ⊥ };

    /// What else is known of a call: the tape before it, the error it returned, if any, and the
    /// tape after it.
    ghost leaves: { Call → Self → Option TapeFault → Self → Type 0 } = { λ _ _ _ _. Unit {0} };

    /// The content, which is one of the images. Changes nothing, at no moment.
    fn read(&mut self, alloc: Global) -> Result<Vec<u8>, TapeFault>
        ensures ok { durable → IfOk result (λ bytes. bytes.items ≡ content self.old) }
        ensures image { durable → OnOk result (images self.old (content self.old)) }
        ensures same { durable →
            IsUnchanged (content self.old) (content self.new) (images self.old) (images self.new) }
        ensures time { durable → Elapses
            (moment self.old) (moment self.new) (left_since self.old) (left_since self.new) }
        ensures inside { durable →
            LeavesNoOther (images self.old) (left_since self.new (moment self.old)) }
        ensures cause { HasCause (failed self.old) (failed self.new) result }
        ensures sturdy { never_fails self.old → never_fails self.new }
        ensures sound { never_fails self.old → IfErr result (λ fault. fault ≢ Device) }
        ensures doubt { doubtful self.new ≡ doubtful self.old }
        ensures exact { leaves Read self.old (error_of result) self.new };

    /// Appends the bytes. Until they are synced a crash may leave any prefix of them, or what it
    /// could leave before; after `Device` a prefix of them may be there, and no more. A crash
    /// inside the call leaves what one could before it, or what one can after it.
    fn append(&mut self, bytes: &[u8]) -> Result<(), TapeFault>
        ensures ok { durable → OnOk result (content self.new ≡ content self.old ++ bytes.now) }
        ensures err { durable →
            OnErr result (IsExtended (content self.old) bytes.now (content self.new)) }
        ensures images { durable → IsNotMemory result →
            LeavesOldOrCut (content self.new) (images self.old) (images self.new) }
        ensures memory { durable → IsErrOf result Memory →
            IsUnchanged (content self.old) (content self.new) (images self.old) (images self.new) }
        ensures time { durable → Elapses
            (moment self.old) (moment self.new) (left_since self.old) (left_since self.new) }
        ensures inside { durable → LeavesOldOrNew
            (images self.old) (images self.new) (left_since self.new (moment self.old)) }
        ensures cause { HasCause (failed self.old) (failed self.new) result }
        ensures sturdy { never_fails self.old → never_fails self.new }
        ensures sound { never_fails self.old → IfErr result (λ fault. fault ≢ Device) }
        ensures doubt { doubtful self.new ≡ doubtful self.old }
        ensures exact { leaves (Append bytes.now) self.old (error_of result) self.new };

    /// After it a crash leaves exactly the content, unless the tape is doubtful; inside it, what
    /// one could before. Doesn't allocate.
    fn sync(&mut self) -> Result<(), TapeFault>
        ensures ok { durable → doubtful self.old ≡ false →
            OnOk result (IsOnlyImage (content self.new) (images self.new)) }
        ensures same { durable → content self.new ≡ content self.old }
        ensures images { durable → LeavesNoOther (images self.old) (images self.new) }
        ensures memory { IsNotMemory result }
        ensures time { durable → Elapses
            (moment self.old) (moment self.new) (left_since self.old) (left_since self.new) }
        ensures inside { durable →
            LeavesNoOther (images self.old) (left_since self.new (moment self.old)) }
        ensures cause { HasCause (failed self.old) (failed self.new) result }
        ensures sturdy { never_fails self.old → never_fails self.new }
        ensures sound { never_fails self.old → IfErr result (λ fault. fault ≢ Device) }
        ensures doubt { OnOk result (doubtful self.new ≡ doubtful self.old) }
        ensures exact { leaves Sync self.old (error_of result) self.new };

    /// Replaces the content by the bytes, all of them synced. After `Device` the content is the
    /// bytes, or that of before. A crash inside the call leaves what one could before it, or
    /// exactly the bytes.
    fn replace(&mut self, bytes: &[u8]) -> Result<(), TapeFault>
        ensures ok { durable → OnOk result (content self.new ≡ bytes.now) }
        ensures synced { durable → OnOk result (IsOnlyImage bytes.now (images self.new)) }
        ensures err { durable →
            OnErr result ((content self.new ≡ content self.old) ⊎ (content self.new ≡ bytes.now)) }
        ensures images { durable →
            OnErr result (LeavesOldOr bytes.now (images self.old) (images self.new)) }
        ensures memory { durable → IsErrOf result Memory →
            IsUnchanged (content self.old) (content self.new) (images self.old) (images self.new) }
        ensures time { durable → Elapses
            (moment self.old) (moment self.new) (left_since self.old) (left_since self.new) }
        ensures inside { durable →
            LeavesOldOr bytes.now (images self.old) (left_since self.new (moment self.old)) }
        ensures cause { HasCause (failed self.old) (failed self.new) result }
        ensures sturdy { never_fails self.old → never_fails self.new }
        ensures sound { never_fails self.old → IfErr result (λ fault. fault ≢ Device) }
        ensures sure { OnOk result (doubtful self.new ≡ false) }
        ensures doubt { IsErrOf result Memory → doubtful self.new ≡ doubtful self.old }
        ensures exact { leaves (Replace bytes.now) self.old (error_of result) self.new };

    /// The number of times that the device has failed. It saturates.
    fn failures(&self) -> u64
        ensures { result ≡ failed self.now };

    /// What the system said of the last failure of the device. None: it hasn't failed, or no system
    /// said why.
    fn cause(&self) -> Option<ErrorKind>
        ensures { result ≡ said self.now };

    /// Whether a sync can't be relied on, so that a replacement is due.
    fn is_doubtful(&self) -> bool
        ensures { result ≡ doubtful self.now };

    /// What is certain is durable.
    ghost certain_is_durable: { certain → durable };

    /// Since this moment there was no other.
    ghost is_now: { durable → (tape : Self) → LeavesNow (images tape) (left_since tape (moment tape)) };

    /// What could have been left since a moment, could since an earlier one.
    ghost nested: { durable → (tape : Self) → AreNested (left_since tape) };
}
