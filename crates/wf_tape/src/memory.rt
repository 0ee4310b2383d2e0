ghost use Rattle.std.specs.Prelude.{◌≡◌, ◌+◌, ◌≤◌, [], length, take, None, IfOk, IfErr, OnOk, OnErr, ◌-◌, ◌^◌, min, IfSome};
ghost use Rattle.wf_tape.specs.Fuse.{fuse_at, count_down, burn, burn_at};
ghost use Rattle.wf_tape.specs.MemoryTape.{IsCalled, risen, with_fuse, counted, failed_once, appended, replaced, settled};
ghost use Rattle.wf_tape.specs.Tape.{Read, Append, Sync, Replace, error_of};

use crate::fault::TapeFault;
use crate::tape::Tape;
use std::alloc::Global;
use std::io::ErrorKind;
use std::marker::Model;
use std::mem;

/// An earlier state of a tape in memory, as what it takes to go back to it from the one after it:
/// what the content was, and how many bytes of it were synced.
#[derive(Drop)]
pub enum Earlier {
    /// So many first bytes of the content after it; the number of them that were synced.
    Front(usize, usize),
    /// These bytes, which were replaced; the number of them that were synced.
    Replaced(Vec<u8>, usize),
}

/// A failure that a tape in memory will have: that of the call after so many that it lets pass.
#[derive(Clone, Copy)]
pub struct Fuse {
    /// The number of calls before the one that fails.
    pub before: usize,
    /// How many bytes an append that fails keeps of the new ones; whether a replacement that fails
    /// has the new content.
    pub kept: usize,
}

/// A tape in memory. It is durable, and its device fails only where a failure was set (`set_fuse`).
/// It keeps notes on its changes since it was made or crashed, so that what a crash at each earlier
/// moment could have left is known.
pub struct MemoryTape {
    bytes: Vec<u8>,
    // the number of synced bytes
    synced: usize,
    // the earlier states, the latest last; while some bytes aren't synced there is room for one
    // more, that of the sync
    earlier: Vec<Earlier>,
    // the failure that is set
    fuse: Option<Fuse>,
    // the number of failures so far
    failures: u64,
}

// Written by hand: callers then prove one call where they drop a tape, not one for each part.
impl Drop for MemoryTape {
    fn drop(self) {
        let MemoryTape {
            bytes,
            synced: _,
            earlier,
            fuse: _,
            failures: _,
        } = self;
        drop(bytes);
        drop(earlier);
    }
}

impl Model for MemoryTape {
    ghost use Rattle.std.specs.Prelude.{length, reverse, ◌≤◌, ◌<◌, vec_len, vec_capacity};
    ghost use Rattle.wf_tape.specs.MemoryTape.{TapeValue, states_before};

    ghost Value = { TapeValue };

    ghost view = { λ t. record { bytes = t.bytes.items; synced = t.synced; past = states_before t.bytes.items (reverse t.earlier.items); fuse = t.fuse; failures = t.failures } };

    ghost invariant = { λ t. (t.synced ≤ length t.bytes.items) × (t.synced < length t.bytes.items → vec_len t.earlier < vec_capacity t.earlier) };
}

impl MemoryTape {
    /// A tape with these bytes, all of them synced.
    #[tactic(auto, unfolding(crate::specs::MemoryTape::states_before))]
    pub fn new(bytes: Vec<u8>) -> MemoryTape
        ensures { result ≡ record {
          bytes = bytes.items;
          synced = length bytes.items;
          past = [];
          fuse = None;
          failures = 0;
        } }
    {
        let synced = bytes.len();
        let earlier = Vec::new(*bytes.allocator());
        MemoryTape {
            bytes,
            synced,
            earlier,
            fuse: None,
            failures: 0,
        }
    }

    /// The content of the tape.
    pub fn bytes(&self) -> &[u8]
        ensures { result.now ≡ self.now.bytes }
    {
        &self.bytes
    }

    /// A crash: the synced bytes are kept and at most `keep` bytes of the rest; all that is kept is
    /// then synced. No earlier state is known any more.
    #[tactic(auto, unfolding(crate::specs::MemoryTape::states_before))]
    pub fn crash(&mut self, keep: usize)
        ensures bytes { self.new.bytes ≡ take (self.old.synced + keep) self.old.bytes }
        ensures synced { self.new.synced ≡ length self.new.bytes }
        ensures past { self.new.past ≡ [] }
        ensures fuse { self.new.fuse ≡ self.old.fuse }
        ensures failures { self.new.failures ≡ self.old.failures }
    {
        self.earlier.clear();
        self.bytes.truncate(self.synced.saturating_add(keep));
        self.synced = self.bytes.len();
    }

    /// Sets a failure: the `call`-th call of `read`, `append`, `sync` or `replace` from now,
    /// counted from 1, fails once. An append that fails keeps `kept` bytes of the new ones, at most
    /// all of them, and none of those is synced. A replacement that fails keeps the old content if
    /// `kept` is 0, and has the new one otherwise. A read or a sync that fails changes nothing. A
    /// call in which an allocation fails counts too, and if it is the `call`-th the device doesn't
    /// fail. Call 0 sets no failure. A failure that was set before and that no call has reached is
    /// no longer set.
    pub fn set_fuse(&mut self, call: usize, kept: usize)
        ensures { self.new ≡ with_fuse call kept self.old }
    {
        self.fuse = fuse_at(call, kept);
    }

    /// The number of the call that will fail, counted from 1 from now; 0 if no failure is set.
    pub fn fuse(&self) -> usize
        ensures none { self.now.fuse ≡ None → result ≡ 0 }
        ensures some { IfSome self.now.fuse (λ fuse. result ≡ min (fuse.before + 1) (2 ^ 64 - 1)) }
    {
        match self.fuse {
            None => 0,
            Some(fuse) => fuse.before.saturating_add(1),
        }
    }

    /// Counts a call. If the failure that is set is this call's, returns how much it keeps.
    fn count_call(&mut self) -> Option<usize>
        ensures kept { result ≡ burn self.old.fuse }
        ensures counted { self.new ≡ counted self.old }
    {
        let fuse = self.fuse;
        self.fuse = count_down(fuse);
        burn(fuse)
    }

    /// Counts a failure of the device.
    fn fail(&mut self) -> TapeFault
        ensures fault { result ≡ TapeFault.Device }
        ensures counted { self.new ≡ failed_once self.old }
    {
        self.failures = risen(self.failures);
        TapeFault::Device
    }

    /// Appends the bytes, and notes the state before. An allocation failure leaves the tape as it
    /// was.
    fn extend(&mut self, bytes: &[u8]) -> Result<(), TapeFault>
        ensures ok { OnOk result (self.new ≡ appended self.old bytes.now) }
        ensures err { OnErr result (self.new ≡ self.old) }
        ensures memory { IfErr result (λ fault. fault ≡ TapeFault.Memory) }
        ensures within { self.old.synced ≤ length self.old.bytes }
    {
        // One for this change, and one for the sync that follows it.
        self.earlier.reserve(2)?;
        let length = self.bytes.len();
        self.bytes.extend_from_slice(bytes)?;
        self.earlier
            .push_reserved(Earlier::Front(length, self.synced));
        Ok(())
    }

    /// Syncs all bytes, and notes the state before if it was another.
    fn settle(&mut self)
        ensures settled { self.new ≡ settled self.old }
        ensures within { self.old.synced ≤ length self.old.bytes }
    {
        let length = self.bytes.len();
        if self.synced < length {
            self.earlier
                .push_reserved(Earlier::Front(length, self.synced));
            self.synced = length;
        }
    }

    /// Makes these bytes the content, all of them synced, and notes the state before. An allocation
    /// failure leaves the tape as it was.
    fn put(&mut self, bytes: &[u8]) -> Result<(), TapeFault>
        ensures ok { OnOk result (self.new ≡ replaced self.old bytes.now) }
        ensures err { OnErr result (self.new ≡ self.old) }
        ensures memory { IfErr result (λ fault. fault ≡ TapeFault.Memory) }
    {
        self.earlier.reserve(1)?;
        let content = bytes.to_vec(*self.bytes.allocator())?;
        let replaced = mem::replace(&mut self.bytes, content);
        self.earlier
            .push_reserved(Earlier::Replaced(replaced, self.synced));
        self.synced = self.bytes.len();
        Ok(())
    }

    /// Reads the content, unless the failure that is set is this call's.
    #[tactic(auto, using(crate::proofs::Called::called_done, crate::proofs::Called::called_short, crate::proofs::Called::called_cut))]
    fn read_or_fail(&mut self, alloc: Global) -> Result<Vec<u8>, TapeFault>
        ensures called { IsCalled Read self.old (error_of result) self.new }
        ensures ok { IfOk result (λ bytes. bytes.items ≡ self.old.bytes) }
    {
        match self.count_call() {
            None => match self.bytes().to_vec(alloc) {
                Ok(bytes) => Ok(bytes),
                Err(_) => Err(TapeFault::Memory),
            },
            Some(_) => Err(self.fail()),
        }
    }

    /// Appends the bytes, or as many of them as are kept if the failure that is set is this call's.
    #[tactic(auto, using(crate::proofs::Called::called_sound, crate::proofs::Called::called_lost, crate::proofs::Called::called_kept))]
    fn append_or_fail(&mut self, bytes: &[u8]) -> Result<(), TapeFault>
        ensures called { IsCalled (Append bytes.now) self.old (error_of result) self.new }
        ensures within { self.old.synced ≤ length self.old.bytes }
    {
        match self.count_call() {
            None => self.extend(bytes),
            Some(kept) => match self.extend(first(bytes, kept)) {
                Ok(()) => Err(self.fail()),
                Err(fault) => Err(fault),
            },
        }
    }

    /// Syncs all bytes, unless the failure that is set is this call's.
    #[tactic(auto, using(crate::proofs::Called::called_done, crate::proofs::Called::called_cut))]
    fn sync_or_fail(&mut self) -> Result<(), TapeFault>
        ensures called { IsCalled Sync self.old (error_of result) self.new }
        ensures within { OnOk result (self.old.synced ≤ length self.old.bytes) }
        ensures memory { IfErr result (λ fault. fault ≡ TapeFault.Device) }
    {
        match self.count_call() {
            None => {
                self.settle();
                Ok(())
            }
            Some(_) => Err(self.fail()),
        }
    }

    /// Replaces the content. If the failure that is set is this call's, it does so unless nothing
    /// is kept.
    #[tactic(auto, using(crate::proofs::Called::called_sound, crate::proofs::Called::called_lost, crate::proofs::Called::called_replaced, crate::proofs::Called::called_unreplaced))]
    fn replace_or_fail(&mut self, bytes: &[u8]) -> Result<(), TapeFault>
        ensures called { IsCalled (Replace bytes.now) self.old (error_of result) self.new }
    {
        match self.count_call() {
            None => self.put(bytes),
            Some(kept) => {
                if kept == 0 {
                    return Err(self.fail());
                }
                match self.put(bytes) {
                    Ok(()) => Err(self.fail()),
                    Err(fault) => Err(fault),
                }
            }
        }
    }
}

/// The failure of the call with this number from now, counted from 1.
fn fuse_at(call: usize, kept: usize) -> Option<Fuse>
    ensures { result ≡ fuse_at call kept }
{
    if call == 0 {
        return None;
    }
    Some(Fuse {
        before: call - 1,
        kept,
    })
}

/// The failure that is set after a call.
fn count_down(fuse: Option<Fuse>) -> Option<Fuse>
    ensures { result ≡ count_down fuse }
{
    match fuse {
        Some(fuse) => fuse_at(fuse.before, fuse.kept),
        None => None,
    }
}

/// How much the next call keeps, if the failure that is set is that call's.
fn burn(fuse: Option<Fuse>) -> Option<usize>
    ensures { result ≡ burn fuse }
{
    match fuse {
        Some(fuse) => burn_at(fuse.before, fuse.kept),
        None => None,
    }
}

/// How much the next call keeps, if a failure that comes after so many calls is that call's.
fn burn_at(before: usize, kept: usize) -> Option<usize>
    ensures { result ≡ burn_at before kept }
{
    if before == 0 { Some(kept) } else { None }
}

/// The count of failures with one more, which stays at its highest.
fn risen(count: u64) -> u64
    ensures { result ≡ risen count }
{
    if count == u64::MAX { count } else { count + 1 }
}

/// The first bytes, or all of them if there are no more.
fn first(bytes: &[u8], count: usize) -> &[u8]
    ensures { result.now ≡ take count bytes.now }
{
    if count < bytes.len() {
        bytes.split_at(count).0
    } else {
        bytes
    }
}

impl Tape for MemoryTape {
    ghost use Rattle.wf_tape.specs.MemoryTape.{IsImageNow, moment_of, IsLeftSince, NeverFails, IsCalled};
    ghost use Rattle.wf_tape.specs.MemoryMoments.{memory_now, memory_nested};

    ghost durable = { Unit {0} };

    ghost certain = { Unit {0} };

    ghost content = { λ t. t.bytes };

    ghost images = { IsImageNow };

    ghost failed = { λ t. t.failures };

    ghost moment = { moment_of };

    ghost left_since = { IsLeftSince };

    ghost never_fails = { NeverFails };

    ghost leaves = { IsCalled };

    ghost certain_is_durable = { λ certain. certain };

    ghost is_now = { λ _. memory_now };

    ghost nested = { λ _. memory_nested };

    fn read(&mut self, alloc: Global) -> Result<Vec<u8>, TapeFault> {
        self.read_or_fail(alloc)
    }

    fn append(&mut self, bytes: &[u8]) -> Result<(), TapeFault> {
        self.append_or_fail(bytes)
    }

    fn sync(&mut self) -> Result<(), TapeFault> {
        self.sync_or_fail()
    }

    fn replace(&mut self, bytes: &[u8]) -> Result<(), TapeFault> {
        self.replace_or_fail(bytes)
    }

    fn failures(&self) -> u64 {
        self.failures
    }

    fn cause(&self) -> Option<ErrorKind> {
        None
    }

    fn is_doubtful(&self) -> bool {
        false
    }
}
