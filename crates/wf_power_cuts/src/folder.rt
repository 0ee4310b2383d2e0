//! A folder on disks in memory.
ghost use Rattle.std.specs.Prelude.{◌≡◌, ◌∷◌, [], None, OnErr, OnOk, false};
ghost use Rattle.wf_power_cuts.specs.Disks.{AreCutsTold};
ghost use Rattle.wf_store.specs.Call.{IsAfter, OnlyReads, bytes_of, failed, failed_at, is_change, opened, opened_existing, read, replaced, unreplaced};

use crate::disks::Disks;
use std::alloc::{AllocError, Global};
use std::marker::Model;
use wf_disk::{DiskFault, MemoryDisk};
use wf_past::Past;
use wf_store::{CallKind, Calls, FileName};
use wf_tape::{DiskTape, TapeFault};

/// A folder on disks in memory, of one node's tape: a power cut leaves of its files what its calls
/// say. It has its disks, and what they were before each call is known in proofs alone.
#[derive(Drop)]
pub struct DiskStore {
    alloc: Global,
    bits: [u8; 16],
    disks: Disks,
    past: Past<Disks, ()>,
    calls: Calls,
}

impl Model for DiskStore {
    ghost use Rattle.wf_power_cuts.specs.Disks.{AreCutsTold, DiskFolder, past_of};

    ghost Value = { DiskFolder };

    ghost view = { λ s. record { disks = s.disks; past = past_of s.past.items; calls = s.calls } };

    ghost invariant = { λ s. AreCutsTold s.calls s.disks (past_of s.past.items) };
}

impl DiskStore {
    /// An empty folder for the tape of a node, which draws these random bits.
    pub fn new(alloc: Global, node: u8, bits: [u8; 16]) -> Self
        ensures calls { result.calls ≡ [] }
        ensures past { result.past ≡ [] }
    {
        DiskStore {
            alloc,
            bits,
            disks: Disks::new(alloc, node),
            past: Past::new(),
            calls: Calls::new(),
        }
    }

    /// What a power cut leaves is what the calls say: now, and at each moment so far. A theorem:
    /// the call does nothing.
    pub fn cuts_leave_what_calls_say(&self)
        ensures { AreCutsTold self.now.calls self.now.disks self.now.past }
    {
        let _ = self.disks.node();
    }

    /// Notes a call that changed no file.
    #[tactic(auto, using(crate::proofs::Noting::told_quiet))]
    pub(crate) fn note(&mut self, kind: CallKind)
        requires { is_change kind ≡ false }
        ensures all { self.new.calls ≡ record { kind = kind; bytes = None } ∷ self.old.calls }
        ensures reads { OnlyReads self.old.calls self.new.calls }
    {
        self.past = self.past.and(&self.disks, &());
        self.calls = self.calls.and(kind, &None);
    }

    /// The bytes of a file, before a call is noted. None: there is no such file. The only error is
    /// allocation failure.
    #[tactic(auto, using(crate::proofs::Noting::told_look))]
    pub(crate) fn look(&mut self, file: FileName) -> Result<Option<Vec<u8>>, AllocError>
        ensures { self.new.calls ≡ self.old.calls }
    {
        self.past = self.past.and(&self.disks, &());
        self.disks.read(self.alloc, file)
    }

    /// The number of files that are there, before a call is noted. One that can't be read for want
    /// of memory counts.
    pub(crate) fn count_files(&mut self) -> usize
        ensures { self.new.calls ≡ self.old.calls }
    {
        let tape = self.tape_name();
        let farm = self.is_there(FileName::Farm) as usize;
        let heard = self.is_there(FileName::Heard) as usize;
        let joins = self.is_there(FileName::Joins) as usize;
        let replaced = self.is_there(FileName::Replaced) as usize;
        let node_tape = self.is_there(tape) as usize;
        let replica_tape = self.is_there(FileName::ReplicaTape) as usize;
        farm + heard + joins + replaced + node_tape + replica_tape
    }

    /// The name of the tape of the node that it has a disk for.
    fn tape_name(&self) -> FileName {
        let node = self.disks.node();
        FileName::NodeTape(node)
    }

    /// Whether a file is there, before a call is noted.
    fn is_there(&mut self, file: FileName) -> bool
        ensures { self.new.calls ≡ self.old.calls }
    {
        match self.look(file) {
            Ok(found) => found.is_some(),
            Err(_) => true,
        }
    }

    /// The number of bytes of a file, before a call is noted. None: it isn't there, or can't be
    /// read for want of memory.
    pub(crate) fn length_of(&mut self, file: FileName) -> Option<u64>
        ensures { self.new.calls ≡ self.old.calls }
    {
        match self.look(file) {
            Ok(Some(bytes)) => Some(bytes.len() as u64),
            _ => None,
        }
    }

    /// The first bytes of a file, before a call is noted. None: there is no such file. The only
    /// error is allocation failure.
    pub(crate) fn first_bytes(
        &mut self,
        file: FileName,
        limit: usize,
    ) -> Result<Option<Vec<u8>>, AllocError>
        ensures { self.new.calls ≡ self.old.calls }
    {
        match self.look(file) {
            Ok(Some(mut bytes)) => {
                bytes.truncate(limit);
                Ok(Some(bytes))
            }
            Ok(None) => Ok(None),
            Err(error) => Err(error),
        }
    }

    /// The random bits that it draws.
    pub(crate) fn bits(&self) -> [u8; 16] {
        self.bits
    }

    /// Notes that these bytes of a file were read.
    pub(crate) fn note_read(&mut self, file: FileName, found: &Option<Vec<u8>>)
        ensures all { self.new.calls ≡ read file (bytes_of found.now) ∷ self.old.calls }
        ensures reads { OnlyReads self.old.calls self.new.calls }
    {
        self.past = self.past.and(&self.disks, &());
        self.calls = self.calls.and(CallKind::Reads(file), found);
    }

    /// Opens a file as a tape, and notes it; it is made if it is absent.
    pub(crate) fn open_tape(&mut self, file: FileName) -> Result<DiskTape<MemoryDisk>, TapeFault>
        ensures ok { OnOk result (self.new.calls ≡ opened file ∷ self.old.calls) }
        ensures err { OnErr result (self.new.calls ≡ failed_at file ∷ self.old.calls) }
        ensures after { IsAfter self.old.calls self.new.calls }
    {
        self.past = self.past.and(&self.disks, &());
        match self.disks.open(self.alloc, file) {
            Ok(tape) => {
                self.calls = self.calls.and(CallKind::Opens(file), &None);
                Ok(tape)
            }
            Err(fault) => {
                self.calls = self.calls.and(CallKind::FailsAt(file), &None);
                Err(fault)
            }
        }
    }

    /// Opens a file that is there as a tape, and notes it.
    pub(crate) fn open_tape_there(
        &mut self,
        file: FileName,
    ) -> Result<DiskTape<MemoryDisk>, TapeFault>
        ensures ok { OnOk result (self.new.calls ≡ opened_existing file ∷ self.old.calls) }
        ensures err { OnErr result (self.new.calls ≡ failed ∷ self.old.calls) }
        ensures after { IsAfter self.old.calls self.new.calls }
    {
        self.past = self.past.and(&self.disks, &());
        match self.disks.open(self.alloc, file) {
            Ok(tape) => {
                self.calls = self.calls.and(CallKind::OpensExisting(file), &None);
                Ok(tape)
            }
            Err(fault) => {
                self.calls = self.calls.and(CallKind::Fails, &None);
                Err(fault)
            }
        }
    }

    /// Replaces a file, and notes it.
    pub(crate) fn put(&mut self, file: FileName, bytes: Vec<u8>) -> Result<(), DiskFault>
        ensures ok { OnOk result (self.new.calls ≡ replaced file bytes.items ∷ self.old.calls) }
        ensures err { OnErr result (self.new.calls ≡ unreplaced file bytes.items ∷ self.old.calls) }
        ensures after { IsAfter self.old.calls self.new.calls }
    {
        self.past = self.past.and(&self.disks, &());
        match self.disks.replace(self.alloc, file, &bytes) {
            Ok(()) => {
                let given = Some(bytes);
                self.calls = self.calls.and(CallKind::Replaces(file), &given);
                drop(given);
                Ok(())
            }
            Err(fault) => {
                let given = Some(bytes);
                self.calls = self.calls.and(CallKind::FailsAt(file), &given);
                drop(given);
                Err(fault)
            }
        }
    }
}
