//! A tape on a disk.

ghost use Rattle.std.specs.Prelude.{◌≡◌, true, [], IfOk, IfErr};
ghost use Rattle.wf_disk.specs.Moments.{LeavesNoOther, HasRisen};
ghost use Rattle.wf_tape.specs.DiskTape.{tape_fault, images_of, content_of, LeavesOnly};

use crate::calls;
use crate::fault::TapeFault;
use crate::tape::Tape;
use std::alloc::Global;
use std::io::ErrorKind;
use std::marker::Model;
use std::rt::Files;
use wf_disk::{Disk, DiskFault, Name, SystemDisk};

/// A tape in a file of the system. What such a disk holds is an assumption, so the tape isn't
/// durable.
pub type FileTape<R> = DiskTape<SystemDisk<R>>;

/// A tape on a disk: its content is that of the disk's own file, and a replacement writes the
/// second one. It is durable where the disk is. Model: the disk, whether its names are synced, and
/// whether a sync of its file can't be relied on.
#[derive(Drop)]
pub struct DiskTape<D: Disk> {
    disk: D,
    are_names_synced: bool,
    doubtful: bool,
}

impl<D: Disk> Model for DiskTape<D> {
    ghost use Rattle.wf_tape.specs.DiskTape.{DiskTape, IsKnownOfFolder};

    ghost Value = { DiskTape D };

    ghost view = { λ t. record { disk = t.disk; are_names_synced = t.are_names_synced; doubtful = t.doubtful } };

    ghost invariant = { λ t. D.durable → IsKnownOfFolder t.are_names_synced t.doubtful (D.folder t.disk) };
}

impl<R: Files + Drop> DiskTape<SystemDisk<R>> {
    /// The tape in the file at the path, which is created if it is absent. `replace` uses a second
    /// file beside it, whose name has `.new` appended; a leftover one doesn't matter. Returns
    /// `Device` if the file can't be opened or created.
    pub fn open(alloc: Global, files: R, path: &str) -> Result<FileTape<R>, TapeFault>
        ensures { IfOk result (λ tape. tape.disk.failures ≡ 0) }
    {
        match SystemDisk::new(alloc, files, path) {
            Ok(disk) => open_on(disk),
            Err(fault) => Err(tape_fault(fault)),
        }
    }

    /// The tape in the file at the path, which has to be there: no file is created at the path.
    /// Returns `Device` if the file is absent or can't be opened. Otherwise it is as
    /// [`FileTape::open`].
    pub fn open_existing(alloc: Global, files: R, path: &str) -> Result<FileTape<R>, TapeFault>
        ensures { IfOk result (λ tape. tape.disk.failures ≡ 0) }
    {
        match SystemDisk::existing(alloc, files, path) {
            Ok(disk) => open_on(disk),
            Err(fault) => Err(tape_fault(fault)),
        }
    }
}

/// The tape on a disk of the system.
fn open_on<R: Files + Drop>(disk: SystemDisk<R>) -> Result<FileTape<R>, TapeFault>
    ensures { IfOk result (λ tape. tape.disk.failures ≡ disk.failures) }
{
    match DiskTape::over(disk) {
        Ok(tape) => Ok(tape),
        Err((disk, fault)) => {
            drop(disk);
            Err(fault)
        }
    }
}

impl<D: Disk> DiskTape<D> {
    /// The tape on the disk, whose file is made if it is absent. Who had the file before isn't
    /// known, and a sync of it may have failed, so the tape is doubtful until its content is
    /// replaced. An error returns the disk.
    pub fn over(disk: D) -> Result<DiskTape<D>, (D, TapeFault)>
        ensures doubtful { IfOk result (λ tape. tape.doubtful ≡ true) }
        ensures names { D.durable → IfOk result (λ tape. (D.folder tape.disk).earlier ≡ []) }
        ensures content { D.durable →
            IfOk result (λ tape. content_of D.Disk tape.disk ≡ content_of D.Disk disk) }
        ensures content_err { D.durable →
            IfErr result (λ e. content_of D.Disk e.0 ≡ content_of D.Disk disk) }
        ensures images { D.durable → IfOk result
            (λ tape. LeavesNoOther (images_of D.Disk disk) (images_of D.Disk tape.disk)) }
        ensures images_err { D.durable → IfErr result
            (λ e. LeavesNoOther (images_of D.Disk disk) (images_of D.Disk e.0)) }
        ensures passes { D.durable → IfOk result
            (λ tape. LeavesOnly D.Disk (images_of D.Disk disk) disk tape.disk) }
        ensures passes_err { D.durable → IfErr result
            (λ e. LeavesOnly D.Disk (images_of D.Disk disk) disk e.0) }
        ensures failed { IfOk result (λ tape. D.failed tape.disk ≡ D.failed disk) }
        ensures cause { IfErr result
            (λ e. e.1 ≡ TapeFault.Device → HasRisen (D.failed disk) (D.failed e.0)) }
    {
        let mut disk = disk;
        match calls::open(&mut disk) {
            Ok(()) => Ok(DiskTape {
                disk,
                are_names_synced: true,
                doubtful: true,
            }),
            Err(fault) => Err((disk, tape_fault(fault))),
        }
    }

    /// Returns the disk unchanged.
    pub fn close(self) -> D
        ensures { result ≡ self.disk }
    {
        let DiskTape { disk, .. } = self;
        disk
    }
}

/// The tape's error for that of the disk.
fn tape_fault(fault: DiskFault) -> TapeFault
    ensures { result ≡ tape_fault fault }
{
    match fault {
        DiskFault::Device => TapeFault::Device,
        DiskFault::Memory => TapeFault::Memory,
    }
}

impl<D: Disk> Tape for DiskTape<D> {
    ghost use Rattle.wf_disk.specs.Folder.{MayLeave, bytes_in};

    ghost durable = { D.durable };

    ghost content = { λ t. bytes_in (D.folder t.disk).own };

    ghost images = { λ t. MayLeave (D.folder t.disk) };

    ghost failed = { λ t. D.failed t.disk };

    ghost said = { λ t. D.said t.disk };

    ghost doubtful = { λ t. t.doubtful };

    ghost moment = { λ t. D.moment t.disk };

    ghost left_since = { λ t. D.left_since t.disk };

    ghost certain_is_durable = { λ no. absurd no };

    ghost is_now = { λ durable t. D.is_now durable t.disk };

    ghost nested = { λ durable t. D.nested durable t.disk };

    fn read(&mut self, alloc: Global) -> Result<Vec<u8>, TapeFault> {
        match self.disk.read(alloc) {
            Ok(bytes) => Ok(bytes),
            Err(fault) => Err(tape_fault(fault)),
        }
    }

    fn append(&mut self, bytes: &[u8]) -> Result<(), TapeFault> {
        match self.disk.append(Name::Own, bytes) {
            Ok(()) => Ok(()),
            Err(fault) => Err(tape_fault(fault)),
        }
    }

    fn sync(&mut self) -> Result<(), TapeFault> {
        match calls::sync(&mut self.disk, self.are_names_synced) {
            Ok(()) => {
                self.are_names_synced = true;
                Ok(())
            }
            Err(fault) => {
                self.doubtful = true;
                Err(tape_fault(fault))
            }
        }
    }

    fn replace(&mut self, bytes: &[u8]) -> Result<(), TapeFault> {
        match calls::replace(&mut self.disk, bytes) {
            Ok(()) => {
                self.are_names_synced = true;
                self.doubtful = false;
                Ok(())
            }
            Err(DiskFault::Memory) => Err(TapeFault::Memory),
            // Which file has the own name isn't known, nor whether that is synced.
            Err(DiskFault::Device) => {
                self.are_names_synced = false;
                self.doubtful = true;
                Err(TapeFault::Device)
            }
        }
    }

    fn failures(&self) -> u64 {
        self.disk.failures()
    }

    fn cause(&self) -> Option<ErrorKind> {
        self.disk.cause()
    }

    fn is_doubtful(&self) -> bool {
        self.doubtful
    }
}
