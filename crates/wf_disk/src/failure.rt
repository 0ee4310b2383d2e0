//! The calls of a disk on a folder in memory. Each fails where it is given how much it keeps.

ghost use Rattle.std.specs.Prelude.{◌≡◌, take, Some, IfOk, IfErr};
ghost use Rattle.wf_disk.specs.Folder.{bytes_in};
ghost use Rattle.wf_disk.specs.Call.{Open, Make, Append, Sync, Rename, SyncNames, Read, IsLeft, error_of};
ghost use Rattle.wf_disk.specs.MemoryDisk.{fault_after};

use crate::fault::DiskFault;
use crate::folder::{MemoryFolder, Name};
use std::alloc::Global;

/// Makes the own file if it is absent. If it fails, it has done so unless nothing is kept.
#[tactic(auto, using(crate::proofs::Failures::open_short))]
pub(crate) fn open(folder: &mut MemoryFolder, kept: Option<usize>) -> Result<(), DiskFault>
    ensures { IsLeft Open folder.old (error_of result) folder.new }
{
    match kept {
        None => folder.open(),
        Some(0) => Err(DiskFault::Device),
        Some(_) => fail_after(folder.open()),
    }
}

/// Makes the second file, or empties it. If it fails, it has done so unless nothing is kept.
pub(crate) fn make(folder: &mut MemoryFolder, kept: Option<usize>) -> Result<(), DiskFault>
    ensures { IsLeft Make folder.old (error_of result) folder.new }
{
    match kept {
        None => {
            folder.make();
            Ok(())
        }
        Some(0) => Err(DiskFault::Device),
        Some(_) => {
            folder.make();
            Err(DiskFault::Device)
        }
    }
}

/// Appends the bytes to a file. If it fails, it has appended the first of them, as many as are
/// kept.
#[tactic(auto, using(crate::proofs::Failures::append_short))]
pub(crate) fn append(
    folder: &mut MemoryFolder,
    name: Name,
    bytes: &[u8],
    kept: Option<usize>,
) -> Result<(), DiskFault>
    ensures { IsLeft (Append name bytes.now) folder.old (error_of result) folder.new }
{
    match kept {
        None => folder.append(name, bytes),
        Some(kept) => fail_after(folder.append(name, first(bytes, kept))),
    }
}

/// Syncs a file. If it fails, the file is doubtful.
pub(crate) fn sync(
    folder: &mut MemoryFolder,
    name: Name,
    kept: Option<usize>,
) -> Result<(), DiskFault>
    ensures left { IsLeft (Sync name) folder.old (error_of result) folder.new }
    ensures device { IfErr result (λ fault. fault ≡ DiskFault.Device) }
{
    match kept {
        None => folder.sync(name),
        Some(_) => {
            folder.doubt(name);
            Err(DiskFault::Device)
        }
    }
}

/// Gives the second file the own name. If it fails, it has done so unless nothing is kept.
#[tactic(auto, using(crate::proofs::Failures::rename_short))]
pub(crate) fn rename(folder: &mut MemoryFolder, kept: Option<usize>) -> Result<(), DiskFault>
    ensures { IsLeft Rename folder.old (error_of result) folder.new }
{
    match kept {
        None => folder.rename(),
        Some(0) => Err(DiskFault::Device),
        Some(_) => fail_after(folder.rename()),
    }
}

/// Syncs the names. If it fails, nothing has changed.
pub(crate) fn sync_names(folder: &mut MemoryFolder, kept: Option<usize>) -> Result<(), DiskFault>
    ensures left { IsLeft SyncNames folder.old (error_of result) folder.new }
    ensures device { IfErr result (λ fault. fault ≡ DiskFault.Device) }
{
    match kept {
        None => {
            folder.sync_names();
            Ok(())
        }
        Some(_) => Err(DiskFault::Device),
    }
}

/// The bytes of the own file.
pub(crate) fn read(
    folder: &MemoryFolder,
    alloc: Global,
    kept: Option<usize>,
) -> Result<Vec<u8>, DiskFault>
    ensures left { IsLeft Read folder.now (error_of result) folder.now }
    ensures ok { IfOk result (λ bytes. bytes.items ≡ bytes_in folder.now.own) }
{
    match kept {
        None => folder.read(alloc),
        Some(_) => Err(DiskFault::Device),
    }
}

/// The error of a call that fails after it has done what it is for, or after it couldn't.
fn fail_after(done: Result<(), DiskFault>) -> Result<(), DiskFault>
    ensures { error_of result ≡ Some (fault_after (error_of done)) }
{
    match done {
        Ok(()) => Err(DiskFault::Device),
        Err(fault) => Err(fault),
    }
}

/// The first bytes, or all of them if there are no more.
fn first(bytes: &[u8], count: usize) -> &[u8]
    ensures { result.now ≡ take count bytes.now }
{
    if count < bytes.len() {
        bytes.split_at(count).0
    } else {
        bytes
    }
}
