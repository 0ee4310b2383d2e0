//! The records of bytes.
ghost use Rattle.std.specs.Prelude.{◌<◌, ◌^◌, true, IfErr, IfOk, IsErrOf, map};
ghost use Rattle.wf_listing.specs.Listing.{AreFound};
ghost use Rattle.wf_journal.specs.Journal.{IsWhereBad};
ghost use Rattle.wf_journal.specs.Record.{view};
ghost use Rattle.wf_journal.specs.Records.{IsTapeOf, length_of};

use std::alloc::{AllocError, Global};
use wf_journal::{Found, OpenFault, Record, records_are_read_one_way};
use wf_tape::MemoryTape;

/// The whole records that bytes begin with, the oldest first, and whether what follows them is bad.
pub(crate) fn find(alloc: Global, bytes: &[u8]) -> Result<(Vec<Record>, bool), AllocError>
    ensures found { IfOk result (λ x. AreFound bytes.now (map view x.0.items) x.1) }
    ensures size { IfOk result (λ x. length_of (map view x.0.items) < 2 ^ 64) }
{
    match read(alloc, bytes) {
        Ok(records) => Ok((records, false)),
        Err(OpenFault::BadRecord(offset)) => match before(alloc, bytes, offset) {
            Ok(records) => Ok((records, true)),
            Err(AllocError) => Err(AllocError),
        },
        Err(OpenFault::Memory) => Err(AllocError),
        Err(OpenFault::TapeFailed) => unreachable!(),
    }
}

/// The records before the offset at which bytes are bad.
fn before(alloc: Global, bytes: &[u8], offset: usize) -> Result<Vec<Record>, AllocError>
    requires { IsWhereBad (OpenFault.BadRecord offset) bytes.now }
    ensures found { IfOk result (λ records. AreFound bytes.now (map view records.items) true) }
    ensures size { IfOk result (λ records. length_of (map view records.items) < 2 ^ 64) }
{
    // Bytes are read as one list of records at most, so these are all that stand before the bad
    // ones, and none of these is bad.
    records_are_read_one_way();
    match read(alloc, bytes.split_at(offset).0) {
        Ok(records) => Ok(records),
        Err(OpenFault::Memory) => Err(AllocError),
        Err(OpenFault::BadRecord(_)) => unreachable!(),
        Err(OpenFault::TapeFailed) => unreachable!(),
    }
}

/// The records of bytes that nothing or a torn record follows, as a node reads them.
fn read(alloc: Global, bytes: &[u8]) -> Result<Vec<Record>, OpenFault>
    ensures read { IfOk result (λ records. (rest : _) ×
        IsTapeOf bytes.now (map view records.items) rest) }
    ensures size { IfOk result (λ records. length_of (map view records.items) < 2 ^ 64) }
    ensures bad { IfErr result (λ fault. IsWhereBad fault bytes.now) }
    ensures sound { IsErrOf result OpenFault.TapeFailed → ⊥ }
{
    let Ok(content) = bytes.to_vec(alloc) else {
        return Err(OpenFault::Memory);
    };
    match Found::read(alloc, MemoryTape::new(content)) {
        Ok((found, records)) => {
            drop(found);
            Ok(records)
        }
        Err((tape, fault)) => {
            drop(tape);
            Err(fault)
        }
    }
}
