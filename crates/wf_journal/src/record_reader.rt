ghost use Rattle.std.specs.Prelude.{◌≡◌, ◌≢◌, [], map, IfOk, IfErr, IsErrOf};
ghost use Rattle.wf_journal.specs.Record.{view};
ghost use Rattle.wf_journal.specs.Records.{IsTorn, IsBad, BeginsWithNone};
ghost use Rattle.wf_journal.specs.Front.{TakesOne, HasRead};
ghost use Rattle.wf_journal.specs.Stages.{IsFaultOfBytes};
ghost use Rattle.wf_journal.specs.Journal.{IsWhereBad};

use crate::decoder::decode;
use crate::fault::RecordFault;
use crate::open_error::OpenFault;
use crate::record::Record;
use std::alloc::Global;

/// The records of the bytes, the oldest first, and their length in bytes. What follows them is
/// nothing or a torn record; anything else is a bad record.
#[tactic(auto, using(crate::proofs::Lists::takes_one, crate::proofs::Lists::takes_less, crate::proofs::Lists::all_read, crate::proofs::Lists::bad_there, crate::proofs::Lists::none_begins_nothing, crate::proofs::Lists::rest_within))]
pub fn read_records(alloc: Global, bytes: &[u8]) -> Result<(Vec<Record>, usize), OpenFault>
    ensures ok { IfOk result (λ x. HasRead bytes.now (map view x.0.items) x.1) }
    ensures bad { IfErr result (λ fault. IsWhereBad fault bytes.now) }
    ensures sound { IsErrOf result OpenFault.TapeFailed → ⊥ }
{
    let mut records = Vec::new(alloc);
    let mut rest = bytes;
    while !rest.is_empty() {
        match read_next(alloc, &mut records, rest) {
            Ok(length) => rest = rest.split_at(length).1,
            Err(RecordFault::Torn) => return Ok((records, bytes.len() - rest.len())),
            Err(RecordFault::Memory) => return Err(OpenFault::Memory),
            Err(RecordFault::Bad | RecordFault::NotCanonical) => {
                return Err(OpenFault::BadRecord(bytes.len() - rest.len()));
            }
        }
    }
    Ok((records, bytes.len() - rest.len()))
}

/// Appends the record at the front of the bytes to the records, and returns its length.
fn read_next(alloc: Global, records: &mut Vec<Record>, bytes: &[u8]) -> Result<usize, RecordFault>
    ensures ok { IfOk result (λ n.
        TakesOne bytes.now n (map view records.old.items) (map view records.new.items)) }
    ensures err { IfErr result (λ _. records.new.items ≡ records.old.items) }
    ensures torn { IsErrOf result RecordFault.Torn → bytes.now ≢ [] → IsTorn bytes.now }
    ensures none_yet { IsErrOf result RecordFault.Torn → BeginsWithNone bytes.now }
    ensures bad { IfErr result (λ fault. IsFaultOfBytes fault → bytes.now ≢ [] → IsBad bytes.now) }
{
    let (record, length) = decode(alloc, bytes)?;
    match records.push(record) {
        Ok(()) => Ok(length),
        Err(_) => Err(RecordFault::Memory),
    }
}
