ghost use Rattle.std.specs.Prelude.{◌≡◌, ◌≢◌, [], IfOk, IfErr, IsErrOf};
ghost use Rattle.wf_journal.specs.Record.{view};
ghost use Rattle.wf_journal.specs.Records.{IsTorn, IsBad, BeginsWithNone};
ghost use Rattle.wf_frame.specs.Frame.{frame_front};
ghost use Rattle.wf_journal.specs.Encoding.{format};
ghost use Rattle.wf_journal.specs.Stages.{record_fault, ReadsText, IsRecordValidated, IsFaultOfBytes};
ghost use Rattle.wf_journal.specs.Front.{BeginsWith};

use crate::fault::RecordFault;
use crate::format::RecordFormat;
use crate::record::Record;
use std::alloc::Global;
use wf_canon::{Canon, CanonFault, MOST_CANON_BYTES};
use wf_frame::{FrameFault, split_frame};

/// The number of bytes before a record's body: its version, its kind and the body's length.
pub const HEADER_BYTES: usize = wf_frame::HEADER_BYTES;

/// The most bytes of a body: those of a vote for the longest text.
pub const BODY_BYTES: usize = 7 + MOST_CANON_BYTES;

/// The record at the front of the bytes, and its length in bytes. What follows isn't looked at.
pub fn decode(alloc: Global, bytes: &[u8]) -> Result<(Record, usize), RecordFault>
    ensures read { IfOk result (λ x. BeginsWith bytes.now (view x.0) x.1) }
    ensures torn { IsErrOf result RecordFault.Torn → bytes.now ≢ [] → IsTorn bytes.now }
    ensures none_yet { IsErrOf result RecordFault.Torn → BeginsWithNone bytes.now }
    ensures bad { IfErr result (λ fault. IsFaultOfBytes fault → bytes.now ≢ [] → IsBad bytes.now) }
{
    validate(alloc, bytes)
}

fn validate(alloc: Global, bytes: &[u8]) -> Result<(Record, usize), RecordFault>
    ensures { IsRecordValidated view result (frame_front format bytes.now) }
{
    let (_, kind, body) = match split_frame::<RecordFormat>(bytes) {
        Ok(frame) => frame,
        Err(fault) => return Err(record_fault(fault)),
    };
    let length = body.len();
    let record = Record::read(alloc, kind, body)?;
    Ok((record, HEADER_BYTES + length))
}

/// The decoder's error for that of the frame.
fn record_fault(fault: FrameFault) -> RecordFault
    ensures { result ≡ record_fault fault }
{
    match fault {
        FrameFault::Short => RecordFault::Torn,
        FrameFault::BadVersion
        | FrameFault::BadKind
        | FrameFault::TooLong
        | FrameFault::BadLength => RecordFault::Bad,
    }
}

/// The definition of a canonical text.
pub(crate) fn canon_of(alloc: Global, text: &[u8]) -> Result<Canon, RecordFault>
    ensures { ReadsText result text.now }
{
    match Canon::from_bytes(alloc, text) {
        Ok(canon) => Ok(canon),
        Err(CanonFault::Memory) => Err(RecordFault::Memory),
        Err(CanonFault::TooBig | CanonFault::NotCanonical) => Err(RecordFault::NotCanonical),
    }
}
