ghost use Rattle.std.specs.Prelude.{◌≡◌, ◌++◌, map, OnOk, IfOk};
ghost use Rattle.wf_journal.specs.Record.{view, IsRecord};
ghost use Rattle.wf_journal.specs.Records.{AreWritten};
ghost use Rattle.wf_journal.specs.Encoding.{spelling, Spells};

use crate::decoder::HEADER_BYTES;
use crate::record::Record;
use crate::version::Version;
use arrayvec::ArrayVec;
use std::alloc::{AllocError, Global};
use wf_frame::{put, put_header};

/// The record's encoding.
pub fn encode(alloc: Global, entry: &Record) -> Result<Vec<u8>, AllocError>
    ensures { IfOk result (λ bytes. Spells (view entry.now) bytes.items) }
{
    let mut bytes = Vec::new(alloc);
    push(&mut bytes, entry)?;
    Ok(bytes)
}

/// The encodings of the records, one after the other.
pub fn encode_all(alloc: Global, records: &[Record]) -> Result<Vec<u8>, AllocError>
    ensures { IfOk result (λ bytes. AreWritten bytes.items (map view records.now)) }
{
    let mut bytes = Vec::new(alloc);
    for entry in records {
        push(&mut bytes, entry)?;
    }
    Ok(bytes)
}

/// Appends the record's encoding.
fn push(out: &mut Vec<u8>, entry: &Record) -> Result<(), AllocError>
    ensures is_record { IsRecord (view entry.now) }
    ensures spelled { OnOk result (out.new.items ≡ out.old.items ++ spelling (view entry.now)) }
{
    let mut fields = ArrayVec::new();
    let (kind, text) = entry.put_fields(&mut fields);
    let length = fields.len() + text.len();
    out.reserve(HEADER_BYTES + length)?;
    put_header(out, Version::current().byte(), kind, length);
    put(out, fields.as_slice());
    put(out, text);
    Ok(())
}
