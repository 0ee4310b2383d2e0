//! The listing of a tape's bytes.
ghost use Rattle.std.specs.Prelude.{◌≡◌, ◌<◌, ◌^◌, [], IfOk, OnOk, map};
ghost use Rattle.std.specs.String.{string_bytes};
ghost use Rattle.wf_listing.specs.Listing.{AreFound, IsListing, Prints, record_lines, rest_of};
ghost use Rattle.wf_journal.specs.Record.{view};
ghost use Rattle.wf_journal.specs.Records.{length_of};

use crate::line::{Rest, push_record, push_rest};
use crate::record_search::find;
use std::alloc::{AllocError, Global};
use wf_journal::Record;

/// The listing of a tape's bytes: a line for each whole record, the oldest first, and a line for
/// what follows them. Each line begins with a byte offset. The only error is allocation failure.
///
/// ```text
/// 0 tried 2
/// 10 promised 1 ballot (2, 0)
/// 23 accepted 1 ballot (2, 0) text 164
/// 200 published 1 text 164
/// 372 torn record, 5 bytes
/// ```
///
/// After its kind a record has its sequence, or the round that was tried; `text` is the number of
/// bytes of a definition's canonical text. The last line is `end`, `torn record` or
/// `P2 bad record`: nothing follows the records, the beginning of one, or bytes that are neither.
pub fn list(alloc: Global, bytes: &[u8]) -> Result<String, AllocError>
    ensures { IfOk result (λ text. IsListing bytes.now (string_bytes text)) }
{
    let (records, is_bad) = find(alloc, bytes)?;
    let mut out = String::new(alloc);
    let pushed = push_all(&mut out, bytes, &records, is_bad);
    drop(records);
    match pushed {
        Ok(()) => Ok(out),
        Err(error) => {
            drop(out);
            Err(error)
        }
    }
}

/// Appends the listing of bytes that begin with these records.
#[tactic(auto, using(crate::proofs::Lines::ends_within))]
fn push_all(
    out: &mut String,
    bytes: &[u8],
    records: &[Record],
    is_bad: bool,
) -> Result<(), AllocError>
    requires empty { string_bytes out.old ≡ [] }
    requires found { AreFound bytes.now (map view records.now) is_bad }
    requires size { length_of (map view records.now) < 2 ^ 64 }
    ensures { OnOk result (IsListing bytes.now (string_bytes out.new)) }
{
    let end = push_records(out, records)?;
    push_rest(
        out,
        end,
        bytes.len() - end,
        rest_of(end, bytes.len(), is_bad),
    )
}

/// Appends the lines of records that stand one after the other, the first of them at offset 0, and
/// returns the offset of what follows them.
fn push_records(out: &mut String, records: &[Record]) -> Result<usize, AllocError>
    requires { length_of (map view records.now) < 2 ^ 64 }
    ensures end { IfOk result (λ end. end ≡ length_of (map view records.now)) }
    ensures lines { OnOk result (Prints out.old out.new (record_lines 0 (map view records.now))) }
{
    let mut offset = 0;
    for entry in records {
        push_record(out, offset, entry)?;
        offset += entry.length();
    }
    Ok(offset)
}

/// What follows records that end at an offset, in that many bytes.
fn rest_of(end: usize, count: usize, is_bad: bool) -> Rest
    ensures { result ≡ rest_of end count is_bad }
{
    if is_bad {
        Rest::Bad
    } else if end < count {
        Rest::Torn
    } else {
        Rest::Nothing
    }
}
