//! The check of a file.
ghost use Rattle.std.specs.Prelude.{◌≡◌, ◌≤◌, false, length, IfNone, IfOk, IfSome};
ghost use Rattle.wf_block.specs.ReadContract.{is_memory};
ghost use Rattle.wf_check.specs.Finding.{IsFinding, IsOffsetOf, IsPublishable, IsWhy};
ghost use Rattle.wf_check.specs.Finding.{NoneIsBoth, offset_of};
ghost use Rattle.wf_mapfile.specs.Rejection.{HasError};

use crate::fault::CheckFault;
use crate::finding::Finding;
use crate::line::NumberedLine;
use crate::place::last_block;
use std::alloc::{AllocError, Global};
use wf_block::{MapFault, Place};
use wf_mapfile::{MOST_MAPFILE_BYTES, Rejection, read_with_place};
use wf_spelling::{MOST_CANON_BYTES, text_length};

/// Checks a file: `None` if it is a map whose canonical text is within the limit, so that a farm
/// publishes it; else the first error from the left, with its line. The only error of the check
/// itself is allocation failure.
pub fn check<'a>(alloc: Global, bytes: &'a [u8]) -> Result<Option<Finding<'a>>, AllocError>
    ensures fine { IfOk result (λ found. IfNone found (IsPublishable bytes.now)) }
    ensures found { IfOk result (λ found. IfSome found (IsFinding bytes.now)) }
{
    match read_with_place(alloc, bytes) {
        Ok(map) => {
            let length = text_length(alloc, &map);
            drop(map);
            if length <= MOST_CANON_BYTES {
                return Ok(None);
            }
            let offset = last_block(alloc, CheckFault::TooBig, bytes)?;
            Ok(Some(finding(bytes, CheckFault::TooBig, Place::front(), offset)))
        }
        Err(rejection) => Ok(Some(found(alloc, bytes, rejection)?)),
    }
}

/// The finding of an error of the reader.
fn found<'a>(
    alloc: Global,
    bytes: &'a [u8],
    rejection: Rejection,
) -> Result<Finding<'a>, AllocError>
    requires { is_memory rejection.fault ≡ false → HasError bytes.now rejection.fault }
    ensures { IfOk result (IsFinding bytes.now) }
{
    match rejection.fault {
        MapFault::Memory => Err(AllocError),
        fault => {
            let offset = offset_in(alloc, bytes, fault)?;
            Ok(finding(bytes, CheckFault::Map(fault), rejection.place, offset))
        }
    }
}

/// Bytes with an error aren't publishable. A theorem: the call does nothing.
pub fn no_map_with_an_error_is_publishable()
    ensures { NoneIsBoth }
{}

/// The offset of an error of the reader in the bytes.
fn offset_in(alloc: Global, bytes: &[u8], fault: MapFault) -> Result<usize, AllocError>
    ensures within { IfOk result (λ offset. offset ≤ length bytes.now) }
    ensures is { IfOk result (IsOffsetOf bytes.now (CheckFault.Map fault)) }
{
    match offset_of(fault) {
        Some(offset) => Ok(offset.min(bytes.len())),
        None => last_block(alloc, CheckFault::Map(fault), bytes),
    }
}

/// The finding of an error at an offset.
fn finding<'a>(bytes: &'a [u8], fault: CheckFault, place: Place, offset: usize) -> Finding<'a>
    requires within { offset ≤ length bytes.now }
    requires why { IsWhy bytes.now fault }
    requires offset { IsOffsetOf bytes.now fault offset }
    ensures { IsFinding bytes.now result }
{
    Finding {
        fault,
        file: bytes,
        offset,
        place,
        line: NumberedLine::at(bytes, offset),
    }
}

/// The byte offset of an error, if it has one.
#[tactic(auto, unfolding(crate::specs::Finding::offset_of))]
fn offset_of(fault: MapFault) -> Option<usize>
    ensures { result ≡ offset_of fault }
{
    match fault {
        MapFault::TooLong => Some(MOST_MAPFILE_BYTES),
        _ => fault.byte_offset(),
    }
}
