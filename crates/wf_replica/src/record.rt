//! The record of a published definition, as it is on tapes.

ghost use Rattle.std.specs.Prelude.{◌+◌, length, IfOk};
ghost use Rattle.wf_journal.specs.Encoding.{Spells};
ghost use Rattle.wf_model.specs.DurableState.{Published};

use std::alloc::{AllocError, Global};
use wf_ballot::Slot;
use wf_codec::Canon;

/// The version of records as they are written, and the kind of a published definition.
const HEADER: &[u8] = &[2, 4];

/// The bytes on a tape of the record that a definition is published. The only error is allocation
/// failure.
#[tactic(auto, unfolding(wf_frame::specs::Row::row_bytes, wf_journal::specs::Encoding::text_spelling, wf_ballot::specs::Field::frame))]
pub(crate) fn record_bytes(
    alloc: Global,
    slot: Slot,
    definition: &Canon,
) -> Result<Vec<u8>, AllocError>
    ensures { IfOk result (λ bytes. Spells (Published slot definition.now) bytes.items) }
{
    // A slot and a canonical text are within the limits of records.
    let _ = slot.number();
    let text = definition.text();
    let length = text.len() as u32 + 2;
    let mut bytes = Vec::new(alloc);
    bytes.extend_from_slice(HEADER)?;
    bytes.extend_from_slice(&length.to_be_bytes())?;
    bytes.extend_from_slice(&slot.bytes())?;
    bytes.extend_from_slice(text)?;
    Ok(bytes)
}
