//! Whole canonical texts.

ghost use Rattle.std.specs.Prelude.{◌≡◌, ◌≤◌, length, IfOk, IfErr, OnOk};
ghost use Rattle.wf_def.specs.Limits.{IsWithinLimits};
ghost use Rattle.wf_spelling.specs.Canon.{canon, most_canon_bytes, IsCauseOf};

use crate::draft::Draft;
use crate::fault::CanonFault;
use crate::writer::push_map;
use std::alloc::{AllocError, Global};
use wf_def::MapDef;

/// The longest canonical text, in bytes.
pub const MOST_CANON_BYTES: usize = 65_536;

/// The canonical text of a definition, within the limit, in a buffer that begins with this room.
/// Beyond that room bytes are counted before memory for them is allocated.
pub fn text_of(alloc: Global, def: &MapDef, room: usize) -> Result<Vec<u8>, CanonFault>
    ensures written { IfOk result (λ text. text.items ≡ canon def.now) }
    ensures short { OnOk result (length (canon def.now) ≤ most_canon_bytes) }
    ensures within { IsWithinLimits def.now }
    ensures cause { IfErr result (λ fault. IsCauseOf fault def.now) }
{
    let mut draft = Draft::with_room(alloc, room);
    push_map(&mut draft, def);
    if draft.is_too_long() {
        return Err(CanonFault::TooBig);
    }
    match draft.finish() {
        Ok(text) => Ok(text),
        Err(AllocError) => Err(CanonFault::Memory),
    }
}
