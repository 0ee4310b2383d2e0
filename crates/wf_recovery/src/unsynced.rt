//! What was never synced.
ghost use Rattle.std.specs.Prelude.{◌≡◌, ◌≤◌, ◌↔◌, drop, length, IsTrue};
ghost use Rattle.std.specs.List.{list_all};
ghost use Rattle.wf_recovery.specs.Unsynced.{IsUnsynced, is_zero};

use wf_canon::MOST_CANON_BYTES;
use wf_frame::HEADER_BYTES;

/// The bytes of the longest record: a vote for the longest text, behind its sequence and its
/// ballot.
const MOST_RECORD_BYTES: usize = HEADER_BYTES + 7 + MOST_CANON_BYTES;

/// Whether what is at an offset of bytes, up to their end, was never synced.
#[tactic(auto, using(crate::proofs::Fronts::none_behind))]
pub(crate) fn is_unsynced_at(bytes: &[u8], offset: usize) -> bool
    ensures within { IsTrue result → offset ≤ length bytes.now }
    ensures value { IsTrue result ↔ IsUnsynced (drop offset bytes.now) }
{
    if bytes.len() <= offset {
        return false;
    }
    is_unsynced(bytes.split_at(offset).1)
}

/// Whether bytes that follow the whole records of a tape were never synced.
fn is_unsynced(rest: &[u8]) -> bool
    ensures { IsTrue result ↔ IsUnsynced rest.now }
{
    !rest.is_empty() && rest.len() <= MOST_RECORD_BYTES && are_zeros(rest)
}

/// Whether each of these bytes is zero.
fn are_zeros(bytes: &[u8]) -> bool
    ensures { result ≡ list_all is_zero bytes.now }
{
    bytes.iter().all(|byte| *byte == 0)
}
