//! A map that a tape has as published.
ghost use Rattle.std.specs.Prelude.{◌≡◌, IfOk, map, option_map};
ghost use Rattle.std.specs.Option.{option_copied};
ghost use Rattle.wf_journal.specs.Record.{view};
ghost use Rattle.wf_spelling.specs.Canon.{canon};
ghost use Rattle.wf_listing.specs.Map.{IsMapTextAt, published_by, published_in};

use crate::record_search::find;
use std::alloc::{AllocError, Global};
use wf_canon::Canon;
use wf_journal::Record;

/// The canonical text of the map that a tape's bytes have as published under a sequence, by the
/// first such record; a node's tape has one at most. None if there is none among the whole records
/// that the bytes begin with. The only error is allocation failure.
pub fn text_of_map(
    alloc: Global,
    bytes: &[u8],
    sequence: u16,
) -> Result<Option<Vec<u8>>, AllocError>
    ensures { IfOk result (IsMapTextAt bytes.now sequence) }
{
    let (records, _) = find(alloc, bytes)?;
    let text = copy_definition(alloc, published_in(&records, sequence));
    drop(records);
    text
}

/// A copy of a map's text.
fn copy_definition(alloc: Global, map: Option<&Canon>) -> Result<Option<Vec<u8>>, AllocError>
    ensures { IfOk result (λ text. option_map (λ t. t.items) text ≡
        option_map canon (option_copied map.entry)) }
{
    match map {
        Some(canon) => {
            let text = canon.text().to_vec(alloc)?;
            Ok(Some(text))
        }
        None => Ok(None),
    }
}

/// The map of the first record that publishes one under a sequence.
fn published_in(records: &[Record], sequence: u16) -> Option<&Canon>
    ensures { option_copied result ≡ published_in sequence (map view records.now) }
{
    for entry in records {
        if let Some(map) = published_by(entry, sequence) {
            return Some(map);
        }
    }
    None
}

/// The map of a record, if it publishes one under a sequence.
fn published_by(entry: &Record, sequence: u16) -> Option<&Canon>
    ensures { option_copied result ≡ published_by sequence (view entry.now) }
{
    match entry {
        Record::Published(slot, map) => {
            if slot.number() == sequence {
                Some(map)
            } else {
                None
            }
        }
        _ => None,
    }
}
