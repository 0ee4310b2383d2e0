ghost use Rattle.std.specs.Prelude.{◌≡◌, ◌+◌, ◌≤◌, ◌++◌, [], length, IfOk, OnErr};
ghost use Rattle.arrayvec.specs.ArrayVec.{array_vec_len};
ghost use Rattle.wf_canon.specs.Canon.{canon};
ghost use Rattle.wf_journal.specs.Record.{HasText};

use crate::decoder::{HEADER_BYTES, canon_of};
use crate::fault::RecordFault;
use arrayvec::ArrayVec;
use std::alloc::{AllocError, Global};
use wf_ballot::{Ballot, Round, Slot, split_ballot, split_round, split_slot};
use wf_canon::Canon;
use wf_frame::{FieldBytes, put_ballot, put_round, put_slot};

/// One record of a node's tape. A node's stored state is the fold of its records, the oldest first.
#[derive(Drop)]
pub enum Record {
    /// The node tries this round, and never begins a proposal in it again.
    Tried(Round),
    /// The node promised the ballot at the slot: it rejects lower ballots there.
    Promised(Slot, Ballot),
    /// The node voted for the definition at the slot and the ballot, and so promised the ballot
    /// too.
    Accepted(Slot, Ballot, Canon),
    /// The definition is published at the slot.
    Published(Slot, Canon),
}

impl Record {
    ghost use Rattle.wf_frame.specs.Row.{row_bytes, read_row};
    ghost use Rattle.wf_journal.specs.KindTable.{kinds, most_body_bytes};
    ghost use Rattle.wf_journal.specs.Record.{view, row, texts, HasDefinition, IsRecord};
    ghost use Rattle.wf_journal.specs.Encoding.{spelling};
    ghost use Rattle.wf_journal.specs.Stages.{ReadsBody};

    /// A copy. The only error is allocation failure, for a record with a definition.
    pub fn copy(&self) -> Result<Record, AllocError>
        ensures copy { IfOk result (λ r. r ≡ self.now) }
        ensures memory { OnErr result (HasDefinition (view self.now)) }
    {
        Ok(match self {
            Record::Tried(round) => Record::Tried(*round),
            Record::Promised(slot, ballot) => Record::Promised(*slot, *ballot),
            Record::Accepted(slot, ballot, canon) => {
                Record::Accepted(*slot, *ballot, canon.copy()?)
            }
            Record::Published(slot, canon) => Record::Published(*slot, canon.copy()?),
        })
    }

    /// The number of bytes of the record on a tape.
    pub fn length(&self) -> usize
        ensures { result ≡ length (spelling (view self.now)) }
    {
        let mut fields = ArrayVec::new();
        let (_, text) = self.put_fields(&mut fields);
        HEADER_BYTES + (fields.len() + text.len())
    }

    /// The byte of the record's kind, and the canonical text at the end of its body, empty if there
    /// is none. The fields before that are appended to `fields`, which is empty.
    #[tactic(auto, unfolding(wf_frame::specs::Row::row_bytes))]
    pub(crate) fn put_fields<'a>(&'a self, fields: &mut FieldBytes) -> (u8, &'a [u8])
        requires { fields.old.items ≡ [] }
        ensures kind { result.0 ≡ (row (view self.now)).byte }
        ensures body { row_bytes (texts (view self.now)) ≡ fields.new.items ++ result.1.now }
        ensures most { array_vec_len fields.new + length result.1.now ≤ most_body_bytes }
        ensures is_record { IsRecord (view self.now) }
    {
        match self {
            Record::Tried(round) => {
                put_round(fields, *round);
                (1, &[])
            }
            Record::Promised(slot, ballot) => {
                put_slot(fields, *slot);
                put_ballot(fields, *ballot);
                (2, &[])
            }
            Record::Accepted(slot, ballot, canon) => {
                put_slot(fields, *slot);
                put_ballot(fields, *ballot);
                (3, text_of(canon))
            }
            Record::Published(slot, canon) => {
                put_slot(fields, *slot);
                (4, text_of(canon))
            }
        }
    }

    /// The record of the kind with this byte whose body this is.
    #[tactic(auto, unfolding(wf_frame::specs::Row::read_row, wf_frame::specs::Row::layout_of))]
    pub(crate) fn read(alloc: Global, kind: u8, body: &[u8]) -> Result<Record, RecordFault>
        ensures { (most : _) → ReadsBody view result (read_row (kinds most) kind body.now) }
    {
        match kind {
            1 => Record::read_tried(body),
            2 => Record::read_promised(body),
            3 => Record::read_accepted(alloc, body),
            4 => Record::read_published(alloc, body),
            _ => Err(RecordFault::Bad),
        }
    }

    #[tactic(auto, unfolding(wf_frame::specs::Row::read_row, wf_frame::specs::Row::layout_of))]
    fn read_tried(body: &[u8]) -> Result<Record, RecordFault>
        ensures { (most : _) → ReadsBody view result (read_row (kinds most) 1 body.now) }
    {
        let Some((round, _)) = split_round(body) else {
            return Err(RecordFault::Bad);
        };
        Ok(Record::Tried(round))
    }

    #[tactic(auto, unfolding(wf_frame::specs::Row::read_row, wf_frame::specs::Row::layout_of))]
    fn read_promised(body: &[u8]) -> Result<Record, RecordFault>
        ensures { (most : _) → ReadsBody view result (read_row (kinds most) 2 body.now) }
    {
        let Some((slot, rest)) = split_slot(body) else {
            return Err(RecordFault::Bad);
        };
        let Some((ballot, _)) = split_ballot(rest) else {
            return Err(RecordFault::Bad);
        };
        Ok(Record::Promised(slot, ballot))
    }

    #[tactic(auto, unfolding(wf_frame::specs::Row::read_row, wf_frame::specs::Row::layout_of))]
    fn read_accepted(alloc: Global, body: &[u8]) -> Result<Record, RecordFault>
        ensures { (most : _) → ReadsBody view result (read_row (kinds most) 3 body.now) }
    {
        let Some((slot, rest)) = split_slot(body) else {
            return Err(RecordFault::Bad);
        };
        let Some((ballot, text)) = split_ballot(rest) else {
            return Err(RecordFault::Bad);
        };
        let canon = canon_of(alloc, text)?;
        Ok(Record::Accepted(slot, ballot, canon))
    }

    #[tactic(auto, unfolding(wf_frame::specs::Row::read_row, wf_frame::specs::Row::layout_of))]
    fn read_published(alloc: Global, body: &[u8]) -> Result<Record, RecordFault>
        ensures { (most : _) → ReadsBody view result (read_row (kinds most) 4 body.now) }
    {
        let Some((slot, text)) = split_slot(body) else {
            return Err(RecordFault::Bad);
        };
        let canon = canon_of(alloc, text)?;
        Ok(Record::Published(slot, canon))
    }
}

/// The definition's canonical text.
fn text_of(definition: &Canon) -> &[u8]
    ensures value { result.now ≡ canon definition.now }
    ensures has_text { HasText definition.now }
{
    let _ = definition.def();
    definition.text()
}
