ghost use Rattle.std.specs.Prelude.{◌≡◌, ◌+◌, ◌≤◌, ◌++◌, [], length, IfOk, OnErr};
ghost use Rattle.arrayvec.specs.ArrayVec.{array_vec_len};

use crate::decoder::{canon_of, report_of};
use crate::encoder::End;
use crate::fault::DecodeFault;
use crate::report::{Report, text_length, votes_length};
use std::alloc::{AllocError, Global};
use wf_ballot::{Ballot, NodeId, Slot, split_ballot, split_node, split_slot};
use wf_canon::Canon;
use wf_frame::{FieldBytes, put_ballot, put_node, put_slot};

/// A message between nodes. It names no receiver, since the network may deliver any message to any
/// node.
#[derive(Drop)]
pub enum Message {
    /// A request to promise the ballot at the slot.
    Prepare(Slot, Ballot),
    /// The node promises the ballot at the report's slot and all later ones, and reports its votes.
    Promise(NodeId, Ballot, Report),
    /// A request to vote for the definition at the slot and the ballot.
    Accept(Slot, Ballot, Canon),
    /// The node voted at the slot and the ballot.
    Accepted(NodeId, Slot, Ballot),
    /// The node rejects the ballot at the slot, since it has promised the second ballot there.
    Nack(NodeId, Slot, Ballot, Ballot),
    /// The definition is chosen at the slot.
    Chosen(Slot, Canon),
    /// A request for what is chosen from the slot on.
    Ask(Slot),
}

impl Message {
    ghost use Rattle.wf_frame.specs.Row.{row_bytes, read_row};
    ghost use Rattle.wf_codec.specs.KindTable.{kinds, most_body_bytes};
    ghost use Rattle.wf_codec.specs.Message.{view, row, texts, HasDefinition, IsMessage};
    ghost use Rattle.wf_codec.specs.Encoding.{written_end};
    ghost use Rattle.wf_codec.specs.Stages.{ReadsBodyAs};

    /// A copy. The only error is allocation failure, for a message with a definition.
    pub fn copy(&self) -> Result<Message, AllocError>
        ensures copy { IfOk result (λ m. m ≡ self.now) }
        ensures memory { OnErr result (HasDefinition (view self.now)) }
    {
        Ok(match self {
            Message::Prepare(slot, ballot) => Message::Prepare(*slot, *ballot),
            Message::Promise(node, ballot, report) => {
                Message::Promise(*node, *ballot, report.copy()?)
            }
            Message::Accept(slot, ballot, canon) => Message::Accept(*slot, *ballot, canon.copy()?),
            Message::Accepted(node, slot, ballot) => Message::Accepted(*node, *slot, *ballot),
            Message::Nack(node, slot, ballot, promised) => {
                Message::Nack(*node, *slot, *ballot, *promised)
            }
            Message::Chosen(slot, canon) => Message::Chosen(*slot, canon.copy()?),
            Message::Ask(slot) => Message::Ask(*slot),
        })
    }

    /// The byte of the message's kind, what its body ends with, and the number of bytes of that.
    /// The fields before that are appended to `fields`, which is empty.
    #[tactic(auto, unfolding(wf_frame::specs::Row::row_bytes, wf_frame::specs::Report::report_bytes))]
    pub(crate) fn put_fields<'a>(&'a self, fields: &mut FieldBytes) -> (u8, End<'a>, usize)
        requires { fields.old.items ≡ [] }
        ensures kind { result.0 ≡ (row (view self.now)).byte }
        ensures body { row_bytes (texts (view self.now)) ≡
            fields.new.items ++ written_end result.1 }
        ensures length { result.2 ≡ length (written_end result.1) }
        ensures most { array_vec_len fields.new + result.2 ≤ most_body_bytes }
        ensures is_message { IsMessage (view self.now) }
    {
        match self {
            Message::Prepare(slot, ballot) => {
                put_slot(fields, *slot);
                put_ballot(fields, *ballot);
                (1, End::Nothing, 0)
            }
            Message::Promise(node, ballot, report) => {
                put_node(fields, *node);
                put_slot(fields, report.slot());
                put_ballot(fields, *ballot);
                let votes = report.votes();
                (2, End::Votes(votes), votes_length(votes))
            }
            Message::Accept(slot, ballot, canon) => {
                put_slot(fields, *slot);
                put_ballot(fields, *ballot);
                (3, End::Text(canon), text_length(canon))
            }
            Message::Accepted(node, slot, ballot) => {
                put_node(fields, *node);
                put_slot(fields, *slot);
                put_ballot(fields, *ballot);
                (4, End::Nothing, 0)
            }
            Message::Nack(node, slot, ballot, promised) => {
                put_node(fields, *node);
                put_slot(fields, *slot);
                put_ballot(fields, *ballot);
                put_ballot(fields, *promised);
                (5, End::Nothing, 0)
            }
            Message::Chosen(slot, canon) => {
                put_slot(fields, *slot);
                (6, End::Text(canon), text_length(canon))
            }
            Message::Ask(slot) => {
                put_slot(fields, *slot);
                (7, End::Nothing, 0)
            }
        }
    }

    /// The message of the kind with this byte whose body this is.
    #[tactic(auto, unfolding(wf_frame::specs::Row::read_row, wf_frame::specs::Row::layout_of))]
    pub(crate) fn read(alloc: Global, kind: u8, body: &[u8]) -> Result<Message, DecodeFault>
        ensures { ReadsBodyAs view result (read_row kinds kind body.now) }
    {
        match kind {
            1 => Message::read_prepare(body),
            2 => Message::read_promise(alloc, body),
            3 => Message::read_accept(alloc, body),
            4 => Message::read_accepted(body),
            5 => Message::read_nack(body),
            6 => Message::read_chosen(alloc, body),
            7 => Message::read_ask(body),
            _ => Err(DecodeFault::BadField),
        }
    }

    #[tactic(auto, unfolding(wf_frame::specs::Row::read_row, wf_frame::specs::Row::layout_of))]
    fn read_prepare(body: &[u8]) -> Result<Message, DecodeFault>
        ensures { ReadsBodyAs view result (read_row kinds 1 body.now) }
    {
        let Some((slot, rest)) = split_slot(body) else {
            return Err(DecodeFault::BadField);
        };
        let Some((ballot, _)) = split_ballot(rest) else {
            return Err(DecodeFault::BadField);
        };
        Ok(Message::Prepare(slot, ballot))
    }

    #[tactic(auto, unfolding(wf_frame::specs::Row::read_row, wf_frame::specs::Row::layout_of, wf_frame::specs::Report::report_of))]
    fn read_promise(alloc: Global, body: &[u8]) -> Result<Message, DecodeFault>
        ensures { ReadsBodyAs view result (read_row kinds 2 body.now) }
    {
        let Some((node, rest)) = split_node(body) else {
            return Err(DecodeFault::BadField);
        };
        let Some((slot, rest)) = split_slot(rest) else {
            return Err(DecodeFault::BadField);
        };
        let Some((ballot, rest)) = split_ballot(rest) else {
            return Err(DecodeFault::BadField);
        };
        let report = report_of(alloc, slot, rest)?;
        Ok(Message::Promise(node, ballot, report))
    }

    #[tactic(auto, unfolding(wf_frame::specs::Row::read_row, wf_frame::specs::Row::layout_of))]
    fn read_accept(alloc: Global, body: &[u8]) -> Result<Message, DecodeFault>
        ensures { ReadsBodyAs view result (read_row kinds 3 body.now) }
    {
        let Some((slot, rest)) = split_slot(body) else {
            return Err(DecodeFault::BadField);
        };
        let Some((ballot, text)) = split_ballot(rest) else {
            return Err(DecodeFault::BadField);
        };
        let canon = canon_of(alloc, text)?;
        Ok(Message::Accept(slot, ballot, canon))
    }

    #[tactic(auto, unfolding(wf_frame::specs::Row::read_row, wf_frame::specs::Row::layout_of))]
    fn read_accepted(body: &[u8]) -> Result<Message, DecodeFault>
        ensures { ReadsBodyAs view result (read_row kinds 4 body.now) }
    {
        let Some((node, rest)) = split_node(body) else {
            return Err(DecodeFault::BadField);
        };
        let Some((slot, rest)) = split_slot(rest) else {
            return Err(DecodeFault::BadField);
        };
        let Some((ballot, _)) = split_ballot(rest) else {
            return Err(DecodeFault::BadField);
        };
        Ok(Message::Accepted(node, slot, ballot))
    }

    #[tactic(auto, unfolding(wf_frame::specs::Row::read_row, wf_frame::specs::Row::layout_of))]
    fn read_nack(body: &[u8]) -> Result<Message, DecodeFault>
        ensures { ReadsBodyAs view result (read_row kinds 5 body.now) }
    {
        let Some((node, rest)) = split_node(body) else {
            return Err(DecodeFault::BadField);
        };
        let Some((slot, rest)) = split_slot(rest) else {
            return Err(DecodeFault::BadField);
        };
        let Some((ballot, rest)) = split_ballot(rest) else {
            return Err(DecodeFault::BadField);
        };
        let Some((promised, _)) = split_ballot(rest) else {
            return Err(DecodeFault::BadField);
        };
        Ok(Message::Nack(node, slot, ballot, promised))
    }

    #[tactic(auto, unfolding(wf_frame::specs::Row::read_row, wf_frame::specs::Row::layout_of))]
    fn read_chosen(alloc: Global, body: &[u8]) -> Result<Message, DecodeFault>
        ensures { ReadsBodyAs view result (read_row kinds 6 body.now) }
    {
        let Some((slot, text)) = split_slot(body) else {
            return Err(DecodeFault::BadField);
        };
        let canon = canon_of(alloc, text)?;
        Ok(Message::Chosen(slot, canon))
    }

    #[tactic(auto, unfolding(wf_frame::specs::Row::read_row, wf_frame::specs::Row::layout_of))]
    fn read_ask(body: &[u8]) -> Result<Message, DecodeFault>
        ensures { ReadsBodyAs view result (read_row kinds 7 body.now) }
    {
        let Some((slot, _)) = split_slot(body) else {
            return Err(DecodeFault::BadField);
        };
        Ok(Message::Ask(slot))
    }
}
