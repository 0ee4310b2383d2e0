ghost use Rattle.std.specs.Prelude.{◌≡◌, ◌+◌, ◌<◌, ◌≤◌, ◌++◌, length, vec_len, vec_capacity, OnOk, OnErr};
ghost use Rattle.wf_codec.specs.Message.{view, IsMessage};
ghost use Rattle.wf_codec.specs.Encoding.{spelling, written_end, written_vote, written_votes};

use crate::format::{HEADER_BYTES, VERSION};
use crate::message::Message;
use arrayvec::ArrayVec;
use std::alloc::AllocError;
use wf_ballot::Ballot;
use wf_canon::Canon;
use wf_frame::{put, put_header};

/// What a message's body ends with, after its fields of fixed length.
#[derive(Clone, Copy)]
pub enum End<'a> {
    Nothing,
    /// The canonical text of a definition.
    Text(&'a Canon),
    /// The votes of a report.
    Votes(&'a [Option<(Ballot, Canon)>]),
}

/// Appends the message's encoding. The only error is allocation failure, if the vector's capacity
/// doesn't suffice; the bytes are then unchanged.
pub fn encode(message: &Message, out: &mut Vec<u8>) -> Result<(), AllocError>
    ensures ok { OnOk result (out.new.items ≡ out.old.items ++ spelling (view message.now)) }
    ensures err { OnErr result (out.new.items ≡ out.old.items) }
    ensures full { OnErr result
        (vec_capacity out.old < vec_len out.old + length (spelling (view message.now))) }
    ensures is_message { IsMessage (view message.now) }
{
    let mut fields = ArrayVec::new();
    let (kind, end, count) = message.put_fields(&mut fields);
    let length = fields.len() + count;
    out.reserve(HEADER_BYTES + length)?;
    put_header(out, VERSION, kind, length);
    put(out, fields.as_slice());
    put_end(out, end);
    Ok(())
}

/// Appends what a body ends with, for which there is room.
fn put_end(out: &mut Vec<u8>, end: End<'_>)
    requires { vec_len out.old + length (written_end end) ≤ vec_capacity out.old }
    ensures { out.new.items ≡ out.old.items ++ written_end end.entry }
{
    match end {
        End::Nothing => {}
        End::Text(canon) => put(out, canon.text()),
        End::Votes(votes) => put_votes(out, votes),
    }
}

/// Appends the votes, for which there is room.
#[tactic(auto, unfolding(wf_frame::specs::Report::votes_bytes))]
fn put_votes(out: &mut Vec<u8>, votes: &[Option<(Ballot, Canon)>])
    requires { vec_len out.old + length (written_votes votes.now) ≤ vec_capacity out.old }
    ensures { out.new.items ≡ out.old.items ++ written_votes votes.now }
{
    if let [vote, rest @ ..] = votes {
        put_vote(out, vote);
        put_votes(out, rest);
    }
}

/// Appends a vote with its mark, for which there is room.
#[tactic(auto, using(crate::proofs::Fields::vote_has_length), unfolding(wf_frame::specs::Report::vote_bytes, wf_frame::specs::Report::text_bytes))]
fn put_vote(out: &mut Vec<u8>, vote: &Option<(Ballot, Canon)>)
    requires { vec_len out.old + length (written_vote vote.now) ≤ vec_capacity out.old }
    ensures items { out.new.items ≡ out.old.items ++ written_vote vote.now }
    ensures len { vec_len out.new ≡ vec_len out.old + length (written_vote vote.now) }
    ensures capacity { vec_capacity out.old ≤ vec_capacity out.new }
{
    match vote {
        None => put(out, &[0]),
        Some((ballot, canon)) => {
            put(out, &[1]);
            put(out, &ballot.bytes());
            put(out, &(canon.text().len() as u32).to_be_bytes());
            put(out, canon.text());
        }
    }
}
