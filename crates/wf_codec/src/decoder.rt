ghost use Rattle.std.specs.Prelude.{◌≡◌, ◌+◌, ◌≤◌, ◌++◌, ◌↔◌, length, true, Some, is_some, option_map, IfOk, IfErr, IsErrOf, MatchResult};
ghost use Rattle.wf_codec.specs.Message.{view};
ghost use Rattle.wf_codec.specs.Fault.{first_fault, HasFault, CarriesText};
ghost use Rattle.arrayvec.specs.ArrayVec.{array_vec_len};
ghost use Rattle.wf_canon.specs.Canon.{most_canon_bytes};
ghost use Rattle.wf_frame.specs.Report.{front_text, front_vote, votes_of, votes_in_report};
ghost use Rattle.wf_frame.specs.Frame.{frame_front};
ghost use Rattle.wf_codec.specs.Encoding.{Spells, format};
ghost use Rattle.wf_codec.specs.Stages.{decode_fault, ReadsVote, ReadsVotes, ReadsReport, ReadsText};
ghost use Rattle.wf_codec.specs.Theorem.{BeginsWith, BeginsWithNone, NeverBegins, IsLastingFault, IsUnfinished, IsReadAs, IsValidated};

use crate::fault::DecodeFault;
use crate::format::{HEADER_BYTES, MessageFormat};
use crate::message::Message;
use crate::report::{Report, Votes};
use arrayvec::ArrayVec;
use std::alloc::Global;
use wf_ballot::{Ballot, Slot, split_ballot};
use wf_canon::{Canon, CanonFault, MOST_CANON_BYTES, one_text_one_map};
use wf_frame::{FrameFault, split_frame};

/// The message at the front of the bytes, and its length in bytes. The checks go from left to
/// right, each as soon as its bytes are there: the version, the kind, the body's length, whether
/// the body is whole, its fields, then the text of a definition. What follows the message isn't
/// looked at.
///
/// The length is at least 1 and at most that of `bytes`.
///
/// `Short` says that there is no error so far and that more bytes are needed. `Memory` is returned
/// only while the text of a definition is read, after the fields of a Promise with a vote, an
/// Accept or a Chosen; it says nothing about that text. After any other error no further bytes make
/// a message of them.
pub fn decode(alloc: Global, bytes: &[u8]) -> Result<(Message, usize), DecodeFault>
    // A returned message is at the front, and a message at the front is returned, except that
    // allocation may fail for one with a definition.
    ensures read { IfOk result (λ x. BeginsWith bytes.now (view x.0) x.1) }
    ensures each { (m : _) (spelled after : _) → Spells m spelled → bytes.now ≡ spelled ++ after →
        IsReadAs view result m (length spelled) }

    // A returned message has at least one byte, and no more than there are.
    ensures count { IfOk result (λ x. (1 ≤ x.1) × (x.1 ≤ length bytes.now)) }

    // Rejected bytes never become a message, whatever follows.
    ensures refused { IfErr result (λ e. IsLastingFault e → NeverBegins bytes.now) }

    ensures short { IsErrOf result DecodeFault.Short ↔ IsUnfinished bytes.now }
    ensures none_yet { IsErrOf result DecodeFault.Short → BeginsWithNone bytes.now }

    // The error is that of the first check that fails.
    ensures first { MatchResult result
        (λ x. first_fault bytes.now ≡ None) (λ e. HasFault bytes.now e) }

    // Allocation fails only for a text that the message contains.
    ensures memory { IsErrOf result DecodeFault.Memory → CarriesText bytes.now }
{
    // The theorem: maps with equal texts are equal.
    one_text_one_map();
    validate(alloc, bytes)
}

fn validate(alloc: Global, bytes: &[u8]) -> Result<(Message, usize), DecodeFault>
    ensures { IsValidated view result (frame_front format bytes.now) }
{
    let (_, kind, body) = match split_frame::<MessageFormat>(bytes) {
        Ok(frame) => frame,
        Err(fault) => return Err(decode_fault(fault)),
    };
    let length = body.len();
    let message = Message::read(alloc, kind, body)?;
    Ok((message, HEADER_BYTES + length))
}

/// The decoder's error for that of the frame.
fn decode_fault(fault: FrameFault) -> DecodeFault
    ensures { result ≡ decode_fault fault }
{
    match fault {
        FrameFault::Short => DecodeFault::Short,
        FrameFault::BadVersion => DecodeFault::BadVersion,
        FrameFault::BadKind => DecodeFault::BadKind,
        FrameFault::TooLong => DecodeFault::TooLong,
        FrameFault::BadLength => DecodeFault::BadField,
    }
}

/// The definition of a canonical text.
pub(crate) fn canon_of(alloc: Global, text: &[u8]) -> Result<Canon, DecodeFault>
    ensures { ReadsText result text.now }
{
    match Canon::from_bytes(alloc, text) {
        Ok(canon) => Ok(canon),
        Err(CanonFault::Memory) => Err(DecodeFault::Memory),
        Err(CanonFault::TooBig | CanonFault::NotCanonical) => Err(DecodeFault::NotCanonical),
    }
}

/// The report from the slot on whose votes the bytes are.
pub(crate) fn report_of(alloc: Global, slot: Slot, bytes: &[u8]) -> Result<Report, DecodeFault>
    ensures { ReadsReport slot result (votes_of most_canon_bytes (votes_in_report slot) bytes.now) }
{
    let count = count_of(slot);
    // All fields are checked before the first text is read.
    if are_votes(count, bytes) {
        let mut votes = ArrayVec::new();
        match read_votes(alloc, count, bytes, &mut votes) {
            Err(fault) => Err(fault),
            Ok(()) => Ok(Report::of(slot, votes)),
        }
    } else {
        Err(DecodeFault::BadField)
    }
}

/// The number of votes that a report from the slot on has.
#[tactic(auto, unfolding(wf_model::specs::Table::sequences_from))]
fn count_of(slot: Slot) -> usize
    ensures value { result ≡ votes_in_report slot }
    ensures few { result ≤ 4 }
{
    match slot.number() {
        4096 => 1,
        4095 => 2,
        4094 => 3,
        _ => 4,
    }
}

/// A text behind its length, and the bytes after it; None if there is none. Whether it is canonical
/// isn't checked.
#[tactic(auto, unfolding(wf_frame::specs::Report::front_text))]
fn cut_text(bytes: &[u8]) -> Option<(&[u8], &[u8])>
    ensures { option_map (λ x. (x.0.now, x.1.now)) result ≡ front_text most_canon_bytes bytes.now }
{
    match bytes {
        [a, b, c, d, rest @ ..] => {
            let length = u32::from_be_bytes([*a, *b, *c, *d]) as usize;
            if 1 <= length && length <= MOST_CANON_BYTES && length <= rest.len() {
                Some(rest.split_at(length))
            } else {
                None
            }
        }
        _ => None,
    }
}

/// The bytes after the vote at the front; None if there is none. Its text isn't checked.
#[tactic(auto, unfolding(wf_frame::specs::Report::front_vote))]
fn skip_vote(bytes: &[u8]) -> Option<&[u8]>
    ensures { option_map (λ rest. rest.now) result ≡
        option_map (λ x. x.1) (front_vote most_canon_bytes bytes.now) }
{
    match bytes {
        [0, rest @ ..] => Some(rest),
        [1, rest @ ..] => {
            let Some((_, rest)) = split_ballot(rest) else {
                return None;
            };
            let Some((_, rest)) = cut_text(rest) else {
                return None;
            };
            Some(rest)
        }
        _ => None,
    }
}

/// Whether the bytes are so many votes; their texts aren't checked.
#[tactic(auto, using(crate::proofs::Reports::no_vote, crate::proofs::Reports::vote_then), unfolding(wf_frame::specs::Report::votes_of))]
fn are_votes(count: usize, bytes: &[u8]) -> bool
    ensures { result ≡ is_some (votes_of most_canon_bytes count bytes.now) }
{
    if count == 0 {
        return match bytes {
            [] => true,
            _ => false,
        };
    }
    match skip_vote(bytes) {
        None => false,
        Some(rest) => are_votes(count - 1, rest),
    }
}

/// Appends so many votes, which the bytes are but for their texts, and for which there is room.
#[tactic(auto)]
fn read_votes(
    alloc: Global,
    count: usize,
    bytes: &[u8],
    votes: &mut Votes,
) -> Result<(), DecodeFault>
    requires are_votes { is_some (votes_of most_canon_bytes count bytes.now) ≡ true }
    requires room { array_vec_len votes.old + count ≤ 4 }
    ensures { (cut : _) → votes_of most_canon_bytes count bytes.now ≡ Some cut →
        ReadsVotes votes.old.items votes.new.items result cut }
{
    if count == 0 {
        return Ok(());
    }
    let Some(rest) = skip_vote(bytes) else {
        return Err(DecodeFault::BadField);
    };
    match vote_of(alloc, bytes) {
        Err(fault) => Err(fault),
        Ok(vote) => {
            votes.push(vote);
            read_votes(alloc, count - 1, rest, votes)
        }
    }
}

/// The vote at the front of the bytes, with the definition of its text.
#[tactic(auto, unfolding(wf_frame::specs::Report::front_vote))]
fn vote_of(alloc: Global, bytes: &[u8]) -> Result<Option<(Ballot, Canon)>, DecodeFault>
    ensures { (vote rest : _) → front_vote most_canon_bytes bytes.now ≡ Some (vote, rest) →
        ReadsVote result vote }
{
    match bytes {
        [1, rest @ ..] => {
            let Some((ballot, rest)) = split_ballot(rest) else {
                return Err(DecodeFault::BadField);
            };
            let Some((text, _)) = cut_text(rest) else {
                return Err(DecodeFault::BadField);
            };
            let canon = canon_of(alloc, text)?;
            Ok(Some((ballot, canon)))
        }
        _ => Ok(None),
    }
}
