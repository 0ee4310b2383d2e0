//! Names of ballots, messages, tapes and their records.

use std::rt::Files;
use wf_ballot::{Ballot, NodeId, Seq, is_majority};
use wf_codec::{DecodeFault, Message, decode, encode};
use wf_journal::{Journal, Record};
use wf_tape::{FileTape, MemoryTape, Tape, TapeFault};

/// The calls.
pub fn calls() {
    let _ = NodeId::new;
    let _ = NodeId::bytes;
    let _ = NodeId::from_bytes;
    let _ = Seq::new;
    let _ = Seq::bytes;
    let _ = Seq::from_bytes;
    let _ = Ballot::new;
    let _ = Ballot::bytes;
    let _ = Ballot::from_bytes;
    let _ = Ballot::next;
    let _ = Ballot::round;
    let _ = Ballot::node;
    let _ = is_majority;
    let _ = encode;
    let _ = decode;
    let _ = Message::copy;
    let _ = MemoryTape::new;
    let _ = MemoryTape::crash;
    let _ = MemoryTape::set_fuse;
    let _ = Journal::<MemoryTape>::open;
    let _ = Journal::<MemoryTape>::add;
    let _ = Journal::<MemoryTape>::rewrite;
    let _ = Journal::<MemoryTape>::set_fuse;
    let _ = Record::copy;
}

/// The calls of a tape.
pub fn tape_calls<T: Tape>() {
    let _ = T::read;
    let _ = T::append;
    let _ = T::sync;
    let _ = T::replace;
    let _ = T::failures;
}

/// The call that opens a tape in a file.
pub fn file_calls<R: Files + Drop>() {
    let _ = FileTape::<R>::open;
}

/// The kinds of message.
pub fn message(message: &Message) -> u8 {
    match message {
        Message::Prepare(_sequence, _ballot) => 1,
        Message::Promise(_from, _ballot, _report) => 2,
        Message::Accept(_sequence, _ballot, _canon) => 3,
        Message::Accepted(_from, _sequence, _ballot) => 4,
        Message::Nack(_from, _sequence, _ballot, _promised) => 5,
        Message::Chosen(_sequence, _canon) => 6,
        Message::Ask(_sequence) => 7,
    }
}

/// The kinds of record.
pub fn record_kind(entry: &Record) -> u8 {
    match entry {
        Record::Tried(_round) => 1,
        Record::Promised(_sequence, _ballot) => 2,
        Record::Accepted(_sequence, _ballot, _canon) => 3,
        Record::Published(_sequence, _canon) => 4,
    }
}

/// The errors of a message's bytes.
pub fn decode_fault(fault: DecodeFault) -> u8 {
    match fault {
        DecodeFault::Short => 0,
        DecodeFault::BadVersion => 1,
        DecodeFault::BadKind => 2,
        DecodeFault::BadField => 3,
        DecodeFault::NotCanonical => 4,
        DecodeFault::TooLong => 5,
        DecodeFault::Memory => 6,
    }
}

/// The errors of a tape's calls.
pub fn tape_fault(fault: TapeFault) -> u8 {
    match fault {
        TapeFault::Device => 1,
        TapeFault::Memory => 3,
    }
}
