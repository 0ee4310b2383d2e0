//! A replica begins with what its tape has.

ghost use Rattle.std.specs.Prelude.{◌≡◌, ◌≤◌, [], IfOk, IfSome, None, map};
ghost use Rattle.wf_journal.specs.Record.{view};
ghost use Rattle.wf_journal.specs.Records.{AreRecords};
ghost use Rattle.wf_model.specs.DurableState.{Published};
ghost use Rattle.wf_replica.specs.Follower.{answers_of, list_of, read_by};
ghost use Rattle.wf_replica.specs.LearnedList.{messages_of, numbered};
ghost use Rattle.wf_replica.specs.MapList.{IsReadFromTape, maps_of};
ghost use Rattle.wf_replica.specs.Recorded.{AreLearned, IsRecordedStart, IsBegunAnew, IsFoundOn, IsNextLearned, IsTapeHad};
ghost use Rattle.wf_wms.specs.CachedPictures.{most_cached};

use crate::follower::Follower;
use crate::maps::MapList;
use std::alloc::{AllocError, Global};
use wf_ballot::Slot;
use wf_codec::{Canon, Message};
use wf_journal::{Journal, OpenFault, Record, records_are_read_one_way};
use wf_past::Past;
use wf_tape::Tape;

/// What was found on a tape.
#[derive(Clone, Copy, Debug, PartialEq, Eq)]
pub enum FoundTape {
    /// Published maps, one after the other, or nothing. A torn record after them was removed.
    Published,
    /// Something else, in whose place the tape begins anew.
    Damaged,
    /// It can't be read, or can't begin anew: the replica goes on without a tape.
    Failed,
}

impl<T: Tape + Drop> Follower<T> {
    /// A replica with what its tape has, and room for so many pictures. A tape that has anything
    /// but published maps, one after the other, is begun anew; None is one that couldn't be opened.
    /// The only error is allocation failure; the tape is dropped.
    pub fn open(
        alloc: Global,
        tape: Option<T>,
        pictures: usize,
    ) -> Result<(Self, FoundTape), AllocError>
        requires least { 1 ≤ pictures }
        requires most { pictures ≤ most_cached }
        // What a durable tape has is learned, in its order; only one that has something else begins
        // anew.
        ensures found { T.durable →
            IfSome tape (λ kept. IfOk result (λ x. IsFoundOn (T.content kept) x.1 (list_of x.0))) }
        ensures none { tape ≡ None → IfOk result (λ x. list_of x.0 ≡ []) }
        // It goes on without a tape where the tape failed, and nowhere else.
        ensures tape { IfOk result (λ x. IsTapeHad x.1 x.0.tape) }
        ensures without { tape ≡ None → IfOk result (λ x. x.1 ≡ FoundTape.Failed) }
        ensures read { IfOk result (λ x. read_by x.0 ≡ numbered 1 (list_of x.0)) }
        ensures answers { IfOk result (λ x. answers_of x.0 ≡ []) }
    {
        match tape {
            Some(tape) => Self::open_tape(alloc, tape, pictures),
            None => Self::without_tape(alloc, pictures),
        }
    }

    /// A replica that has learned nothing, without a tape.
    #[tactic(auto, using(crate::proofs::Recorded::recorded_bare, crate::proofs::Hearing::heard_read, crate::proofs::Hearing::nothing_read))]
    fn without_tape(alloc: Global, pictures: usize) -> Result<(Self, FoundTape), AllocError>
        requires least { 1 ≤ pictures }
        requires most { pictures ≤ most_cached }
        ensures list { IfOk result (λ x. list_of x.0 ≡ []) }
        ensures found { IfOk result (λ x. x.1 ≡ FoundTape.Failed) }
        ensures tape { IfOk result (λ x. x.0.tape ≡ None) }
        ensures read { IfOk result (λ x. read_by x.0 ≡ numbered 1 (list_of x.0)) }
        ensures answers { IfOk result (λ x. answers_of x.0 ≡ []) }
    {
        let maps = MapList::new(alloc, pictures)?;
        let follower = Follower {
            maps,
            tape: None,
            read: Past::new(),
            answers: Past::new(),
        };
        Ok((follower, FoundTape::Failed))
    }

    /// A replica with what its tape has.
    #[tactic(auto, using(crate::proofs::Recorded::found_begun, crate::proofs::Recorded::found_bad))]
    fn open_tape(alloc: Global, tape: T, pictures: usize) -> Result<(Self, FoundTape), AllocError>
        requires least { 1 ≤ pictures }
        requires most { pictures ≤ most_cached }
        ensures found { T.durable →
            IfOk result (λ x. IsFoundOn (T.content tape) x.1 (list_of x.0)) }
        ensures tape { IfOk result (λ x. IsTapeHad x.1 x.0.tape) }
        ensures read { IfOk result (λ x. read_by x.0 ≡ numbered 1 (list_of x.0)) }
        ensures answers { IfOk result (λ x. answers_of x.0 ≡ []) }
    {
        // Bytes are read as one list of records at most.
        records_are_read_one_way();
        match Journal::open(alloc, tape) {
            Ok((journal, records)) => Self::begin(alloc, journal.close(), records, pictures),
            Err((tape, OpenFault::BadRecord(_))) => Self::begin_anew(alloc, tape, pictures),
            Err((tape, OpenFault::TapeFailed)) => {
                drop(tape);
                Self::without_tape(alloc, pictures)
            }
            Err((tape, OpenFault::Memory)) => {
                drop(tape);
                Err(AllocError)
            }
        }
    }

    /// A replica with these records of its tape.
    #[tactic(auto, using(crate::proofs::Recorded::recorded_read, crate::proofs::Recorded::begun_anew, crate::proofs::Hearing::heard_read, crate::proofs::Hearing::nothing_read))]
    fn begin(
        alloc: Global,
        tape: T,
        records: Vec<Record>,
        pictures: usize,
    ) -> Result<(Self, FoundTape), AllocError>
        requires least { 1 ≤ pictures }
        requires most { pictures ≤ most_cached }
        requires held { T.durable → AreRecords (T.content tape) (map view records.items) }
        ensures found { IfOk result (λ x.
            IsRecordedStart x.1 (map view records.items) (list_of x.0)) }
        ensures tape { IfOk result (λ x. IsTapeHad x.1 x.0.tape) }
        ensures read { IfOk result (λ x. read_by x.0 ≡ numbered 1 (list_of x.0)) }
        ensures answers { IfOk result (λ x. answers_of x.0 ≡ []) }
    {
        let mut maps = match MapList::new(alloc, pictures) {
            Ok(maps) => maps,
            Err(AllocError) => {
                drop(tape);
                drop(records);
                return Err(AllocError);
            }
        };
        let mut read = Past::new();
        match maps.receive_records(&mut read, &records) {
            Ok(true) => {
                drop(records);
                let follower = Follower {
                    maps,
                    tape: Some(tape),
                    read,
                    answers: Past::new(),
                };
                Ok((follower, FoundTape::Published))
            }
            Ok(false) => {
                drop(records);
                drop(maps);
                Self::begin_anew(alloc, tape, pictures)
            }
            Err(AllocError) => {
                drop(records);
                drop(maps);
                drop(tape);
                Err(AllocError)
            }
        }
    }

    /// A replica whose tape begins anew.
    #[tactic(auto, using(crate::proofs::Recorded::recorded_begun))]
    fn begin_anew(
        alloc: Global,
        mut tape: T,
        pictures: usize,
    ) -> Result<(Self, FoundTape), AllocError>
        requires least { 1 ≤ pictures }
        requires most { pictures ≤ most_cached }
        ensures found { IfOk result (λ x. IsBegunAnew x.1 (list_of x.0)) }
        ensures tape { IfOk result (λ x. IsTapeHad x.1 x.0.tape) }
        ensures read { IfOk result (λ x. read_by x.0 ≡ numbered 1 (list_of x.0)) }
        ensures answers { IfOk result (λ x. answers_of x.0 ≡ []) }
    {
        let (mut follower, failed) = match Self::without_tape(alloc, pictures) {
            Ok(begun) => begun,
            Err(AllocError) => {
                drop(tape);
                return Err(AllocError);
            }
        };
        match tape.replace(&[]) {
            Ok(()) => {
                follower.tape = Some(tape);
                Ok((follower, FoundTape::Damaged))
            }
            Err(_) => {
                drop(tape);
                Ok((follower, failed))
            }
        }
    }
}

impl MapList {
    /// Learns what the records say, and logs that it was read. Returns whether they are published
    /// maps, one after the other.
    fn receive_records(
        &mut self,
        read: &mut Past<Message, usize>,
        records: &[Record],
    ) -> Result<bool, AllocError>
        requires empty { maps_of self.old ≡ [] }
        requires read { IsReadFromTape (messages_of read.old.items) self.old }
        ensures learned { IfOk result (λ are.
            AreLearned are (map view records.now) (maps_of self.new)) }
        ensures read { IfOk result (λ _. IsReadFromTape (messages_of read.new.items) self.new) }
    {
        for entry in records {
            if !self.receive_record(read, entry)? {
                return Ok(false);
            }
        }
        Ok(true)
    }

    /// Learns what a record says. Returns whether it is the next published map.
    #[tactic(auto, using(crate::proofs::Recorded::tried_is_none, crate::proofs::Recorded::promised_is_none, crate::proofs::Recorded::accepted_is_none))]
    fn receive_record(
        &mut self,
        read: &mut Past<Message, usize>,
        entry: &Record,
    ) -> Result<bool, AllocError>
        requires { IsReadFromTape (messages_of read.old.items) self.old }
        ensures learned { IfOk result (λ is.
            IsNextLearned is (view entry.now) (maps_of self.old) (maps_of self.new)) }
        ensures read { IfOk result (λ _. IsReadFromTape (messages_of read.new.items) self.new) }
    {
        match entry {
            Record::Published(slot, definition) => self.receive_map(read, *slot, definition),
            Record::Tried(_) | Record::Promised(_, _) | Record::Accepted(_, _, _) => Ok(false),
        }
    }

    /// Learns a published map, if it is the next one. Returns whether it is.
    #[tactic(auto, using(crate::proofs::Received::chosen_next, crate::proofs::Recorded::other_is_none, crate::proofs::Recorded::next_is_learned, crate::proofs::Hearing::one_read))]
    fn receive_map(
        &mut self,
        read: &mut Past<Message, usize>,
        slot: Slot,
        definition: &Canon,
    ) -> Result<bool, AllocError>
        requires { IsReadFromTape (messages_of read.old.items) self.old }
        ensures learned { IfOk result
            (λ is. IsNextLearned is (Published slot definition.now) (maps_of self.old) (maps_of self.new)) }
        ensures read { IfOk result (λ _. IsReadFromTape (messages_of read.new.items) self.new) }
    {
        let published = self.history().published().number();
        if slot.number() != published + 1 {
            return Ok(false);
        }
        let message = Message::Chosen(slot, definition.copy()?);
        let more = read.and(&message, &0);
        self.receive(message)?;
        *read = more;
        Ok(true)
    }
}
