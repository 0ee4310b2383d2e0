ghost use Rattle.std.specs.Prelude.{◌≡◌, None, Some};
ghost use Rattle.wf_model.specs.DurableState.{raised};
ghost use Rattle.wf_acceptor.specs.Prepared.{definition_of};

use crate::comparison::{has_vote, have_same_votes};
use crate::report::report_from;
use crate::same::is_same_record;
use crate::votes::OpenVotes;
use std::alloc::{AllocError, Global};
use std::marker::Model;
use wf_ballot::{Ballot, NodeId, Slot};
use wf_codec::{Canon, Message};
use wf_journal::Record;

/// An acceptor's answer to a Prepare or an Accept.
#[derive(Drop)]
pub struct AcceptorAnswer {
    /// The record to store before the reply is sent, if there is one.
    pub entry: Option<Record>,
    /// The reply, if there is one.
    pub reply: Option<Message>,
}

/// A node's promise and votes. The promise is the ballot below which the node rejects everything,
/// at whatever slot; a vote is the ballot at which it voted at a slot, with the definition.
pub struct Acceptor {
    id: NodeId,
    // The last published slot.
    published: Option<Slot>,
    promise: Option<Ballot>,
    votes: OpenVotes,
    // The prepared record: there is room for its vote.
    prepared: Option<Record>,
}

// Written by hand: callers then prove one call where they drop an acceptor, not one for each part.
impl Drop for Acceptor {
    fn drop(self) {
        let Acceptor {
            id: _,
            published: _,
            promise: _,
            votes,
            prepared,
        } = self;
        drop(votes);
        drop(prepared);
    }
}

impl Model for Acceptor {
    ghost use Rattle.std.specs.Prelude.{◌<◌, unwrap_or, IfSome};
    ghost use Rattle.std.specs.Coded.{codes};
    ghost use Rattle.std.specs.FinMap as map;
    ghost use Rattle.wf_acceptor.specs.Acceptor.{Acceptor};

    ghost Value = { Acceptor };

    ghost coded = { Prim.hlevel (codes, map.code) };

    ghost view = { λ a. record {
      part = record {
        id = a.id;
        published = unwrap_or a.published 0;
        promise = a.promise;
        votes = a.votes.by_slot;
      };
      prepared = a.prepared;
    } };

    ghost invariant = { λ a. IfSome a.prepared (λ r. 0 < a.votes.room) };
}

impl Acceptor {
    ghost use Rattle.std.specs.Prelude.{◌≡◌, ◌<◌, ◌↔◌, IsTrue, IfOk, OnOk, OnErr, IsOk, Some, None, nat_le, unwrap_or, IfSome};
    ghost use Rattle.std.specs.FinMap as map;
    ghost use Rattle.wf_model.specs.DurableState.{nothing_stored};
    ghost use Rattle.wf_model.specs.Table as table;
    ghost use Rattle.wf_model.specs.Table.{votes_at};
    ghost use Rattle.std.specs.Option.{option_copied};
    ghost use Rattle.wf_codec.specs.Message.{view_vote};
    ghost use Rattle.wf_journal.specs.Record.{view as record_view};
    ghost use Rattle.wf_acceptor.specs.Acceptor.{votes_of, ActsFor, Applies, IsNextSlot, HasRoomFor};
    ghost use Rattle.wf_acceptor.specs.Comparison.{KeepsPart};
    ghost use Rattle.wf_acceptor.specs.AcceptorAnswer.{accept_transition, prepare_transition, AnswersAlways, Stores};
    ghost use Rattle.wf_acceptor.specs.Prepared.{nack_of, promising, replying, unprepared, voting, with_promise, with_open, with_entry, with_entry_at, with_published};

    /// The acceptor of a node that has stored nothing yet.
    pub fn new(alloc: Global, id: NodeId) -> Acceptor
        ensures value { result ≡ unprepared
            (record { id = id; published = 0; promise = None; votes = map.empty }) }
        ensures acts { ActsFor result.part nothing_stored }
    {
        Acceptor {
            id,
            published: None,
            promise: None,
            votes: OpenVotes::new(alloc),
            prepared: None,
        }
    }

    /// Whether the slot's definition is published. The acceptor doesn't answer for such a slot.
    pub fn is_published(&self, slot: Slot) -> bool
        ensures { result ≡ nat_le slot self.now.part.published }
    {
        match self.published {
            Some(last) => slot.number() <= last.number(),
            None => false,
        }
    }

    /// The promise, which is one for all slots.
    pub fn promise(&self) -> Option<Ballot>
        ensures { result ≡ self.now.part.promise }
    {
        self.promise
    }

    /// The vote at the slot: its ballot and its definition.
    pub fn vote_at(&self, slot: Slot) -> Option<&(Ballot, Canon)>
        ensures { view_vote (option_copied result) ≡ votes_of self.now.part slot }
    {
        self.votes.value_at(slot)
    }

    /// Whether the vote at the slot is at this ballot.
    pub fn is_voted_at(&self, slot: Slot, ballot: Ballot) -> bool
        ensures { result ≡ votes_at (votes_of self.now.part slot) ballot }
    {
        match self.votes.value_at(slot) {
            Some((voted, _)) => *voted == ballot,
            None => false,
        }
    }

    /// Answers `Prepare(slot, ballot)`: with a Promise, which reports the votes of the slot and the
    /// three after it, if the ballot is the first or above the promise; with a Nack and the
    /// promise, if the ballot is below it; with nothing, if the ballot is the promise. Allocation
    /// can fail only for a Promise.
    pub fn on_prepare(&mut self, slot: Slot, ballot: Ballot) -> Result<AcceptorAnswer, AllocError>
        requires { self.old.part.published < slot }
        ensures transition { IfOk result
            (AnswersAlways self.old.part (prepare_transition self.old.part slot ballot)) }
        ensures part { self.new.part ≡ self.old.part }
        ensures room { IfOk result (λ answer. IfSome answer.entry (HasRoomFor self.new)) }
        ensures none_set_aside { OnOk result (self.new.prepared ≡ None) }
        ensures err { OnErr result (self.new ≡ self.old) }
        ensures memory { OnErr result
            (Stores self.old.part (prepare_transition self.old.part slot ballot)) }
    {
        if self.is_above(ballot) {
            return self.promise_to(slot, ballot);
        }
        if self.is_rejected(ballot) {
            return Ok(self.reject(slot, ballot));
        }
        Ok(self.only_reply(None))
    }

    /// Answers `Accept(slot, ballot, canon)`: with a Nack and the promise, if the ballot is below
    /// it; with its earlier answer, if it voted at this ballot; otherwise it votes, which promises
    /// the ballot too. Allocation can fail only for a vote.
    pub fn on_accept(
        &mut self,
        slot: Slot,
        ballot: Ballot,
        canon: Canon,
    ) -> Result<AcceptorAnswer, AllocError>
        requires { self.old.part.published < slot }
        ensures transition { IfOk result
            (AnswersAlways self.old.part (accept_transition self.old.part slot ballot canon)) }
        ensures part { self.new.part ≡ self.old.part }
        ensures room { IfOk result (λ answer. IfSome answer.entry (HasRoomFor self.new)) }
        ensures set_aside { IfOk result (λ answer. self.new.prepared ≡ answer.entry) }
        ensures err { OnErr result (self.new ≡ self.old) }
        ensures memory { OnErr result
            (Stores self.old.part (accept_transition self.old.part slot ballot canon)) }
    {
        if self.is_rejected(ballot) {
            return Ok(self.reject(slot, ballot));
        }
        if self.is_voted_at(slot, ballot) {
            let accepted = Message::Accepted(self.id, slot, ballot);
            return Ok(self.only_reply(Some(accepted)));
        }
        self.vote(slot, ballot, canon)
    }

    /// Applies a record, as the fold does; afterwards no record is prepared. Allocates only for a
    /// vote, and not for that of the last answer. An error changes nothing.
    pub fn apply(&mut self, entry: &Record) -> Result<(), AllocError>
        requires { IsNextSlot self.old.part entry.now }
        ensures ok { OnOk result (Applies self.old.part self.new.part (record_view entry.now)) }
        ensures id { self.new.part.id ≡ self.old.part.id }
        ensures spent { OnOk result (self.new.prepared ≡ None) }
        ensures err { OnErr result (self.new ≡ self.old) }
        ensures room { HasRoomFor self.old entry.now → IsOk result }
    {
        self.take_in(entry)
    }

    /// Whether this acceptor has what the other one has: of the same node, with the same promise,
    /// votes and number of published definitions.
    #[tactic(auto, using(crate::proofs::Compared::agrees_as_same))]
    pub fn has_same(&self, other: &Acceptor) -> bool
        ensures { IsTrue result → self.now.part ≡ other.now.part }
    {
        self.agrees(other, other.promise, other.published, None)
    }

    /// Whether this acceptor has what the other one would have after the record, which has to be of
    /// the next slot if it is that of a published definition.
    pub fn has_applied(&self, other: &Acceptor, entry: &Record) -> bool
        requires { IsNextSlot other.now.part entry.now }
        ensures { IsTrue result → Applies other.now.part self.now.part (record_view entry.now) }
    {
        self.is_with(other, entry)
    }

    // Whether this acceptor's part is the other one's with the record.
    fn is_with(&self, other: &Acceptor, entry: &Record) -> bool
        ensures { IsTrue result → self.now.part ≡ with_entry other.now.part entry.now }
    {
        match entry {
            Record::Tried(_) => self.has_same(other),
            Record::Promised(_, ballot) => self.has_promised(other, *ballot),
            Record::Accepted(slot, ballot, canon) => {
                if other.is_published(*slot) {
                    self.has_same(other)
                } else {
                    self.has_voted(other, *slot, *ballot, canon)
                }
            }
            Record::Published(slot, _) => self.has_published(other, *slot),
        }
    }

    // Whether this acceptor's part is the other one's with the promise raised to the ballot.
    #[tactic(auto, using(crate::proofs::Compared::agrees_as_promised))]
    fn has_promised(&self, other: &Acceptor, ballot: Ballot) -> bool
        ensures { IsTrue result → self.now.part ≡ with_promise other.now.part ballot }
    {
        self.agrees(
            other,
            higher_ballot(other.promise, ballot),
            other.published,
            None,
        )
    }

    // Whether this acceptor's part is the other one's with this vote at the slot, and the promise
    // raised to its ballot.
    #[tactic(auto, using(crate::proofs::Compared::agrees_as_voted))]
    fn has_voted(&self, other: &Acceptor, slot: Slot, ballot: Ballot, canon: &Canon) -> bool
        ensures { IsTrue result →
            self.now.part ≡ with_open other.now.part (Record.Accepted slot ballot canon.now) }
    {
        self.agrees(
            other,
            higher_ballot(other.promise, ballot),
            other.published,
            Some(slot),
        ) && has_vote(&self.votes, slot, ballot, canon)
    }

    // Whether this acceptor's part is the other one's without the slot's vote, since the slot is
    // published.
    #[tactic(auto, using(crate::proofs::Compared::agrees_as_published))]
    fn has_published(&self, other: &Acceptor, slot: Slot) -> bool
        ensures { IsTrue result → self.now.part ≡ with_published other.now.part slot }
    {
        self.agrees(other, other.promise, Some(slot), Some(slot))
            && self.votes.value_at(slot).is_none()
    }

    // Whether this acceptor is of the other one's node, has this promise and this last published
    // slot, and the other one's votes, except at the slot `but`.
    fn agrees(
        &self,
        other: &Acceptor,
        promise: Option<Ballot>,
        published: Option<Slot>,
        but: Option<Slot>,
    ) -> bool
        ensures { IsTrue result →
            KeepsPart promise (unwrap_or published 0) but other.now.part self.now.part }
    {
        self.id == other.id
            && self.promise == promise
            && self.published == published
            && have_same_votes(&self.votes, &other.votes, &but)
    }

    // Whether the ballot is above the promise; true if there is no promise.
    fn is_above(&self, ballot: Ballot) -> bool
        ensures { result ≡ table.is_above self.now.part.promise ballot }
    {
        match self.promise() {
            Some(promise) => promise.is_below(ballot),
            None => true,
        }
    }

    // Whether the ballot is below the promise; false if there is no promise.
    fn is_rejected(&self, ballot: Ballot) -> bool
        ensures { result ≡ table.is_rejected self.now.part.promise ballot }
    {
        match self.promise() {
            Some(promise) => ballot.is_below(promise),
            None => false,
        }
    }

    // An answer without a record.
    fn only_reply(&mut self, reply: Option<Message>) -> AcceptorAnswer
        ensures answer { result ≡ replying reply }
        ensures after { self.new ≡ record self.old { prepared = None } }
    {
        self.release();
        AcceptorAnswer { entry: None, reply }
    }

    // A Nack with the promise, if there is one.
    fn reject(&mut self, slot: Slot, ballot: Ballot) -> AcceptorAnswer
        ensures answer { result ≡ replying (nack_of self.old.part slot ballot) }
        ensures after { self.new ≡ record self.old { prepared = None } }
    {
        let nack = self.nack(slot, ballot);
        self.only_reply(nack)
    }

    fn nack(&self, slot: Slot, ballot: Ballot) -> Option<Message>
        ensures { result ≡ nack_of self.now.part slot ballot }
    {
        match self.promise() {
            Some(promise) => Some(Message::Nack(self.id, slot, ballot, promise)),
            None => None,
        }
    }

    // Drops the prepared record.
    fn release(&mut self)
        ensures { self.new ≡ record self.old { prepared = None } }
    {
        self.prepared = None;
    }

    // Promises the ballot, and reports the votes from the slot on.
    fn promise_to(&mut self, slot: Slot, ballot: Ballot) -> Result<AcceptorAnswer, AllocError>
        ensures answer { IfOk result (λ answer. answer ≡ promising self.old.part slot ballot) }
        ensures ok { OnOk result (self.new ≡ record self.old { prepared = None }) }
        ensures err { OnErr result (self.new ≡ self.old) }
    {
        let report = report_from(&self.votes, slot)?;
        let answer = AcceptorAnswer {
            entry: Some(Record::Promised(slot, ballot)),
            reply: Some(Message::Promise(self.id, ballot, report)),
        };
        self.release();
        Ok(answer)
    }

    // Votes for the definition at the ballot.
    fn vote(
        &mut self,
        slot: Slot,
        ballot: Ballot,
        canon: Canon,
    ) -> Result<AcceptorAnswer, AllocError>
        ensures answer { IfOk result (λ answer. answer ≡ voting self.old.part slot ballot canon) }
        ensures ok { OnOk result (self.new ≡
            record self.old { prepared = Some (Record.Accepted slot ballot canon) }) }
        ensures err { OnErr result (self.new ≡ self.old) }
    {
        let entry = Record::Accepted(slot, ballot, canon);
        // Without `?`: the proof of an exit that drops a record treats each kind of record
        // separately.
        match self.prepare(&entry) {
            Ok(()) => Ok(AcceptorAnswer {
                entry: Some(entry),
                reply: Some(Message::Accepted(self.id, slot, ballot)),
            }),
            Err(fault) => {
                drop(entry);
                Err(fault)
            }
        }
    }

    // Applies a record; afterwards no record is prepared.
    fn take_in(&mut self, entry: &Record) -> Result<(), AllocError>
        ensures ok { OnOk result (self.new ≡ unprepared (with_entry self.old.part entry.now)) }
        ensures err { OnErr result (self.new ≡ self.old) }
        ensures room { HasRoomFor self.old entry.now → IsOk result }
    {
        match entry {
            Record::Tried(_) => self.release(),
            Record::Promised(_, ballot) => self.raise(*ballot),
            Record::Accepted(slot, _, _) => self.take_in_at(*slot, entry)?,
            Record::Published(slot, _) => self.publish(*slot),
        }
        Ok(())
    }

    // Raises the promise to the ballot, if that is above it.
    fn raise(&mut self, ballot: Ballot)
        ensures { self.new ≡ unprepared (with_promise self.old.part ballot) }
    {
        self.promise = higher_ballot(self.promise, ballot);
        self.prepared = None;
    }

    // Applies a record of a vote at the slot, unless the slot is published.
    fn take_in_at(&mut self, slot: Slot, entry: &Record) -> Result<(), AllocError>
        ensures ok { OnOk result
            (self.new ≡ unprepared (with_entry_at self.old.part slot entry.now)) }
        ensures err { OnErr result (self.new ≡ self.old) }
        ensures room { self.old.prepared ≡ Some entry.now → IsOk result }
    {
        if self.is_published(slot) {
            self.release();
            return Ok(());
        }
        self.set_aside(entry)?;
        self.take_in_prepared();
        Ok(())
    }

    // Prepares the record, so that applying it doesn't allocate.
    fn set_aside(&mut self, entry: &Record) -> Result<(), AllocError>
        ensures ok { OnOk result (self.new ≡ record self.old { prepared = Some entry.now }) }
        ensures err { OnErr result (self.new ≡ self.old) }
        ensures room { self.old.prepared ≡ Some entry.now → IsOk result }
    {
        if self.has_prepared(entry) {
            return Ok(());
        }
        self.prepare(entry)
    }

    fn has_prepared(&self, entry: &Record) -> bool
        ensures { IsTrue result ↔ (self.now.prepared ≡ Some entry.now) }
    {
        match &self.prepared {
            Some(prepared) => is_same_record(prepared, entry),
            None => false,
        }
    }

    // Makes room for a vote, and stores a copy of its record.
    fn prepare(&mut self, entry: &Record) -> Result<(), AllocError>
        ensures ok { OnOk result (self.new ≡ record self.old { prepared = Some entry.now }) }
        ensures err { OnErr result (self.new ≡ self.old) }
    {
        self.votes.make_room()?;
        let copy = entry.copy()?;
        keep(&mut self.prepared, copy);
        Ok(())
    }

    // Sets the slot's vote to that of the prepared record, and raises the promise to its ballot.
    fn take_in_prepared(&mut self)
        ensures { IfSome self.old.prepared
            (λ r. self.new ≡ unprepared (with_open self.old.part r)) }
    {
        if let Some(Record::Accepted(slot, ballot, _)) = &self.prepared {
            let slot = *slot;
            let ballot = *ballot;
            self.promise = higher_ballot(self.promise, ballot);
            if let Some(canon) = take_definition(&mut self.prepared) {
                self.votes.put(slot, (ballot, canon));
            }
        }
        self.prepared = None;
    }

    // Removes the slot's vote, since its definition is published. The promise remains.
    fn publish(&mut self, slot: Slot)
        ensures { self.new ≡ unprepared (with_published self.old.part slot) }
    {
        self.published = Some(slot);
        self.votes.forget(slot);
        self.prepared = None;
    }
}

// Stores the record in place of the one before.
fn keep(prepared: &mut Option<Record>, entry: Record)
    ensures { prepared.new ≡ Some entry }
{
    *prepared = Some(entry);
}

// Takes the definition of a vote's record.
fn take_definition(prepared: &mut Option<Record>) -> Option<Canon>
    ensures value { result ≡ definition_of prepared.old }
    ensures after { prepared.new ≡ None }
{
    match prepared.take() {
        Some(Record::Accepted(_, _, canon)) => Some(canon),
        _ => None,
    }
}

// The promise, raised to the ballot if that is above it.
#[tactic(auto, unfolding(wf_model::specs::DurableState::raised))]
fn higher_ballot(promise: Option<Ballot>, ballot: Ballot) -> Option<Ballot>
    ensures { result ≡ raised promise ballot }
{
    match promise {
        Some(promise) => {
            if promise.is_below(ballot) {
                Some(ballot)
            } else {
                Some(promise)
            }
        }
        None => Some(ballot),
    }
}
