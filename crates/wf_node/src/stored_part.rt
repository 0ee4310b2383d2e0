//! The durable state of a node, in memory.

ghost use Rattle.std.specs.Prelude.{◌≡◌, OnOk, OnErr, IsOk};
ghost use Rattle.wf_acceptor.specs.Acceptor.{Applies, IsNextSlot};
ghost use Rattle.wf_node.specs.DurablePart.{IsRoomy, IsRoomFor, tried_after, definitions_after, publication_of};
ghost use Rattle.wf_journal.specs.Record.{view};

use crate::comparison::{are_same, has_learned};
use std::alloc::{AllocError, Global};
use std::marker::Model;
use wf_acceptor::{Acceptor, AcceptorAnswer};
use wf_ballot::{Ballot, NodeId, Slot};
use wf_codec::Canon;
use wf_journal::Record;
use wf_learner::History;

/// The durable state of a node: the fold of its records.
#[derive(Drop)]
pub struct DurablePart {
    // The last round that the node tried, 0 before the first.
    tried: u32,
    history: History,
    acceptor: Acceptor,
}

impl Model for DurablePart {
    ghost use Rattle.std.specs.Prelude.{◌≡◌, length};
    ghost use Rattle.std.specs.Coded.{codes};
    ghost use Rattle.std.specs.FinMap as map;
    ghost use Rattle.wf_node.specs.DurablePart.{DurablePart};

    ghost Value = { DurablePart };

    ghost coded = { Prim.hlevel (codes, map.code) };

    ghost view = { λ k. record {
      id = k.acceptor.part.id;
      parts = record {
        tried = k.tried;
        promise = k.acceptor.part.promise;
        votes = k.acceptor.part.votes;
        history = k.history.definitions;
      };
      prepared = k.acceptor.prepared;
      has_room = k.history.has_room;
    } };

    ghost invariant = { λ k. k.acceptor.part.published ≡ length k.history.definitions };
}

impl DurablePart {
    ghost use Rattle.std.specs.Prelude.{◌≡◌, ◌<◌, length, true, nat_le, option_map, IfOk, OnOk, OnErr, IsOk, IsTrue, IfSome, None, ◌≢◌};
    ghost use Rattle.std.specs.Option.{option_copied};
    ghost use Rattle.wf_model.specs.Fits.{Fits};
    ghost use Rattle.wf_codec.specs.Message.{view_vote};
    ghost use Rattle.wf_model.specs.DurableState.{fits, nothing_stored, with_record};
    ghost use Rattle.wf_model.specs.Table.{store, votes_at};
    ghost use Rattle.wf_journal.specs.Record.{view};
    ghost use Rattle.wf_node.specs.DurablePart.{accept_transition, prepare_transition, stored_of, HasRoomFor, HasRoomIfOwn, IsTransitionAnswer, Stores};

    /// The durable state of a node that has stored nothing yet.
    pub(crate) fn new(alloc: Global, id: NodeId) -> Result<DurablePart, AllocError>
        ensures stored { IfOk result (λ persistent. stored_of persistent ≡ nothing_stored) }
        ensures id { IfOk result (λ persistent. persistent.id ≡ id) }
    {
        Ok(DurablePart {
            tried: 0,
            history: History::new(alloc)?,
            acceptor: Acceptor::new(alloc, id),
        })
    }

    /// The last round that the node tried, 0 before the first.
    pub(crate) fn last_round(&self) -> u32
        ensures { result ≡ self.now.parts.tried }
    {
        self.tried
    }

    /// The published definitions.
    pub(crate) fn history(&self) -> &History
        ensures { result.now.definitions ≡ self.now.parts.history }
    {
        &self.history
    }

    /// Whether the slot's definition is published.
    pub(crate) fn is_published(&self, slot: Slot) -> bool
        ensures { result ≡ nat_le slot (length self.now.parts.history) }
    {
        self.acceptor.is_published(slot)
    }

    /// The promise, which is one for all slots.
    pub(crate) fn promise(&self) -> Option<Ballot>
        ensures { result ≡ self.now.parts.promise }
    {
        self.acceptor.promise()
    }

    /// The vote at the slot: its ballot and its definition.
    pub(crate) fn vote_at(&self, slot: Slot) -> Option<&(Ballot, Canon)>
        ensures { view_vote (option_copied result) ≡ (stored_of self.now).votes slot }
    {
        self.acceptor.vote_at(slot)
    }

    /// Whether the vote at the slot is at this ballot.
    pub(crate) fn is_voted_at(&self, slot: Slot, ballot: Ballot) -> bool
        ensures { result ≡ votes_at ((stored_of self.now).votes slot) ballot }
    {
        self.acceptor.is_voted_at(slot, ballot)
    }

    /// Answers `Prepare(slot, ballot)` at a slot that isn't published. Allocation can fail only for
    /// a promise.
    pub(crate) fn on_prepare(
        &mut self,
        slot: Slot,
        ballot: Ballot,
    ) -> Result<AcceptorAnswer, AllocError>
        requires { length self.old.parts.history < slot }
        ensures transition { IfOk result
            (IsTransitionAnswer (prepare_transition self.old slot ballot)) }
        ensures room { IfOk result (λ answer. IfSome answer.entry (λ r. HasRoomFor self.new r)) }
        ensures parts { self.new.parts ≡ self.old.parts }
        ensures id { self.new.id ≡ self.old.id }
        ensures memory { OnErr result (Stores (prepare_transition self.old slot ballot)) }
    {
        self.acceptor.on_prepare(slot, ballot)
    }

    /// Answers `Accept(slot, ballot, canon)` at a slot that isn't published. Allocation can fail
    /// only for a vote.
    pub(crate) fn on_accept(
        &mut self,
        slot: Slot,
        ballot: Ballot,
        canon: Canon,
    ) -> Result<AcceptorAnswer, AllocError>
        requires { length self.old.parts.history < slot }
        ensures transition { IfOk result
            (IsTransitionAnswer (accept_transition self.old slot ballot canon)) }
        ensures room { IfOk result (λ answer. IfSome answer.entry (λ r. HasRoomFor self.new r)) }
        ensures parts { self.new.parts ≡ self.old.parts }
        ensures id { self.new.id ≡ self.old.id }
        ensures memory { OnErr result (Stores (accept_transition self.old slot ballot canon)) }
    {
        self.acceptor.on_accept(slot, ballot, canon)
    }

    /// Makes room for the record, if it is one of a published definition. The prepared record
    /// remains.
    pub(crate) fn make_room_for(&mut self, entry: Option<&Record>) -> Result<(), AllocError>
        ensures parts { self.new.parts ≡ self.old.parts }
        ensures id { self.new.id ≡ self.old.id }
        ensures room { OnOk result (HasRoomIfOwn self.new (option_copied entry.entry)) }
        ensures memory { OnErr result (option_copied entry.entry ≢ None) }
    {
        match entry {
            Some(Record::Published(_, _)) => self.history.make_room(),
            _ => Ok(()),
        }
    }

    /// Whether the record fits the fold; a published definition fits if its slot is the next.
    #[tactic(auto, using(crate::proofs::PersistentPart::fits_in_turn), unfolding(wf_model::specs::DurableState::fits))]
    pub(crate) fn fits(&self, entry: &Record) -> bool
        ensures { result ≡ fits (stored_of self.now) (view entry.now) }
    {
        match entry {
            Record::Published(slot, _) => slot.number() == self.history.published().number() + 1,
            Record::Tried(_) | Record::Promised(_, _) | Record::Accepted(_, _, _) => true,
        }
    }

    /// Whether this is the other durable state.
    #[tactic(auto, using(crate::proofs::PersistentPart::same_persistent))]
    pub(crate) fn is_same(&self, other: &DurablePart) -> bool
        ensures { IsTrue result → stored_of self.now ≡ stored_of other.now }
    {
        self.tried == other.tried
            && are_same(&self.history, &other.history)
            && self.acceptor.has_same(&other.acceptor)
    }

    /// Whether this is what the other durable state is after the record.
    pub(crate) fn is_after(&self, other: &DurablePart, entry: &Record) -> bool
        ensures { IsTrue result →
            stored_of self.now ≡ with_record (stored_of other.now) (view entry.now) }
    {
        if !other.fits(entry) {
            return false;
        }
        let round = round_after(other.tried, entry);
        if self.tried != round {
            return false;
        }
        if !has_learned(&self.history, &other.history, entry) {
            return false;
        }
        self.acceptor.has_applied(&other.acceptor, entry)
    }

    /// Applies a record that fits, as the fold does. Doesn't allocate if there is room for the
    /// record; an error changes nothing.
    pub(crate) fn apply(&mut self, entry: Record) -> Result<(), AllocError>
        requires { fits (stored_of self.old) (view entry) ≡ true }
        ensures ok { OnOk result (stored_of self.new ≡
            with_record (stored_of self.old) (view entry)) }
        ensures id { self.new.id ≡ self.old.id }
        ensures err { OnErr result (self.new ≡ self.old) }
        ensures room { HasRoomFor self.old entry → IsOk result }
    {
        match report(&mut self.history, &mut self.acceptor, &entry) {
            Ok(()) => {
                take_in(&mut self.tried, &mut self.history, entry);
                Ok(())
            }
            Err(fault) => {
                discard(entry);
                Err(fault)
            }
        }
    }

    /// Applies the record, if there is one. It must fit, and there must be room for it.
    pub(crate) fn apply_entry(&mut self, entry: Option<Record>)
        requires fits { Fits (stored_of self.old) (option_map view entry) }
        requires room { IfSome entry (HasRoomFor self.old) }
        ensures stored { stored_of self.new ≡ store (stored_of self.old) (option_map view entry) }
        ensures id { self.new.id ≡ self.old.id }
    {
        match entry {
            Some(entry) => {
                // There is room, so nothing fails.
                let _ = self.apply(entry);
            }
            None => {}
        }
    }
}

// The acceptor applies the record; afterwards there is room for it in the history.
fn report(history: &mut History, acceptor: &mut Acceptor, entry: &Record) -> Result<(), AllocError>
    requires { IsNextSlot acceptor.old.part entry.now }
    ensures applied { OnOk result (Applies acceptor.old.part acceptor.new.part (view entry.now)) }
    ensures id { acceptor.new.part.id ≡ acceptor.old.part.id }
    ensures definitions { history.new.definitions ≡ history.old.definitions }
    ensures roomy { OnOk result (IsRoomy history.new.has_room entry.now) }
    ensures err_acceptor { OnErr result (acceptor.new ≡ acceptor.old) }
    ensures err_history { OnErr result (history.new ≡ history.old) }
    ensures room { IsRoomFor acceptor.old.prepared history.old.has_room entry.now → IsOk result }
{
    match entry {
        Record::Published(_, _) => {
            history.make_room()?;
            acceptor.apply(entry)
        }
        _ => acceptor.apply(entry),
    }
}

// The last round that the node tried after the record.
fn round_after(tried: u32, entry: &Record) -> u32
    ensures { result ≡ tried_after tried entry.now }
{
    match entry {
        Record::Tried(round) => round.number(),
        Record::Promised(_, _) | Record::Accepted(_, _, _) | Record::Published(_, _) => tried,
    }
}

// Sets the last round to that of a tried round's record, or learns the definition of a published
// one's. There must be room for it.
fn take_in(tried: &mut u32, history: &mut History, entry: Record)
    requires { IsRoomy history.old.has_room entry }
    ensures tried { tried.new ≡ tried_after tried.old entry }
    ensures definitions { history.new.definitions ≡
        definitions_after history.old.definitions entry }
{
    if let Record::Tried(round) = &entry {
        *tried = round.number();
    }
    if let Some((slot, canon)) = publication(entry) {
        // There is room, so nothing fails.
        let _ = history.learn(slot, canon);
    }
}

// The slot and the definition of a published definition's record.
fn publication(entry: Record) -> Option<(Slot, Canon)>
    ensures { result ≡ publication_of entry }
{
    match entry {
        Record::Published(slot, canon) => Some((slot, canon)),
        _ => None,
    }
}

// Drops a record that isn't applied.
fn discard(_entry: Record) {}
