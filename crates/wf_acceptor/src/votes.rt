//! An acceptor's votes, in a vector sorted by slot: one is found by binary search.
ghost use Rattle.std.specs.Prelude.{◌≡◌, ◌<◌, OnOk, IfOk, IfErr};
ghost use Rattle.std.specs.FinMap as map;
ghost use Rattle.std.specs.Option.{option_copied};
ghost use Rattle.wf_acceptor.specs.OpenVotes.{IsSorted, IsEntryAt, IsGapFor};

use std::alloc::{AllocError, Global};
use std::marker::Model;
use wf_ballot::{Ballot, Slot};
use wf_codec::Canon;

/// The votes of an acceptor at the slots that aren't published, sorted by slot.
#[derive(Drop)]
pub struct OpenVotes {
    entries: Vec<(Slot, (Ballot, Canon))>,
}

impl Model for OpenVotes {
    ghost use Rattle.std.specs.Prelude.{◌-◌, vec_len, vec_capacity};
    ghost use Rattle.std.specs.Coded.{codes};
    ghost use Rattle.std.specs.FinMap as map;
    ghost use Rattle.wf_acceptor.specs.OpenVotes.{OpenVotes, IsSorted};

    ghost Value = { OpenVotes };

    ghost coded = { Prim.hlevel (codes, map.code) };

    ghost view = { λ v. record {
      by_slot = map.from_entries v.entries.items;
      room = vec_capacity v.entries - vec_len v.entries;
    } };

    ghost invariant = { λ v. IsSorted v.entries.items };
}

impl OpenVotes {
    /// No votes.
    pub fn new(alloc: Global) -> Self
        ensures { result.by_slot ≡ map.empty }
    {
        OpenVotes {
            entries: Vec::new(alloc),
        }
    }

    /// The votes by slot, in the slots' order.
    pub fn entries(&self) -> &[(Slot, (Ballot, Canon))]
        ensures { self.now.by_slot ≡ map.from_entries result.now }
    {
        &self.entries
    }

    /// The slot's vote.
    pub fn value_at(&self, slot: Slot) -> Option<&(Ballot, Canon)>
        ensures { option_copied result ≡ map.get self.now.by_slot slot }
    {
        match search(&self.entries, slot) {
            Ok(index) => Some(&self.entries[index].1),
            Err(_) => None,
        }
    }

    /// Makes room for one more vote. The votes and the existing room remain.
    pub fn make_room(&mut self) -> Result<(), AllocError>
        ensures room { OnOk result (0 < self.new.room) }
        ensures more { 0 < self.old.room → 0 < self.new.room }
        ensures same { self.new.by_slot ≡ self.old.by_slot }
    {
        self.entries.reserve(1)
    }

    /// Sets the slot's vote. There must be room for it.
    pub fn put(&mut self, slot: Slot, vote: (Ballot, Canon))
        requires { 0 < self.old.room }
        ensures { self.new.by_slot ≡ map.insert self.old.by_slot slot vote }
    {
        match search(&self.entries, slot) {
            Ok(index) => self.entries[index] = (slot, vote),
            // There is room, so nothing fails.
            Err(index) => self.entries.insert(index, (slot, vote)).unwrap(),
        }
    }

    /// Removes the slot's vote. Those of other slots remain.
    pub fn forget(&mut self, slot: Slot)
        ensures { self.new.by_slot ≡ map.remove self.old.by_slot slot }
    {
        if let Ok(index) = search(&self.entries, slot) {
            let _ = self.entries.remove(index);
        }
    }
}

/// The index of the slot's entry; Err: the index where it would go.
fn search(entries: &[(Slot, (Ballot, Canon))], slot: Slot) -> Result<usize, usize>
    requires { IsSorted entries.now }
    ensures found { IfOk result (IsEntryAt entries.now slot) }
    ensures absent { IfErr result (IsGapFor entries.now slot) }
{
    entries.binary_search_by_key(&slot.number(), |entry| entry.0.number())
}
