//! The published map definitions.

use std::alloc::{AllocError, Global};
use std::marker::Model;
use wf_ballot::{Seq, Slot};
use wf_codec::{Canon, Message};
use wf_def::MapDef;

/// The result of learning a chosen definition.
#[derive(Clone, Copy, Debug, PartialEq, Eq)]
pub enum Learned {
    /// It is the history's newest: its slot was the next.
    Published,
    /// Its slot was published before; nothing changed.
    Known,
    /// Its slot is later, and the definitions from this slot on are missing; nothing changed.
    Missing(Slot),
}

/// The most definitions that answer one Ask.
pub const MOST_REPORTS: u16 = 8;

/// The map definitions that a node published, one for each update sequence from 1 on. Sequence 0 is
/// the empty map. Nothing is ever removed from it or changed in it.
pub struct History {
    // The first is that of slot 1.
    definitions: Vec<Canon>,
    // The map of sequence 0.
    first: MapDef,
}

// Written by hand: callers then prove one call where they drop a history, not one for each part.
impl Drop for History {
    fn drop(self) {
        let History { definitions, first } = self;
        drop(definitions);
        drop(first);
    }
}

impl Model for History {
    ghost use Rattle.std.specs.Prelude.{nat_lt, vec_len, vec_capacity};
    ghost use Rattle.wf_learner.specs.History.{History, IsHistory};

    ghost Value = { History };

    ghost view = { λ h. record {
      definitions = h.definitions.items;
      has_room = nat_lt (vec_len h.definitions) (vec_capacity h.definitions);
    } };

    ghost invariant = { λ h. IsHistory h.first h.definitions.items };
}

impl History {
    ghost use Rattle.std.specs.Prelude.{◌≡◌, ◌≢◌, ◌≤◌, ◌<◌, ◌↔◌, ◌++◌, ◌∷◌, true, [], length, map, option_map, IfOk, OnOk, OnErr, IsOk, IsSome, IfSome};
    ghost use Rattle.std.specs.Option.{option_copied, option_to_list};
    ghost use Rattle.wf_ballot.specs.Sequence.{IsSequence, last_sequence};
    ghost use Rattle.wf_codec.specs.Message.{view as view_message};
    ghost use Rattle.wf_def.specs.Limits.{IsWithinLimits};
    ghost use Rattle.wf_learner.specs.History.{HasRoom, map_at, next_of, learned_at, with_chosen, IsChosenTransition};
    ghost use Rattle.wf_model.specs.DurableState.{definition_at};
    ghost use Rattle.wf_model.specs.Table.{most_reports, reports, reports_from};

    /// The history of a node that has published nothing yet.
    pub fn new(alloc: Global) -> Result<History, AllocError>
        ensures { IfOk result (λ history. history.definitions ≡ []) }
    {
        Ok(History {
            definitions: Vec::new(alloc),
            first: MapDef::empty(alloc)?,
        })
    }

    /// The last published sequence, which is the number of published definitions; 0 if there is
    /// none.
    pub fn published(&self) -> Seq
        ensures value { result ≡ length self.now.definitions }
        ensures in_range { IsSequence result }
    {
        Seq::new(self.definitions.len() as u16).unwrap()
    }

    /// The next slot; None if the last one is published. A node that catches up asks for it.
    pub fn next_slot(&self) -> Option<Slot>
        ensures open { IsSome result ↔ (length self.now.definitions < last_sequence) }
        ensures value { IfSome result (λ slot. slot ≡ next_of self.now.definitions) }
    {
        Slot::new(self.definitions.len() as u16 + 1)
    }

    /// The map of a sequence, the empty one for 0; None above the published ones.
    #[tactic(auto, using(crate::proofs::Reported::map_published), unfolding(crate::specs::History::map_at))]
    pub fn get(&self, seq: Seq) -> Option<&MapDef>
        ensures value { option_copied result ≡ map_at self.now.definitions seq }
        ensures within { IfSome result (λ map. IsWithinLimits map.now) }
    {
        if seq.number() == 0 {
            // The parts of a map are within the limits, and so is the map.
            let _ = self.first.extent();
            return Some(&self.first);
        }
        let canon = self.definition(seq.number())?;
        Some(canon.def())
    }

    /// The definition that is published at the slot, with its canonical text.
    pub fn canon(&self, slot: Slot) -> Option<&Canon>
        ensures { option_copied result ≡ definition_at self.now.definitions slot }
    {
        self.definition(slot.number())
    }

    // The definition of the sequence of this number, which must not be 0.
    fn definition(&self, number: u16) -> Option<&Canon>
        requires { 1 ≤ number }
        ensures { option_copied result ≡ definition_at self.now.definitions number }
    {
        self.definitions.get(number as usize - 1)
    }

    /// Chosen with the definition that is published at the slot, if there is one: the answer to a
    /// Prepare or an Accept of a published slot. Allocation can fail only for a published slot.
    #[tactic(auto, using(crate::proofs::Reported::reported_published, crate::proofs::Reported::reported_unpublished, crate::proofs::Reported::is_published))]
    pub fn chosen_message(&self, slot: Slot) -> Result<Option<Message>, AllocError>
        ensures transition { IfOk result (λ message.
            option_to_list (option_map view_message message) ≡ reports self.now.definitions slot) }
        ensures memory { OnErr result (slot ≤ length self.now.definitions) }
    {
        match self.canon(slot) {
            Some(canon) => Ok(Some(Message::Chosen(slot, canon.copy()?))),
            None => Ok(None),
        }
    }

    /// Answers `Ask(slot)`: Chosen for each published slot from this one on, at most eight.
    /// Allocation can fail only if there is something to send.
    pub fn answer_ask(&self, alloc: Global, slot: Slot) -> Result<Vec<Message>, AllocError>
        ensures transition { IfOk result (λ messages.
            map view_message messages.items ≡ reports_from self.now.definitions slot most_reports) }
        ensures memory { OnErr result (slot ≤ length self.now.definitions) }
    {
        let mut messages = Vec::new(alloc);
        for number in slot.number()..slot.number() + MOST_REPORTS {
            self.report(number, &mut messages)?;
        }
        Ok(messages)
    }

    // Appends Chosen for the sequence of this number, if that is published.
    #[tactic(auto, using(crate::proofs::Reported::reported_of_no_slot, crate::proofs::Reported::none_more, crate::proofs::Reported::one_more, crate::proofs::Reported::published_where_reported))]
    fn report(&self, number: u16, messages: &mut Vec<Message>) -> Result<(), AllocError>
        ensures ok { OnOk result (map view_message messages.new.items ≡
            map view_message messages.old.items ++ reports self.now.definitions number) }
        ensures memory { OnErr result (number ≤ length self.now.definitions) }
    {
        // The list is no longer than there are slots: a number that isn't a slot's has no
        // definition.
        let _ = &self.definitions;
        let Some(slot) = Slot::new(number) else {
            return Ok(());
        };
        if let Some(message) = self.chosen_message(slot)? {
            messages.push(message)?;
        }
        Ok(())
    }

    /// Learns that the definition is chosen at the slot. It is published if the slot is the next;
    /// otherwise nothing changes, and the result says why. Allocation can fail only for the next
    /// slot, and only if there is no room; an error changes nothing.
    pub fn learn(&mut self, slot: Slot, canon: Canon) -> Result<Learned, AllocError>
        ensures learned { IfOk result (λ learned. learned ≡ learned_at self.old.definitions slot) }
        ensures grown { OnOk result
            (self.new.definitions ≡ with_chosen self.old.definitions slot canon) }
        ensures transition { IfOk result (λ learned.
            IsChosenTransition self.old.definitions slot canon self.new.definitions learned) }
        ensures other { slot ≢ next_of self.old.definitions → self.new ≡ self.old }
        ensures err { OnErr result (self.new ≡ self.old) }
        ensures memory { OnErr result (slot ≡ next_of self.old.definitions) }
        ensures room { HasRoom self.old → IsOk result }
    {
        let learned = self.judge(slot);
        if let Learned::Published = learned {
            self.make_room()?;
            self.publish(canon);
        }
        Ok(learned)
    }

    // The result for a definition that is chosen at the slot.
    fn judge(&self, slot: Slot) -> Learned
        ensures { result ≡ learned_at self.now.definitions slot }
    {
        let Some(next) = self.next_slot() else {
            return Learned::Known;
        };
        if slot.number() == next.number() {
            Learned::Published
        } else if slot.number() > next.number() {
            Learned::Missing(next)
        } else {
            Learned::Known
        }
    }

    // Publishes the definition at the next slot.
    fn publish(&mut self, canon: Canon)
        requires room { HasRoom self.old }
        requires open { length self.old.definitions < last_sequence }
        ensures { self.new.definitions ≡ self.old.definitions ++ canon ∷ [] }
    {
        self.definitions.push_reserved(canon);
    }

    /// Makes room for one more definition: the next `learn` allocates nothing.
    pub fn make_room(&mut self) -> Result<(), AllocError>
        ensures ok { OnOk result (self.new ≡ record self.old { has_room = true }) }
        ensures err { OnErr result (self.new ≡ self.old) }
        ensures room { HasRoom self.old → IsOk result }
    {
        self.definitions.reserve(1)
    }
}
