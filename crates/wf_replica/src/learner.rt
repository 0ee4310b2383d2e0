//! What a replica learns, and writes on its tape.

ghost use Rattle.std.specs.Prelude.{◌≡◌, ◌≤◌, ◌<◌, ◌+◌, ◌++◌, ◌∷◌, ◌↔◌, ℕ, [], take, IfOk, IfSome, IsSome, IsTrue, None, OnErr, OnOk};
ghost use Rattle.wf_ballot.specs.Sequence.{last_sequence};
ghost use Rattle.wf_execution.specs.Replica.{after_learning};
ghost use Rattle.wf_codec.specs.Message.{view};
ghost use Rattle.wf_digest.specs.Digest.{AreDigestsOf};
ghost use Rattle.wf_learner.specs.History.{next_of};
ghost use Rattle.wf_model.specs.Message.{Chosen};
ghost use Rattle.wf_replica.specs.Fit.{IsQuestionOf};
ghost use Rattle.wf_replica.specs.Follower.{answers_of, list_of, read_by, received_by};
ghost use Rattle.wf_replica.specs.Heard.{CameByAnswers};
ghost use Rattle.wf_replica.specs.LearnedList.{learned};
ghost use Rattle.wf_replica.specs.MapList.{Learns, heard_by, maps_of};
ghost use Rattle.wf_replica.specs.Recorded.{HasAppended, HasStayedOrGone, IsRecorded};
ghost use Rattle.wf_wms.specs.CachedPictures.{AllCached, most_cached};

use crate::follower::Follower;
use crate::maps::MapList;
use crate::record::record_bytes;
use crate::shelf::Shelf;
use std::alloc::{AllocError, Global};
use wf_ballot::Slot;
use wf_codec::{Canon, Message};
use wf_digest::Digests;
use wf_folder::FarmName;
use wf_learner::History;
use wf_past::Past;
use wf_reader::Question;
use wf_tape::Tape;
use wf_wms::Cache;

impl<T: Tape + Drop> Follower<T> {
    /// The maps that it has published.
    pub fn history(&self) -> &History
        ensures { result.now ≡ self.now.maps.shelf }
    {
        self.maps.history()
    }

    /// The pictures that are cached, those of the published maps, with their counts. They can only
    /// be read.
    pub fn cache(&self) -> &Cache
        ensures { AllCached (list_of self.now) result.now }
    {
        self.maps.cache()
    }

    /// The digests of these, as far as they could be had.
    pub fn digests(&self) -> &Digests
        ensures { result.now ≡ self.now.maps.digests }
    {
        &self.maps.digests
    }

    /// Extends the digests to the last published sequence, where an allocation failed before.
    #[tactic(auto, using(crate::proofs::Recorded::recorded_same, crate::proofs::Hearing::heard_same))]
    pub fn extend_digests(&mut self)
        ensures list { list_of self.new ≡ list_of self.old }
        ensures received { received_by self.new ≡ received_by self.old }
        ensures answers { answers_of self.new ≡ answers_of self.old }
        ensures read { read_by self.new ≡ read_by self.old }
    {
        self.maps.extend_digests();
    }

    /// Whether what it learns is on a tape. Otherwise its tape has failed.
    pub fn has_tape(&self) -> bool
        ensures { IsTrue result ↔ IsSome self.now.tape }
    {
        self.tape.is_some()
    }

    /// Always: what it has learned is what it heard, message after message; what it heard is what
    /// was read of its tape, and then, of each answer that it was given, in their order, the first
    /// definitions, if the answer fits its question, and nothing else; and its tape has the records
    /// of what it has learned. The call does nothing.
    pub fn always_learned(&self)
        ensures learned { learned [] (received_by self.now) ≡ list_of self.now }
        ensures heard { ∥ CameByAnswers
            (read_by self.now) (answers_of self.now) (received_by self.now) ∥₁ }
        ensures recorded { IsRecorded T.Tape self.now.tape (list_of self.now) }
    {
        let _ = &self.answers;
    }

    /// The question for what is published next. None: an allocation failed before, and the digests
    /// lack the last sequences.
    pub fn question(&self, farm: FarmName) -> Option<Question>
        ensures farm { IfSome result (λ q. q.farm ≡ farm) }
        ensures question { IfSome result (IsQuestionOf (list_of self.now)) }
        ensures none { AreDigestsOf (list_of self.now) self.now.maps.digests → result ≡ None → ⊥ }
    {
        self.maps.question(farm)
    }
}

impl MapList {
    /// No map, and room for the pictures of so many. The only error is allocation failure.
    #[tactic(auto, unfolding(crate::specs::LearnedList::learned))]
    pub(crate) fn new(alloc: Global, pictures: usize) -> Result<Self, AllocError>
        requires least { 1 ≤ pictures }
        requires most { pictures ≤ most_cached }
        ensures list { IfOk result (λ maps. maps_of maps ≡ []) }
        ensures received { IfOk result (λ maps. heard_by maps ≡ []) }
    {
        let digests = Digests::new(alloc)?;
        let shelf = Shelf::new(alloc, pictures)?;
        Ok(MapList {
            shelf,
            digests,
            received: Past::new(),
        })
    }

    /// The published maps.
    pub(crate) fn history(&self) -> &History
        ensures { result.now ≡ self.now.shelf }
    {
        self.shelf.history()
    }

    /// The pictures that are cached: those of the published maps.
    fn cache(&self) -> &Cache
        ensures { AllCached (maps_of self.now) result.now }
    {
        self.shelf.cache()
    }

    /// Extends the digests to the last published sequence.
    fn extend_digests(&mut self)
        ensures list { maps_of self.new ≡ maps_of self.old }
        ensures received { heard_by self.new ≡ heard_by self.old }
    {
        let _ = self.digests.extend(self.shelf.history());
    }

    /// The question for what is published next. None: the digests lack the last sequences.
    fn question(&self, farm: FarmName) -> Option<Question>
        ensures farm { IfSome result (λ q. q.farm ≡ farm) }
        ensures question { IfSome result (IsQuestionOf (maps_of self.now)) }
        ensures none { AreDigestsOf (maps_of self.now) self.now.digests → result ≡ None → ⊥ }
    {
        let published = self.history().published();
        match self.digests.at(published) {
            Some(digest) => Some(Question {
                farm,
                published,
                digest,
            }),
            None => None,
        }
    }

    /// Learns definitions that are chosen for the next sequences, in their order, and writes them
    /// on a tape, which is synced before they are published. The only error is allocation failure:
    /// some of them, from the first on, may have been learned. Once the last sequence is published
    /// nothing more is learned. A tape that fails is dropped.
    #[tactic(auto, using(crate::proofs::Recorded::recorded_still))]
    pub(crate) fn learn<T: Tape + Drop>(
        &mut self,
        alloc: Global,
        tape: &mut Option<T>,
        definitions: &[Canon],
    ) -> Result<(), AllocError>
        ensures learns { (k : ℕ) × Learns k self.old self.new definitions.now }
        ensures all { OnOk result (maps_of self.new ≡
            take last_sequence (maps_of self.old ++ definitions.now)) }
        ensures recorded { IsRecorded T.Tape tape.old (maps_of self.old)
            → IsRecorded T.Tape tape.new (maps_of self.new) }
    {
        let learned = self.learn_each(alloc, tape, definitions);
        if !definitions.is_empty() {
            sync(tape);
        }
        learned
    }

    /// Learns definitions, and appends them to a tape, which isn't synced yet.
    fn learn_each<T: Tape + Drop>(
        &mut self,
        alloc: Global,
        tape: &mut Option<T>,
        definitions: &[Canon],
    ) -> Result<(), AllocError>
        ensures learns { (k : ℕ) × Learns k self.old self.new definitions.now }
        ensures all { OnOk result (maps_of self.new ≡
            take last_sequence (maps_of self.old ++ definitions.now)) }
        ensures recorded { IsRecorded T.Tape tape.old (maps_of self.old)
            → IsRecorded T.Tape tape.new (maps_of self.new) }
    {
        // A history is no longer than there are slots.
        let _ = self.history().published();
        let Some(slot) = self.history().next_slot() else {
            return Ok(());
        };
        match definitions {
            [] => Ok(()),
            [definition, rest @ ..] => {
                self.learn_at(alloc, tape, slot, definition)?;
                self.learn_each(alloc, tape, rest)
            }
        }
    }

    /// Learns the definition of the next sequence, and appends it to a tape. An allocation failure
    /// changes nothing: the tape gets the record only once the map is learned.
    #[tactic(auto, using(crate::proofs::Received::chosen_next, crate::proofs::Recorded::recorded_more, crate::proofs::Recorded::recorded_same))]
    fn learn_at<T: Tape + Drop>(
        &mut self,
        alloc: Global,
        tape: &mut Option<T>,
        slot: Slot,
        definition: &Canon,
    ) -> Result<(), AllocError>
        requires { slot ≡ next_of (maps_of self.old) }
        ensures received { OnOk result (heard_by self.new ≡
            heard_by self.old ++ Chosen slot definition.now ∷ []) }
        ensures list { OnOk result (maps_of self.new ≡ maps_of self.old ++ definition.now ∷ []) }
        ensures same_received { OnErr result (heard_by self.new ≡ heard_by self.old) }
        ensures same_list { OnErr result (maps_of self.new ≡ maps_of self.old) }
        ensures recorded { IsRecorded T.Tape tape.old (maps_of self.old)
            → IsRecorded T.Tape tape.new (maps_of self.new) }
    {
        let bytes = record_bytes(alloc, slot, definition)?;
        self.receive(Message::Chosen(slot, definition.copy()?))?;
        append(tape, &bytes);
        Ok(())
    }

    /// Hears a message, without a tape: the caller has that. An allocation failure changes nothing.
    #[tactic(auto, using(crate::proofs::Received::learned_more, crate::proofs::Received::messages_more))]
    pub(crate) fn receive(&mut self, message: Message) -> Result<(), AllocError>
        ensures received { OnOk result (heard_by self.new ≡
            heard_by self.old ++ view message ∷ []) }
        ensures list { OnOk result (maps_of self.new ≡
            after_learning (maps_of self.old) (view message)) }
        ensures same_received { OnErr result (heard_by self.new ≡ heard_by self.old) }
        ensures same_list { OnErr result (maps_of self.new ≡ maps_of self.old) }
    {
        let received = self.received.and(&message, &0);
        self.shelf.receive(message)?;
        self.received = received;
        let _ = self.digests.extend(self.shelf.history());
        Ok(())
    }
}

/// Appends bytes to a tape, which is dropped if it fails.
fn append<T: Tape + Drop>(tape: &mut Option<T>, bytes: &[u8])
    ensures { T.durable → HasAppended T.Tape bytes.now tape.old tape.new }
{
    if let Some(mut held) = tape.take() {
        match held.append(bytes) {
            Ok(()) => *tape = Some(held),
            Err(_) => drop(held),
        }
    }
}

/// Syncs a tape, which is dropped if it fails.
fn sync<T: Tape + Drop>(tape: &mut Option<T>)
    ensures { T.durable → HasStayedOrGone T.Tape tape.old tape.new }
{
    if let Some(mut held) = tape.take() {
        match held.sync() {
            Ok(()) => *tape = Some(held),
            Err(_) => drop(held),
        }
    }
}
