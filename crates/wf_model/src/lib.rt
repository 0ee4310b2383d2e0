//! The protocol's definitions: what nodes send and store, what one step does, which events may
//! happen, and what is then chosen and published. All contracts about consensus in other crates use
//! these definitions.
//!
//! **Model.** A node is the state that its tape records (the last round it tried, its one promise,
//! its vote at each sequence, the published definitions) and a volatile state that a stop loses (at
//! most one proposal, and a leadership). `Table` has a transition for each input: the record to
//! store, the messages to send after that, and the next volatile state. A world is the nodes and
//! the list of all messages ever sent. An event names a message by its number, so messages may be
//! lost, repeated and reordered, but never invented. All of it is generic in the type of what is
//! agreed on, with a test `same` that distinguishes a proposal's own definition from another's.
//!
//! **Leadership.** A promise is for a sequence and all later ones, and reports the votes at four of
//! them. So a node that a majority has promised proposes at these four sequences without asking for
//! promises again.
//!
//! **Promises.** Each transition's record fits the stored state, whatever the messages are, and no
//! transition sends more than eight messages. A fold of records leaves no vote of a published
//! sequence, and no vote above the promise. Running two lists of events in turn is running their
//! concatenation, and a rejected event changes nothing. Example runs, proved by computing them,
//! leave the expected worlds.
//!
//! **Not here.** Code, except two types that the crates above share, [`Action`] and [`Kept`]; the
//! theorem of agreement, which is `wf_safety`'s.
#![tactic(auto)]

mod action;

ghost use Rattle.std.specs.Prelude.{◌≡◌, [], ◌∷◌, None, Some};
ghost use Rattle.wf_model.specs.Chosen.{definition};
ghost use Rattle.wf_model.specs.Examples.{a, alone, b, ballot, behind, catches_up, comes_back, empty, fifth_prepared, four_led, full_history, full_rounds, just, last_leader, late_accept, leader_restarts, led_again, led_too_low, new_round, no_votes, none, old_accept, only, outrun, repeated, run, same_map, sent_from, proposal_state, taken_over, three_of_four, three_pumped, reported_ahead, torn, torn_then, two_led, two_of_four, two_reported, vote, voted_once, Leaves, LeavesEach, OvertakenAt, PublishedAt, Runs};
ghost use Rattle.wf_model.specs.Fits.{FoldsAreOpen, RecordsFit, TransitionsAreShort, VotesArePromised};
ghost use Rattle.wf_model.specs.Message.{Accept, Accepted, Ask, Chosen, Nack, Prepare, Promise};
ghost use Rattle.wf_model.specs.World.{RejectedChangesNothing, StepsInTurn, happens, refused, After, Before, catch_up, propose, retry};
ghost use Rattle.wf_model.specs.Table.{Busy, NothingToRetry, RoundsFull, SequenceFull};

pub use action::{Action, Kept};

/// Each transition's record fits its node's stored state: a record that publishes is of the next
/// sequence. A running proposal is for the next sequence, and remains so.
pub fn records_fit<V>()
    ensures { RecordsFit V }
{}

/// No transition sends more than eight messages, so the sender can reserve room before the step.
pub fn transitions_are_short<V>()
    ensures { TransitionsAreShort V }
{}

/// A fold of records leaves no vote of a published sequence.
pub fn folds_are_open<V>()
    ensures { FoldsAreOpen V }
{}

/// If a fold of records leaves a vote, it leaves a promise that isn't below it.
pub fn votes_are_promised<V>()
    ensures { VotesArePromised V }
{}

/// Running two lists of events in turn is running their concatenation.
pub fn steps_in_turn<V>()
    ensures { StepsInTurn V }
{}

/// A rejected event leaves the world unchanged, and so does a rejected event with a crash within
/// its step.
pub fn rejected_changes_nothing<V>()
    ensures { RejectedChangesNothing V }
{}

/// One node is its own majority: five messages, from Prepare to Chosen. With three nodes, each
/// receives each message. Two of four nodes receiving a proposal is no majority and publishes
/// nothing; a third makes it one.
pub fn majorities()
    ensures one { Leaves 1 alone (just a ∷ []) 5 }
    ensures proposal { proposal_state (run 1 alone) 0 ≡ PublishedAt 1 }
    ensures three { LeavesEach 3 three_pumped (just a) 9 }
    ensures two_of_four { LeavesEach 4 two_of_four none 3 }
    ensures three_of_four { LeavesEach 4 three_of_four (just a) 10 }
{}

/// A proposer stops when it alone has voted, another node's definition is published, and the first
/// comes back and is sent it. A stop loses a proposal but not its round, which isn't used again.
pub fn stopped_proposer()
    ensures leaves { Leaves 3 comes_back (just b ∷ none ∷ just b ∷ []) 14 }
    ensures proposal { proposal_state (run 3 comes_back) 0 ≡ OvertakenAt 1 }
    ensures definition { definition empty (run 3 comes_back) 0 1 ≡ Some b }
    ensures new_round { LeavesEach 2 new_round none 6 }
    ensures asked { sent_from (run 2 new_round) 3 ≡
        Accept 1 (ballot 1 1) b ∷ Accepted 1 1 (ballot 1 1) ∷ Prepare 1 (ballot 2 1) ∷ [] }
{}

/// A node voted for the first proposer's definition, so the second, to which the vote is reported,
/// publishes that definition. Of two reported votes the one at the higher ballot is adopted, even
/// if the other is the proposer's own and is reported last.
pub fn reported_vote()
    ensures leaves { Leaves 3 taken_over (none ∷ none ∷ just a ∷ []) 12 }
    ensures taken { proposal_state (run 3 taken_over) 2 ≡ OvertakenAt 1 }
    ensures other { proposal_state (run 3 taken_over) 0 ≡ Runs }
    ensures definition { definition empty (run 3 taken_over) 2 1 ≡ Some a }
    ensures two { sent_from (run 3 two_reported) 14 ≡
        Promise 2 1 (ballot 2 0) (Some (vote 1 1 b) ∷ None ∷ None ∷ None ∷ []) ∷
        Promise 0 1 (ballot 2 0) (Some (vote 1 0 a) ∷ None ∷ None ∷ None ∷ []) ∷
        Accept 1 (ballot 2 0) b ∷ [] }
{}

/// A node that a majority has promised proposes four definitions with these promises: from the
/// second on it begins by asking for votes. The fifth needs new promises. At the last round too a
/// leader's proposal isn't rejected.
pub fn four_sequences_led()
    ensures second { sent_from (run 3 two_led) 9 ≡
        Accept 2 (ballot 1 0) a ∷
        Accepted 0 2 (ballot 1 0) ∷ Accepted 1 2 (ballot 1 0) ∷ Accepted 2 2 (ballot 1 0) ∷
        Chosen 2 a ∷ [] }
    ensures fourth { LeavesEach 3 four_led (a ∷ a ∷ a ∷ a ∷ []) 24 }
    ensures fifth { LeavesEach 3 fifth_prepared (a ∷ a ∷ a ∷ a ∷ a ∷ []) 33 }
    ensures last_round { refused last_leader (propose 0 a) ≡ None }
{}

/// Another node makes a proposal meanwhile: the leader's next Accept is below what the nodes
/// promised since, and is rejected. Its proposal runs until a retry takes a higher round. A leader
/// that stops loses its leadership.
pub fn leadership_ends()
    ensures rejected { LeavesEach 3 led_too_low (a ∷ b ∷ []) 22 }
    ensures runs { proposal_state (run 3 led_too_low) 0 ≡ Runs }
    ensures retried { LeavesEach 3 led_again (a ∷ b ∷ a ∷ []) 31 }
    ensures stopped { sent_from (run 3 leader_restarts) 9 ≡ Prepare 2 (ballot 2 0) ∷ [] }
{}

/// A node reports its votes at two sequences in one Promise. The new leader adopts each at its
/// sequence, though it proposes another definition there.
pub fn reported_votes_ahead()
    ensures asked { sent_from (run 3 reported_ahead) 9 ≡
        Prepare 1 (ballot 1 2) ∷ Promise 2 1 (ballot 1 2) no_votes ∷
        Promise 1 1 (ballot 1 2) (Some (vote 1 0 a) ∷ Some (vote 1 0 b) ∷ None ∷ None ∷ []) ∷
        Accept 1 (ballot 1 2) a ∷
        Accepted 1 1 (ballot 1 2) ∷ Accepted 2 1 (ballot 1 2) ∷ Chosen 1 a ∷
        Accept 2 (ballot 1 2) b ∷
        Accepted 1 2 (ballot 1 2) ∷ Accepted 2 2 (ballot 1 2) ∷ Chosen 2 b ∷ [] }
    ensures proposal { proposal_state (run 3 reported_ahead) 2 ≡ OvertakenAt 2 }
{}

/// A late Accept reaches a node that has promised a higher ballot: it is rejected, with the
/// promise. A vote there would publish both a and b. So is one at whose ballot the node voted
/// before it promised the higher one. A Prepare below the promise is rejected likewise; its
/// proposer's next attempt is above the promise's round.
pub fn rejected_ballots()
    ensures leaves { Leaves 3 late_accept (none ∷ just b ∷ none ∷ []) 13 }
    ensures accept { sent_from (run 3 late_accept) 11 ≡
        Accepted 0 1 (ballot 1 0) ∷ Nack 2 1 (ballot 1 0) (ballot 1 1) ∷ [] }
    ensures again { sent_from (run 3 old_accept) 16 ≡
        Accept 1 (ballot 2 0) b ∷ Nack 0 1 (ballot 1 0) (ballot 2 0) ∷ [] }
    ensures prepare { sent_from (run 3 outrun) 4 ≡
        Prepare 1 (ballot 1 0) ∷ Nack 2 1 (ballot 1 0) (ballot 3 1) ∷ Prepare 1 (ballot 4 0) ∷ [] }
{}

/// A node that missed two sequences asks for the first of them, is sent both, and publishes them in
/// order. A node that missed all catches up by asking, and asks for nothing once the last sequence
/// is published.
pub fn node_behind()
    ensures leaves { LeavesEach 3 behind (a ∷ b ∷ a ∷ []) 20 }
    ensures asked { sent_from (run 3 behind) 17 ≡ Ask 2 ∷ Chosen 2 b ∷ Chosen 3 a ∷ [] }
    ensures caught_up { LeavesEach 3 catches_up (just a) 9 }
    ensures caught_up_by { sent_from (run 3 catches_up) 7 ≡ Ask 1 ∷ Chosen 1 a ∷ [] }
    ensures full { happens same_map (only full_history) (catch_up 0) ≡ only full_history }
{}

/// Messages that are repeated, late or reordered are answered, and change nothing that is
/// published. An Accept that arrives twice is answered twice, and its node's vote isn't counted
/// twice.
pub fn repeated_messages()
    ensures leaves { LeavesEach 3 repeated (just a) 27 }
    ensures voted_once { LeavesEach 3 voted_once none 6 }
    ensures answers { sent_from (run 3 voted_once) 4 ≡
        Accepted 0 1 (ballot 1 0) ∷ Accepted 0 1 (ballot 1 0) ∷ [] }
{}

/// A crash within a step, after its record was stored or before: either way the node answers again,
/// or not at all, and a second attempt publishes.
pub fn torn_step()
    ensures after_sent { LeavesEach 3 (torn After) none 2 }
    ensures after_leaves { LeavesEach 3 (torn_then After 2) (just a) 11 }
    ensures before_sent { LeavesEach 3 (torn Before) none 3 }
    ensures before_leaves { LeavesEach 3 (torn_then Before 3) (just a) 12 }
{}

/// A running node rejects another proposal, a node without one has nothing to retry, and no
/// proposal begins past sequence 4,096 or round 4,294,967,295. A rejected step changes nothing.
pub fn rejected_steps()
    ensures busy { refused (run 1 (propose 0 a ∷ [])) (propose 0 b) ≡ Some Busy }
    ensures busy_unchanged { run 1 (propose 0 a ∷ propose 0 b ∷ []) ≡ run 1 (propose 0 a ∷ []) }
    ensures nothing { refused (run 1 []) (retry 0) ≡ Some NothingToRetry }
    ensures nothing_unchanged { run 1 (retry 0 ∷ []) ≡ run 1 [] }
    ensures sequences { refused (only full_history) (propose 0 a) ≡ Some SequenceFull }
    ensures sequences_unchanged { happens same_map (only full_history) (propose 0 a) ≡
        only full_history }
    ensures rounds { refused (only full_rounds) (propose 0 a) ≡ Some RoundsFull }
    ensures rounds_unchanged { happens same_map (only full_rounds) (propose 0 a) ≡
        only full_rounds }
{}
