//! A folder that may vote by the protocol of `wf_rejoin` meets the premises of a replacement in
//! `wf_replacement`. Theorems alone.
//!
//! **What the program gives** (`HasJoined` of `specs/Joined.antt`): the folder may vote by its file
//! `joins`, with as many published definitions as its bytes hold, so at least half of all have
//! agreed, each of these has answered, and it has a window more than any answer
//! (`wf_rejoin::Joining::may_vote`); each answer is what a greeting said (`wf_rejoin::Answer::new`
//! over `wf_peer::Greeting`), and a node greets with all that it has published and its highest
//! sequence with a vote (`wf_loop`).
//!
//! **What a folder learns** (`HasLearnedFrom` of `specs/Learned.antt`). It was empty at first. In
//! its runs, which have ended, its node was given no messages but those that say what is published,
//! each of which a process had returned by then; what it does unasked stores a round at most. So no
//! run of it voted or promised anything, and what it holds is published.
//!
//! **Premises** (`HasJoinedByLearning`): since a moment nothing happened to the process that is
//! replaced; each greeting came from a process that ran at some moment since then, as that node
//! was; its votes are at sequences from 1 to 4,096; and the folder has learned so. The folder
//! itself can't see the first: that the old process has ended, and never starts again, is up to the
//! operator. What the bytes hold, and that some process had published it, is no premise here, as it
//! is in `HasJoined`: it follows.
//!
//! **Promises.** What a greeting says is about what its node had stored ([`greetings_answer`]).
//! What the runs leave that have only learned is published definitions alone, of each of which a
//! message said so ([`learned_tapes_are_copies`]); and what a message says is published, some
//! process had published by then ([`chosen_messages_are_published`]). A process with a folder that
//! has joined may rejoin ([`joined_folders_may_rejoin`]), and so may one whose folder has learned,
//! whatever was replaced before ([`learners_may_rejoin`]). So where each process that is replaced
//! has joined so, there is one history, and no process loses a published definition
//! ([`joined_timelines_agree`], [`learned_timelines_agree`]).
//!
//! **Doesn't.** What a folder that joins returns itself, questions for the next definition, is no
//! part of a timeline: no process of one is given such a question. That the processes of `wfarm
//! node` on a folder that joins have learned so, and that the folder may vote, is proved in
//! `wf_histories` (`folders_join_by_learning`).
#![tactic(auto)]

ghost use Rattle.wf_rejoin_guard.specs.Joined.{GreetingsAnswer, JoinedListsGrow, JoinedMayRejoin, JoinedOneHistory};
ghost use Rattle.wf_rejoin_guard.specs.Learned.{ChosenArePublished, LearnedAreCopies, LearnedListsGrow, LearnedOneHistory, LearnersMayRejoin};

use wf_codec::Canon;
use wf_journal::records_are_read_one_way;
use wf_model::records_fit;
use wf_rejoin::{answers_are_bounds, voters_are_guarded};
use wf_replacement::{published_lists_grow, timelines_agree};
use wf_tape::Tape;

/// An answer that is taken from a greeting that is true to a node's stored state is about that
/// state: it has published no more, and has no vote after it. A theorem: the call does nothing.
#[tactic(auto, using(crate::proofs::Guard::about))]
pub fn greetings_answer()
    ensures { GreetingsAnswer }
{}

/// A process whose folder has joined may rejoin. A theorem: the call does nothing.
pub fn joined_folders_may_rejoin<T: Tape>()
    ensures { JoinedMayRejoin T.Tape }
{
    voters_are_guarded();
    answers_are_bounds::<Canon>();
}

/// Where each process that is replaced has joined, there is one history, of which each list that a
/// process ever published is a beginning, and no process loses a published definition. A theorem:
/// the call does nothing.
pub fn joined_timelines_agree<T: Tape>()
    ensures history { JoinedOneHistory T.Tape }
    ensures grows { JoinedListsGrow T.Tape }
{
    joined_folders_may_rejoin::<T>();
    timelines_agree::<T>();
    published_lists_grow::<T>();
}

/// What the runs of a folder leave that was empty at first and has only learned: published
/// definitions alone, without a vote or a promise, of each of which one of the messages said that
/// it is published. A theorem: the call does nothing.
pub fn learned_tapes_are_copies<T: Tape>()
    ensures { LearnedAreCopies T.Tape }
{
    // A tape stands for exactly one durable state.
    records_are_read_one_way();
}

/// If one of the messages that were returned by some moment says that a definition is published,
/// some process had published it by then, at just that sequence. A theorem: the call does nothing.
pub fn chosen_messages_are_published<T: Tape>()
    ensures { ChosenArePublished T.Tape }
{
    // A running proposal is for the next sequence.
    records_fit::<Canon>();
}

/// Where the folder of each process that is replaced has joined by learning, what happens is a
/// timeline of `wf_replacement`, whatever the bytes are by which they are replaced, and each of
/// them may rejoin. A theorem: the call does nothing.
pub fn learners_may_rejoin<T: Tape>()
    ensures { LearnersMayRejoin T.Tape }
{
    learned_tapes_are_copies::<T>();
    chosen_messages_are_published::<T>();
    joined_folders_may_rejoin::<T>();
    timelines_agree::<T>();
}

/// So there is one history, of which each list that a process ever published is a beginning, and no
/// process loses a published definition. A theorem: the call does nothing.
pub fn learned_timelines_agree<T: Tape>()
    ensures history { LearnedOneHistory T.Tape }
    ensures grows { LearnedListsGrow T.Tape }
{
    learners_may_rejoin::<T>();
    timelines_agree::<T>();
    published_lists_grow::<T>();
}
