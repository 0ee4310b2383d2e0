//! Theorems about replicas. Each call does nothing.

ghost use Rattle.wf_replica.specs.Theorems.{AnsweredAgree, AnswersReport, BeginningsAreServed, HeardAreReported, LearnedAgree, LearnedAnswer, LearnedAreServed, NeverGoesBack, ReadAreReported, SoundAnswersFit};

use wf_execution::{replicas_agree, replicas_answer_alike};
use wf_tape::Tape;

/// What an answer at a readers' port says is what a node answers when it is asked for the next
/// definition.
pub fn answers_report()
    ensures { AnswersReport }
{}

/// What a source answers to a replica's question fits it, if one of their lists is a beginning of
/// the other: nothing sound is rejected.
pub fn sound_answers_fit()
    ensures { SoundAnswersFit }
{}

/// What a replica has learned at one moment is a beginning of what it has learned at each later
/// one.
pub fn a_replica_never_goes_back()
    ensures { NeverGoesBack }
{}

/// Where each answer that a replica was given came of a list of the farm, of a node or a replica,
/// and so did the maps that it read of its tape, all that it heard did, by what
/// [`Follower::always_learned`](crate::Follower::always_learned) says of its log.
pub fn what_is_heard_is_reported<T>()
    ensures heard { HeardAreReported T }
    ensures read { ReadAreReported T }
{}

/// What a replica learns from answers, of nodes of a farm and of replicas of it, is at each moment
/// one of the lists that such have; so is each beginning of it, which its tape may have.
pub fn what_is_learned_is_served<T>()
    ensures learned { LearnedAreServed T }
    ensures beginning { BeginningsAreServed T }
{}

/// So replicas agree and answer alike, at any moments, with one another.
pub fn what_is_learned_agrees<T: Tape>()
    ensures definition { LearnedAgree T.Tape }
    ensures answered { AnsweredAgree T.Tape }
    ensures proposal_state { LearnedAnswer T.Tape }
{
    replicas_agree::<T>();
    replicas_answer_alike::<T>();
}
