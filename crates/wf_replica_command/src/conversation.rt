//! A replica asks its sources, and takes what they reply.

ghost use Rattle.std.specs.Prelude.{◌≡◌, [], Some, true, IfOk, IsSome};
ghost use Rattle.std.specs.Option.{ForSome};
ghost use Rattle.wf_replica.specs.Fit.{IsOfOtherHistory, IsOtherHistory};
ghost use Rattle.wf_replica.specs.Follower.{HasLearnedNothing, list_of};
ghost use Rattle.wf_replica.specs.Refusals.{all_refuse};
ghost use Rattle.wf_replica_command.specs.Continuation.{IsLaterReplica};
ghost use Rattle.wf_replica_command.specs.Heard.{Hears, IsFewer, IsAnswerGiven, IsReplyHeard, IsNoted, IsRefusing, course_of};

use crate::event::{ReplicaEvent, SourceEnd};
use crate::heard::HeardLog;
use crate::source::SourceTurn;
use crate::source_connection::SourceConnection;
use crate::upstream::Upstream;
use std::alloc::{AllocError, Global};
use std::net::{Net, SocketAddr};
use std::time::Clock;
use wf_ballot::Seq;
use wf_folder::FarmName;
use wf_folder_log::FolderEvent;
use wf_reader::{Answerer, MOST_DISTANCE, Question, QuestionRejection, ReaderAnswer, Reply};
use wf_replica::{AnswerFault, Asking, Follower, Misfit, Refusals};
use wf_sockets::Network;
use wf_tape::Tape;
use wf_visitors::Context;

impl<N: Network> Upstream<N> {
    /// Nobody was asked yet. The first is that of this number, counted round. `is_new`: the replica
    /// begins with no map. The only error is allocation failure.
    #[tactic(auto, using(crate::proofs::Noting::none_refuses, crate::proofs::Noting::one_each))]
    pub(crate) fn new(
        alloc: Global,
        sources: Vec<SocketAddr>,
        farm: FarmName,
        first: usize,
        is_new: bool,
        time: u64,
    ) -> Result<Self, AllocError>
        ensures heard { IfOk result (λ upstream. upstream.heard.replies.items ≡ []) }
        ensures refusals { IfOk result (λ upstream. IsFewer [] upstream.refusals) }
    {
        let count = sources.len();
        let refusals = match Refusals::new(alloc, count) {
            Ok(refusals) => refusals,
            Err(AllocError) => {
                drop(sources);
                return Err(AllocError);
            }
        };
        Ok(Upstream {
            sources,
            asking: Asking::new(count.max(1), first, time),
            source: None,
            of: 0,
            is_named: false,
            heard: HeardLog::new(),
            refusals,
            answerer: Answerer {
                farm,
                distance: MOST_DISTANCE + 1,
            },
            received: 0,
            is_new,
            end: None,
        })
    }

    /// The milliseconds until something is due.
    pub(crate) fn left(&self, time: u64) -> u64 {
        self.asking.left(time)
    }

    /// Why the replica has to end, if it has to: all of its sources refuse it.
    pub(crate) fn end(&self) -> Option<QuestionRejection>
        ensures { ForSome result (λ _. all_refuse self.now.refusals ≡ true) }
    {
        self.end
    }

    /// Whether there is a connection to a source.
    pub(crate) fn is_connected(&self) -> bool {
        self.source.is_some()
    }

    /// Takes in what came from the source, and asks what is due.
    #[tactic(auto, using(crate::proofs::Hearing::hears_turn))]
    pub(crate) fn follow<R: Net + Clock + Eprint + AllocGlobal, T: Tape + Drop>(
        &mut self,
        context: &Context<'_, '_, R, N>,
        follower: &mut Follower<T>,
    )
        ensures { Hears self.old follower.old self.new follower.new }
    {
        self.receive(context, follower);
        self.give_up(context);
        self.ask(context, follower);
    }

    /// Leaves a source that was silent for too long.
    #[tactic(auto, using(crate::proofs::Noting::noted_fewer, crate::proofs::Noting::fewer_same))]
    fn give_up<R: Clock + Eprint>(&mut self, context: &Context<'_, '_, R, N>)
        ensures heard { self.new.heard.replies.items ≡ self.old.heard.replies.items }
        ensures refusals { IsFewer self.old.refusals self.new.refusals }
    {
        if self.asking.is_silent(context.time) {
            self.leave(context, SourceEnd::Silent, None);
        }
    }

    /// Takes in what came from the source.
    #[tactic(auto, using(crate::proofs::Hearing::hears_still, crate::proofs::Hearing::hears_end, crate::proofs::Hearing::hears_reply))]
    fn receive<R: Net + Clock + Eprint + AllocGlobal, T: Tape + Drop>(
        &mut self,
        context: &Context<'_, '_, R, N>,
        follower: &mut Follower<T>,
    )
        ensures { Hears self.old follower.old self.new follower.new }
    {
        let Some(source) = self.source.take() else {
            return;
        };
        match source.on_ready(context.alloc(), context.network, self.of, &mut self.heard) {
            SourceTurn::Same(source) => self.source = Some(source),
            SourceTurn::Replied(source, question, reply) => {
                self.source = Some(source);
                self.take_reply(context, follower, &question, reply);
            }
            SourceTurn::Ended(why) => self.leave(context, why, None),
        }
    }

    /// Takes the reply to a question.
    #[tactic(auto, using(crate::proofs::Continuation::stays, crate::proofs::Hearing::heard_answer, crate::proofs::Hearing::heard_rejection))]
    fn take_reply<R: Clock + Eprint + AllocGlobal, T: Tape + Drop>(
        &mut self,
        context: &Context<'_, '_, R, N>,
        follower: &mut Follower<T>,
        question: &Question,
        reply: Reply,
    )
        ensures goes_on { IsLaterReplica follower.old follower.new }
        ensures heard { self.new.heard.replies.items ≡ self.old.heard.replies.items }
        ensures reply { IsReplyHeard reply
            (record { source = self.old.of; question = question.now })
            (course_of follower.old self.old.refusals) (course_of follower.new self.new.refusals) }
    {
        match reply {
            Reply::Answer(answer) => {
                self.take_answer(context, follower, question, &answer);
                drop(answer);
            }
            Reply::Rejected(why) => {
                let refusal = refusal_of(&why);
                self.leave(context, SourceEnd::Rejected(why), refusal);
            }
        }
    }

    /// Takes the answer to a question: what of it fits is learned, as far as memory allows; the
    /// others are asked for again.
    #[tactic(auto, using(crate::proofs::Continuation::goes_on_by, crate::proofs::Hearing::given_by, crate::proofs::Noting::noted_never, crate::proofs::Noting::noted_misfit))]
    fn take_answer<R: Clock + Eprint + AllocGlobal, T: Tape + Drop>(
        &mut self,
        context: &Context<'_, '_, R, N>,
        follower: &mut Follower<T>,
        question: &Question,
        answer: &ReaderAnswer,
    )
        ensures goes_on { IsLaterReplica follower.old follower.new }
        ensures heard { self.new.heard.replies.items ≡ self.old.heard.replies.items }
        ensures given { IsAnswerGiven question.now answer.now
            (course_of follower.old self.old.refusals) (course_of follower.new self.new.refusals) }
        ensures noted { IsNoted self.old.of (IsOtherHistory (list_of follower.old) answer.now)
            self.old.refusals self.new.refusals }
    {
        let had_tape = follower.has_tape();
        let before = follower.history().published();
        let taken = follower.take_answer(context.alloc(), question, answer);
        log_learned(context, follower, before, had_tape);
        match taken {
            Ok(()) | Err(AnswerFault::Memory) => {
                self.rest(context, follower.history().published(), answer);
            }
            Err(AnswerFault::Misfit(misfit)) => {
                let refusal = refusal_by(&misfit);
                self.leave(context, end_by(misfit), refusal);
            }
        }
    }

    /// The question was answered, and the replica has published up to that.
    #[tactic(auto, using(crate::proofs::Noting::noted_nothing))]
    fn rest<R: Clock + Eprint>(
        &mut self,
        context: &Context<'_, '_, R, N>,
        published: Seq,
        answer: &ReaderAnswer,
    )
        ensures heard { self.new.heard.replies.items ≡ self.old.heard.replies.items }
        ensures noted { IsNoted self.old.of ⊥ self.old.refusals self.new.refusals }
    {
        self.note(None);
        self.received = self.received.max(answer.published().number());
        self.answerer.distance = answer.distance() + 1;
        let brings = !answer.definitions().is_empty();
        self.is_new = self.is_new && brings;
        if self.asking.source < self.asking.count {
            self.asking.answer(brings, context.time);
        }
        // Another source is asked where this one has brought nothing for long. The log doesn't say
        // so: where nothing is published the next one is asked each second.
        let is_other = self.asking.source != self.of;
        // What comes next is more than one answer, whose digest can't be compared yet. On a
        // connection of its own its question has no other reply than its own.
        let is_more = published < answer.published();
        if is_other || is_more {
            self.source = None;
        }
    }

    /// Ends the connection to the source, and notes whether that refuses the replica: the next one
    /// is asked. What wasn't asked for, while no question was open, changes nothing else: the same
    /// one is asked on, over another connection.
    #[tactic(auto, using(crate::proofs::Noting::noted_there))]
    fn leave<R: Clock + Eprint>(
        &mut self,
        context: &Context<'_, '_, R, N>,
        why: SourceEnd,
        refusal: Option<QuestionRejection>,
    )
        ensures heard { self.new.heard.replies.items ≡ self.old.heard.replies.items }
        ensures noted { IsNoted self.old.of (IsSome refusal) self.old.refusals self.new.refusals }
    {
        let stays = is_unasked(&why) && self.asking.asked.is_none();
        self.log_lost(context, why);
        self.source = None;
        self.note(refusal);
        if !stays && self.asking.source < self.asking.count {
            self.asking.pass_on(context.time);
        }
    }

    /// Logs that the connection to the source has ended.
    fn log_lost<R: Clock + Eprint>(&mut self, context: &Context<'_, '_, R, N>, why: SourceEnd)
        ensures heard { self.new.heard.replies.items ≡ self.old.heard.replies.items }
        ensures refusals { self.new.refusals ≡ self.old.refusals }
        ensures of { self.new.of ≡ self.old.of }
    {
        context.log.write(&ReplicaEvent::Lost {
            source: self.of,
            why,
        });
        self.is_named = false;
    }

    /// Notes whether the source refuses the replica, which has to end once all do. One that can't
    /// be reached, or is silent, doesn't.
    #[tactic(auto, using(crate::proofs::Noting::noted_by, crate::proofs::Noting::set_length))]
    fn note(&mut self, refusal: Option<QuestionRejection>)
        ensures heard { self.new.heard.replies.items ≡ self.old.heard.replies.items }
        ensures noted { IsNoted self.old.of (IsSome refusal) self.old.refusals self.new.refusals }
        ensures of { self.new.of ≡ self.old.of }
    {
        self.refusals.note(self.of, refusal.is_some());
        self.end = if self.refusals.are_all() {
            refusal
        } else {
            None
        };
    }

    /// Whether a question is due, of a replica that doesn't have to end.
    fn is_due(&self, time: u64) -> bool {
        self.asking.is_due(time) && self.end.is_none()
    }

    /// Asks the source for what is published next, if that is due.
    #[tactic(auto, using(crate::proofs::Hearing::hears_nothing, crate::proofs::Hearing::hears_asked))]
    fn ask<R: Net + Clock + Eprint + AllocGlobal, T: Tape + Drop>(
        &mut self,
        context: &Context<'_, '_, R, N>,
        follower: &mut Follower<T>,
    )
        ensures { Hears self.old follower.old self.new follower.new }
    {
        if !self.is_due(context.time) {
            return;
        }
        self.put(context, follower);
        self.receive(context, follower);
    }

    /// Puts the question for what is published next to the source.
    #[tactic(auto, using(crate::proofs::Noting::noted_fewer, crate::proofs::Noting::fewer_same, crate::proofs::Continuation::same_itself, crate::proofs::Continuation::same_by))]
    fn put<R: Net + Clock + Eprint + AllocGlobal, T: Tape + Drop>(
        &mut self,
        context: &Context<'_, '_, R, N>,
        follower: &mut Follower<T>,
    )
        ensures same { HasLearnedNothing follower.old follower.new }
        ensures heard { self.new.heard.replies.items ≡ self.old.heard.replies.items }
        ensures refusals { IsFewer self.old.refusals self.new.refusals }
    {
        self.asking.ask(context.time);
        if !self.connect(context) {
            self.leave(context, SourceEnd::Failed, None);
            return;
        }
        match follower.question(self.answerer.farm) {
            Some(question) => self.write_question(context.alloc(), &question),
            // an allocation failed: after the time for an answer it is tried again
            None => follower.extend_digests(),
        }
    }

    /// Writes a question to the source, as far as memory allows.
    fn write_question(&mut self, alloc: Global, question: &Question)
        ensures heard { self.new.heard.replies.items ≡ self.old.heard.replies.items }
        ensures refusals { self.new.refusals ≡ self.old.refusals }
    {
        if let Some(source) = &mut self.source {
            let _ = source.ask(alloc, question);
        }
    }

    /// Connects to the source that is to be asked, unless it is connected. Returns whether there is
    /// a connection.
    fn connect<R: Net + Clock + Eprint + AllocGlobal>(
        &mut self,
        context: &Context<'_, '_, R, N>,
    ) -> bool
        ensures heard { self.new.heard.replies.items ≡ self.old.heard.replies.items }
        ensures refusals { self.new.refusals ≡ self.old.refusals }
    {
        if self.source.is_some() {
            return true;
        }
        let index = self.asking.source;
        let Some(address) = self.sources.get(index).copied() else {
            return false;
        };
        self.source = SourceConnection::connect(
            context.rt,
            context.alloc(),
            context.network,
            address,
        );
        if !self.is_named {
            context.log.write(&ReplicaEvent::Asking {
                source: index,
                address,
            });
        }
        self.of = index;
        self.is_named = true;
        self.source.is_some()
    }
}

/// Logs what was learned since it had published that, and whether its tape has failed meanwhile.
fn log_learned<R: Clock + Eprint, T: Tape + Drop, N>(
    context: &Context<'_, '_, R, N>,
    follower: &Follower<T>,
    before: Seq,
    had_tape: bool,
) {
    let published = follower.history().published();
    if before < published {
        context.log.write(&ReplicaEvent::Learned {
            published: published.number(),
        });
    }
    if had_tape && !follower.has_tape() {
        context.log.write(&FolderEvent::TapeFailed);
    }
}

/// Why the connection to a source ends whose answer doesn't fit.
fn end_by(misfit: Misfit) -> SourceEnd {
    match misfit {
        Misfit::Unasked => SourceEnd::Unasked,
        Misfit::Count | Misfit::Digest => SourceEnd::Unfit,
        Misfit::OtherHistory(seq) => SourceEnd::Rejected(QuestionRejection::OtherHistory(seq)),
    }
}

/// Why a source refuses the replica whose answer doesn't fit, if that says so: it has another
/// history.
fn refusal_by(misfit: &Misfit) -> Option<QuestionRejection>
    ensures { IsSome result → IsOfOtherHistory misfit.now }
{
    match misfit {
        Misfit::Unasked | Misfit::Count | Misfit::Digest => None,
        Misfit::OtherHistory(seq) => Some(QuestionRejection::OtherHistory(*seq)),
    }
}

/// Why a source refuses the replica, if its rejection says so: it is of another farm, or of another
/// history.
fn refusal_of(why: &QuestionRejection) -> Option<QuestionRejection>
    ensures { IsSome result → IsRefusing why.now }
{
    match why {
        QuestionRejection::OtherFarm => Some(QuestionRejection::OtherFarm),
        QuestionRejection::OtherHistory(seq) => Some(QuestionRejection::OtherHistory(*seq)),
        QuestionRejection::OtherVersion | QuestionRejection::TooFar => None,
    }
}

/// Whether the connection ended since a reply wasn't asked for.
fn is_unasked(why: &SourceEnd) -> bool {
    matches!(why, SourceEnd::Unasked)
}
