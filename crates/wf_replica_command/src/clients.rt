//! A replica and its clients.

ghost use Rattle.std.specs.Prelude.{◌≡◌};
ghost use Rattle.wf_replica.specs.Follower.{HasLearnedNothing, answers_of, list_of, read_by, received_by};
ghost use Rattle.wf_replica.specs.Heard.{CameByAnswers};
ghost use Rattle.wf_replica.specs.LearnedList.{learned};
ghost use Rattle.wf_replica.specs.Recorded.{IsRecorded};
ghost use Rattle.wf_replica_command.specs.Answer.{AreAnswered, AreInOrder};
ghost use Rattle.wf_replica_command.specs.Heard.{Hears};
ghost use Rattle.wf_visitors.specs.Visitors.{responses_of};

use crate::renderer::Renderer;
use crate::upstream::Upstream;
use std::net::Net;
use std::time::Clock;
use wf_operator::PictureCounts;
use wf_past::Past;
use wf_replica::Follower;
use wf_sockets::Network;
use wf_tape::Tape;
use wf_visitors::{Context, Visitors};

/// The most requests of clients that a turn answers.
const MOST_SERVED: usize = 8;

/// A replica and its clients. A clause sees a log that only proofs read: for each client that was
/// answered, in order, the replica as it then was.
#[derive(Drop)]
pub struct ReplicaClients<T: Tape, N: Network> {
    pub(crate) visitors: Visitors<N>,
    pub(crate) renderer: Renderer<T>,
    pub(crate) asked: Past<Renderer<T>, usize>,
    ghost answered: { ∥ AreAnswered T.Tape asked.items (responses_of visitors) ∥₁ },
    ghost in_order: { ∥ AreInOrder T.Tape asked.items renderer.follower ∥₁ },
}

impl<T: Tape + Drop, N: Network> ReplicaClients<T, N> {
    ghost use Rattle.std.specs.Prelude.{[]};

    /// Nobody was answered yet.
    #[tactic(auto, using(crate::proofs::Answers::none_answered, crate::proofs::Order::none_in_order))]
    pub(crate) fn new(visitors: Visitors<N>, follower: Follower<T>) -> Self
        requires { responses_of visitors ≡ [] }
        ensures { result.renderer.follower ≡ follower }
    {
        ReplicaClients {
            visitors,
            renderer: Renderer {
                follower,
                pictures: PictureCounts::default(),
            },
            asked: Past::new(),
        }
    }

    /// The replica's list is what it has heard and what its tape has, each client that was answered
    /// was answered from it, and it never went back, always. The call does nothing.
    pub(crate) fn always_served(&self)
        ensures lived { learned [] (received_by self.now.renderer.follower) ≡
            list_of self.now.renderer.follower }
        ensures taken { ∥ CameByAnswers (read_by self.now.renderer.follower)
            (answers_of self.now.renderer.follower) (received_by self.now.renderer.follower) ∥₁ }
        ensures recorded { IsRecorded T.Tape self.now.renderer.follower.tape
            (list_of self.now.renderer.follower) }
        ensures answered { ∥ AreAnswered T.Tape self.now.asked.items
            (responses_of self.now.visitors) ∥₁ }
        ensures in_order { ∥ AreInOrder T.Tape self.now.asked.items self.now.renderer.follower ∥₁ }
    {
        self.renderer.follower.always_learned();
    }

    /// Takes in what came from the source that is asked, and asks what is due.
    #[tactic(auto, using(crate::proofs::Order::still_heard))]
    pub(crate) fn ask<R: Net + Clock + Eprint + AllocGlobal>(
        &mut self,
        context: &Context<'_, '_, R, N>,
        upstream: &mut Upstream<N>,
    )
        ensures { Hears upstream.old self.old.renderer.follower upstream.new
            self.new.renderer.follower }
    {
        upstream.follow(context, &mut self.renderer.follower);
    }

    /// Accepts clients.
    pub(crate) fn accept<R: Clock + Eprint + AllocGlobal>(
        &mut self,
        context: &Context<'_, '_, R, N>,
    )
        ensures { self.new.renderer ≡ self.old.renderer }
    {
        self.visitors.accept(context);
    }

    /// What came for the client in a slot, or was taken by it.
    pub(crate) fn on_ready<R: AllocGlobal>(&mut self, context: &Context<'_, '_, R, N>, index: usize)
        ensures { self.new.renderer ≡ self.old.renderer }
    {
        self.visitors.on_ready(context, index);
    }

    /// Ends the phases whose time is over.
    pub(crate) fn tick(&mut self, time: u64)
        ensures { self.new.renderer ≡ self.old.renderer }
    {
        self.visitors.tick(time);
    }

    /// Answers requests that are whole, a bounded number of them. Returns whether there are more.
    #[tactic(auto, using(crate::proofs::Continuation::same_itself, crate::proofs::Continuation::same_twice))]
    pub(crate) fn serve<R: Clock + Eprint + AllocGlobal>(
        &mut self,
        context: &Context<'_, '_, R, N>,
    ) -> bool
        ensures { HasLearnedNothing self.old.renderer.follower self.new.renderer.follower }
    {
        for _ in 0..MOST_SERVED {
            let Some(index) = self.visitors.next() else {
                return false;
            };
            self.serve_one(context, index);
        }
        self.visitors.waits()
    }

    /// Answers the request in a slot, if it is whole.
    #[tactic(auto, using(crate::proofs::Answers::one_more_answered, crate::proofs::Order::next_in_order, crate::proofs::Order::stays_in_order, crate::proofs::Order::kept))]
    fn serve_one<R: Clock + Eprint + AllocGlobal>(
        &mut self,
        context: &Context<'_, '_, R, N>,
        index: usize,
    )
        ensures { HasLearnedNothing self.old.renderer.follower self.new.renderer.follower }
    {
        let asked = self.asked.and(&self.renderer, &0);
        if self.visitors.serve(context, &mut self.renderer, index) {
            self.asked = asked;
        }
    }
}
