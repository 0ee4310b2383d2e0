//! The clients of a node.

ghost use Rattle.std.specs.Prelude.{◌≡◌, false, true};
ghost use Rattle.wf_visitors.specs.Visitors.{responses_of};
ghost use Rattle.wf_voter.specs.Answer.{AreAnswered, StayEarlier};
ghost use Rattle.wf_voter.specs.Continuation.{Continues};

use crate::voter::Voter;
use std::time::Clock;
use wf_membership::Gate;
use wf_past::Past;
use wf_sockets::Network;
use wf_tape::Tape;
use wf_visitors::{Context, Visitors};

/// The clients of a node. A clause sees logs that only proofs read: for each client that was
/// answered, in order, the process before and after it.
#[derive(Drop)]
pub struct Clients<T: Tape, N: Network> {
    pub(crate) visitors: Visitors<N>,
    pub(crate) before: Past<Voter<T>, usize>,
    pub(crate) after: Past<Voter<T>, usize>,
    ghost answered: { ∥ AreAnswered T.Tape before.items (responses_of visitors) after.items ∥₁ },
}

impl<T: Tape + Drop, N: Network> Clients<T, N> {
    ghost use Rattle.std.specs.Prelude.{[]};

    /// Nobody was answered yet.
    #[tactic(auto, using(crate::proofs::Answered::none_answered))]
    pub fn new(visitors: Visitors<N>) -> Self
        requires { responses_of visitors ≡ [] }
        ensures { result.before.items ≡ [] }
    {
        Clients {
            visitors,
            before: Past::new(),
            after: Past::new(),
        }
    }

    /// Who is there, and what was answered.
    pub fn visitors(&self) -> &Visitors<N>
        ensures { result.now ≡ self.now.visitors }
    {
        &self.visitors
    }

    /// Each client that was answered, always. The call does nothing.
    pub fn always_answered(&self)
        ensures { ∥ AreAnswered T.Tape self.now.before.items
            (responses_of self.now.visitors) self.now.after.items ∥₁ }
    {
        let _ = &self.before;
    }

    /// Accepts clients.
    pub fn accept<R: Clock + Eprint + AllocGlobal>(&mut self, context: &Context<'_, '_, R, N>)
        ensures { self.new.before.items ≡ self.old.before.items }
    {
        self.visitors.accept(context);
    }

    /// Closes the port, and whoever is there.
    pub fn close(&mut self)
        ensures { self.new.before.items ≡ self.old.before.items }
    {
        self.visitors.close();
    }

    /// Closes whoever is there.
    pub fn dismiss(&mut self)
        ensures { self.new.before.items ≡ self.old.before.items }
    {
        self.visitors.dismiss();
    }

    /// What came for the client in a slot, or was taken by it.
    pub fn on_ready<R: AllocGlobal>(&mut self, context: &Context<'_, '_, R, N>, index: usize)
        ensures { self.new.before.items ≡ self.old.before.items }
    {
        self.visitors.on_ready(context, index);
    }

    /// Ends the phases whose time is over.
    pub fn tick(&mut self, time: u64)
        ensures { self.new.before.items ≡ self.old.before.items }
    {
        self.visitors.tick(time);
    }

    /// Answers the next request, if it is whole. Returns its slot, whose turn is to follow: the
    /// client is yet to take the response, or to send the rest.
    #[tactic(auto, using(crate::proofs::Continuation::still))]
    pub fn answer_next<R: Clock + Eprint + AllocGlobal>(
        &mut self,
        context: &Context<'_, '_, R, N>,
        voter: &mut Voter<T>,
    ) -> Option<usize>
        ensures on { Continues T.Tape voter.old voter.new }
        ensures outvoted { voter.old.is_outvoted ≡ true →
            self.new.before.items ≡ self.old.before.items }
        ensures joins { voter.old.membership.joins ≡ true →
            self.new.before.items ≡ self.old.before.items }
        // Clients are answered by the process as it then is.
        ensures earlier { StayEarlier T.Tape self.old.before.items self.new.before.items
            voter.old.process voter.new.process }
    {
        if !voter.answers() {
            return None;
        }
        let Some(index) = self.visitors.next() else {
            return None;
        };
        self.answer(context, voter, index);
        Some(index)
    }

    /// Answers the request in a slot, if it is whole.
    #[tactic(auto, using(crate::proofs::Continuation::responded, crate::proofs::Continuation::stayed))]
    fn answer<R: Clock + Eprint + AllocGlobal>(
        &mut self,
        context: &Context<'_, '_, R, N>,
        voter: &mut Voter<T>,
        index: usize,
    )
        requires awake { ¬ (voter.old.gate ≡ Gate.Suspended) }
        requires agrees { voter.old.is_outvoted ≡ false }
        requires votes { voter.old.membership.joins ≡ false }
        ensures on { Continues T.Tape voter.old voter.new }
        ensures earlier { StayEarlier T.Tape self.old.before.items self.new.before.items
            voter.old.process voter.new.process }
    {
        let before = self.before.and(&*voter, &0);
        if self.visitors.answer(context, voter, index) {
            self.before = before;
            self.after = self.after.and(&*voter, &0);
        }
    }
}
