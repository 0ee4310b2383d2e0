use crate::change::Change;
use crate::next::Next;
use crate::proposal::Proposal;
use crate::responders::Responders;
use crate::step_rejection::StepRejection;
use std::alloc::{AllocError, Global};
use std::mem::replace;
use wf_ballot::{Ballot, Slot};
use wf_codec::{BestVotes, Canon, Message, Report};

/// The number of slots at which a leadership asks for votes without asking for promises: its base
/// and the three after it. A promise reports votes at as many.
const WINDOW: u16 = 4;

/// A proposer's volatile state.
#[derive(Drop)]
pub struct VolatileState {
    /// At most one proposal.
    pub proposing: Proposing,
    /// A leadership, if there is one.
    pub leadership: Option<Leadership>,
}

/// At most one proposal, or how the last one ended.
#[derive(Drop)]
pub enum Proposing {
    /// No proposal yet.
    Idle,
    /// This one is running, in this phase.
    Running(Proposal, Phase),
    /// The last one ended: a definition is published at its slot, and this is whether it is its
    /// own.
    Ended(Slot, bool),
}

/// A running proposal first asks for promises, then for votes.
#[derive(Drop)]
pub enum Phase {
    /// It asks for promises; these are the best votes reported so far.
    Preparing(BestVotes),
    /// It asks for votes; the best votes reported are those of the leadership.
    Accepting,
}

/// A majority promised the ballot at `base` and all later slots, so no promises need to be asked
/// for at the first few of them.
#[derive(Drop)]
pub struct Leadership {
    /// The slot from which on the majority promised.
    pub base: Slot,
    /// The ballot.
    pub ballot: Ballot,
    /// The best votes that this majority reported, that at `base` first.
    pub best: BestVotes,
}

impl VolatileState {
    ghost use Rattle.std.specs.Prelude.{◌≡◌};
    ghost use Rattle.wf_proposer.specs.Change.{changed};

    /// Makes the change.
    pub fn make(&mut self, change: Change)
        ensures { self.new ≡ changed change self.old.leadership self.old.proposing }
    {
        match change {
            Change::Nothing => {}
            Change::Becomes(next) => self.becomes(next),
            Change::Proposes(next) => self.proposes(next),
            Change::CountsPromise(responders, report) => self
                .proposing
                .count_promise(responders, report),
            Change::CountsVote(responders) => self.proposing.count_vote(responders),
            Change::Sees(round) => self.proposing.see(round),
        }
    }

    /// Replaces the volatile state. The old one is dropped by one call: if it were dropped in
    /// place, its parts would make each proof long.
    fn becomes(&mut self, next: VolatileState)
        ensures { self.new ≡ next }
    {
        drop(replace(self, next));
    }

    /// Replaces the proposal, or how the last one ended; a leadership stays.
    pub fn proposes(&mut self, next: Proposing)
        ensures { self.new ≡ record { proposing = next; leadership = self.old.leadership } }
    {
        drop(replace(&mut self.proposing, next));
    }
}

impl Proposing {
    ghost use Rattle.std.specs.Prelude.{◌≡◌};
    ghost use Rattle.wf_proposer.specs.Change.{with_promise, with_seen, with_vote};

    fn count_promise(&mut self, responders: Responders, report: Report)
        ensures { self.new ≡ with_promise responders report.votes self.old }
    {
        match self {
            Proposing::Running(proposal, phase) => match phase {
                Phase::Preparing(best) => {
                    proposal.responders = responders;
                    best.improve(report);
                }
                Phase::Accepting => drop(report),
            },
            _ => drop(report),
        }
    }

    fn count_vote(&mut self, responders: Responders)
        ensures { self.new ≡ with_vote responders self.old }
    {
        if let Proposing::Running(proposal, Phase::Accepting) = self {
            proposal.responders = responders;
        }
    }

    fn see(&mut self, round: u32)
        ensures { self.new ≡ with_seen round self.old }
    {
        if let Proposing::Running(proposal, _) = self {
            proposal.seen = round;
        }
    }
}

impl Leadership {
    ghost use Rattle.std.specs.Prelude.{◌≡◌, None, IfOk};
    ghost use Rattle.wf_model.specs.VolatileState as model;
    ghost use Rattle.wf_proposer.specs.Next.{led};
    ghost use Rattle.wf_proposer.specs.StepRejection.{rejected_by};

    /// Whether a proposal at the slot needs no promises.
    #[tactic(auto, unfolding(wf_model::specs::VolatileState::is_in_window))]
    pub fn covers(&self, slot: Slot) -> bool
        ensures { result ≡ model.is_in_window self.now.base slot }
    {
        let base = self.base.number();
        let slot = slot.number();
        base <= slot && slot < base + WINDOW
    }

    /// The leader's proposal of `own` begins: votes are asked for, for the best vote reported at
    /// the slot, or else for `own`. The only error is allocation failure.
    pub fn propose(&self, alloc: Global, slot: Slot, own: Canon) -> Result<Next, StepRejection>
        ensures refused { rejected_by result ≡ None }
        ensures transition { IfOk result (λ next. next ≡ led self.now slot own) }
    {
        let next = self.asks_votes(alloc, slot, own)?;
        Ok(next)
    }

    fn asks_votes(&self, alloc: Global, slot: Slot, own: Canon) -> Result<Next, AllocError>
        ensures { IfOk result (λ next. next ≡ led self.now slot own) }
    {
        match self.best.at_or(self.base, slot, &own).copy() {
            Ok(canon) => {
                let proposal = Proposal::new(slot, self.ballot, own);
                let message = Message::Accept(slot, self.ballot, canon);
                let change = Change::Proposes(Proposing::Running(proposal, Phase::Accepting));
                Next::only_sends(alloc, None, message, change)
            }
            Err(fault) => {
                drop(own);
                Err(fault)
            }
        }
    }
}
