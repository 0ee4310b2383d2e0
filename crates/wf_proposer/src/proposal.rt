ghost use Rattle.std.specs.Prelude.{◌≡◌, [], None, Ok};

use crate::change::Change;
use crate::next::Next;
use crate::responders::Responders;
use crate::step_rejection::StepRejection;
use crate::volatile::{Leadership, Phase, Proposing, VolatileState};
use std::alloc::{AllocError, Global};
use wf_ballot::{Ballot, NodeId, Round, Slot};
use wf_codec::{BestVotes, Canon, Message, Report};
use wf_journal::Record;

/// A running proposal.
#[derive(Drop)]
pub struct Proposal {
    /// Its slot.
    pub slot: Slot,
    /// Its ballot.
    pub ballot: Ballot,
    /// Its node's own definition.
    pub own: Canon,
    /// The nodes whose answers are counted in its phase.
    pub responders: Responders,
    /// The highest round that a Nack reported, 0 before the first.
    pub seen: u32,
}

impl Proposal {
    ghost use Rattle.std.specs.Prelude.{max, nat_le, ◌≡◌, ◌==◌, ◌&&◌, ◌+◌, true, Some, Err, IfOk, IsErr, Option};
    ghost use Rattle.wf_codec.specs.Message.{view_votes};
    ghost use Rattle.wf_model.specs.Message.{first_vote};
    ghost use Rattle.wf_model.specs.Table as table;
    ghost use Rattle.wf_model.specs.VolatileState as model;
    ghost use Rattle.wf_proposer.specs.Responders.{are_majority};
    ghost use Rattle.wf_proposer.specs.Next.{accepted_transition, begun, chosen_for, elect, elected_for, ended_with, leadership_from, nacked_by, promise_transition, promised_by, voted_by, AllocatesOnlyToSend, Returns};
    ghost use Rattle.wf_proposer.specs.Proposal.{IsNewResponse};
    ghost use Rattle.wf_proposer.specs.StepRejection.{rejected_by};
    ghost use Rattle.wf_proposer.specs.VolatileState.{accepting, leading_of, led_votes, preparing};

    /// A proposal of `own`, of which no answer is counted yet.
    pub fn new(slot: Slot, ballot: Ballot, own: Canon) -> Proposal
        ensures { result ≡
            record { slot = slot; ballot = ballot; own = own; responders = 0; seen = 0 } }
    {
        Proposal {
            slot,
            ballot,
            own,
            responders: Responders::nobody(),
            seen: 0,
        }
    }

    /// A proposal of `own` begins at the ballot: its round is stored before any Prepare is sent,
    /// and a leadership ends.
    pub fn begin(alloc: Global, slot: Slot, own: Canon, ballot: Ballot) -> Result<Next, AllocError>
        ensures { IfOk result (λ next. next ≡ begun slot own ballot) }
    {
        let proposal = Proposal::new(slot, ballot, own);
        let volatile = VolatileState {
            proposing: Proposing::Running(proposal, Phase::Preparing(BestVotes::none())),
            leadership: None,
        };
        let tried = Record::Tried(Round::of(ballot));
        let message = Message::Prepare(slot, ballot);
        let change = Change::Becomes(volatile);
        Next::only_sends(alloc, Some(tried), message, change)
    }

    /// Whether a Nack has told of a promise of the proposal's round or a higher one.
    pub fn is_preempted(&self) -> bool
        ensures { result ≡ nat_le self.now.ballot.round self.now.seen }
    {
        self.ballot.round() <= self.seen
    }

    /// The proposal begins again, in a round above the one tried and each one reported. There may
    /// be none left.
    #[tactic(auto, unfolding(wf_model::specs::Table::rounds_full))]
    pub fn again(&self, alloc: Global, node: NodeId, tried: u32) -> Result<Next, StepRejection>
        ensures refused { rejected_by result ≡ table.rounds_full (max tried self.now.seen) }
        ensures transition { IfOk result (λ next. next ≡ begun self.now.slot self.now.own
            (record { round = max tried self.now.seen + 1; node = node })) }
    {
        match Ballot::next(tried.max(self.seen), node) {
            None => Err(StepRejection::RoundsFull),
            Some(ballot) => {
                let own = self.own.copy()?;
                let next = Proposal::begin(alloc, self.slot, own, ballot)?;
                Ok(next)
            }
        }
    }

    /// The first attempt of a proposal of `own`, in the round after the one tried. There may be
    /// none left.
    #[tactic(auto, unfolding(wf_model::specs::Table::rounds_full))]
    pub fn first(
        alloc: Global,
        node: NodeId,
        slot: Slot,
        own: Canon,
        tried: u32,
    ) -> Result<Next, StepRejection>
        ensures refused { rejected_by result ≡ table.rounds_full tried }
        ensures transition { IfOk result (λ next. next ≡
            begun slot own (record { round = tried + 1; node = node })) }
    {
        match Ballot::next(tried, node) {
            None => {
                drop(own);
                Err(StepRejection::RoundsFull)
            }
            Some(ballot) => {
                let next = Proposal::begin(alloc, slot, own, ballot)?;
                Ok(next)
            }
        }
    }

    /// Whether this is a proposal for the slot.
    pub fn is_for(&self, slot: Slot) -> bool
        ensures { result ≡ (self.now.slot == slot) }
    {
        self.slot == slot
    }

    /// Whether this is the proposal at the slot and the ballot.
    #[tactic(auto, unfolding(wf_model::specs::VolatileState::same_ballot))]
    pub fn is_at(&self, slot: Slot, ballot: Ballot) -> bool
        ensures { result ≡ ((self.now.slot == slot) && model.same_ballot self.now.ballot ballot) }
    {
        self.is_for(slot) && self.ballot == ballot
    }

    /// Whether the proposal waits for the answer, which is of its phase: it is of its slot and
    /// ballot, from a node of the farm whose answer isn't counted yet.
    #[tactic(auto, unfolding(wf_model::specs::Table::is_new_response, wf_model::specs::VolatileState::is_at, wf_model::specs::VolatileState::same_phase))]
    fn is_new_response(&self, n: u8, from: NodeId, slot: Slot, ballot: Ballot) -> bool
        ensures promise { IsNewResponse model.Preparing n self.now from slot ballot result }
        ensures vote { IsNewResponse model.Accepting n self.now from slot ballot result }
    {
        self.is_at(slot, ballot) && from.number() < n && !self.responders.contains(from)
    }

    /// A Promise arrived while promises are asked for, `best` the best votes so far: it is counted,
    /// and for each slot the better vote is kept. Once a majority has promised, votes are asked
    /// for; only that allocates. An answer that the proposal doesn't wait for has no effect.
    pub fn on_promise(
        &self,
        alloc: Global,
        n: u8,
        best: &BestVotes,
        from: NodeId,
        ballot: Ballot,
        report: Report,
    ) -> Result<Next, StepRejection>
        ensures memory { (leadership : Option Leadership) → AllocatesOnlyToSend
            (promise_transition n (preparing leadership self.now best.now) from ballot report) result }
        ensures transition { (leadership : Option Leadership) → Returns
            (preparing leadership self.now best.now)
            (promise_transition n (preparing leadership self.now best.now) from ballot report) result }
    {
        if !self.is_new_response(n, from, report.slot(), ballot) {
            return ignore(alloc, report);
        }
        self.after_promise(alloc, n, self.responders.with(from), best, report)
    }

    /// The result after these nodes promised, the last one with this report. Once they are a
    /// majority, votes are asked for; only that allocates.
    fn after_promise(
        &self,
        alloc: Global,
        n: u8,
        responders: Responders,
        best: &BestVotes,
        report: Report,
    ) -> Result<Next, StepRejection>
        ensures memory { IsErr result →
            (are_majority n responders ≡ true) × (result ≡ Err StepRejection.Memory) }
        ensures next { IfOk result (λ next. next ≡
            promised_by n self.now best.now responders report) }
    {
        if !responders.is_majority(n) {
            return Ok(Next::quiet(alloc, Change::CountsPromise(responders, report)));
        }
        let next = self.elect(alloc, best, report)?;
        Ok(next)
    }

    /// A majority has promised, the last node with this report: votes are asked for, and a
    /// leadership begins.
    fn elect(&self, alloc: Global, best: &BestVotes, report: Report) -> Result<Next, AllocError>
        ensures { IfOk result (λ next. next ≡
            elect self.now (model.better_each best.now (view_votes report.votes))) }
    {
        match best.copy() {
            Ok(copy) => {
                let mut better = copy;
                better.improve(report);
                self.leads(alloc, better)
            }
            Err(fault) => {
                drop(report);
                Err(fault)
            }
        }
    }

    /// Votes are asked for, for the best vote reported at the proposal's slot, or else for its own
    /// definition.
    fn leads(&self, alloc: Global, best: BestVotes) -> Result<Next, AllocError>
        ensures { IfOk result (λ next. next ≡ elect self.now best) }
    {
        match best.first_or(&self.own).copy() {
            Ok(canon) => self.asks_votes(alloc, best, canon),
            Err(fault) => {
                drop(best);
                Err(fault)
            }
        }
    }

    /// Votes are asked for the definition. No answer to that is counted yet.
    fn asks_votes(&self, alloc: Global, best: BestVotes, canon: Canon) -> Result<Next, AllocError>
        ensures { IfOk result (λ next. next ≡ elected_for self.now best canon) }
    {
        match self.own.copy() {
            Ok(own) => {
                let message = Message::Accept(self.slot, self.ballot, canon);
                let change = Change::Becomes(self.lead_by(own, best));
                Next::only_sends(alloc, None, message, change)
            }
            Err(fault) => {
                drop(best);
                drop(canon);
                Err(fault)
            }
        }
    }

    /// The volatile state once votes are asked for; `own` is a copy of the proposal's own
    /// definition.
    fn lead_by(&self, own: Canon, best: BestVotes) -> VolatileState
        ensures { result ≡ record {
          proposing = Proposing.Running (record self.now { own = own; responders = 0 }) Phase.Accepting;
          leadership = Some (leadership_from self.now best);
        } }
    {
        let mut proposal = Proposal::new(self.slot, self.ballot, own);
        proposal.seen = self.seen;
        let leadership = Leadership {
            base: self.slot,
            ballot: self.ballot,
            best,
        };
        VolatileState {
            proposing: Proposing::Running(proposal, Phase::Accepting),
            leadership: Some(leadership),
        }
    }

    /// The definition that votes were asked for under the leadership: that of the best vote
    /// reported at the proposal's slot, or else its own.
    #[tactic(auto, unfolding(wf_model::specs::Message::first_vote, wf_model::specs::VolatileState::carried))]
    fn definition_to_accept<'a>(&'a self, leadership: &'a Option<Leadership>) -> &'a Canon
        ensures { result.now ≡ model.carried
            (first_vote (led_votes (leading_of leadership.now) self.now.slot)) self.now.own }
    {
        match leadership {
            None => &self.own,
            Some(leadership) => leadership.best.at_or(leadership.base, self.slot, &self.own),
        }
    }

    /// An Accepted arrived while votes are asked for: it is counted. Once a majority has voted, the
    /// definition is published and the proposal ends; only that allocates. An answer that the
    /// proposal doesn't wait for has no effect.
    pub fn on_accepted(
        &self,
        alloc: Global,
        n: u8,
        leadership: &Option<Leadership>,
        from: NodeId,
        slot: Slot,
        ballot: Ballot,
    ) -> Result<Next, StepRejection>
        ensures memory { AllocatesOnlyToSend
            (accepted_transition n (accepting leadership.now self.now) from slot ballot) result }
        ensures transition { Returns (accepting leadership.now self.now)
            (accepted_transition n (accepting leadership.now self.now) from slot ballot) result }
    {
        if !self.is_new_response(n, from, slot, ballot) {
            return Ok(Next::quiet(alloc, Change::Nothing));
        }
        self.after_vote(
            alloc,
            n,
            self.responders.with(from),
            self.definition_to_accept(leadership),
        )
    }

    /// The result after these nodes voted for the definition. Once they are a majority, it is
    /// published and the proposal ends; only that allocates.
    fn after_vote(
        &self,
        alloc: Global,
        n: u8,
        responders: Responders,
        canon: &Canon,
    ) -> Result<Next, StepRejection>
        ensures memory { IsErr result →
            (are_majority n responders ≡ true) × (result ≡ Err StepRejection.Memory) }
        ensures next { IfOk result (λ next. next ≡ voted_by n self.now canon.now responders) }
    {
        if !responders.is_majority(n) {
            return Ok(Next::quiet(alloc, Change::CountsVote(responders)));
        }
        let next = self.publishes(alloc, canon)?;
        Ok(next)
    }

    /// The definition is published, and the proposal ends.
    fn publishes(&self, alloc: Global, canon: &Canon) -> Result<Next, AllocError>
        ensures { IfOk result (λ next. next ≡ chosen_for self.now canon.now) }
    {
        let published = Record::Published(self.slot, canon.copy()?);
        match canon.copy() {
            Ok(reported) => {
                let message = Message::Chosen(self.slot, reported);
                let change = Change::Proposes(self.end_with(canon));
                Next::only_sends(alloc, Some(published), message, change)
            }
            Err(fault) => {
                drop(published);
                Err(fault)
            }
        }
    }

    /// How the proposal ends if the definition is published at its slot.
    pub fn end_with(&self, canon: &Canon) -> Proposing
        ensures { result ≡ ended_with self.now canon.now }
    {
        Proposing::Ended(self.slot, self.own == *canon)
    }

    /// A Nack arrived: the highest reported round is kept for the next attempt. Doesn't allocate.
    pub fn on_nack(&self, alloc: Global, slot: Slot, ballot: Ballot, promised: Ballot) -> Next
        ensures { result ≡ nacked_by self.now slot ballot promised }
    {
        if !self.is_at(slot, ballot) {
            return Next::quiet(alloc, Change::Nothing);
        }
        Next::quiet(alloc, Change::Sees(self.seen.max(promised.round())))
    }
}

/// A report that no proposal waits for has no effect.
pub fn ignore(alloc: Global, report: Report) -> Result<Next, StepRejection>
    ensures { result ≡ Ok (record { entry = None; messages = []; change = Change.Nothing }) }
{
    drop(report);
    Ok(Next::quiet(alloc, Change::Nothing))
}
