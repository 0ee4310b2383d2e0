ghost use Rattle.std.specs.Prelude.{◌≡◌, ◌+◌, ◌<◌};
ghost use Rattle.wf_ballot.specs.Sequence.{last_sequence};
ghost use Rattle.wf_model.specs.Table as table;
ghost use Rattle.wf_proposer.specs.StepRejection.{IsWhyStepRejected};

use crate::change::Change;
use crate::next::Next;
use crate::proposal::{Proposal, ignore};
use crate::proposal_state::ProposalState;
use crate::step_rejection::StepRejection;
use crate::volatile::{Leadership, Phase, Proposing, VolatileState};
use std::alloc::Global;
use std::marker::Model;
use wf_ballot::{Ballot, NodeId, ROUNDS, Seq, Slot};
use wf_codec::{Canon, Message, Report};
use wf_journal::Record;

/// The proposer of one node: at most one proposal, or how the last one ended.
pub struct Proposer {
    node: NodeId,
    nodes: u8,
    volatile: VolatileState,
}

// Written by hand: callers then prove one call where they drop a proposer, not one for each part.
impl Drop for Proposer {
    fn drop(self) {
        let Proposer {
            node: _,
            nodes: _,
            volatile,
        } = self;
        drop(volatile);
    }
}

impl Model for Proposer {
    ghost use Rattle.wf_proposer.specs.Proposer.{Proposer};

    ghost Value = { Proposer };

    ghost view = { λ p. record { node = p.node; nodes = p.nodes; volatile = p.volatile } };
}

impl Proposer {
    ghost use Rattle.std.specs.Prelude.{◌≡◌, ◌<◌, if◌then◌else◌};
    ghost use Rattle.std.specs.Option.{option_copied};
    ghost use Rattle.wf_ballot.specs.Sequence.{last_sequence};
    ghost use Rattle.wf_def.specs.Equality.{definition_eq};
    ghost use Rattle.wf_model.specs.Fits.{IsForNext};
    ghost use Rattle.wf_model.specs.Table as table;
    ghost use Rattle.wf_model.specs.VolatileState as model;
    ghost use Rattle.wf_proposer.specs.Next.{accepted_transition, promise_transition, AllocatesOnlyToSend, Returns};
    ghost use Rattle.wf_proposer.specs.Proposer.{begin_step_rejection, propose_transition, retry_step_rejection, retry_transition, transition_of, runs_for, start_step_rejection, volatile_of, ForStored, ForTried};
    ghost use Rattle.wf_proposer.specs.StepRejection.{rejected_by, IsWhyStepRejected};
    ghost use Rattle.wf_proposer.specs.ProposalState.{proposal_state_of, is_preempted};
    ghost use Rattle.wf_proposer.specs.VolatileState.{leading_of};

    /// The proposer of node `id` in a farm of `n` nodes, with no proposal and no leadership.
    #[tactic(auto, unfolding(wf_model::specs::VolatileState::at_start))]
    pub fn new(id: NodeId, n: u8) -> Proposer
        ensures node { result.node ≡ id }
        ensures nodes { result.nodes ≡ n }
        ensures idle { volatile_of result ≡ model.at_start }
    {
        Proposer {
            node: id,
            nodes: n,
            volatile: VolatileState {
                proposing: Proposing::Idle,
                leadership: None,
            },
        }
    }

    /// The number of the proposer's node.
    pub fn id(&self) -> NodeId
        ensures { result ≡ self.now.node }
    {
        self.node
    }

    /// The number of nodes.
    pub fn nodes(&self) -> u8
        ensures { result ≡ self.now.nodes }
    {
        self.nodes
    }

    /// The state of the node's proposal.
    pub fn proposal(&self) -> ProposalState
        ensures { result ≡ proposal_state_of (volatile_of self.now).proposing }
    {
        match &self.volatile.proposing {
            Proposing::Idle => ProposalState::None,
            Proposing::Running(_, _) => ProposalState::Running,
            Proposing::Ended(slot, true) => ProposalState::Published(*slot),
            Proposing::Ended(slot, false) => ProposalState::Overtaken(*slot),
        }
    }

    /// Whether a Nack has told a running proposal of a promise of its round or a higher one: its
    /// node then wins only in a new round.
    pub fn is_preempted(&self) -> bool
        ensures { result ≡ is_preempted (volatile_of self.now).proposing }
    {
        match &self.volatile.proposing {
            Proposing::Running(proposal, _) => proposal.is_preempted(),
            _ => false,
        }
    }

    /// Begins a proposal of `own`; `tried` is the stored round, and `published` the last published
    /// sequence. A leader asks for votes at once if its leadership covers the next sequence, and
    /// otherwise promises are asked for in a new round. Rejected as Busy if a proposal runs, then
    /// as RoundsFull if a new round is needed after the last one.
    #[tactic(auto, unfolding(wf_model::specs::Table::reject_proposal))]
    pub fn start(
        &self,
        alloc: Global,
        tried: u32,
        published: Seq,
        own: Canon,
    ) -> Result<Next, StepRejection>
        requires { published < last_sequence }
        ensures refused { ForStored tried published (λ stored.
            rejected_by result ≡ start_step_rejection self.now stored) }
        ensures transition { ForStored tried published (λ stored.
            Returns self.now.volatile (propose_transition self.now stored own) result) }
    {
        match &self.volatile.proposing {
            Proposing::Running(_, _) => {
                drop(own);
                Err(StepRejection::Busy)
            }
            _ => self.begin(alloc, tried, published, own),
        }
    }

    /// Begins a proposal where none runs.
    fn begin(
        &self,
        alloc: Global,
        tried: u32,
        published: Seq,
        own: Canon,
    ) -> Result<Next, StepRejection>
        requires { published < last_sequence }
        ensures refused { ForStored tried published (λ stored.
            rejected_by result ≡ begin_step_rejection self.now stored) }
        ensures transition { ForStored tried published (λ stored.
            Returns self.now.volatile (propose_transition self.now stored own) result) }
    {
        let slot = slot_after(published);
        match self.leadership_at(slot) {
            Some(leadership) => leadership.propose(alloc, slot, own),
            None => Proposal::first(alloc, self.node, slot, own, tried),
        }
    }

    /// The leadership, if there is one and it covers the slot.
    #[tactic(auto, unfolding(wf_model::specs::VolatileState::leading_at))]
    fn leadership_at(&self, slot: Slot) -> Option<&Leadership>
        ensures { leading_of (option_copied result) ≡
            model.leading_at (volatile_of self.now).leadership slot }
    {
        match &self.volatile.leadership {
            None => None,
            Some(leadership) => {
                if leadership.covers(slot) {
                    Some(leadership)
                } else {
                    None
                }
            }
        }
    }

    /// Begins the running proposal again in a higher round, and ends a leadership; `tried` is the
    /// stored round. Rejected as Nothing if no proposal runs, and as RoundsFull if the last round
    /// was tried or reported.
    #[tactic(auto, unfolding(wf_model::specs::Table::reject_retry, wf_model::specs::Table::round_known))]
    pub fn retry(&self, alloc: Global, tried: u32) -> Result<Next, StepRejection>
        ensures refused { ForTried tried (λ stored.
            rejected_by result ≡ retry_step_rejection self.now stored) }
        ensures transition { ForTried tried (λ stored.
            IsForNext stored (volatile_of self.now).proposing →
            Returns self.now.volatile (retry_transition self.now stored) result) }
    {
        match &self.volatile.proposing {
            Proposing::Running(proposal, _) => proposal.again(alloc, self.node, tried),
            _ => Err(StepRejection::Nothing),
        }
    }

    /// Why a proposal would be rejected now, given that `tried` is the stored round and a sequence
    /// is left; None if it would begin.
    #[tactic(auto, unfolding(wf_model::specs::Table::reject_proposal))]
    pub fn start_step_rejection(&self, tried: u32, published: Seq) -> Option<StepRejection>
        requires { published < last_sequence }
        ensures { ForStored tried published (λ stored.
            IsWhyStepRejected (start_step_rejection self.now stored) result) }
    {
        match &self.volatile.proposing {
            Proposing::Running(_, _) => Some(StepRejection::Busy),
            _ => self.begin_step_rejection(tried, published),
        }
    }

    /// Why a proposal would be rejected where none runs: only a new round may be missing, which a
    /// leader doesn't need.
    fn begin_step_rejection(&self, tried: u32, published: Seq) -> Option<StepRejection>
        requires { published < last_sequence }
        ensures { ForStored tried published (λ stored.
            IsWhyStepRejected (begin_step_rejection self.now stored) result) }
    {
        match self.leadership_at(slot_after(published)) {
            Some(_) => None,
            None => rounds_step_rejection(tried),
        }
    }

    /// Why a retry would be rejected now, given that `tried` is the stored round; None if it would
    /// begin.
    #[tactic(auto, unfolding(wf_model::specs::Table::reject_retry, wf_model::specs::Table::round_known))]
    pub fn retry_step_rejection(&self, tried: u32) -> Option<StepRejection>
        ensures { ForTried tried (λ stored.
            IsWhyStepRejected (retry_step_rejection self.now stored) result) }
    {
        match &self.volatile.proposing {
            Proposing::Running(proposal, _) => rounds_step_rejection(tried.max(proposal.seen)),
            _ => Some(StepRejection::Nothing),
        }
    }

    /// A Promise of `from` arrived. The only error is allocation failure, and only if the
    /// transition sends something: an answer that leaves no majority doesn't allocate.
    #[tactic(auto, unfolding(wf_model::specs::Table::on_promise, wf_model::specs::Table::quiet, wf_model::specs::Table::is_new_response, wf_model::specs::VolatileState::same_phase))]
    pub fn on_promise(
        &self,
        alloc: Global,
        from: NodeId,
        ballot: Ballot,
        report: Report,
    ) -> Result<Next, StepRejection>
        ensures memory { AllocatesOnlyToSend
            (promise_transition self.now.nodes self.now.volatile from ballot report) result }
        ensures transition { Returns self.now.volatile
            (promise_transition self.now.nodes self.now.volatile from ballot report) result }
    {
        match &self.volatile.proposing {
            Proposing::Running(proposal, phase) => match phase {
                Phase::Preparing(best) => {
                    proposal.on_promise(alloc, self.nodes, best, from, ballot, report)
                }
                Phase::Accepting => ignore(alloc, report),
            },
            _ => ignore(alloc, report),
        }
    }

    /// An Accepted of `from` arrived. The only error is allocation failure, and only if the
    /// transition sends something: an answer that leaves no majority doesn't allocate.
    #[tactic(auto, unfolding(wf_model::specs::Table::on_accepted, wf_model::specs::Table::quiet, wf_model::specs::Table::is_new_response, wf_model::specs::VolatileState::same_phase))]
    pub fn on_accepted(
        &self,
        alloc: Global,
        from: NodeId,
        slot: Slot,
        ballot: Ballot,
    ) -> Result<Next, StepRejection>
        ensures memory { AllocatesOnlyToSend
            (accepted_transition self.now.nodes self.now.volatile from slot ballot) result }
        ensures transition { Returns self.now.volatile
            (accepted_transition self.now.nodes self.now.volatile from slot ballot) result }
    {
        match &self.volatile.proposing {
            Proposing::Running(proposal, phase) => match phase {
                Phase::Preparing(_) => Ok(Next::quiet(alloc, Change::Nothing)),
                Phase::Accepting => {
                    let leadership = &self.volatile.leadership;
                    proposal.on_accepted(alloc, self.nodes, leadership, from, slot, ballot)
                }
            },
            _ => Ok(Next::quiet(alloc, Change::Nothing)),
        }
    }

    /// A Nack with the promise `promised` arrived. Never rejected; doesn't allocate.
    #[tactic(auto, unfolding(wf_model::specs::Table::on_nack, wf_model::specs::Table::quiet))]
    pub fn on_nack(&self, alloc: Global, slot: Slot, ballot: Ballot, promised: Ballot) -> Next
        ensures { transition_of self.now result ≡
            table.on_nack (volatile_of self.now) slot ballot promised }
    {
        match &self.volatile.proposing {
            Proposing::Running(proposal, _) => proposal.on_nack(alloc, slot, ballot, promised),
            _ => Next::quiet(alloc, Change::Nothing),
        }
    }

    /// Makes the volatile state of `next` the node's, and returns the record, which is stored by
    /// now, and the messages to send. Doesn't allocate.
    pub fn commit(&mut self, next: Next) -> (Option<Record>, Vec<Message>)
        ensures volatile { volatile_of self.new ≡ (transition_of self.old next).volatile }
        ensures node { self.new.node ≡ self.old.node }
        ensures nodes { self.new.nodes ≡ self.old.nodes }
        ensures entry { result.0 ≡ next.entry }
        ensures messages { result.1.items ≡ next.messages }
    {
        let (entry, messages, change) = next.into_parts();
        self.volatile.make(change);
        (entry, messages)
    }

    /// The definition is published at the slot: a running proposal for the slot ends, and a
    /// leadership stays. Doesn't allocate.
    #[tactic(auto, unfolding(wf_model::specs::Table::after_publishing, wf_model::specs::Table::ends))]
    pub fn on_published(&mut self, slot: Slot, canon: &Canon)
        ensures volatile { volatile_of self.new ≡ (if runs_for slot (volatile_of self.old).proposing
            then table.after_publishing definition_eq (volatile_of self.old) canon.now
            else volatile_of self.old) }
        ensures node { self.new.node ≡ self.old.node }
        ensures nodes { self.new.nodes ≡ self.old.nodes }
    {
        if let Proposing::Running(proposal, _) = &self.volatile.proposing
            && proposal.is_for(slot)
        {
            let ended = proposal.end_with(canon);
            self.volatile.proposes(ended);
        }
    }
}

/// The next slot.
fn slot_after(published: Seq) -> Slot
    requires { published < last_sequence }
    ensures { result ≡ published + 1 }
{
    Slot::new(published.number() + 1).unwrap()
}

/// RoundsFull if this round is the last one.
#[tactic(auto, unfolding(wf_model::specs::Table::rounds_full))]
fn rounds_step_rejection(round: u32) -> Option<StepRejection>
    ensures { IsWhyStepRejected (table.rounds_full round) result }
{
    if round == ROUNDS {
        Some(StepRejection::RoundsFull)
    } else {
        None
    }
}
