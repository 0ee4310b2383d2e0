use crate::fault::NodeFault;
use crate::machine::Machine;
use std::marker::Model;
use wf_ballot::{Ballot, NodeId, Seq, Slot};
use wf_codec::Canon;
use wf_def::MapDef;
use wf_learner::History;
use wf_proposer::ProposalState;
use wf_tape::{MemoryTape, Tape};

/// One node of the farm: its durable state, which is on its tape, and its proposal and leadership.
/// Model: the parts of wf_model. Unless the node is halted, every image of a durable tape stands
/// for the durable state.
#[derive(Drop)]
pub struct Node<T: Tape> {
    pub(crate) machine: Machine<T>,
}

impl<T: Tape> Model for Node<T> {
    ghost use Rattle.std.specs.Coded.{codes};
    ghost use Rattle.std.specs.FinMap as map;
    ghost use Rattle.wf_node.specs.Node.{Node, IsSoundNode, view_of};

    ghost Value = { Node T };

    ghost coded = { Prim.hlevel (codes, map.code) };

    ghost view = { λ node. view_of node.machine.journal node.machine.persistent.parts node.machine.proposer };

    ghost invariant = { λ node. IsSoundNode T.Tape node.machine.journal node.machine.persistent node.machine.proposer };
}

impl<T: Tape> Node<T> {
    ghost use Rattle.std.specs.Prelude.{◌≡◌, true, false, length, if◌then◌else◌, IfSome, IsTrue, Some};
    ghost use Rattle.std.specs.Option.{option_copied};
    ghost use Rattle.wf_ballot.specs.Sequence.{IsSequence};
    ghost use Rattle.wf_def.specs.Limits.{IsWithinLimits};
    ghost use Rattle.wf_learner.specs.History.{map_at};
    ghost use Rattle.wf_node.specs.Fault.{IsWhyNot};
    ghost use Rattle.wf_codec.specs.Message.{view_vote};
    ghost use Rattle.wf_model.specs.Table.{store};
    ghost use Rattle.wf_node.specs.Node.{stored_of, volatile_of, IsOnTape};
    ghost use Rattle.wf_node.specs.Reopening.{HasStoredAs};
    ghost use Rattle.wf_node.specs.Step.{proposal_step_rejection, retry_step_rejection};
    ghost use Rattle.wf_proposer.specs.ProposalState.{proposal_state_of, is_preempted};
    ghost use Rattle.wf_proposer.specs.declared.proposal_state.ProposalState.TheVariants.{None};
    ghost use Rattle.wf_journal.specs.Journal.{IsSettled};

    /// The node's number.
    pub fn id(&self) -> NodeId
        ensures { result ≡ self.now.id }
    {
        self.machine.proposer.id()
    }

    /// The number of nodes.
    pub fn n(&self) -> u8
        ensures { result ≡ self.now.n }
    {
        self.machine.proposer.nodes()
    }

    /// The node's tape. Unless the node is halted, a durable one holds only whole records, all of
    /// them synced, and stands for what the node has stored.
    pub fn tape(&self) -> &T
        ensures value { result.now ≡ self.now.tape }
        ensures settled { T.durable → self.now.halted ≡ false →
            IsSettled (T.content self.now.tape) (T.images self.now.tape) }
        ensures stands { T.durable → self.now.halted ≡ false → IsOnTape T.Tape self.now }
    {
        self.machine.journal.tape()
    }

    /// The last published sequence, 0 if there is none. On a halted node: that of before the failed
    /// step.
    pub fn published(&self) -> Seq
        ensures value { result ≡ length self.now.parts.history }
        ensures in_range { IsSequence result }
    {
        self.machine.persistent.history().published()
    }

    /// The published definitions.
    pub fn history(&self) -> &History
        ensures { result.now.definitions ≡ self.now.parts.history }
    {
        self.machine.persistent.history()
    }

    /// The map of a sequence, the empty one for 0; None above the published ones.
    pub fn definition(&self, seq: Seq) -> Option<&MapDef>
        ensures value { option_copied result ≡ map_at self.now.parts.history seq }
        ensures within { IfSome result (λ map. IsWithinLimits map.now) }
    {
        self.machine.persistent.history().get(seq)
    }

    /// The last round that the node tried, 0 before the first. On a halted node: that of before the
    /// failed step.
    pub fn last_round(&self) -> u32
        ensures { result ≡ self.now.parts.tried }
    {
        self.machine.persistent.last_round()
    }

    /// The node's promise, which is one for all sequences. On a halted node: that of before the
    /// failed step.
    pub fn promise(&self) -> Option<Ballot>
        ensures { result ≡ self.now.parts.promise }
    {
        self.machine.persistent.promise()
    }

    /// The node's vote at a slot that isn't published: its ballot and its definition. On a halted
    /// node: that of before the failed step.
    pub fn vote_at(&self, slot: Slot) -> Option<&(Ballot, Canon)>
        ensures { view_vote (option_copied result) ≡ (stored_of self.now).votes slot }
    {
        self.machine.persistent.vote_at(slot)
    }

    /// Whether this node has stored what the other one had, or that and the record of the step
    /// within which the other one's tape failed: of two nodes on what one tape left, whether this
    /// one may go on for the other. It compares the last round, the promise, the votes and the
    /// texts of the published definitions. Doesn't allocate, changes nothing.
    pub fn has_stored_as(&self, other: &Node<T>) -> bool
        ensures { IsTrue result → HasStoredAs other.now self.now }
    {
        self.has_same(other) || self.has_one_more(other)
    }

    /// Whether this node has stored what the other one had.
    fn has_same(&self, other: &Node<T>) -> bool
        ensures { IsTrue result → stored_of self.now ≡ stored_of other.now }
    {
        self.machine.persistent.is_same(&other.machine.persistent)
    }

    /// Whether this node has stored what the other one had, and the record that the other one
    /// keeps.
    fn has_one_more(&self, other: &Node<T>) -> bool
        ensures { IsTrue result →
            stored_of self.now ≡ store (stored_of other.now) other.now.failed }
    {
        match other.machine.journal.failed() {
            Some(entry) => self
                .machine
                .persistent
                .is_after(&other.machine.persistent, entry),
            None => false,
        }
    }

    /// Why a proposal would be rejected now: N5 if the node is halted, else the error of the step.
    /// None if it would begin. Doesn't allocate, changes nothing.
    pub fn proposal_step_rejection(&self) -> Option<NodeFault>
        ensures halted { self.now.halted ≡ true → result ≡ Some NodeFault.Halted }
        ensures step_rejection { self.now.halted ≡ false →
            IsWhyNot (proposal_step_rejection self.now) result }
    {
        if self.machine.journal.is_halted() {
            return Some(NodeFault::Halted);
        }
        self.machine.proposal_step_rejection()
    }

    /// Why a retry would be rejected now: N5 if the node is halted, else the error of the step.
    /// None if it would begin. Doesn't allocate, changes nothing.
    pub fn retry_step_rejection(&self) -> Option<NodeFault>
        ensures halted { self.now.halted ≡ true → result ≡ Some NodeFault.Halted }
        ensures step_rejection { self.now.halted ≡ false →
            IsWhyNot (retry_step_rejection self.now) result }
    {
        if self.machine.journal.is_halted() {
            return Some(NodeFault::Halted);
        }
        self.machine.retry_step_rejection()
    }

    /// The state of the node's proposal: None on a halted node.
    pub fn proposal(&self) -> ProposalState
        ensures { result ≡ (if self.now.halted then ProposalState.None
            else proposal_state_of (volatile_of self.now).proposing) }
    {
        if self.machine.journal.is_halted() {
            ProposalState::None
        } else {
            self.machine.proposer.proposal()
        }
    }

    /// Whether a Nack has told the running proposal of a promise of its round or a higher one:
    /// until a retry it can't win. False on a halted node.
    pub fn is_preempted(&self) -> bool
        ensures { result ≡ (if self.now.halted then false
            else is_preempted (volatile_of self.now).proposing) }
    {
        !self.machine.journal.is_halted() && self.machine.proposer.is_preempted()
    }
}

impl Node<MemoryTape> {
    ghost use Rattle.std.specs.Prelude.{◌≡◌};
    ghost use Rattle.wf_tape.specs.MemoryTape.{with_fuse};

    /// Sets a failure of the tape (`MemoryTape::set_fuse`), and changes nothing else.
    pub fn set_fuse(&mut self, call: usize, kept: usize)
        ensures { self.new ≡ record self.old { tape = with_fuse call kept self.old.tape } }
    {
        self.machine.journal.set_fuse(call, kept);
    }
}
