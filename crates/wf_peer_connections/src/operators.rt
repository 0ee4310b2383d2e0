//! The operators of a node, who ask what it tells.
ghost use Rattle.std.specs.Prelude.{◌≡◌};
ghost use Rattle.wf_readers_port.specs.ReadersPort.{exchanges_of};

use crate::facts::NodeFacts;
use crate::order::Order;
use crate::peer_connections::PeerConnections;
use crate::question::Standing;
use std::rt::Files;
use std::time::Clock;
use wf_learner::History;
use wf_membership::{Membership, Tally};
use wf_operator::{Operator, PictureCounts};
use wf_peer::NodeState;
use wf_ports::Desk;
use wf_proposer::ProposalState;
use wf_sockets::Network;
use wf_visitors::{Context, Counts};

/// What the node and its clients tell an operator.
#[derive(Drop)]
pub struct NodeView<'a> {
    pub history: &'a History,
    /// What it does now, as its peers are told.
    pub state: NodeState,
    pub membership: Membership,
    pub is_halted: bool,
    pub is_outvoted: bool,
    pub proposal: ProposalState,
    pub requests: &'a Counts,
    pub rejected: &'a Tally,
    pub pictures: PictureCounts,
    /// The pictures for which there was no place.
    pub unkept: u64,
    /// The clients that are there.
    pub clients: usize,
}

impl<N: Network> PeerConnections<N> {
    /// Answers operators with what is known. What their questions have left to write is noted.
    pub fn answer_operators<R: Files + Clock + Eprint + AllocGlobal>(
        &mut self,
        context: &Context<'_, '_, R, N>,
        desk: &mut Desk<N>,
        view: &NodeView<'_>,
        is_behind: bool,
    )
        ensures { exchanges_of desk.new.readers ≡ exchanges_of desk.old.readers }
    {
        let order = self.serve_facts(context, desk, view, is_behind);
        if order.is_some() {
            self.order = order;
        }
    }

    /// What the node answers by where an operator asks it about a replacement.
    fn standing(&self, view: &NodeView<'_>) -> Standing
        ensures began { result.began_with ≡ view.now.membership.replacements }
        ensures learned { result.learned ≡ self.now.learned }
    {
        Standing {
            may_replace: self.plan.may_replace,
            mark: self.plan.start.mark,
            state: view.state,
            began_with: view.membership.replacements,
            learned: self.learned,
            joining: self.plan.joining,
        }
    }

    /// Answers operators with what is known. Returns what their questions have left to write, if
    /// anything.
    fn serve_facts<R: Files + Clock + Eprint + AllocGlobal>(
        &self,
        context: &Context<'_, '_, R, N>,
        desk: &mut Desk<N>,
        view: &NodeView<'_>,
        is_behind: bool,
    ) -> Option<Order>
        ensures { exchanges_of desk.new.readers ≡ exchanges_of desk.old.readers }
    {
        let history = view.history;
        let facts = NodeFacts {
            rt: context.rt,
            started: desk.started,
            history,
            table: &self.table,
            peers: self.states.as_slice(),
            requests: view.requests,
            rejected: view.rejected,
            pictures: view.pictures,
            unkept: view.unkept,
            steps: self.steps,
            tape: self.plan.tape.as_str(),
            is_halted: view.is_halted,
            proposal: view.proposal,
            differs: self.differing(),
            is_outvoted: view.is_outvoted,
            suspension: self.suspension,
            is_unwritten: self.unwritten.is_some(),
            hears_majority: self.hears_majority(context.time),
            reader_differs: desk.readers.differs(context.time),
            latest: self.latest().max(history.published().number()),
            is_behind,
            clients: view.clients,
            readers: desk.readers.reader_count(),
            node: self.plan.own.node,
            since: self.since,
            time: context.time,
            standing: self.standing(view),
            order: None,
        };
        let mut operator = Operator::new(facts);
        desk.answer_operators(context, &mut operator);
        operator.operated().order
    }
}
