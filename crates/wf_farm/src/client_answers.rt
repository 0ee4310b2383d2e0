//! The answers of a farm's nodes to clients.

ghost use Rattle.std.specs.Prelude.{slice_get, IfOk, IfErr};
ghost use Rattle.wf_farm.specs.ClientAnswers.{NodeAnswers, HasOneAnswer, HasOneMapAnswer, IsNoAnswer, sequence_at};
ghost use Rattle.wf_farm.specs.Farm.{running_in};

use crate::farm::Farm;
use crate::fault::FarmFault;
use std::alloc::Global;
use wf_tape::MemoryTape;
use wf_wms::Answer;

impl Farm<MemoryTape> {
    /// Returns the answer of node `number` to the query of a web map service request (OGC 06-042),
    /// at the last sequence that the node published. Err: F2 iff no such node runs; F1 with 0 if an
    /// allocation fails.
    #[tactic(auto, using(crate::proofs::Answered::none_runs, crate::proofs::Answered::memory_wanted))]
    pub fn answer(&self, alloc: Global, number: usize, query: &[u8]) -> Result<Answer, FarmFault>
        ensures answer { IfOk result (λ answer.
            NodeAnswers self.now number (sequence_at self.now number) query.now answer) }
        ensures fault { IfErr result (IsNoAnswer (running_in (slice_get self.now.hosts number))) }
    {
        let Some(node) = self.node(number) else {
            return Err(FarmFault::NoNode);
        };
        let history = node.history();
        match wf_wms::answer(alloc, history.published().number(), history, query) {
            Ok(answer) => Ok(answer),
            Err(_) => Err(FarmFault::Memory(0)),
        }
    }

    /// The headline's second half, for the farm that the caller holds: whatever happened to it, two
    /// of its nodes with the same last published sequence answer the same query with the same
    /// bytes, the same kind and the same media type. So do two nodes asked for the same map (OGC
    /// 06-042, 7.3), whatever their last published sequences.
    #[tactic(auto, using(crate::proofs::Answered::one_answer, crate::proofs::Answered::one_map_answer))]
    pub fn answers_agree(&self)
        ensures proposal_state { HasOneAnswer self.now }
        ensures map { HasOneMapAnswer self.now }
    {
        self.agree();
        wf_wms::each_query_has_one_answer();
    }
}
