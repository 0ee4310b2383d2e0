//! The state of a proposal, in words.
use crate::lines::write_field;
use wf_proposer::ProposalState;
use wf_test_table::Transcript;

/// Appends a line: the state of a proposal.
pub fn write_proposal_state(proposal_state: ProposalState, answer: &mut Transcript) {
    answer.text("standing: ");
    match proposal_state {
        ProposalState::None => answer.text("none"),
        ProposalState::Running => answer.text("running"),
        ProposalState::Published(slot) => write_field("published at slot ", slot, answer),
        ProposalState::Overtaken(slot) => write_field("overtaken at slot ", slot, answer),
    }
    answer.line("");
}
