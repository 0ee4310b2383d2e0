//! The proposer of a node: at most one proposal, from its first message until a definition is
//! published, and a leadership, under which a proposal begins by asking for votes.
//!
//! Model: a `Proposer` is its node, the farm's number of nodes and its volatile state;
//! `volatile_of` (`specs/Proposer.antt`) maps that to wf_model's, with the mask of the nodes whose
//! answers are counted as a set. A proposal that asks for votes holds no reported votes of its own:
//! in the model they are those of the leadership, from its sequence on. A `Next` is the record to
//! store, if there is one, the messages to send and the change of the volatile state;
//! `transition_of` maps it to a transition of wf_model's step table.
//!
//! Promises: each call returns the step table's transition, as a function of the volatile state and
//! the input, and rejects exactly if the table does, or if allocation fails. A call that returns a
//! `Next` changes nothing until `commit` makes its volatile state the node's; `commit` doesn't
//! allocate. Nor does a Nack, or an answer that leaves no majority, whether it is counted or not.
//!
//! Not here: the stored state. The caller passes the tried round and the published sequence, stores
//! a `Next`'s record before it commits, and sends the messages after that.
#![tactic(auto)]

mod change;
mod next;
mod proposal;
mod proposal_state;
mod proposer;
mod responders;
mod step_rejection;
mod volatile;

pub use next::Next;
pub use proposal_state::ProposalState;
pub use proposer::Proposer;
pub use step_rejection::StepRejection;
