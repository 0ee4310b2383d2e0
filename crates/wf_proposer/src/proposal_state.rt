use wf_ballot::Slot;

/// The state of a node's proposal.
#[derive(Clone, Copy, Debug, PartialEq, Eq)]
pub enum ProposalState {
    /// No proposal since the node started.
    None,
    /// A proposal is running.
    Running,
    /// The last proposal ended: its own definition is the one published at the slot.
    Published(Slot),
    /// The last proposal ended: another's definition is published at the slot.
    Overtaken(Slot),
}
