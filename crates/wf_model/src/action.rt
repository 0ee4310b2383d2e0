/// What a crash within a step leaves.
#[derive(Clone, Copy, Debug, PartialEq, Eq)]
pub enum Kept {
    /// What was stored before the step.
    Before,
    /// What was stored after it.
    After,
}

/// A step of a node. `D` is the type of a definition, `M` that of a message or of its number.
#[derive(Clone, Copy, Drop)]
pub enum Action<D, M> {
    /// The node starts a proposal of the definition.
    Propose(D),
    /// The node restarts its running proposal.
    Retry,
    /// The node asks for the next definition.
    CatchUp,
    /// The message is delivered to the node.
    Deliver(M),
}
