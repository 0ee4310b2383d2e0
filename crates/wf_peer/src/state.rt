/// What a node does now.
#[derive(Clone, Copy, Debug, PartialEq, Eq)]
pub enum NodeState {
    /// It votes and serves clients.
    Serves,
    /// Its tape has failed, or what it hears of peers can't be written.
    Halted,
    /// A peer remembers more of it than it has.
    Suspended,
    /// Its folder is new, in the place of a lost one: it doesn't vote yet.
    Joins,
    /// A peer has another history, and no majority agrees with its own: it only answers who asks
    /// for what is published.
    Outvoted,
}

impl NodeState {
    ghost use Rattle.std.specs.Prelude.{◌≡◌, Some, IfSome};
    ghost use Rattle.wf_peer.specs.Greeting.{state_byte};
    ghost use Rattle.wf_peer.specs.declared.state.NodeState.{NodeState as StateValue};

    /// The byte by which peers are told.
    pub fn byte(self) -> u8
        ensures { result ≡ state_byte self }
    {
        match self {
            NodeState::Serves => 1,
            NodeState::Halted => 2,
            NodeState::Suspended => 3,
            NodeState::Joins => 4,
            NodeState::Outvoted => 5,
        }
    }

    /// The state with this byte; None if there is none.
    pub fn of_byte(byte: u8) -> Option<NodeState>
        ensures value { IfSome result (λ state. byte ≡ state_byte state) }
        ensures each { (state : StateValue) → byte ≡ state_byte state → result ≡ Some state }
    {
        match byte {
            1 => Some(NodeState::Serves),
            2 => Some(NodeState::Halted),
            3 => Some(NodeState::Suspended),
            4 => Some(NodeState::Joins),
            5 => Some(NodeState::Outvoted),
            _ => None,
        }
    }
}
