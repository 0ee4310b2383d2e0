ghost use Rattle.std.specs.Prelude.{◌≡◌, ◌↔◌, ◌≤◌, ◌+◌, Some, IsSome, IsNone, IfSome};
ghost use Rattle.wf_ballot.specs.Ballot.{OrderIsTotal};

use crate::node::NodeId;
use std::fmt;
use std::marker::Model;

/// The last round.
pub const ROUNDS: u32 = 4_294_967_295;

/// A ballot: one attempt of one node to have a definition chosen. Its round is 1 to 4,294,967,295.
/// Ballots are ordered by round, then by node.
#[derive(Clone, Copy, Debug, PartialEq, Eq, PartialOrd, Ord, Hash)]
pub struct Ballot {
    round: u32,
    node: NodeId,
}

impl Model for Ballot {
    ghost use Rattle.std.specs.Prelude.{◌≤◌};
    ghost use Rattle.wf_ballot.specs.Ballot.{Ballot};

    ghost Value = { Ballot };

    ghost view = { λ b. record { round = b.round; node = b.node } };

    ghost invariant = { λ b. 1 ≤ b.round };

    ghost inverse = { λ b. record { round = b.round; node = b.node } };
}

impl Ballot {
    ghost use Rattle.wf_ballot.specs.Ballot.{Ballot as BallotValue, below, last_round, IsBallot, ballot_bytes};

    /// The ballot of this round and node; None for round 0.
    pub fn new(round: u32, node: NodeId) -> Option<Ballot>
        ensures valid { IsSome result ↔ (1 ≤ round) }
        ensures value { IfSome result (λ b. b ≡ record { round = round; node = node }) }
    {
        if round >= 1 {
            Some(Ballot { round, node })
        } else {
            None
        }
    }

    /// The node's ballot in the round after `round`; None after the last round.
    pub fn next(round: u32, node: NodeId) -> Option<Ballot>
        ensures last { IsNone result ↔ (round ≡ last_round) }
        ensures value { IfSome result (λ b. b ≡ record { round = round + 1; node = node }) }
    {
        let round = round.checked_add(1)?;
        Ballot::new(round, node)
    }

    /// The round, counted from 1.
    pub fn round(self) -> u32
        ensures value { result ≡ self.round }
        ensures in_range { IsBallot self }
    {
        // its contract has the range of the node
        let _ = self.node.number();
        self.round
    }

    /// The node whose attempt this is.
    pub fn node(self) -> NodeId
        ensures value { result ≡ self.node }
        ensures in_range { IsBallot self }
    {
        // its contract has the range of the node
        let _ = self.node.number();
        self.node
    }

    /// Whether this ballot is lower than the other, by round, then by node. Returns what `<`
    /// returns.
    #[tactic(auto, unfolding(crate::specs::Ballot::below))]
    pub fn is_below(self, other: Ballot) -> bool
        ensures { result ≡ below self other }
    {
        self < other
    }

    /// The ballot's bytes in messages and records: its round, 4 bytes, big-endian, then its node, 1
    /// byte.
    #[tactic(auto, unfolding(crate::specs::Ballot::ballot_bytes, crate::specs::Ballot::round_bytes))]
    pub fn bytes(self) -> [u8; 5]
        ensures { result ≡ ballot_bytes self }
    {
        let [a, b, c, d] = self.round.to_be_bytes();
        let [node] = self.node.bytes();
        [a, b, c, d, node]
    }

    /// The ballot with these bytes; None for any other bytes.
    #[tactic(auto, unfolding(crate::specs::Ballot::ballot_bytes, crate::specs::Ballot::round_bytes))]
    pub fn from_bytes(bytes: &[u8]) -> Option<Ballot>
        ensures value { IfSome result (λ b. bytes.now ≡ ballot_bytes b) }
        ensures in_range { IfSome result IsBallot }
        ensures each { (b : BallotValue) → IsBallot b →
            bytes.now ≡ ballot_bytes b → result ≡ Some b }
    {
        match bytes {
            [a, b, c, d, node] => {
                let round = u32::from_be_bytes([*a, *b, *c, *d]);
                let node = NodeId::new(*node)?;
                Ballot::new(round, node)
            }
            _ => None,
        }
    }
}

impl fmt::Display for Ballot {
    ghost use Rattle.wf_ballot.specs.Ballot.{ballot_text};

    ghost output = { λ b. Some (ballot_text b) };

    fn fmt<W: fmt::Write>(&self, f: &mut fmt::Formatter<W>) -> fmt::Result {
        let round = self.round;
        let node = self.node;
        write!(f, "({round}, {node})")
    }
}

/// The order of ballots is total: of two ballots one is below the other, or they are equal. A
/// theorem about the definitions: the call does nothing.
pub fn order_is_total()
    ensures { OrderIsTotal }
{}
