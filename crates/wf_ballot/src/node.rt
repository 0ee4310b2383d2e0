ghost use Rattle.std.specs.Prelude.{◌≡◌, ◌↔◌, ℕ, Some, IsSome, IfSome};
ghost use Rattle.std.specs.Fmt.{decimal};
ghost use Rattle.wf_ballot.specs.Node.{IsNode, node_bytes};

use std::fmt;
use std::marker::Model;

/// The most nodes that a farm has.
pub const NODES: u8 = 64;

/// A node of the farm, by its number, 0 to 63.
#[derive(Clone, Copy, Debug, PartialEq, Eq, PartialOrd, Ord, Hash)]
pub struct NodeId {
    number: u8,
}

impl Model for NodeId {
    ghost use Rattle.std.specs.Prelude.{ℕ};
    ghost use Rattle.wf_ballot.specs.Node.{IsNode};

    ghost Value = { ℕ };

    ghost view = { λ id. id.number };

    ghost invariant = { λ id. IsNode id.number };

    ghost inverse = { λ n. record { number = n } };
}

impl NodeId {
    /// The node of this number; None above 63.
    pub fn new(number: u8) -> Option<NodeId>
        ensures valid { IsSome result ↔ IsNode number }
        ensures value { IfSome result (λ id. id ≡ number) }
    {
        if number < NODES {
            Some(NodeId { number })
        } else {
            None
        }
    }

    /// The node's number.
    pub fn number(self) -> u8
        ensures value { result ≡ self }
        ensures in_range { IsNode result }
    {
        self.number
    }

    /// The node's bytes in messages and records: its number, 1 byte.
    pub fn bytes(self) -> [u8; 1]
        ensures { result ≡ node_bytes self }
    {
        [self.number]
    }

    /// The node with these bytes; None for any other bytes.
    pub fn from_bytes(bytes: &[u8]) -> Option<NodeId>
        ensures value { IfSome result (λ id. bytes.now ≡ node_bytes id) }
        ensures in_range { IfSome result IsNode }
        ensures each { (n : ℕ) → IsNode n → bytes.now ≡ node_bytes n → result ≡ Some n }
    {
        match bytes {
            [number] => NodeId::new(*number),
            _ => None,
        }
    }
}

impl fmt::Display for NodeId {
    ghost output = { λ id. Some (decimal id) };

    fn fmt<W: fmt::Write>(&self, f: &mut fmt::Formatter<W>) -> fmt::Result {
        let number = self.number;
        write!(f, "{number}")
    }
}
