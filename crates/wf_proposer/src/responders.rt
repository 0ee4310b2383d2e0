ghost use Rattle.std.specs.Prelude.{◌≡◌, ◌<◌, ◌%◌, ◌^◌, ℕ, bit_and};
ghost use Rattle.wf_ballot.specs.Majority.{count_nodes};
ghost use Rattle.wf_model.specs.VolatileState.{and_node};
ghost use Rattle.wf_proposer.specs.Responders.{among, are_majority};

use std::marker::Model;
use wf_ballot::{NODES, NodeId, is_majority};

/// The nodes whose answers are counted: one bit for each of the 64 nodes that a farm may have, node
/// 0's the lowest. No call allocates.
#[derive(Clone, Copy)]
pub struct Responders {
    mask: u64,
}

impl Model for Responders {
    ghost use Rattle.std.specs.Prelude.{ℕ};

    ghost Value = { ℕ };

    ghost view = { λ h. h.mask };

    ghost inverse = { λ bits. record { mask = bits } };
}

impl Responders {
    /// No nodes.
    pub fn nobody() -> Responders
        ensures { result ≡ 0 }
    {
        Responders { mask: 0 }
    }

    /// Whether the node's answer is counted.
    #[tactic(auto, using(crate::proofs::ResponderSets::bit_is_read))]
    pub fn contains(self, node: NodeId) -> bool
        ensures { result ≡ among self node }
    {
        (self.mask >> node.number()) & 1 == 1
    }

    /// These nodes and this one. A node that is among them already isn't counted again.
    #[tactic(auto, using(crate::proofs::ResponderSets::bit_is_set))]
    pub fn with(self, node: NodeId) -> Responders
        ensures { among result ≡ and_node (among self) node }
    {
        Responders {
            mask: self.mask | (1 << node.number()),
        }
    }

    /// The number of nodes 0 to n - 1 whose answers are counted.
    pub fn count(self, n: u8) -> usize
        ensures { result ≡ count_nodes n (among self) }
    {
        (self.mask & first_nodes(n)).count_ones() as usize
    }

    /// Whether these are a majority of the nodes 0 to n - 1.
    pub fn is_majority(self, n: u8) -> bool
        ensures { result ≡ are_majority n self }
    {
        is_majority(self.count(n), n as usize)
    }
}

/// The bits of nodes 0 to n - 1: all 64 if n is more.
#[tactic(auto, using(crate::proofs::ResponderSets::shifted_one, crate::proofs::ResponderSets::low_bits, crate::proofs::ResponderSets::all_bits))]
fn first_nodes(n: u8) -> u64
    ensures { (mask : ℕ) → mask < 2 ^ 64 → bit_and mask result ≡ mask % 2 ^ n }
{
    if n < NODES { (1 << n) - 1 } else { u64::MAX }
}
