//! A node of a farm.
ghost use Rattle.std.specs.Prelude.{◌≡◌, ◌<◌, ◌≤◌};

use crate::words::read_node;
use std::marker::Model;
use wf_ballot::{NODES, NodeId};
use wf_test_table::{CaseWords, Unanswered};

/// A node's number, and how many nodes its farm has.
#[derive(Clone, Copy)]
pub struct Member {
    node: NodeId,
    nodes: u8,
}

impl Model for Member {
    ghost use Rattle.wf_test_calls.specs.Member.{MemberValue, IsFarmMember};

    ghost Value = { MemberValue };

    ghost view = { λ m. record { node = m.node; nodes = m.nodes } };

    ghost invariant = { λ m. IsFarmMember (record { node = m.node; nodes = m.nodes }) };

    ghost inverse = { λ v. record { node = v.node; nodes = v.nodes } };
}

impl Member {
    /// The node that `NODE of NODES` names, where the farm has it.
    pub fn parse(words: &mut CaseWords<'_>) -> Result<Member, Unanswered> {
        let node = read_node(words)?;
        if words.word() != "of" {
            return Err(Unanswered::BadWords);
        }
        let nodes = words.byte()?;
        if node.number() < nodes && nodes <= NODES {
            Ok(Member { node, nodes })
        } else {
            Err(Unanswered::BadWords)
        }
    }

    /// The node.
    pub fn node(self) -> NodeId
        ensures value { result ≡ self.node }
        ensures inside { self.node < self.nodes }
    {
        self.node
    }

    /// How many nodes the farm has.
    pub fn nodes(self) -> u8
        ensures value { result ≡ self.nodes }
        ensures most { self.nodes ≤ 64 }
    {
        self.nodes
    }
}
