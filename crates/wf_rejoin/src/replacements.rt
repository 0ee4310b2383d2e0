//! What a node knows of replacements.
use crate::agreement::Asked;
use crate::answer::Answer;
use crate::replacement::Replacement;
use std::marker::Model;
use wf_ballot::NodeId;

/// The latest replacement of each node that a farm may have, in the order of the nodes; none of one
/// that was never replaced.
#[derive(Clone, Copy, Debug, PartialEq, Eq)]
pub struct Replacements {
    pub(crate) nodes: [Option<Replacement>; 64],
}

impl Model for Replacements {
    ghost use Rattle.std.specs.Prelude.{List, Option};
    ghost use Rattle.wf_rejoin.specs.declared.replacement.Replacement.{Replacement};

    ghost Value = { List (Option Replacement) };

    ghost view = { λ known. known.nodes };

    ghost inverse = { λ nodes. record { nodes = nodes } };
}

impl Replacements {
    ghost use Rattle.std.specs.Prelude.{◌≡◌, ◌↔◌, ◌<◌, ◌≤◌, Some, None, IfSome, IsTrue, SomeIff, length, replicate, slice_set};
    ghost use Rattle.wf_rejoin.specs.Agreement.{AnswersJoiner};
    ghost use Rattle.wf_rejoin.specs.Replacements.{AreNoOlder, IsNewReplacement, known_count, latest_of};

    /// Nothing is known.
    pub fn new() -> Replacements
        ensures { result ≡ replicate 64 None }
    {
        Replacements { nodes: [None; 64] }
    }

    /// The replacements with this latest one of each node, in the order of the nodes.
    pub fn of(nodes: [Option<Replacement>; 64]) -> Replacements
        ensures { result ≡ nodes }
    {
        Replacements { nodes }
    }

    /// The latest replacement of each of 64 nodes, in their order; None of one of which none is
    /// known.
    pub fn nodes(&self) -> &[Option<Replacement>]
        ensures value { result.now ≡ self.now }
        ensures all { length result.now ≡ 64 }
    {
        &self.nodes
    }

    /// Of how many nodes a replacement is known.
    pub fn count(&self) -> usize
        ensures value { result ≡ known_count self.now }
        ensures most { result ≤ 64 }
    {
        self.nodes.iter().filter(|latest| latest.is_some()).count()
    }

    /// Whether no replacement is known.
    pub fn is_empty(&self) -> bool
        ensures { IsTrue result ↔ (known_count self.now ≡ 0) }
    {
        self.count() == 0
    }

    /// The latest replacement of a node that is known, if one is.
    pub fn latest(&self, node: NodeId) -> Option<Replacement>
        ensures { result ≡ latest_of self.now node }
    {
        match self.nodes.get(node.number() as usize) {
            Some(latest) => *latest,
            None => None,
        }
    }

    /// Once this is a node's latest replacement.
    pub(crate) fn with(&self, node: NodeId, replacement: Replacement) -> Replacements
        ensures { result ≡ slice_set self.now node (Some replacement) }
    {
        let mut nodes = self.nodes;
        nodes[node.number() as usize] = Some(replacement);
        Replacements { nodes }
    }

    /// Once a peer's greeting has said this of a node: the replacements that are known then, which
    /// are to be written before any connection goes on. None: it is nothing new, or the peer says
    /// it of itself, which nobody believes.
    pub fn learn(
        &self,
        peer: NodeId,
        node: NodeId,
        replacement: Replacement,
    ) -> Option<Replacements>
        ensures value { SomeIff result (IsNewReplacement self.now peer node replacement)
            (slice_set self.now node (Some replacement)) }
        ensures kept { IfSome result (AreNoOlder self.now) }
    {
        if peer != node && is_later(&self.latest(node), &replacement) {
            Some(self.with(node, replacement))
        } else {
            None
        }
    }

    /// Whether the node has agreed to this replacement, or was told of it: it takes no other folder
    /// for the node's. It may say so once this was written.
    pub fn has_agreed(&self, node: NodeId, replacement: &Replacement) -> bool
        ensures { IsTrue result ↔ (latest_of self.now node ≡ Some replacement.now) }
    {
        match self.latest(node) {
            Some(latest) => latest == *replacement,
            None => false,
        }
    }

    /// What an asked node answers to the folder of this replacement, once half of all nodes have
    /// agreed to it: how far it is now. None: it doesn't vote, or hasn't agreed to it.
    pub fn answer(
        &self,
        asked: &Asked,
        node: NodeId,
        replacement: &Replacement,
        now: Answer,
    ) -> Option<Answer>
        ensures { SomeIff result (AnswersJoiner self.now asked.now node replacement.now) now }
    {
        if asked.hindrance.is_none() && self.has_agreed(node, replacement) {
            Some(now)
        } else {
            None
        }
    }
}

ghost use Rattle.std.specs.Prelude.{◌↔◌, ◌<◌, IsTrue};
ghost use Rattle.wf_rejoin.specs.Replacements.{count_of};

/// Whether a replacement has a higher count than the one that is known.
fn is_later(known: &Option<Replacement>, replacement: &Replacement) -> bool
    ensures { IsTrue result ↔ (count_of known.now < replacement.now.count) }
{
    match known {
        Some(known) => known.count < replacement.count,
        None => 0 < replacement.count,
    }
}
