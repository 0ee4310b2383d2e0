//! A node with the pictures of its maps that are cached.

ghost use Rattle.std.specs.Prelude.{◌≡◌, List};
ghost use Rattle.wf_def.specs.Definition.{Definition};
ghost use Rattle.wf_edge.specs.StepResult.{IsStepResult};
ghost use Rattle.wf_edge.specs.Receipt.{CountsReceiving};
ghost use Rattle.wf_edge.specs.Completion.{CountsCompleting};
ghost use Rattle.wf_edge.specs.RequestEffect.{IsEnding, IsOutcome, MovesOnce};
ghost use Rattle.wf_edge.specs.Request.{TakesRequest};
ghost use Rattle.wf_node.specs.Input.{view};
ghost use Rattle.wf_wms.specs.CachedPictures.{AllCached};

use std::alloc::Global;
use std::marker::Model;
use wf_codec::Message;
use wf_edge::{Served, serve_one_cached};
use wf_node::{Input, Node, NodeFault};
use wf_stream::{Sink, Source};
use wf_tape::Tape;
use wf_wms::Cache;

/// A node with the pictures of its maps that are cached. Model: the node.
#[derive(Drop)]
pub struct CachedNode<T: Tape> {
    node: Node<T>,
    cache: Cache,
}

impl<T: Tape> Model for CachedNode<T> {
    ghost use Rattle.std.specs.Coded.{codes};
    ghost use Rattle.std.specs.FinMap as map;
    ghost use Rattle.wf_node.specs.Node.{Node};
    ghost use Rattle.wf_wms.specs.CachedPictures.{AllCached};

    ghost Value = { Node T };

    ghost coded = { Prim.hlevel (codes, map.code) };

    ghost view = { λ c. c.node };

    ghost invariant = { λ c. AllCached c.node.parts.history c.cache };
}

impl<T: Tape> CachedNode<T> {
    /// The node with an empty cache.
    pub(crate) fn new(node: Node<T>, cache: Cache) -> CachedNode<T>
        requires { (history : List Definition) → AllCached history cache }
        ensures { result ≡ node }
    {
        CachedNode { node, cache }
    }

    /// The node.
    pub(crate) fn get(&self) -> &Node<T>
        ensures { result.now ≡ self.now }
    {
        &self.node
    }

    /// The pictures that are cached: those of the node's maps.
    pub(crate) fn cache(&self) -> &Cache
        ensures { AllCached self.now.parts.history result.now }
    {
        &self.cache
    }

    /// The node's step.
    #[tactic(auto, using(crate::proofs::Growth::still_kept))]
    pub(crate) fn step(&mut self, alloc: Global, input: Input) -> Result<Vec<Message>, NodeFault>
        ensures { IsStepResult T.Tape (view input) self.old result self.new }
    {
        step(alloc, &mut self.node, input)
    }

    /// Serves one request by the node, as [`serve_one_cached`] does.
    pub(crate) fn serve<S: Source, K: Sink>(
        &mut self,
        alloc: Global,
        source: &mut S,
        sink: &mut K,
    ) -> Served
        ensures outcome { IsOutcome T.Tape (S.left source.old) (K.written sink.old)
            (K.written sink.new) self.old result.messages self.new result.outcome }
        ensures moves { MovesOnce T.Tape self.old result.messages self.new }
        ensures takes { TakesRequest
            (S.piece source.old) (S.left source.old) (S.left source.new) }
        ensures reads { CountsReceiving result.outcome (S.failures source.old)
            (S.failures source.new) }
        ensures writes { CountsCompleting result.outcome (K.failures sink.old)
            (K.failures sink.new) }
        ensures last { IsEnding T.Tape K.Sink (S.left source.old) sink.old sink.new
            self.old result.messages self.new result.outcome }
    {
        serve_one_cached(alloc, source, sink, &mut self.node, &mut self.cache)
    }
}

/// The node's step.
fn step<T: Tape>(alloc: Global, node: &mut Node<T>, input: Input) -> Result<Vec<Message>, NodeFault>
    ensures { IsStepResult T.Tape (view input) node.old result node.new }
{
    node.step(alloc, input)
}
