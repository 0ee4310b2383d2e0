ghost use Rattle.std.specs.Prelude.{◌≡◌, ◌∷◌, []};
ghost use Rattle.wf_actor.specs.Life.{IsLife};
ghost use Rattle.wf_actor.specs.Sent.{AreGivenCome};
ghost use Rattle.wf_wire.specs.Post.{logged};

use crate::cached::CachedNode;
use crate::note::{note, report};
use std::alloc::Global;
use wf_ballot::NodeId;
use wf_codec::Message;
use wf_edge::Served;
use wf_journal::OpenFault;
use wf_mail::Receiver;
use wf_node::{Input, Node, NodeFault};
use wf_past::Past;
use wf_stream::{Sink, Source};
use wf_tape::Tape;
use wf_wms::Cache;

/// Where an input of a node comes from.
#[derive(Drop)]
pub enum Origin {
    /// The process: an action of its own, or a message that its own node returned.
    Own,
    /// A connection from that peer, with what had come on it by then, which only proofs read.
    Peer(NodeId, Past<Vec<u8>, Receiver>),
}

/// A node and its life since it was opened. A clause sees the node, and logs that only proofs read:
/// the tape from which it was opened, as the tape was then; the node as it was opened, and after
/// each call since; each message that it was given, with where that came from; and all messages
/// that it returned.
#[derive(Drop)]
pub struct Actor<T: Tape> {
    pub(crate) node: CachedNode<T>,
    pub(crate) read_from: Past<T, usize>,
    pub(crate) stood: Past<Node<T>, usize>,
    pub(crate) given: Past<Message, Origin>,
    pub(crate) emitted: Past<Vec<Message>, usize>,
    ghost lived: { ∥ IsLife T.Tape read_from.items stood.items given.items (logged emitted.items) node ∥₁ },
    ghost received: { ∥ AreGivenCome given.items ∥₁ },
}

impl<T: Tape> Actor<T> {
    ghost use Rattle.std.specs.Prelude.{◌++◌, ◌<◌, ◌≤◌, ◌≢◌, false, List, IfOk, IfErr};
    ghost use Rattle.wf_actor.specs.Life.{all_from, AreOwnAmong, IsOpenedFromLog};
    ghost use Rattle.wf_actor.specs.Sent.{AreCome};
    ghost use Rattle.wf_actor.specs.Start.{IsOpened};
    ghost use Rattle.wf_def.specs.Definition.{Definition};
    ghost use Rattle.wf_execution.specs.Run.{given_to};
    ghost use Rattle.wf_edge.specs.StepResult.{IsStepResult};
    ghost use Rattle.wf_edge.specs.Receipt.{CountsReceiving};
    ghost use Rattle.wf_edge.specs.Completion.{CountsCompleting};
    ghost use Rattle.wf_edge.specs.RequestEffect.{IsEnding, IsOutcome, MovesOnce};
    ghost use Rattle.wf_delivery.specs.Reachability.{outputs_by};
    ghost use Rattle.wf_edge.specs.Request.{TakesRequest};
    ghost use Rattle.wf_journal.specs.Journal.{Follows, ReadsSame, IsWhyFailed};
    ghost use Rattle.wf_model.specs.VolatileState.{at_start};
    ghost use Rattle.wf_node.specs.Input.{view};
    ghost use Rattle.wf_node.specs.Node.{stored_of, volatile_of};
    ghost use Rattle.wf_node.specs.OpenedNode.{IsRead, IsWhyBad};
    ghost use Rattle.wf_tape.specs.Change.{Stays};
    ghost use Rattle.wf_wms.specs.CachedPictures.{AllCached};

    /// Node `id` of `n` as its tape has it, as [`Node::open`] opens it. Nothing was given to it
    /// yet.
    pub(crate) fn open(
        alloc: Global,
        tape: T,
        id: NodeId,
        n: u8,
        cache: Cache,
    ) -> Result<Actor<T>, (T, OpenFault)>
        requires nodes { n ≤ 64 }
        requires member { id < n }
        requires cache { (history : List Definition) → AllCached history cache }
        ensures opened { IfOk result (λ actor. IsOpened T.Tape tape id n actor.node) }
        ensures read_from { IfOk result (λ actor. actor.read_from.items ≡ (tape, 0) ∷ []) }
        ensures stood { IfOk result (λ actor. actor.stood.items ≡ (actor.node, 0) ∷ []) }
        ensures given { IfOk result (λ actor. actor.given.items ≡ []) }
        ensures emitted { IfOk result (λ actor. logged actor.emitted.items ≡ []) }
        ensures unchanged { T.durable →
            IfErr result (λ e. e.1 ≢ OpenFault.TapeFailed → Stays T.Tape tape e.0) }
        ensures bad { T.durable → IfErr result (λ e. IsWhyBad e.1 (T.content tape)) }
        ensures failed { IfErr result (λ e. IsWhyFailed e.1 (T.failed tape) (T.failed e.0)) }
        ensures images { T.durable →
            IfErr result (λ e. Follows ReadsSame (T.images tape) (T.images e.0)) }
    {
        let read_from = Past::new().and(&tape, &0);
        match Node::open(alloc, tape, id, n) {
            Ok(node) => Ok(Actor::begin(node, read_from, cache)),
            Err(unopened) => {
                drop(cache);
                Err(unopened)
            }
        }
    }

    /// A node that was opened elsewhere, and has moved to its tape, as [`Node::move_to`] moves it.
    /// Nothing was given to it yet.
    pub(crate) fn of(node: Node<T>, cache: Cache) -> Actor<T>
        requires runs { node.halted ≡ false }
        requires idle { volatile_of node ≡ at_start }
        requires found { IsRead T.durable (T.content node.tape) (stored_of node) }
        requires cache { (history : List Definition) → AllCached history cache }
        ensures opened { IsOpened T.Tape node.tape node.id node.n result.node }
        ensures node { result.node ≡ node }
        ensures read_from { result.read_from.items ≡ (node.tape, 0) ∷ [] }
        ensures stood { result.stood.items ≡ (result.node, 0) ∷ [] }
        ensures given { result.given.items ≡ [] }
        ensures emitted { logged result.emitted.items ≡ [] }
    {
        let read_from = Past::new().and(node.tape(), &0);
        Actor::begin(node, read_from, cache)
    }

    /// The life of a node that was just opened, from the tape that the log has.
    fn begin(node: Node<T>, read_from: Past<T, usize>, cache: Cache) -> Actor<T>
        requires opened { IsOpenedFromLog T.Tape read_from.items node }
        requires cache { (history : List Definition) → AllCached history cache }
        ensures node { result.node ≡ node }
        ensures read_from { result.read_from.items ≡ read_from.items }
        ensures stood { result.stood.items ≡ (node, 0) ∷ [] }
        ensures given { result.given.items ≡ [] }
        ensures emitted { logged result.emitted.items ≡ [] }
    {
        let stood = Past::new().and(&node, &0);
        let given = Past::new();
        let emitted = Past::new();
        let node = CachedNode::new(node, cache);
        Actor {
            node,
            read_from,
            stood,
            given,
            emitted,
        }
    }

    /// A step of the node, whose messages are returned. A message that the input delivers comes
    /// from that origin.
    pub(crate) fn step(
        &mut self,
        alloc: Global,
        input: Input,
        origin: Origin,
    ) -> Result<Vec<Message>, NodeFault>
        requires own { ∥ AreOwnAmong (logged self.old.emitted.items) origin (given_to input) ∥₁ }
        requires come { ∥ AreCome origin (given_to input) ∥₁ }
        ensures answer { IsStepResult T.Tape (view input) self.old.node result self.new.node }
        ensures read_from { self.new.read_from.items ≡ self.old.read_from.items }
        ensures stood { self.new.stood.items ≡
            self.old.stood.items ++ (self.new.node, 0) ∷ [] }
        ensures given { self.new.given.items ≡
            self.old.given.items ++ all_from origin (given_to input) }
        ensures emitted { logged self.new.emitted.items ≡
            logged self.old.emitted.items ++ outputs_by result }
    {
        note(&mut self.given, &input, &origin);
        drop(origin);
        let answer = self.node.step(alloc, input);
        report(&mut self.emitted, &answer);
        self.stood = self.stood.and(self.node.get(), &0);
        answer
    }

    /// Serves one request by the node, as [`wf_edge::serve_one_cached`] does. A publish may be a
    /// step of the node; its messages are returned.
    pub(crate) fn serve<S: Source, K: Sink>(
        &mut self,
        alloc: Global,
        source: &mut S,
        sink: &mut K,
    ) -> Served
        ensures outcome { IsOutcome T.Tape (S.left source.old) (K.written sink.old)
            (K.written sink.new) self.old.node result.messages self.new.node result.outcome }
        ensures moves { MovesOnce T.Tape self.old.node result.messages self.new.node }
        ensures takes { TakesRequest
            (S.piece source.old) (S.left source.old) (S.left source.new) }
        ensures reads { CountsReceiving result.outcome
            (S.failures source.old) (S.failures source.new) }
        ensures writes { CountsCompleting result.outcome
            (K.failures sink.old) (K.failures sink.new) }
        ensures last { IsEnding T.Tape K.Sink (S.left source.old) sink.old sink.new
            self.old.node result.messages self.new.node result.outcome }
        ensures read_from { self.new.read_from.items ≡ self.old.read_from.items }
        ensures stood { self.new.stood.items ≡
            self.old.stood.items ++ (self.new.node, 0) ∷ [] }
        ensures given { self.new.given.items ≡ self.old.given.items }
        ensures emitted { logged self.new.emitted.items ≡
            logged self.old.emitted.items ++ result.messages.items }
    {
        let served = self.node.serve(alloc, source, sink);
        self.emitted = self.emitted.and(&served.messages, &0);
        self.stood = self.stood.and(self.node.get(), &0);
        served
    }

    /// Its life, always: and what was given to it from a peer came on a connection from that peer.
    /// The call does nothing.
    pub fn always_lived(&self)
        ensures lived { ∥ IsLife T.Tape self.now.read_from.items self.now.stood.items
            self.now.given.items (logged self.now.emitted.items) self.now.node ∥₁ }
        ensures received { ∥ AreGivenCome self.now.given.items ∥₁ }
    {
        let _ = &self.stood;
    }
}
