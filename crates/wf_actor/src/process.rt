ghost use Rattle.std.specs.Prelude.{◌≡◌, ◌<◌, ◌≤◌, length};
ghost use Rattle.wf_wire.specs.Post.{logged};
ghost use Rattle.wf_delivery.specs.NodeInput.{reports_halt};
ghost use Rattle.wf_actor.specs.Sent.{AreGivenCome, AreSent};

use crate::actor::{Actor, Origin};
use crate::backlog::Backlog;
use crate::parts::{ProcessParts, make_room, post};
use crate::reopening::ReopenFault;
use std::alloc::{AllocError, Global};
use wf_ballot::NodeId;
use wf_codec::{Canon, Message};
use wf_journal::OpenFault;
use wf_node::{Input, Node, NodeFault};
use wf_past::Past;
use wf_tape::Tape;
use wf_wire::{PeerMessage, Post, Target, reply_target};
use wf_wms::Cache;

/// One node of a farm in a process of its own. A clause sees its actor, its own messages that wait
/// for it, the posts that wait to be given to those that they are for, and a log that only proofs
/// read: the runs that have ended.
#[derive(Drop)]
pub struct Process<T: Tape> {
    pub(crate) actor: Actor<T>,
    pub(crate) n: u8,
    pub(crate) backlog: Backlog<Message>,
    pub(crate) posts: Backlog<Post>,
    pub(crate) pictures: usize,
    pub(crate) ended: Past<Actor<T>, usize>,
    ghost most: { n ≤ 64 },
    ghost some_pictures: { 1 ≤ pictures },
    ghost most_pictures: { pictures ≤ 64 },
    ghost among: { actor.node.n ≡ n },
    ghost member: { actor.node.id < n },
    ghost sent: { ∥ AreSent backlog.messages.items posts.messages.items (logged actor.emitted.items) ∥₁ },
}

impl<T: Tape> Process<T> {
    ghost use Rattle.std.specs.Prelude.{◌≢◌, ◌++◌, ◌∷◌, [], List, None, IfErr, IfOk, IfSome};
    ghost use Rattle.wf_actor.specs.Start.{IsOpened};
    ghost use Rattle.wf_actor.specs.Process.{posts_in, waiting_in, ReceivesOwn, IsActed, IsFirstGiven, IsJustOpened, IsReceived, IsOwnPopped};
    ghost use Rattle.wf_actor.specs.Life.{AreOwnAmong, IsLife};
    ghost use Rattle.wf_actor.specs.Sent.{AreCome};
    ghost use Rattle.wf_wire.specs.declared.target.Target.TheVariants as target;
    ghost use Rattle.wf_actor.specs.declared.actor.Origin.TheVariants as origin;
    ghost use Rattle.wf_execution.specs.Run.{given_to};
    ghost use Rattle.wf_codec.specs.declared.message.Message.TheVariants as message;
    ghost use Rattle.wf_journal.specs.Journal.{Follows, ReadsSame, IsWhyFailed};
    ghost use Rattle.wf_model.specs.Chosen.{IsIn};
    ghost use Rattle.wf_model.specs.declared.action.Action.TheVariants as action;
    ghost use Rattle.wf_node.specs.OpenedNode.{IsWhyBad};
    ghost use Rattle.wf_node.specs.Node.{volatile_of};
    ghost use Rattle.wf_tape.specs.Change.{Stays};
    ghost use Rattle.wf_wire.specs.declared.post.Post as posting;
    ghost use Rattle.wf_wms.specs.CachedPictures.{AllCached};

    /// Node `id` of `n` on its tape, with a cache for `pictures` pictures. Nothing waits. An error
    /// returns the tape: those of [`Node::open`], and P3 also if there is no memory for the
    /// process, before the tape is read.
    pub fn open(
        alloc: Global,
        tape: T,
        id: NodeId,
        n: u8,
        pictures: usize,
    ) -> Result<Process<T>, (T, OpenFault)>
        requires nodes { n ≤ 64 }
        requires member { id < n }
        requires least { 1 ≤ pictures }
        requires most { pictures ≤ 64 }
        ensures opened { IfOk result (λ process. IsOpened T.Tape tape id n process.actor.node) }
        ensures read_from { IfOk result (λ process.
            process.actor.read_from.items ≡ (tape, 0) ∷ []) }
        ensures begun { IfOk result (λ process. IsJustOpened process) }
        ensures n { IfOk result (λ process. process.n ≡ n) }
        ensures ended { IfOk result (λ process. process.ended.items ≡ []) }
        ensures unchanged { T.durable →
            IfErr result (λ e. e.1 ≢ OpenFault.TapeFailed → Stays T.Tape tape e.0) }
        ensures bad { T.durable → IfErr result (λ e. IsWhyBad e.1 (T.content tape)) }
        ensures failed { IfErr result (λ e. IsWhyFailed e.1 (T.failed tape) (T.failed e.0)) }
        ensures images { T.durable →
            IfErr result (λ e. Follows ReadsSame (T.images tape) (T.images e.0)) }
    {
        let Ok((parts, cache)) = make_room(alloc, pictures) else {
            return Err((tape, OpenFault::Memory));
        };
        match Actor::open(alloc, tape, id, n, cache) {
            Ok(actor) => Ok(Process::assemble(actor, n, pictures, parts)),
            Err(unopened) => {
                drop(parts);
                Err(unopened)
            }
        }
    }

    /// A new process of this actor: nothing waits.
    fn assemble(actor: Actor<T>, n: u8, pictures: usize, parts: ProcessParts) -> Process<T>
        requires most { n ≤ 64 }
        requires some_pictures { 1 ≤ pictures }
        requires most_pictures { pictures ≤ 64 }
        requires among { actor.node.n ≡ n }
        requires member { actor.node.id < n }
        requires posts { parts.posts.messages.items ≡ [] }
        requires backlog { parts.backlog.messages.items ≡ [] }
        requires stood { actor.stood.items ≡ (actor.node, 0) ∷ [] }
        requires given { actor.given.items ≡ [] }
        requires emitted { logged actor.emitted.items ≡ [] }
        ensures actor { result.actor ≡ actor }
        ensures n { result.n ≡ n }
        ensures begun { IsJustOpened result }
        ensures ended { result.ended.items ≡ [] }
    {
        let ProcessParts { backlog, posts } = parts;
        Process {
            actor,
            n,
            backlog,
            posts,
            pictures,
            ended: Past::new(),
        }
    }

    /// The node. It can only be read.
    pub fn node(&self) -> &Node<T>
        ensures { result.now ≡ self.now.actor.node }
    {
        self.actor.node.get()
    }

    /// The pictures that are cached, those of the node's maps, with their counts in this run. They
    /// can only be read.
    pub fn cache(&self) -> &Cache
        ensures { AllCached self.now.actor.node.parts.history result.now }
    {
        self.actor.node.cache()
    }

    /// The number of nodes of the farm.
    pub fn n(&self) -> u8
        ensures value { result ≡ self.now.n }
        ensures most { result ≤ 64 }
    {
        self.n
    }

    /// Whether the tape failed: then each act returns N5 and sends nothing, and what reads is
    /// answered by what was published before.
    #[tactic(auto, using(crate::proofs::Halts::halt_reported))]
    pub fn is_halted(&self) -> bool
        ensures { result ≡ self.now.actor.node.halted }
    {
        is_halt(self.node().retry_step_rejection())
    }

    /// How many of its own messages wait for the node.
    pub fn waiting(&self) -> usize
        ensures { result ≡ length (waiting_in self.now) }
    {
        self.backlog.len()
    }

    /// Proposes a definition for the next sequence. Its messages wait for every node, the process's
    /// own too. Err: N2 to N4 if the step table rejects the proposal, N5 if the node is halted, and
    /// then nothing has changed; N1 if an allocation failed, N6 if the tape did.
    pub fn propose(&mut self, alloc: Global, canon: Canon) -> Result<(), NodeFault>
        ensures { IsActed T.Tape (action.Propose canon) origin.Own target.Everyone
            self.old result self.new }
    {
        self.act(alloc, Input::Propose(canon), Origin::Own, Target::Everyone)
    }

    /// Begins the running proposal anew, in a new round if it needs one. Its messages wait for
    /// every node. Err: N7 if no proposal runs, otherwise as of [`Process::propose`].
    pub fn retry(&mut self, alloc: Global) -> Result<(), NodeFault>
        ensures { IsActed T.Tape action.Retry origin.Own target.Everyone
            self.old result self.new }
    {
        self.act(alloc, Input::Retry, Origin::Own, Target::Everyone)
    }

    /// Asks a peer, and no other node, for what is published from the next sequence on. Err: N1, N5
    /// or N6.
    pub fn catch_up(&mut self, alloc: Global, peer: NodeId) -> Result<(), NodeFault>
        ensures { IsActed T.Tape action.CatchUp origin.Own (target.Only peer)
            self.old result self.new }
    {
        self.act(alloc, Input::CatchUp, Origin::Own, Target::Only(peer))
    }

    /// Delivers the first of its own messages that wait to the node. The answer waits for whom it
    /// is for. None: no message waits. Err: N1, and the message is lost, as if the network had lost
    /// it; N5 or N6.
    pub fn handle_own(&mut self, alloc: Global) -> Option<Result<(), NodeFault>>
        ensures { ReceivesOwn T.Tape self.old result self.new }
    {
        if self.waiting() == 0 {
            return None;
        }
        match self.pop_own() {
            Some(message) => {
                let own = self.node().id();
                Some(self.give(alloc, message, Origin::Own, own))
            }
            None => None,
        }
    }

    /// Delivers a message that came from a peer to the node. The answer waits for whom it is for.
    /// Err: N1, and the message is lost, as if the network had lost it; N5 or N6.
    pub fn deliver(&mut self, alloc: Global, message: PeerMessage) -> Result<(), NodeFault>
        ensures { IsReceived T.Tape message.message (origin.Peer message.from message.stream)
            message.from self.old result self.new }
    {
        let (message, from, stream) = message.into_parts();
        self.give(alloc, message, Origin::Peer(from, stream), from)
    }

    /// The first of the posts that wait to be given to those that they are for.
    pub fn first_post(&self) -> Option<&Post>
        ensures { IfSome result (λ post. (rest : List posting.Post) ×
            (posts_in self.now ≡ post.now ∷ rest)) }
    {
        self.posts.first()
    }

    /// The first post was given to the peers that it is for. If it is for the node itself too, its
    /// messages wait for that now, as far as there is room.
    pub fn finish_post(&mut self)
        ensures { IsFirstGiven (posts_in self.old) self.old self.new }
    {
        let own = usize::from(self.node().id().number());
        match self.posts.pop() {
            Some(post) if post.target().includes(own) => {
                self.backlog.extend(post.into_messages());
            }
            Some(post) => drop(post),
            None => {}
        }
    }

    /// Takes out the first of its own messages that wait.
    fn pop_own(&mut self) -> Option<Message>
        ensures some { IfSome result (λ m. IsOwnPopped m self.old self.new) }
        ensures emitted { IfSome result (λ m. ∥ IsIn m (logged self.new.actor.emitted.items) ∥₁) }
        ensures none { result ≡ None → waiting_in self.old ≡ [] }
    {
        match self.backlog.pop() {
            Some(message) => Some(message),
            None => None,
        }
    }

    /// Delivers a message to the node, which comes from that node. The answer waits for whom it is
    /// for.
    pub(crate) fn give(
        &mut self,
        alloc: Global,
        message: Message,
        origin: Origin,
        from: NodeId,
    ) -> Result<(), NodeFault>
        requires own { ∥ AreOwnAmong (logged self.old.actor.emitted.items) origin
            (message ∷ []) ∥₁ }
        requires come { ∥ AreCome origin (message ∷ []) ∥₁ }
        ensures { IsReceived T.Tape message origin from self.old result self.new }
    {
        let target = reply_target(&message, from);
        self.act(alloc, Input::Deliver(message), origin, target)
    }

    /// Gives the node an input, which comes from there. Its messages wait for whom they are for.
    fn act(
        &mut self,
        alloc: Global,
        input: Input,
        origin: Origin,
        target: Target,
    ) -> Result<(), NodeFault>
        requires own { ∥ AreOwnAmong (logged self.old.actor.emitted.items) origin
            (given_to input) ∥₁ }
        requires come { ∥ AreCome origin (given_to input) ∥₁ }
        ensures { IsActed T.Tape input origin target self.old result self.new }
    {
        match self.actor.step(alloc, input, origin) {
            Ok(messages) => {
                post(
                    alloc,
                    &mut self.posts,
                    messages,
                    target,
                    &self.actor.emitted,
                );
                Ok(())
            }
            Err(fault) => Err(fault),
        }
    }

    /// The life of the node in this run, always: some run of `wf_execution`, from what was read of
    /// the tape on which it was opened, of which its logs tell. The call does nothing.
    pub fn always_lived(&self)
        ensures { ∥ IsLife T.Tape self.now.actor.read_from.items self.now.actor.stood.items
            self.now.actor.given.items (logged self.now.actor.emitted.items) self.now.actor.node ∥₁ }
    {
        self.actor.always_lived();
    }

    /// Always: what waits for the node itself, and what is in the posts that wait, the node
    /// returned in this run; and what was given to it from a peer came on a connection from that
    /// peer. The call does nothing.
    pub fn always_received(&self)
        ensures sent { ∥ AreSent (waiting_in self.now) (posts_in self.now)
            (logged self.now.actor.emitted.items) ∥₁ }
        ensures received { ∥ AreGivenCome self.now.actor.given.items ∥₁ }
    {
        self.actor.always_lived();
    }
}

impl<T: Tape + Drop> Process<T> {
    ghost use Rattle.std.specs.Prelude.{◌++◌, ◌∷◌, [], false, IfErr, IfOk};
    ghost use Rattle.wf_actor.specs.Start.{IsOpened, IsWhyNotReopened};
    ghost use Rattle.wf_actor.specs.Process.{IsJustOpened};
    ghost use Rattle.wf_model.specs.VolatileState.{at_start};
    ghost use Rattle.wf_node.specs.Node.{stored_of, volatile_of};
    ghost use Rattle.wf_node.specs.OpenedNode.{IsRead};
    ghost use Rattle.wf_node.specs.Reopening.{HasStoredAs};

    /// The process of a node that was opened elsewhere, and has moved to its tape
    /// (`Node::move_to`), with a cache for `pictures` pictures. Nothing waits. Its life is from the
    /// records that the tape has now. Err: there is no memory for the process, and the node is
    /// dropped.
    pub fn of(alloc: Global, node: Node<T>, pictures: usize) -> Result<Process<T>, AllocError>
        requires nodes { node.n ≤ 64 }
        requires member { node.id < node.n }
        requires runs { node.halted ≡ false }
        requires idle { volatile_of node ≡ at_start }
        requires found { IsRead T.durable (T.content node.tape) (stored_of node) }
        requires least { 1 ≤ pictures }
        requires most { pictures ≤ 64 }
        ensures opened { IfOk result (λ process.
            IsOpened T.Tape node.tape node.id node.n process.actor.node) }
        ensures same { IfOk result (λ process. process.actor.node ≡ node) }
        ensures read_from { IfOk result (λ process.
            process.actor.read_from.items ≡ (node.tape, 0) ∷ []) }
        ensures begun { IfOk result (λ process. IsJustOpened process) }
        ensures n { IfOk result (λ process. process.n ≡ node.n) }
        ensures ended { IfOk result (λ process. process.ended.items ≡ []) }
    {
        let n = node.n();
        let Ok((parts, cache)) = make_room(alloc, pictures) else {
            drop(node);
            return Err(AllocError);
        };
        Ok(Process::assemble(Actor::of(node, cache), n, pictures, parts))
    }

    /// The process in its next run, on a tape from which its node is opened, once its own has
    /// failed: nothing waits, and this run is the last of those that have ended. It is the node
    /// that it was: it has stored what this node has, or that and the record of the step within
    /// which the tape failed. That is compared, so it holds of any tape. Err: the tape doesn't
    /// open, or isn't what this node left; it is dropped.
    pub fn reopen(&self, alloc: Global, tape: T) -> Result<Process<T>, ReopenFault>
        ensures opened { IfOk result (λ next.
            IsOpened T.Tape tape self.now.actor.node.id self.now.n next.actor.node) }
        ensures stored { IfOk result (λ next. HasStoredAs self.now.actor.node next.actor.node) }
        ensures read_from { IfOk result (λ next. next.actor.read_from.items ≡ (tape, 0) ∷ []) }
        ensures begun { IfOk result (λ next. IsJustOpened next) }
        ensures n { IfOk result (λ next. next.n ≡ self.now.n) }
        ensures ended { IfOk result (λ next.
            next.ended.items ≡ self.now.ended.items ++ (self.now.actor, 0) ∷ []) }
        ensures cause { T.durable → IfErr result (λ why. IsWhyNotReopened why (T.content tape)) }
    {
        match Process::open(alloc, tape, self.node().id(), self.n, self.pictures) {
            Ok(next) => self.follow(next),
            Err((tape, fault)) => {
                drop(tape);
                Err(ReopenFault::Tape(fault))
            }
        }
    }

    /// The process that was just opened as this one's next run, if its node has stored what this
    /// one's has.
    fn follow(&self, next: Process<T>) -> Result<Process<T>, ReopenFault>
        requires begun { IsJustOpened next }
        ensures stored { IfOk result (λ later. HasStoredAs self.now.actor.node later.actor.node) }
        ensures actor { IfOk result (λ later. later.actor ≡ next.actor) }
        ensures begun { IfOk result (λ later. IsJustOpened later) }
        ensures n { IfOk result (λ later. later.n ≡ next.n) }
        ensures ended { IfOk result (λ later.
            later.ended.items ≡ self.now.ended.items ++ (self.now.actor, 0) ∷ []) }
        ensures cause { IfErr result (λ why. why ≡ ReopenFault.Differs) }
    {
        if !next.node().has_stored_as(self.node()) {
            drop(next);
            return Err(ReopenFault::Differs);
        }
        let mut next = next;
        next.ended = self.ended.and(&self.actor, &0);
        Ok(next)
    }
}

/// Whether that is the error of a halted node.
fn is_halt(step_rejection: Option<NodeFault>) -> bool
    ensures { result ≡ reports_halt step_rejection }
{
    match step_rejection {
        Some(NodeFault::Halted) => true,
        Some(
            NodeFault::Memory
            | NodeFault::Busy
            | NodeFault::SequenceFull
            | NodeFault::RoundsFull
            | NodeFault::TapeFailed
            | NodeFault::Nothing,
        )
        | None => false,
    }
}
