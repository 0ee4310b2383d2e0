//! What was heard of the peers, and the digests of this node's history.
ghost use Rattle.std.specs.Prelude.{◌≡◌, ◌↔◌, IfSome, IsTrue, OnOk};
ghost use Rattle.wf_codec.specs.Message.{view};
ghost use Rattle.wf_peer.specs.Admission.{IsNodesFolder};
ghost use Rattle.wf_peer.specs.Sender.{IsFrom};
ghost use Rattle.wf_peer.specs.Told.{HearAll};

use crate::peer_connections::id_of;
use std::alloc::{AllocError, Global};
use std::mem::replace;
use wf_ballot::{NodeId, Seq};
use wf_codec::Message;
use wf_digest::Digests;
use wf_learner::History;
use wf_peer::{Greeting, NodeState, Own, PeerProgress, PeerRejection, Progress, admit, is_from};
use wf_rejoin::Replacements;

/// What a node tells its peers of replacements: those that are known, and, where there are any, the
/// highest sequence at which it has a vote.
#[derive(Clone, Copy)]
pub struct Told {
    pub replacements: Replacements,
    pub voted: Seq,
}

/// What was heard of the peers, and the digests of this node's history.
#[derive(Drop)]
pub struct PeerTable {
    own: Own,
    known: PeerProgress,
    digests: Digests,
    // whether more was heard than the file has
    is_new: bool,
}

impl PeerTable {
    /// What was heard before, and the digest of no history.
    pub(crate) fn new(alloc: Global, own: Own, known: PeerProgress) -> Result<Self, AllocError> {
        Ok(PeerTable {
            own,
            known,
            digests: Digests::new(alloc)?,
            is_new: false,
        })
    }

    /// What a message that has arrived from a peer tells of it: that is kept. Returns whether the
    /// peer may send it.
    pub fn hear(&mut self, message: &Message, peer: NodeId) -> bool
        ensures { IsTrue result ↔ IsFrom peer (view message.now) }
    {
        if !is_from(message, peer) {
            return false;
        }
        let before = self.known.of(peer);
        self.known.receive(peer, message);
        self.is_new = self.is_new || self.known.of(peer) != before;
        true
    }

    /// What is remembered is never less than what the file has.
    pub fn hold(&mut self, kept: &PeerProgress)
        ensures { HearAll kept.now self.new.known }
    {
        if !self.known.has_all_of(kept) {
            self.known = *kept;
        }
    }

    /// What was heard of the peers.
    pub fn known(&self) -> PeerProgress
        ensures { result ≡ self.now.known }
    {
        self.known
    }

    /// What was heard, if that is more than the file `heard` has.
    pub fn unsaved(&self) -> Option<PeerProgress>
        ensures { IfSome result (λ unsaved. unsaved ≡ self.now.known) }
    {
        if self.is_new { Some(self.known) } else { None }
    }

    /// The file has all that was heard.
    pub fn note_saved(&mut self)
        ensures { self.new.known ≡ self.old.known }
    {
        self.is_new = false;
    }

    /// The node is opened again: its digests begin with these, of no history yet.
    pub(crate) fn begin(&mut self, digests: Digests)
        ensures { self.new.digests ≡ digests }
    {
        drop(replace(&mut self.digests, digests));
    }

    /// Takes in what was published since.
    pub fn extend(&mut self, history: &History) {
        let _ = self.digests.extend(history);
    }

    /// Whether more than so many sequences of a history have no digest yet.
    pub(crate) fn lacks_more_than(&self, history: &History, most: u16) -> bool {
        match Seq::new(history.published().number().saturating_sub(most)) {
            Some(seq) => self.digests.at(seq).is_none(),
            None => false,
        }
    }

    /// The digests of the history, up to where they were extended.
    pub fn digests(&self) -> &Digests
        ensures { result.now ≡ self.now.digests }
    {
        &self.digests
    }

    /// The digest of the history up to a sequence.
    pub fn digest_at(&self, number: u16) -> Option<[u8; 32]> {
        let seq = Seq::new(number)?;
        self.digests.at(seq)
    }

    /// This node's greeting.
    pub fn greeting(&self, progress: Progress, state: NodeState, told: Told) -> Option<Greeting>
        ensures progress { IfSome result (λ said. said.progress ≡ progress) }
        ensures voted { IfSome result (λ said. said.voted ≡ told.voted) }
        ensures replacements { IfSome result (λ said. said.replacements ≡ told.replacements) }
    {
        let digest = self.digests.at(progress.published)?;
        Some(Greeting {
            farm: self.own.farm,
            nodes: self.own.nodes,
            node: self.own.node,
            progress,
            digest,
            state,
            replacements: told.replacements,
            voted: told.voted,
        })
    }

    /// Whether a peer that greets so is let in; that is kept, and so is of what it is accused. A
    /// greeting of an older start may still be on its way when a later one was let in, so that
    /// accuses nobody.
    pub(crate) fn admit(
        &mut self,
        replacements: &Replacements,
        index: Option<NodeId>,
        greeting: &Greeting,
    ) -> Result<(), PeerRejection>
        ensures folder { OnOk result (IsNodesFolder replacements.now greeting.now) }
    {
        let node = greeting.node;
        let digest = self.digests.at(greeting.progress.published);
        let before = self.known.heard(node);
        let admitted = admit(&self.own, replacements, index, before, digest, greeting);
        match admitted {
            Ok(()) => self.known.greet(node, greeting.progress),
            Err(PeerRejection::OlderStart) => {}
            Err(why) => self.known.accuse(node, why),
        }
        self.is_new = self.is_new || self.known.heard(node) != before;
        admitted
    }

    /// What a node that isn't let in is told of what is remembered of it, if it forgot something.
    pub(crate) fn remembered(&self, node: NodeId, why: PeerRejection) -> Option<Progress> {
        if why.ends_a_node() {
            self.known.of(node)
        } else {
            None
        }
    }

    /// The latest sequence that was heard of.
    pub(crate) fn latest(&self, nodes: usize) -> u16 {
        let mut latest = 0;
        for number in 0..nodes {
            latest = self.published(number).max(latest);
        }
        latest
    }

    /// How far the node of this number has published, as was heard; 0 where nothing was.
    pub(crate) fn published(&self, number: usize) -> u16 {
        match id_of(number) {
            Some(node) => match self.known.of(node) {
                Some(progress) => progress.published.number(),
                None => 0,
            },
            None => 0,
        }
    }
}
