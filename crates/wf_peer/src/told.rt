//! Whether what a message tells of its sender was heard before.
ghost use Rattle.std.specs.Prelude.{◌↔◌, ◌≡◌, IsTrue, length};
ghost use Rattle.wf_codec.specs.Message.{view};
ghost use Rattle.wf_peer.specs.Sender.{heard_of};
ghost use Rattle.wf_peer.specs.Told.{AreLeft, ArePast, HearAll, IsHeardOf, IsHeardLeft, IsPast, TellsNoMore, TellsNoMoreOf};
ghost use Rattle.wf_rejoin.specs.Replacements.{latest_of};

use crate::heard::Heard;
use crate::peer_progress::PeerProgress;
use crate::progress::Progress;
use wf_ballot::NodeId;
use wf_codec::Message;
use wf_folder::is_no_lower;
use wf_rejoin::{Replacement, Replacements};

impl PeerProgress {
    /// Whether a node has greeted, and a message of it raises neither the round nor the promise
    /// that was heard of it.
    pub fn has_heard(&self, node: NodeId, message: &Message) -> bool
        ensures { IsTrue result ↔ IsHeardOf self.now node (view message.now) }
    {
        tells_no_more_of(&self.heard(node), message)
    }

    /// Whether this has all that was heard earlier, of each node: its round and its promise are no
    /// lower.
    #[tactic(auto, using(crate::proofs::HeardLater::hear_past))]
    pub fn has_all_of(&self, earlier: &PeerProgress) -> bool
        ensures past { IsTrue result ↔ ArePast earlier.now self.now }
        ensures heard { IsTrue result → HearAll earlier.now self.now }
    {
        have_all_of(&self.nodes, &earlier.nodes)
    }

    /// What was heard of the folders that are the nodes' now: nothing is left of one whose place
    /// another one has taken.
    #[tactic(auto, using(crate::proofs::HeardLater::hear_left))]
    pub fn without(&self, replacements: &Replacements) -> PeerProgress
        ensures value { AreLeft self.now replacements.now result }
        ensures heard { HearAll result self.now }
    {
        let mut left = PeerProgress::new();
        leave(&self.nodes, replacements.nodes(), &mut left.nodes);
        left
    }
}

/// Sets what is left of what was heard of each node.
fn leave(heard: &[Option<Heard>], latest: &[Option<Replacement>], left: &mut [Option<Heard>])
    requires { length heard.now ≡ length left.old }
    ensures { AreLeft heard.now latest.now left.new }
{
    for index in 0..left.len() {
        left[index] = left_at(heard, latest, index);
    }
}

/// What is left of what was heard of the node of this number.
fn left_at(heard: &[Option<Heard>], latest: &[Option<Replacement>], index: usize) -> Option<Heard>
    ensures { IsHeardLeft (heard_of heard.now index) (latest_of latest.now index) result }
{
    match latest.get(index) {
        Some(latest) => left_of(&heard_at(heard, index), latest),
        None => heard_at(heard, index),
    }
}

/// What is left of what was heard of a node.
fn left_of(heard: &Option<Heard>, latest: &Option<Replacement>) -> Option<Heard>
    ensures { IsHeardLeft heard.now latest.now result }
{
    match (heard, latest) {
        (Some(heard), Some(latest)) if !is_folder_of(heard, latest) => None,
        (heard, _) => *heard,
    }
}

/// Whether it was heard of the folder of this replacement.
fn is_folder_of(heard: &Heard, latest: &Replacement) -> bool
    ensures { IsTrue result ↔ (heard.now.progress.mark ≡ latest.now.mark) }
{
    heard.progress.mark == latest.mark
}

/// Whether of each node no less was heard than earlier.
fn have_all_of(later: &[Option<Heard>], earlier: &[Option<Heard>]) -> bool
    ensures { IsTrue result ↔ ArePast earlier.now later.now }
{
    for index in 0..earlier.len() {
        if !is_past(&earlier[index], &heard_at(later, index)) {
            return false;
        }
    }
    true
}

/// What was heard of the node of this number.
fn heard_at(nodes: &[Option<Heard>], index: usize) -> Option<Heard>
    ensures { result ≡ heard_of nodes.now index }
{
    match nodes.get(index) {
        Some(heard) => *heard,
        None => None,
    }
}

/// Whether a node has greeted, and a message of it raises nothing that was heard of it.
fn tells_no_more_of(heard: &Option<Heard>, message: &Message) -> bool
    ensures { IsTrue result ↔ TellsNoMoreOf heard.now (view message.now) }
{
    match heard {
        Some(heard) => tells_no_more(&heard.progress, message),
        None => false,
    }
}

/// Whether a message raises neither the round nor the promise of its sender.
fn tells_no_more(progress: &Progress, message: &Message) -> bool
    ensures { IsTrue result ↔ TellsNoMore progress.now (view message.now) }
{
    match message {
        Message::Prepare(_, ballot) => ballot.round() <= progress.round,
        Message::Promise(_, ballot, _) => is_no_lower(Some(*ballot), progress.promise),
        Message::Accept(_, ballot, _) => ballot.round() <= progress.round,
        Message::Accepted(_, _, ballot) => is_no_lower(Some(*ballot), progress.promise),
        Message::Nack(_, _, _, promise) => is_no_lower(Some(*promise), progress.promise),
        Message::Chosen(_, _) => true,
        Message::Ask(_) => true,
    }
}

/// Whether what is heard of a node later has no lower round and no lower promise.
fn is_past(earlier: &Option<Heard>, later: &Option<Heard>) -> bool
    ensures { IsTrue result ↔ IsPast earlier.now later.now }
{
    match (earlier, later) {
        (None, _) => true,
        (Some(_), None) => false,
        (Some(earlier), Some(later)) => {
            earlier.progress.round <= later.progress.round
                && is_no_lower(earlier.progress.promise, later.progress.promise)
        }
    }
}
