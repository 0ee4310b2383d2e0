//! What a node has stored, compared with what is known of it.
ghost use Rattle.std.specs.Prelude.{◌≡◌, IfErr, IfOk, Some, length};
ghost use Rattle.wf_digest.specs.Digest.{AreDigestsOf, digest_at};
ghost use Rattle.wf_node.specs.Node.{stored_of};
ghost use Rattle.wf_node_folder.specs.Held.{HasReached, HoldsAll, IsKnownOf, IsWhyNotHeld};

use crate::fault::CommandFault;
use std::alloc::{AllocError, Global};
use wf_digest::Digests;
use wf_folder::{Known, Reach, admit_tape};
use wf_learner::History;
use wf_node::Node;
use wf_tape::Tape;
use wf_voter::reach_of;

/// How far a node is, with the digest of its history, if it holds all that is known of it. Err: why
/// it doesn't, or an allocation failed.
#[tactic(auto, using(crate::proofs::Reached::found_digest, crate::proofs::Reached::holds_all, crate::proofs::Reached::holds_less, crate::proofs::Reached::known_of))]
pub(crate) fn examine_node<T: Tape>(
    alloc: Global,
    known: &Known,
    node: &Node<T>,
) -> Result<Known, CommandFault>
    ensures holds { IfOk result (λ _. HoldsAll known.now (stored_of node.now)) }
    ensures known { IfOk result (IsKnownOf known.now (stored_of node.now)) }
    ensures fault { IfErr result (IsWhyNotHeld known.now (stored_of node.now)) }
{
    let reach = reach(node);
    let digests = match digests_of(alloc, node.history()) {
        Ok(digests) => digests,
        Err(_) => return Err(CommandFault::Memory),
    };
    let digest = digests.at(known.reach.published);
    let last = last_digest(&digests, node.history());
    drop(digests);
    match admit_tape(known, &reach, digest) {
        Ok(()) => Ok(Known {
            reach,
            digest: last,
        }),
        Err(why) => Err(CommandFault::Rejected(why)),
    }
}

/// How far a node is.
#[tactic(auto, using(crate::proofs::Reached::reached))]
fn reach<T: Tape>(node: &Node<T>) -> Reach
    ensures { HasReached (stored_of node.now) result }
{
    reach_of(node)
}

/// The digests of a history.
fn digests_of(alloc: Global, history: &History) -> Result<Digests, AllocError>
    ensures { IfOk result (AreDigestsOf history.now.definitions) }
{
    let mut digests = Digests::new(alloc)?;
    match digests.extend(history) {
        Ok(()) => Ok(digests),
        Err(error) => {
            drop(digests);
            Err(error)
        }
    }
}

/// The digest of a whole history, by its digests.
fn last_digest(digests: &Digests, history: &History) -> [u8; 32]
    requires { AreDigestsOf history.now.definitions digests.now }
    ensures { result ≡ digest_at history.now.definitions (length history.now.definitions) }
{
    match digests.at(history.published()) {
        Some(digest) => digest,
        None => unreachable!(),
    }
}
