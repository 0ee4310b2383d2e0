//! The maps that a replica has learned.

ghost use Rattle.std.specs.Prelude.{◌≡◌, []};
ghost use Rattle.wf_replica.specs.Fit.{AreDigestsOfFront};
ghost use Rattle.wf_replica.specs.LearnedList.{learned, messages_of};

use crate::shelf::Shelf;
use wf_codec::Message;
use wf_digest::Digests;
use wf_past::Past;

/// The maps that a replica has learned, and the digests of them. A clause sees a log that only
/// proofs read: each message that it heard.
#[derive(Drop)]
pub(crate) struct MapList {
    pub(crate) shelf: Shelf,
    pub(crate) digests: Digests,
    pub(crate) received: Past<Message, usize>,
    ghost learned: { learned [] (messages_of received.items) ≡ shelf.definitions },
    ghost digested: { AreDigestsOfFront shelf.definitions digests },
}
