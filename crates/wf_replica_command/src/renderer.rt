//! How a replica answers clients.

ghost use Rattle.wf_replica.specs.Follower.{HasLearnedNothing};
ghost use Rattle.wf_replica_command.specs.Answer.{IsResponse};

use std::alloc::Global;
use wf_client::{Incoming, Outgoing};
use wf_edge::Outcome;
use wf_operator::PictureCounts;
use wf_replica::Follower;
use wf_tape::Tape;
use wf_visitors::{Server, ServerReply};

/// A replica that answers clients, and which pictures it answered with.
#[derive(Drop)]
pub struct Renderer<T: Tape> {
    pub(crate) follower: Follower<T>,
    pub(crate) pictures: PictureCounts,
}

impl<T: Tape + Drop> Server for Renderer<T> {
    ghost responds = { λ before came _ response after. IsResponse T.Tape before.follower came response × HasLearnedNothing before.follower after.follower };

    ghost stays = { λ before after. HasLearnedNothing before.follower after.follower };

    #[tactic(auto, using(crate::proofs::Answers::responded))]
    fn answer(
        &mut self,
        alloc: Global,
        incoming: &Incoming,
        outgoing: &mut Outgoing,
    ) -> ServerReply {
        self.follower.always_learned();
        let taken = self.follower.cache().cached_tiles();
        match self.follower.serve(alloc, incoming, outgoing) {
            Outcome::ReadFailed => ServerReply::Lacks(1),
            Outcome::NoRequest => ServerReply::Nothing,
            Outcome::Sent(status, bytes) | Outcome::WriteFailed(status, bytes) => {
                let is_cached = self.follower.cache().cached_tiles() != taken;
                self.pictures.note(outgoing.bytes(), is_cached);
                ServerReply::Sent { status, bytes }
            }
        }
    }
}
