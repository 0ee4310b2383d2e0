//! How a process answers clients.

ghost use Rattle.std.specs.Prelude.{◌≡◌};
ghost use Rattle.wf_visitors.specs.ServerReply.{nothing};
ghost use Rattle.wf_voter.specs.Answer.{HasResponded, IsProcessAnswer, IsLeftUnwritten};
ghost use Rattle.wf_voter.specs.Continuation.{StaysInRun, HasOnlyServed};

use crate::voter::Voter;
use std::alloc::Global;
use wf_actor::Process;
use wf_client::{Incoming, Outgoing};
use wf_edge::{Outcome, RequestedResource, resolve};
use wf_http::{Front, MOST_HEAD_BYTES};
use wf_tape::Tape;
use wf_visitors::{Server, ServerReply};

impl<T: Tape> Server for Voter<T> {
    ghost responds = { λ before came _ response after. HasResponded T.Tape before came response after };

    ghost stays = { λ before after. HasOnlyServed T.Tape before after };

    fn answer(
        &mut self,
        alloc: Global,
        incoming: &Incoming,
        outgoing: &mut Outgoing,
    ) -> ServerReply {
        self.process.always_lived();
        self.process.always_received();
        let taken = self.process.cache().cached_tiles();
        match serve(alloc, &mut self.process, incoming, outgoing) {
            Outcome::ReadFailed => ServerReply::Lacks(missing(incoming)),
            Outcome::NoRequest => ServerReply::Nothing,
            Outcome::Sent(status, bytes) | Outcome::WriteFailed(status, bytes) => {
                self.rejected.note(alloc, status, outgoing.bytes());
                let is_cached = self.process.cache().cached_tiles() != taken;
                self.pictures.note(outgoing.bytes(), is_cached);
                ServerReply::Sent { status, bytes }
            }
        }
    }
}

/// Lets a process serve what has come of a request.
fn serve<T: Tape>(
    alloc: Global,
    process: &mut Process<T>,
    incoming: &Incoming,
    outgoing: &mut Outgoing,
) -> Outcome
    requires { outgoing.old ≡ nothing }
    ensures sent { IsProcessAnswer T.Tape process.old incoming.now.bytes outgoing.new.bytes
        result process.new }
    ensures on { StaysInRun T.Tape process.old process.new }
    ensures unsent { IsLeftUnwritten result outgoing.old outgoing.new }
{
    process.serve(alloc, &mut incoming.reader(), outgoing)
}

/// The number of bytes that a request lacks at least.
fn missing(incoming: &Incoming) -> usize {
    match Front::read(&mut incoming.reader()) {
        Ok(front) => {
            let length = match resolve(&front) {
                Ok(RequestedResource::Publish(length)) => length,
                _ => 0,
            };
            // the front holds the first of the bytes that came, as many as a head may have
            let unread = incoming.len().saturating_sub(MOST_HEAD_BYTES);
            let came = front.behind().len().saturating_add(unread);
            drop(front);
            length.saturating_sub(came).max(1)
        }
        Err(_) => 1,
    }
}
