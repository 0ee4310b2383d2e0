//! A replica serves the public.

ghost use Rattle.std.specs.Prelude.{◌≡◌, IsTrue};
ghost use Rattle.wf_replica.specs.Follower.{HasLearnedNothing, list_of};
ghost use Rattle.wf_replica.specs.MapList.{heard_by, maps_of};
ghost use Rattle.wf_replica.specs.Service.{AsksToPublish, IsInputServed, IsUnsent};

use crate::follower::Follower;
use crate::maps::MapList;
use crate::shelf::Shelf;
use std::alloc::Global;
use wf_client::{Incoming, Outgoing};
use wf_edge::{
    ErrorResponse, Outcome, Request, RequestedResource, resolve, respond_to_error, write_error,
    write_response,
};
use wf_http::{Front, HttpError};
use wf_tape::Tape;

impl<T: Tape> Follower<T> {
    /// Serves what has come of a request. The map service is answered from the maps that are
    /// published, and GET /status with a line of its own; POST /publish is 404, as soon as its head
    /// has come. Where the request isn't whole, nothing is written.
    #[tactic(auto, using(crate::proofs::Recorded::recorded_same, crate::proofs::Hearing::heard_same))]
    pub fn serve(&mut self, alloc: Global, incoming: &Incoming, outgoing: &mut Outgoing) -> Outcome
        ensures served { IsInputServed incoming.now.bytes (list_of self.old)
            outgoing.old.bytes outgoing.new.bytes result }
        ensures unsent { IsUnsent result outgoing.old outgoing.new }
        ensures same { HasLearnedNothing self.old self.new }
    {
        self.maps.serve(alloc, incoming, outgoing)
    }
}

impl MapList {
    /// Serves what has come of a request.
    fn serve(&mut self, alloc: Global, incoming: &Incoming, outgoing: &mut Outgoing) -> Outcome
        ensures served { IsInputServed incoming.now.bytes (maps_of self.old)
            outgoing.old.bytes outgoing.new.bytes result }
        ensures unsent { IsUnsent result outgoing.old outgoing.new }
        ensures list { maps_of self.new ≡ maps_of self.old }
        ensures received { heard_by self.new ≡ heard_by self.old }
    {
        serve(alloc, &mut self.shelf, incoming, outgoing)
    }
}

/// Serves what has come of a request.
#[tactic(auto, using(crate::proofs::Completion::completion_unsent, crate::proofs::Completion::ended_unsent, crate::proofs::Completion::fault_unsent))]
fn serve(alloc: Global, shelf: &mut Shelf, incoming: &Incoming, outgoing: &mut Outgoing) -> Outcome
    ensures served { IsInputServed incoming.now.bytes shelf.old.definitions outgoing.old.bytes
        outgoing.new.bytes result }
    ensures unsent { IsUnsent result outgoing.old outgoing.new }
    ensures same { shelf.new ≡ shelf.old }
{
    if asks_to_publish(incoming) {
        return write_response(
            outgoing,
            &respond_to_error(ErrorResponse::Rejected(HttpError::NotFound)),
        );
    }
    match Request::read(alloc, &mut incoming.reader()) {
        Ok(request) => {
            let outcome = shelf.answer(alloc, outgoing, &request);
            drop(request);
            outcome
        }
        Err(fault) => write_error(outgoing, fault),
    }
}

/// Whether the head that has come asks for a publish.
fn asks_to_publish(incoming: &Incoming) -> bool
    ensures { IsTrue result → AsksToPublish incoming.now.bytes }
{
    match Front::read(&mut incoming.reader()) {
        Ok(front) => {
            let publishes = matches!(resolve(&front), Ok(RequestedResource::Publish(_)));
            drop(front);
            publishes
        }
        Err(_) => false,
    }
}
