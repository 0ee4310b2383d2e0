//! The published maps of a replica, with the pictures of them that are cached.

ghost use Rattle.std.specs.Prelude.{◌≡◌, ◌≤◌, [], IfOk, OnErr, OnOk};
ghost use Rattle.wf_execution.specs.Replica.{IsNews, after_learning};
ghost use Rattle.wf_codec.specs.Message.{view};
ghost use Rattle.wf_replica.specs.Service.{IsAnswered};
ghost use Rattle.wf_wms.specs.CachedPictures.{AllCached, most_cached};

use crate::page::write_status;
use std::alloc::{AllocError, Global};
use std::marker::Model;
use wf_ballot::NodeId;
use wf_client::Outgoing;
use wf_codec::Message;
use wf_edge::{
    ErrorResponse, Outcome, Request, RequestedResource, Status, answer_get, respond_to_error,
    write_response,
};
use wf_execution::Replica;
use wf_http::HttpError;
use wf_learner::History;
use wf_proposer::ProposalState;
use wf_wms::Cache;

/// The published maps of a replica, with the pictures of them that are cached. Model: the history.
#[derive(Drop)]
pub(crate) struct Shelf {
    replica: Replica,
    cache: Cache,
}

impl Model for Shelf {
    ghost use Rattle.wf_learner.specs.History.{History};
    ghost use Rattle.wf_wms.specs.CachedPictures.{AllCached};

    ghost Value = { History };

    ghost view = { λ s. s.replica };

    ghost invariant = { λ s. AllCached s.replica.definitions s.cache };
}

impl Shelf {
    /// No map, and room for so many pictures.
    pub(crate) fn new(alloc: Global, pictures: usize) -> Result<Shelf, AllocError>
        requires least { 1 ≤ pictures }
        requires most { pictures ≤ most_cached }
        ensures { IfOk result (λ shelf. shelf.definitions ≡ []) }
    {
        let cache = Cache::new(alloc, pictures)?;
        match Replica::new(alloc) {
            Ok(replica) => Ok(Shelf { replica, cache }),
            Err(AllocError) => {
                drop(cache);
                Err(AllocError)
            }
        }
    }

    /// The published maps.
    pub(crate) fn history(&self) -> &History
        ensures { result.now ≡ self.now }
    {
        self.replica.history()
    }

    /// The pictures that are cached: those of the published maps.
    pub(crate) fn cache(&self) -> &Cache
        ensures { AllCached self.now.definitions result.now }
    {
        &self.cache
    }

    /// Learns what the message says, as [`Replica::receive`] does.
    #[tactic(auto, using(crate::proofs::Reported::still_cached))]
    pub(crate) fn receive(&mut self, message: Message) -> Result<(), AllocError>
        ensures received { OnOk result (self.new.definitions ≡
            after_learning self.old.definitions (view message)) }
        ensures err { OnErr result (self.new ≡ self.old) }
        ensures memory { OnErr result (IsNews self.old.definitions (view message)) }
    {
        self.replica.receive(message)
    }

    /// Writes the answer to a request.
    pub(crate) fn answer(
        &mut self,
        alloc: Global,
        outgoing: &mut Outgoing,
        request: &Request,
    ) -> Outcome
        ensures same { self.new ≡ self.old }
        ensures answered { IsAnswered request.now self.old.definitions outgoing.old.bytes
            outgoing.new.bytes result }
    {
        match request.resource() {
            RequestedResource::Wms => self.show(alloc, outgoing, request),
            RequestedResource::Status => write_status(outgoing, self.history().published()),
            RequestedResource::Publish(_) => write_response(
                outgoing,
                &respond_to_error(ErrorResponse::Rejected(HttpError::NotFound)),
            ),
        }
    }

    /// Writes the map service's answer.
    fn show(&mut self, alloc: Global, outgoing: &mut Outgoing, request: &Request) -> Outcome
        requires { request.now.asked ≡ RequestedResource.Wms }
        ensures same { self.new ≡ self.old }
        ensures answered { IsAnswered request.now self.old.definitions outgoing.old.bytes
            outgoing.new.bytes result }
    {
        let Shelf { replica, cache } = self;
        let history = replica.history();
        // The map service has no need of a node's status.
        let status = Status {
            id: NodeId::new(0).unwrap(),
            published: history.published(),
            proposal: ProposalState::None,
        };
        answer_get(alloc, outgoing, history, status, cache, request)
    }
}
