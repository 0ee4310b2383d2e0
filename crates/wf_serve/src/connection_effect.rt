//! The effect of a connection on a farm, and the catch-up of its nodes before the first and after
//! each.
ghost use Rattle.std.specs.Prelude.{◌≡◌, ◌≢◌, ◌<◌, false, true};
ghost use Rattle.wf_edge.specs.Receipt.{CountsReceiving};
ghost use Rattle.wf_edge.specs.Page.{proposal_state_at};
ghost use Rattle.wf_edge.specs.Completion.{CountsCompleting};
ghost use Rattle.wf_edge.specs.RequestEffect.{IsPublish};
ghost use Rattle.wf_farm.specs.Farm.{size};
ghost use Rattle.wf_delivery.specs.Reachability.{AreReachableFrom};
ghost use Rattle.wf_farm.specs.Nodes.{AllRun, nodes_in};
ghost use Rattle.wf_serve.specs.Agreement.{AgreeStill, HaveGoneOn};
ghost use Rattle.wf_serve.specs.CacheSet.{AreCached, IsCachedAt, KeepRoom};
ghost use Rattle.wf_serve.specs.Publication.{AcceptedMeansPublished};
ghost use Rattle.wf_serve.specs.ConnectionEffect.{EndsWriting, HaveCaughtUp, IsAskedAndArrived, IsConnection, IsRetried, RestsAt, ProposesAt};
ghost use Rattle.wf_serve.specs.NodeRequest.{IsAnsweredAt, IsResponseToRead, no_deliveries};
ghost use Rattle.wf_model.specs.Table.{Retry};

use crate::node_request::{Publishing, Restart};
use crate::publication::an_accepted_map_is_published;
use std::alloc::Global;
use wf_codec::Message;
use wf_delivery::Pumped;
use wf_edge::{
    Outcome, Request, RequestedResource, answer_get, equal_requests_have_equal_responses,
    status_of, write_error,
};
use wf_farm::Farm;
use wf_http::RequestFault;
use wf_node::Node;
use wf_proposer::ProposalState;
use wf_stream::{Sink, Source};
use wf_tape::Tape;
use wf_wms::Cache;

/// What came of a connection.
#[derive(Clone, Copy, PartialEq, Eq)]
pub struct ConnectionOutcome {
    /// The outcome of its request.
    pub request: Outcome,
    /// The deliveries of the messages that the node sent for the request, and of those sent in
    /// reply; none unless it was a publish.
    pub deliveries: Pumped,
}

/// Lets each node that is behind catch up: it asks one that has published the most, as long as that
/// brings it on. Where no allocation fails, all nodes that run have published equally many maps
/// afterwards; if none is behind, nothing happens.
pub fn catch_up<T: Tape>(alloc: Global, farm: &mut Farm<T>)
    requires { AllRun farm.old.hosts }
    ensures caught { HaveCaughtUp T.Tape (nodes_in farm.old) (nodes_in farm.new) }
    ensures reachable { AreReachableFrom T.Tape (nodes_in farm.old) (nodes_in farm.new) }
    ensures running { AllRun farm.new.hosts }
{
    let _ = wf_catch_up::catch_up(alloc, farm);
}

/// Serves one connection, over any reader and writer, by the node at index `node_index` and its
/// cache, as `serve_one_cached` of `wf_edge` does. Then the node's messages are delivered, whether
/// or not the response was written; and if its proposal still runs, the node is asked once to
/// restart it, and its messages are delivered again. Then each node that is behind catches up, as
/// by [`catch_up`]. A step that the node rejects, or for which an allocation fails, is skipped. A
/// failed write is the last call of the writer.
pub fn serve_connection<S: Source, K: Sink, T: Tape>(
    alloc: Global,
    source: &mut S,
    sink: &mut K,
    farm: &mut Farm<T>,
    caches: &mut [Cache],
    node_index: usize,
) -> ConnectionOutcome
    requires within { node_index < size farm.old }
    requires running { AllRun farm.old.hosts }
    requires cached { AreCached (nodes_in farm.old) caches.old }
    ensures connection { IsConnection T.Tape node_index (S.left source.old) (K.written sink.old)
        (K.written sink.new) (nodes_in farm.old) result.request (nodes_in farm.new) }
    ensures published { AcceptedMeansPublished
        (S.left source.old) (nodes_in farm.old) result (nodes_in farm.new) }
    ensures reads { CountsReceiving result.request (S.failures source.old) (S.failures source.new) }
    ensures writes { CountsCompleting result.request (K.failures sink.old) (K.failures sink.new) }
    ensures last { EndsWriting K.Sink sink.old sink.new result.request }
    ensures headline { HaveGoneOn T.Tape (nodes_in farm.old) (nodes_in farm.new) }
    ensures running { AllRun farm.new.hosts }
    ensures cached { AreCached (nodes_in farm.new) caches.new }
    ensures room { KeepRoom caches.old caches.new }
{
    an_accepted_map_is_published::<T>();
    farm.nodes_agree();
    // The messages of a request that isn't a publish.
    let none: Vec<Message> = Vec::new(alloc);
    let arrived = Request::read(alloc, source);
    let outcome = respond(
        alloc,
        sink,
        farm,
        &mut caches[node_index],
        node_index,
        &arrived,
    );
    drop(arrived);
    drop(none);
    retry(alloc, farm, node_index);
    catch_up(alloc, farm);
    agree_still(farm);
    outcome
}

/// Nodes led on from reached nodes are reached, publish one history, and respond alike.
pub(crate) fn agree_still<T: Tape>(farm: &Farm<T>)
    ensures { AgreeStill T.Tape (nodes_in farm.now) }
{
    farm.nodes_agree();
    equal_requests_have_equal_responses::<T>();
}

/// Lets the node at an index answer the request that was read, with its cache; if there is none,
/// writes its rejection, and nothing if the input was empty or a read failed. A request that only
/// reads is answered from what the node has published, and sends nothing; a publish changes the
/// node, and its messages are delivered.
fn respond<K: Sink, T: Tape>(
    alloc: Global,
    sink: &mut K,
    farm: &mut Farm<T>,
    cache: &mut Cache,
    node_index: usize,
    arrived: &Result<Request, RequestFault>,
) -> ConnectionOutcome
    requires within { node_index < size farm.old }
    requires running { AllRun farm.old.hosts }
    requires cached { IsCachedAt (nodes_in farm.old) node_index cache.old }
    ensures responds { IsResponseToRead T.Tape K.Sink node_index arrived.now sink.old sink.new
        (nodes_in farm.old) result (nodes_in farm.new) }
    ensures reachable { AreReachableFrom T.Tape (nodes_in farm.old) (nodes_in farm.new) }
    ensures running { AllRun farm.new.hosts }
    ensures cached { IsCachedAt (nodes_in farm.new) node_index cache.new }
    ensures room { cache.new.cap ≡ cache.old.cap }
{
    let request = match arrived {
        Ok(request) => request,
        Err(fault) => return outcome_without_publish(write_error(sink, *fault)),
    };
    match request.resource() {
        RequestedResource::Wms | RequestedResource::Status => {
            let Some(node) = farm.node(node_index) else {
                unreachable!();
            };
            let status = status_of(node);
            outcome_without_publish(answer_get(alloc, sink, node.history(), status, cache, request))
        }
        RequestedResource::Publish(_) => publish_at(alloc, sink, farm, node_index, request),
    }
}

/// The outcome of a connection over which no publish came.
fn outcome_without_publish(request: Outcome) -> ConnectionOutcome
    ensures request { result.request ≡ request }
    ensures quiet { result.deliveries ≡ no_deliveries }
{
    ConnectionOutcome {
        request,
        deliveries: Pumped {
            deliveries: 0,
            lost: 0,
            stopped: false,
        },
    }
}

/// Lets the node at an index answer a publish, and delivers its messages.
fn publish_at<K: Sink, T: Tape>(
    alloc: Global,
    sink: &mut K,
    farm: &mut Farm<T>,
    node_index: usize,
    request: &Request,
) -> ConnectionOutcome
    requires within { node_index < size farm.old }
    requires running { AllRun farm.old.hosts }
    requires publish { IsPublish request.now.asked }
    ensures answered { IsAnsweredAt T.Tape K.Sink node_index request.now sink.old sink.new
        (nodes_in farm.old) result.request result.deliveries (nodes_in farm.new) }
    ensures reachable { AreReachableFrom T.Tape (nodes_in farm.old) (nodes_in farm.new) }
    ensures running { AllRun farm.new.hosts }
{
    let mut publishing = Publishing {
        sink,
        request,
        outcome: Outcome::NoRequest,
    };
    let deliveries = exchange_at(alloc, farm, node_index, &mut publishing);
    let Publishing {
        sink: _,
        request: _,
        outcome,
    } = publishing;
    ConnectionOutcome {
        request: outcome,
        deliveries,
    }
}

/// Lets a publish ask the node at an index, and delivers the node's messages; returns what came of
/// the deliveries.
fn exchange_at<K: Sink, T: Tape>(
    alloc: Global,
    farm: &mut Farm<T>,
    node_index: usize,
    publishing: &mut Publishing<'_, '_, K>,
) -> Pumped
    requires within { node_index < size farm.old }
    requires running { AllRun farm.old.hosts }
    requires publish { IsPublish publishing.old.request.now.asked }
    ensures answered { IsAnsweredAt T.Tape K.Sink node_index publishing.old.request.now
        publishing.old.sink.now publishing.new.sink.now
        (nodes_in farm.old) publishing.new.outcome result (nodes_in farm.new) }
    ensures reachable { AreReachableFrom T.Tape (nodes_in farm.old) (nodes_in farm.new) }
    ensures running { AllRun farm.new.hosts }
    ensures sink { publishing.new.sink.ghost_name ≡ publishing.old.sink.ghost_name }
{
    farm.exchange(alloc, node_index, publishing)
}

/// If the proposal of the node at an index still runs, restarts it and delivers the messages.
fn retry<T: Tape>(alloc: Global, farm: &mut Farm<T>, node_index: usize)
    requires within { node_index < size farm.old }
    requires running { AllRun farm.old.hosts }
    ensures retried { IsRetried T.Tape node_index (nodes_in farm.old) (nodes_in farm.new) }
    ensures reachable { AreReachableFrom T.Tape (nodes_in farm.old) (nodes_in farm.new) }
    ensures running { AllRun farm.new.hosts }
{
    if proposes(farm, node_index) {
        restart(alloc, farm, node_index);
    }
}

/// Whether the proposal of the node at an index is running.
fn proposes<T: Tape>(farm: &Farm<T>, node_index: usize) -> bool
    requires within { node_index < size farm.now }
    requires running { AllRun farm.now.hosts }
    ensures running { result ≡ true → ProposesAt node_index (nodes_in farm.now) }
    ensures resting { result ≡ false → RestsAt node_index (nodes_in farm.now) }
{
    match farm.node(node_index) {
        Some(node) => runs(node),
        None => false,
    }
}

/// Whether the node's proposal is running.
fn runs<T: Tape>(node: &Node<T>) -> bool
    ensures running { result ≡ true → proposal_state_at node.now ≡ ProposalState.Running }
    ensures resting { result ≡ false → proposal_state_at node.now ≢ ProposalState.Running }
{
    match node.proposal() {
        ProposalState::Running => true,
        ProposalState::None | ProposalState::Published(_) | ProposalState::Overtaken(_) => false,
    }
}

/// Asks the node at an index to restart its proposal, and delivers its messages.
fn restart<T: Tape>(alloc: Global, farm: &mut Farm<T>, node_index: usize)
    requires within { node_index < size farm.old }
    requires running { AllRun farm.old.hosts }
    ensures arrived { IsAskedAndArrived T.Tape node_index Retry (nodes_in farm.old)
        (nodes_in farm.new) }
    ensures reachable { AreReachableFrom T.Tape (nodes_in farm.old) (nodes_in farm.new) }
    ensures running { AllRun farm.new.hosts }
{
    let mut restart = Restart;
    let _ = farm.exchange(alloc, node_index, &mut restart);
}
