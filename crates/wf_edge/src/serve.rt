//! Serving one request.
ghost use Rattle.std.specs.Prelude.{◌≡◌, ◌⊎◌, ℕ, List, length, Vec};
ghost use Rattle.std.specs.declared.alloc.Global.{Global};
ghost use Rattle.wf_codec.specs.declared.message.Message.{Message};
ghost use Rattle.wf_edge.specs.PictureCache.{ChangesOnce};
ghost use Rattle.wf_edge.specs.Receipt.{CountsReceiving};
ghost use Rattle.wf_edge.specs.Request.{TakesRequest};
ghost use Rattle.wf_edge.specs.Completion.{CountsCompleting};
ghost use Rattle.wf_edge.specs.RequestEffect.{IsEnding, IsOutcome, IsPublish, IsServed, MovesOnce, Serves};
ghost use Rattle.wf_wms.specs.CachedPictures.{AllCached, IsCacheAfter};

use crate::answer::{answer_get, status_of, write_answer};
use crate::completion::write_error;
use crate::outcome::Outcome;
use crate::pictures::{Pictures, Uncached};
use crate::publish::{PublishReply, reply_to_publish};
use crate::request::Request;
use crate::resource::RequestedResource;
use std::alloc::Global;
use wf_codec::Message;
use wf_node::Node;
use wf_stream::{Sink, Source};
use wf_tape::Tape;
use wf_wms::Cache;

/// The outcome of one request, and the messages that the node sends.
#[derive(Drop)]
pub struct Served {
    pub outcome: Outcome,
    /// To be delivered whether or not the response was written.
    pub messages: Vec<Message>,
}

/// Proposes the map in a publish's body by a node, and writes the response. The messages of the
/// node's step are returned whether or not the write succeeds; nothing is allocated after the step.
#[tactic(auto, using(crate::specs::RequestEffectTheorems::publish_served))]
pub fn publish_request<K: Sink, T: Tape>(
    alloc: Global,
    sink: &mut K,
    node: &mut Node<T>,
    request: &Request,
) -> Served
    requires { IsPublish request.now.asked }
    ensures { IsServed T.Tape K.Sink request.now sink.old sink.new
        node.old result.messages node.new result.outcome }
{
    let PublishReply { answer, messages } = reply_to_publish(alloc, node, request.body());
    let outcome = write_answer(sink, &answer);
    drop(answer);
    Served { outcome, messages }
}

// Reads a request, answers it by the node, and writes the response.
fn serve_with<S: Source, K: Sink, T: Tape, P: Pictures>(
    alloc: Global,
    source: &mut S,
    sink: &mut K,
    node: &mut Node<T>,
    pictures: &mut P,
) -> Served
    requires { P.cached pictures.old node.old.parts.history }
    ensures serves { Serves T.Tape K.Sink S.Source source.old source.new sink.old sink.new
        node.old result.messages node.new result.outcome }
    ensures takes { TakesRequest (S.piece source.old) (S.left source.old) (S.left source.new) }
    ensures cached { P.cached pictures.new node.old.parts.history }
    ensures changed { ChangesOnce P.changes node.old.parts.history pictures.old pictures.new }
    ensures capacity { P.capacity pictures.new ≡ P.capacity pictures.old }
{
    match Request::read(alloc, source) {
        Ok(request) => {
            let served = answer_request(alloc, sink, node, pictures, &request);
            drop(request);
            served
        }
        Err(fault) => Served {
            outcome: write_error(sink, fault),
            messages: Vec::new(alloc),
        },
    }
}

// Answers a request by the node, and writes the response.
#[tactic(auto, using(crate::specs::RequestEffectTheorems::read_served, crate::specs::PictureCache::read_once))]
fn answer_request<K: Sink, T: Tape, P: Pictures>(
    alloc: Global,
    sink: &mut K,
    node: &mut Node<T>,
    pictures: &mut P,
    request: &Request,
) -> Served
    requires { P.cached pictures.old node.old.parts.history }
    ensures served { IsServed T.Tape K.Sink request.now sink.old sink.new
        node.old result.messages node.new result.outcome }
    ensures cached { P.cached pictures.new node.old.parts.history }
    ensures changed { ChangesOnce P.changes node.old.parts.history pictures.old pictures.new }
    ensures capacity { P.capacity pictures.new ≡ P.capacity pictures.old }
{
    match request.resource() {
        RequestedResource::Wms | RequestedResource::Status => {
            let status = status_of(node);
            let outcome = answer_get(alloc, sink, node.history(), status, pictures, request);
            Served {
                outcome,
                messages: Vec::new(alloc),
            }
        }
        RequestedResource::Publish(_) => publish_request(alloc, sink, node, request),
    }
}

/// Serves one request: reads it, and nothing after it but what came in one piece with the last of
/// its head, answers it by the node, and writes the response. A prefix of the response is written,
/// all of it if `Sent`; a failed write is the last call of the writer, which isn't called at all if
/// the reader failed or the input is empty. POST /publish is the node's step Propose if its checks
/// pass, its body is a map with a canonical text, and no allocation fails before the step; the
/// step's messages are returned whether or not the write succeeds. Any other request leaves the
/// node unchanged. Allocation failure is answered with 503; nothing is allocated after the step of
/// a publish.
pub fn serve_one<S: Source, K: Sink, T: Tape>(
    alloc: Global,
    source: &mut S,
    sink: &mut K,
    node: &mut Node<T>,
) -> Served
    ensures outcome { IsOutcome T.Tape (S.left source.old) (K.written sink.old) (K.written sink.new)
        node.old result.messages node.new result.outcome }
    ensures moves { MovesOnce T.Tape node.old result.messages node.new }
    ensures takes { TakesRequest (S.piece source.old) (S.left source.old) (S.left source.new) }
    ensures reads { CountsReceiving result.outcome (S.failures source.old) (S.failures source.new) }
    ensures writes { CountsCompleting result.outcome (K.failures sink.old) (K.failures sink.new) }
    ensures last { IsEnding T.Tape K.Sink (S.left source.old) sink.old sink.new
        node.old result.messages node.new result.outcome }
{
    serve_with(alloc, source, sink, node, &mut Uncached)
}

/// Serves one request as [`serve_one`] does, with a cache of pictures of the node's maps, which
/// stays valid: a publish only adds to the node's history. The cache is unchanged, or as one query
/// to the map service leaves it.
pub fn serve_one_cached<S: Source, K: Sink, T: Tape>(
    alloc: Global,
    source: &mut S,
    sink: &mut K,
    node: &mut Node<T>,
    cache: &mut Cache,
) -> Served
    requires { AllCached node.old.parts.history cache.old }
    ensures outcome { IsOutcome T.Tape (S.left source.old) (K.written sink.old) (K.written sink.new)
        node.old result.messages node.new result.outcome }
    ensures moves { MovesOnce T.Tape node.old result.messages node.new }
    ensures takes { TakesRequest (S.piece source.old) (S.left source.old) (S.left source.new) }
    ensures reads { CountsReceiving result.outcome (S.failures source.old) (S.failures source.new) }
    ensures writes { CountsCompleting result.outcome (K.failures sink.old) (K.failures sink.new) }
    ensures last { IsEnding T.Tape K.Sink (S.left source.old) sink.old sink.new
        node.old result.messages node.new result.outcome }
    ensures cached { AllCached node.new.parts.history cache.new }
    ensures changed { (cache.new ≡ cache.old) ⊎ ((query : List ℕ) × IsCacheAfter
        (length node.old.parts.history) node.old.parts.history query cache.old cache.new) }
    ensures capacity { cache.new.cap ≡ cache.old.cap }
{
    serve_with(alloc, source, sink, node, cache)
}
