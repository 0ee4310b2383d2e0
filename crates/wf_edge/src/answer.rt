//! Answers that leave a node as it is.
ghost use Rattle.std.specs.Prelude.{◌≡◌};
ghost use Rattle.wf_http.specs.Target.{query_of};
ghost use Rattle.wf_edge.specs.PictureCache.{ChangesPictures, IsReadBy};
ghost use Rattle.wf_edge.specs.ResponseEnd.{Completes};
ghost use Rattle.wf_edge.specs.ErrorResponse.{response_of};
ghost use Rattle.wf_edge.specs.Page.{service_page, status_at, status_page, accepted_page, bad_map_page};
ghost use Rattle.wf_edge.specs.RequestEffect.{AnswersRequest, IsReadAnswered, IsReading};

use crate::completion::write_response;
use crate::error_report::respond_to_error;
use crate::error_response::ErrorResponse;
use crate::outcome::Outcome;
use crate::page::Page;
use crate::pictures::Pictures;
use crate::request::Request;
use crate::resource::RequestedResource;
use crate::status::Status;
use crate::text_line::{accepted_line, fault_line, status_line};
use http::StatusCode;
use std::alloc::Global;
use wf_ballot::Seq;
use wf_learner::History;
use wf_mapfile::MapFault;
use wf_node::Node;
use wf_stream::Sink;
use wf_tape::Tape;
use wf_wms::Answer;

/// The status of a node.
pub fn status_of<T: Tape>(node: &Node<T>) -> Status
    ensures { result ≡ status_at node.now }
{
    Status {
        id: node.id(),
        published: node.published(),
        proposal: node.proposal(),
    }
}

// The page of an answer of the map service.
fn service_page(answer: Answer) -> Page
    ensures { result ≡ service_page answer }
{
    let Answer { media, bytes, .. } = answer;
    Page::new(StatusCode::OK, media, bytes)
}

// The page of a status. Allocates nothing.
fn status_page(status: Status) -> Page
    ensures { result ≡ status_page status }
{
    let line = status_line(status.id, status.published, status.proposal);
    Page::of_line(StatusCode::OK, line)
}

// The page for a request that isn't a publish.
fn page_for<P: Pictures>(
    alloc: Global,
    history: &History,
    status: Status,
    pictures: &mut P,
    request: &Request,
) -> Result<Page, ErrorResponse>
    requires reads { IsReading request.now.asked }
    requires cached { P.cached pictures.old history.now.definitions }
    ensures answers { AnswersRequest request.now.asked (query_of request.now.head.target)
        history.now.definitions status result }
    ensures changed { ChangesPictures P.changes request.now.asked history.now.definitions
        (query_of request.now.head.target) result pictures.old pictures.new }
    ensures cached { P.cached pictures.new history.now.definitions }
    ensures capacity { P.capacity pictures.new ≡ P.capacity pictures.old }
{
    match request.resource() {
        RequestedResource::Wms => match pictures.answer(alloc, history, request.query()) {
            Ok(answer) => Ok(service_page(answer)),
            Err(_) => Err(ErrorResponse::Unavailable),
        },
        RequestedResource::Status => Ok(status_page(status)),
        RequestedResource::Publish(_) => unreachable!(),
    }
}

/// Answers a request that isn't a publish from the maps that are published and a status, and writes
/// the response: of a node its history and [`status_of`] it. Allocation failure is answered
/// with 503. The pictures are those after the query to the map service; a status, and an allocation
/// failure, leave them unchanged.
pub fn answer_get<K: Sink, P: Pictures>(
    alloc: Global,
    sink: &mut K,
    history: &History,
    status: Status,
    pictures: &mut P,
    request: &Request,
) -> Outcome
    requires reads { IsReading request.now.asked }
    requires cached { P.cached pictures.old history.now.definitions }
    ensures read { IsReadAnswered K.Sink request.now history.now.definitions status
        sink.old sink.new result }
    ensures changed { IsReadBy P.changes K.Sink request.now history.now.definitions status
        sink.old sink.new pictures.old pictures.new result }
    ensures cached { P.cached pictures.new history.now.definitions }
    ensures capacity { P.capacity pictures.new ≡ P.capacity pictures.old }
{
    let answer = page_for(alloc, history, status, pictures, request);
    let outcome = write_answer(sink, &answer);
    drop(answer);
    outcome
}

/// Writes a page, or the error response in its place.
pub(crate) fn write_answer<K: Sink>(sink: &mut K, answer: &Result<Page, ErrorResponse>) -> Outcome
    ensures { Completes K.Sink (response_of answer.now) sink.old sink.new result }
{
    match answer {
        Ok(page) => write_response(sink, &page.response()),
        Err(error_response) => write_response(sink, &respond_to_error(*error_response)),
    }
}

/// The page for a map accepted for the sequence after the last published. Allocates nothing.
pub(crate) fn accept(published: Seq) -> Page
    ensures { result ≡ accepted_page published }
{
    Page::of_line(StatusCode::ACCEPTED, accepted_line(published))
}

/// The page for a body that isn't a map, with its error. Allocates nothing.
pub(crate) fn write_fault(fault: MapFault) -> Page
    ensures { result ≡ bad_map_page fault }
{
    Page::of_line(StatusCode::BAD_REQUEST, fault_line(fault))
}
