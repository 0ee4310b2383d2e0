//! The HTTP server side of a node, over any reader and writer (RFC 9110, RFC 9112).
//!
//! Heads, bodies and responses are wf_http's; readers and writers are wf_stream's.
//! - `route` has the resources of a node, `/wms`, `/status` and `/publish`, and the method of each.
//!   [`Request`] is a request to one of them.
//! - [`write_response`] writes a response and returns its [`Outcome`]. A [`ErrorResponse`] is
//! a response of one line;
//!   [`write_error`] responds if there is no request.
//! - [`answer_get`] answers a request that isn't a publish. It takes no node, but a history and a
//!   [`Status`], as [`status_of`] returns it of a node; where the pictures come from is a
//!   [`Pictures`].
//! - [`publish_request`] lets a node propose the map of a publish.
//! - [`serve_one`] does everything: it reads a request, answers it by a node, and writes the
//!   response; [`serve_one_cached`] does so with a cache of pictures of the node's maps. A caller
//!   for whom only a publish is an event calls these one by one: `specs/RequestEffectTheorems.antt`
//!   and `specs/ResponseEndTheorems.antt` lead from their contracts to that of `serve_one`.
//!
//! **Model.** `specs/Route.antt` states what the head of a request asks for, `specs/Request.antt`
//! which request an input begins with and why there is none. `specs/RequestEffect.antt` states the
//! response to a request and the node's step, with the pages in `specs/Page.antt` and a publish in
//! `specs/Publish.antt`.
//!
//! **Promises.**
//! - [`Request::read`]: the request is the one at the front of the input; a rejection is for its
//!   head, for the first check that fails, or for a truncated body; nothing after it is taken but
//!   what came in one piece with the last of its head.
//! - [`write_error`]: the response for the reason why there is no request is written
//!   (`specs/ErrorResponse.antt`), and nothing if the input is empty or a read failed.
//! - [`serve_one`]: a response to the input is written, or a prefix of it, and the number of bytes
//!   written is reported; and, even for readers and writers whose bytes aren't known, a failed
//!   write is the last call, and the node is unchanged or made one step Propose, whose messages are
//!   returned whether or not the write succeeds.
//! - [`answer_get`]: what becomes of the pictures is what the query to the map service does to
//!   them; a status and an allocation failure leave them unchanged (`specs/PictureCache.antt`).
//! - [`serve_one_cached`]: as `serve_one`, and the cache's pictures are still those of the node's
//!   maps; the cache is unchanged, or as one query to the map service leaves it.
//! - `theorem`: equal requests to the map service have equal responses, at two nodes too, wherever
//!   these answer alike; and which requests may be answered with 503 (`specs/Unavailable.antt`).
//!
//! Only a body, an answer of the map service and the step of a publish allocate: a request that its
//! head rejects, a request for `/status`, and, once it is read, a body that isn't UTF-8 are never
//! answered with 503 for allocation failure. A body that isn't a map is answered with its error, as
//! far as `wf_mapfile`'s `read` promises which.
//!
//! **Doesn't.** It doesn't promise that a reader ever returns its next byte, that an allocation
//! succeeds or had to fail, or that a message arrives.
#![tactic(auto)]

mod answer;
mod completion;
mod error_report;
mod error_response;
mod outcome;
mod page;
mod pictures;
mod publish;
mod publish_fault;
mod request;
mod resource;
mod route;
mod serve;
mod status;
mod text_line;
mod theorem;

pub use answer::{answer_get, status_of};
pub use completion::{write_error, write_response};
pub use error_report::respond_to_error;
pub use error_response::ErrorResponse;
pub use outcome::Outcome;
pub use pictures::Pictures;
pub use request::Request;
pub use resource::RequestedResource;
pub use route::resolve;
pub use serve::{Served, publish_request, serve_one, serve_one_cached};
pub use status::Status;
pub use theorem::{
    each_query_has_one_page, equal_requests_have_equal_responses, only_these_are_unavailable,
};
pub use wf_mail::{Inbox, InboxFault};
pub use wf_stream::{Bytes, Output, Sink, Source, Stream};
