//! Requests and responses of HTTP, over any reader and writer (RFC 9110, RFC 9112).
//!
//! Readers and writers are [`wf_stream::Source`] and [`wf_stream::Sink`], which count their failed
//! calls and report their bytes if known.
//! - [`Front`] is the head of a request (its method, target and fields) with the bytes read after
//!   it; a target is a path and a query (`target`). `check` has the checks on a head that hold for
//!   any resource, and the length of the body that its fields announce; [`read_body`] reads a body.
//! - [`Response`] is a response, which writes itself.
//! - [`append`] appends to bytes stored inline.
//!
//! **Model.** What is read of a head is in `specs/Front.antt`, of a body in `specs/Body.antt`; the
//! checks and the length of a body are in `specs/Checks.antt`. A response is its status, media
//! type, allowed method and body (`specs/Response.antt`).
//!
//! **Promises.**
//! - [`Front::read`]: the head is the one at the front of the input, and no read is made once it is
//!   complete; a rejection is for an input that has no such head; a failed read is reported iff one
//!   has failed.
//! - [`read_body`]: the body is the bytes that follow, and no further ones are read; a rejection is
//!   for a truncated body.
//! - [`Response::write`]: exactly the bytes of the response are written, or a prefix of them if the
//!   writer failed; the failed write is the last call (`specs/WriteEnd.antt`).
//!
//! Only a body allocates.
//!
//! **Doesn't.** It doesn't know which resources there are, nor their methods (wf_edge), nor promise
//! that a reader ever returns its next byte.
#![tactic(auto)]

mod body;
mod buffer;
mod check;
mod fault;
mod fields;
mod front;
mod gathered;
mod http_error;
mod method;
mod response;
mod span;
mod target;

pub use body::read_body;
pub use buffer::append;
pub use check::{body_length, check_target};
pub use fault::RequestFault;
pub use fields::Fields;
pub use front::{Front, MOST_HEAD_BYTES, limits_are_as_defined};
pub use http_error::{Allowed, HttpError};
pub use response::Response;
pub use target::{path_of, query_of};
