//! The status of a replica.

ghost use Rattle.std.specs.Prelude.{◌≡◌, Some};
ghost use Rattle.wf_edge.specs.ErrorResponse.{plain, text_line};
ghost use Rattle.wf_edge.specs.Page.{page_of};
ghost use Rattle.wf_edge.specs.Completion.{IsCompleted};
ghost use Rattle.wf_replica.specs.Service.{status_page, status_words};

use arrayvec::ArrayVec;
use http::StatusCode;
use itoa::Buffer;
use wf_ballot::Seq;
use wf_client::Outgoing;
use wf_edge::{Outcome, write_response};
use wf_http::{Response, append};

/// The media type of a line of text.
const PLAIN: &str = "text/plain";

/// More bytes than the line has.
const MOST_LINE: usize = 64;

/// Writes the page of the status: the sequence of the last published map. Allocates nothing but the
/// bytes that are written.
pub(crate) fn write_status(outgoing: &mut Outgoing, published: Seq) -> Outcome
    ensures { IsCompleted (status_page published) (Some outgoing.old.bytes)
        (Some outgoing.new.bytes) result }
{
    let line = status_line(published);
    let response = line_response(line.as_slice());
    write_response(outgoing, &response)
}

/// The response of a line of text.
fn line_response(line: &[u8]) -> Response<'_>
    ensures { result ≡ page_of 200 plain line.now }
{
    Response::new(StatusCode::OK, PLAIN, None, line)
}

/// The line of the status.
fn status_line(published: Seq) -> ArrayVec<u8, MOST_LINE>
    ensures { result.items ≡ text_line (status_words published) }
{
    let mut line = ArrayVec::new();
    append(&mut line, b"replica published ");
    let mut digits = Buffer::new();
    append(&mut line, digits.format(published.number()).as_bytes());
    append(&mut line, b"\n");
    line
}
