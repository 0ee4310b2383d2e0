//! A node's responses with a body of their own.
ghost use Rattle.std.specs.Prelude.{◌≡◌};
ghost use Rattle.wf_edge.specs.Contents.{bytes_of};
ghost use Rattle.wf_edge.specs.ErrorResponse.{plain};
ghost use Rattle.wf_edge.specs.Page.{page_of};

use crate::error_report::PLAIN;
use crate::text_line::TextLine;
use http::StatusCode;
use std::marker::Model;
use wf_http::Response;

/// The bytes of a page.
#[derive(Drop)]
pub enum Contents {
    /// An answer of the map service.
    Bytes(Vec<u8>),
    /// A line of the node's own, stored inline.
    TextLine(TextLine),
}

/// A response whose body is in memory.
#[derive(Drop)]
pub(crate) struct Page {
    status: StatusCode,
    media: &'static str,
    body: Contents,
}

impl Model for Page {
    ghost use Rattle.std.specs.Prelude.{None};
    ghost use Rattle.wf_edge.specs.Contents.{bytes_of};
    ghost use Rattle.wf_http.specs.Response.{Response as ResponseValue};

    ghost Value = { ResponseValue };

    ghost view = { λ p. record { status = p.status; media = p.media.now; allowed = None; body = bytes_of p.body } };
}

fn slice(contents: &Contents) -> &[u8]
    ensures { result.now ≡ bytes_of contents.now }
{
    match contents {
        Contents::Bytes(bytes) => bytes,
        Contents::TextLine(line) => line.as_slice(),
    }
}

impl Page {
    /// A page with a status, and a body of a media type.
    pub(crate) fn new(status: StatusCode, media: &'static str, body: Vec<u8>) -> Self
        ensures { result ≡ page_of status media.now body.items }
    {
        Page {
            status,
            media,
            body: Contents::Bytes(body),
        }
    }

    /// A page of one line of plain text. Allocates nothing.
    pub(crate) fn of_line(status: StatusCode, line: TextLine) -> Self
        ensures { result ≡ page_of status plain line.bytes.items }
    {
        Page {
            status,
            media: PLAIN,
            body: Contents::TextLine(line),
        }
    }

    /// The page as a response.
    pub(crate) fn response(&self) -> Response<'_>
        ensures { result ≡ self.now }
    {
        Response::new(self.status, self.media, None, slice(&self.body))
    }
}
