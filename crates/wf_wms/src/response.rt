//! Answers.
ghost use Rattle.std.specs.Prelude.{◌≡◌, IfOk};
ghost use Rattle.wf_wms.specs.Answer.{rejection, metadata, picture_answer};

use crate::capabilities::capabilities;
use crate::exception::Exception;
use crate::report::exception_report;
use std::alloc::{AllocError, Global};
use std::marker::Model;
use wf_def::MapDef;

/// The kind of an answer.
#[derive(Clone, Copy, PartialEq, Eq)]
pub enum Kind {
    /// The service metadata.
    Capabilities,
    /// A picture of the map.
    Map,
    /// A service exception.
    Exception(Exception),
}

/// The media type of both XML documents.
const XML: &str = "text/xml";

/// The media type of pictures: a pixmap in the raw form of Netpbm's PPM format.
const PIXMAP: &str = "image/x-portable-pixmap";

/// The answer to a query.
#[derive(Drop)]
pub struct Answer {
    pub kind: Kind,
    /// The media type of the bytes.
    pub media: &'static str,
    pub bytes: Vec<u8>,
}

impl Model for Answer {
    ghost use Rattle.wf_wms.specs.Answer.{AnswerValue};

    ghost Value = { AnswerValue };

    ghost view = { λ a. record { kind = a.kind; media = a.media.now; bytes = a.bytes.items } };
}

impl Answer {
    /// The answer that rejects a request.
    pub(crate) fn rejection(alloc: Global, exception: Exception) -> Result<Self, AllocError>
        ensures { IfOk result (λ answer. answer ≡ rejection exception) }
    {
        Ok(Answer {
            kind: Kind::Exception(exception),
            media: XML,
            bytes: exception_report(alloc, exception)?,
        })
    }

    /// The answer with the service metadata.
    pub(crate) fn metadata(alloc: Global, seq: u16, map: &MapDef) -> Result<Self, AllocError>
        ensures { IfOk result (λ answer. answer ≡ metadata seq map.now) }
    {
        Ok(Answer {
            kind: Kind::Capabilities,
            media: XML,
            bytes: capabilities(alloc, seq, map)?,
        })
    }

    /// The answer with a picture file.
    pub(crate) fn picture(file: Vec<u8>) -> Self
        ensures { result ≡ picture_answer file.items }
    {
        Answer {
            kind: Kind::Map,
            media: PIXMAP,
            bytes: file,
        }
    }
}
