//! Pages of the operator's port.

use http::StatusCode;
use std::alloc::{AllocError, Global};
use wf_client::Outgoing;
use wf_http::{Allowed, Response};

/// The media type of text.
const TEXT: &str = "text/plain; charset=utf-8";

/// The media type of metrics.
const METRICS: &str = "text/plain; version=0.0.4; charset=utf-8";

/// A page: its status, media type and text.
#[derive(Drop)]
pub(crate) struct TextPage {
    status: StatusCode,
    media: &'static str,
    allowed: Option<Allowed>,
    text: String,
}

impl TextPage {
    /// A page of one text.
    pub(crate) fn of(
        alloc: Global,
        status: StatusCode,
        text: &str,
    ) -> Result<TextPage, AllocError> {
        Ok(TextPage::of_text(status, String::from_str(alloc, text)?))
    }

    /// A page of a text that is given away.
    pub(crate) fn of_text(status: StatusCode, text: String) -> TextPage {
        TextPage {
            status,
            media: TEXT,
            allowed: None,
            text,
        }
    }

    /// A page of metrics.
    pub(crate) fn of_metrics(text: String) -> TextPage {
        TextPage {
            status: StatusCode::OK,
            media: METRICS,
            allowed: None,
            text,
        }
    }

    /// That only this method is allowed.
    pub(crate) fn only(alloc: Global, allowed: Allowed) -> Result<TextPage, AllocError> {
        let mut page = TextPage::of(
            alloc,
            StatusCode::METHOD_NOT_ALLOWED,
            "method not allowed\n",
        )?;
        page.allowed = Some(allowed);
        Ok(page)
    }

    /// Writes it as a response. Returns its status, and how many bytes were written: all, unless
    /// memory failed.
    pub(crate) fn send(self, outgoing: &mut Outgoing) -> (u16, u64) {
        let response = Response::new(self.status, self.media, self.allowed, self.text.as_bytes());
        let status = response.status();
        let bytes = match response.write(outgoing) {
            Ok(bytes) => bytes,
            Err(cut) => cut.written,
        };
        drop(response);
        drop(self);
        (status, bytes)
    }
}
