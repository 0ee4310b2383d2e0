//! Why a request is rejected.

/// The methods that a resource may have (RFC 9110, section 9.3).
#[derive(Clone, Copy, PartialEq, Eq)]
pub enum Allowed {
    Get,
    Post,
}

/// Why a request is rejected, each with its status (RFC 9110, section 15; RFC 6585, section 5).
#[derive(Clone, Copy, PartialEq, Eq)]
pub enum HttpError {
    /// 400: no head can be parsed or it is incomplete, the target doesn't begin with `/`, the
    /// body's length isn't one whole number, or the body is truncated.
    BadRequest,
    /// 404: there is no resource at the path.
    NotFound,
    /// 405: the resource allows only this method.
    MethodNotAllowed(Allowed),
    /// 411: the body's length isn't given.
    LengthRequired,
    /// 413: the body is longer than [`MOST_BODY_BYTES`](crate::check::MOST_BODY_BYTES).
    ContentTooLarge,
    /// 431: the head is longer than 8,192 bytes or has more than 32 fields.
    HeadTooLarge,
    /// 501: the body has a transfer coding.
    NotImplemented,
}
