//! Responses in place of a page.

use wf_http::HttpError;

/// A response of one line of plain text, which allocates nothing. Each has its status.
#[derive(Clone, Copy, PartialEq, Eq)]
pub enum ErrorResponse {
    /// The request is rejected: the line is the status.
    Rejected(HttpError),
    /// 400 `K1`: the canonical text of the map is over the limit.
    TooBig,
    /// 409 `N2`: a proposal is running.
    Busy,
    /// 409 `N3`: the last sequence is published.
    SequenceFull,
    /// 409 `N4`: the proposal would need a new round, and there is no higher one. A leader needs
    /// none.
    RoundsFull,
    /// 503: an allocation failed, or the node's tape fails or has failed before.
    Unavailable,
}
