//! Why a request can't be read.

use crate::http_error::HttpError;

/// Why there is no request to answer, or only a rejection.
#[derive(Clone, Copy, PartialEq, Eq)]
pub enum RequestFault {
    /// The input is empty.
    NoRequest,
    /// A read failed.
    ReadFailed,
    /// An allocation failed.
    Memory,
    /// The input is rejected.
    Rejected(HttpError),
}
