//! The response for an error response.
ghost use Rattle.std.specs.Prelude.{◌≡◌};
ghost use Rattle.wf_edge.specs.ErrorResponse.{text_line, http_error_status, http_error_words, allowed_methods, status_of, words_of, allowed_of, response_of_error, error_of_result, error_of_fault};

use crate::error_response::ErrorResponse;
use http::StatusCode;
use wf_http::{Allowed, HttpError, RequestFault, Response};
use wf_node::NodeFault;

/// The media type of a line of text.
pub(crate) const PLAIN: &str = "text/plain";

fn http_error_status(http_error: HttpError) -> StatusCode
    ensures { result ≡ http_error_status http_error }
{
    match http_error {
        HttpError::BadRequest => StatusCode::BAD_REQUEST,
        HttpError::NotFound => StatusCode::NOT_FOUND,
        HttpError::MethodNotAllowed(_) => StatusCode::METHOD_NOT_ALLOWED,
        HttpError::LengthRequired => StatusCode::LENGTH_REQUIRED,
        HttpError::ContentTooLarge => StatusCode::PAYLOAD_TOO_LARGE,
        HttpError::HeadTooLarge => StatusCode::REQUEST_HEADER_FIELDS_TOO_LARGE,
        HttpError::NotImplemented => StatusCode::NOT_IMPLEMENTED,
    }
}

fn http_error_line(http_error: HttpError) -> &'static [u8]
    ensures { result.now ≡ text_line (http_error_words http_error) }
{
    match http_error {
        HttpError::BadRequest => b"400\n",
        HttpError::NotFound => b"404\n",
        HttpError::MethodNotAllowed(_) => b"405\n",
        HttpError::LengthRequired => b"411\n",
        HttpError::ContentTooLarge => b"413\n",
        HttpError::HeadTooLarge => b"431\n",
        HttpError::NotImplemented => b"501\n",
    }
}

fn allowed_methods(http_error: HttpError) -> Option<Allowed>
    ensures { result ≡ allowed_methods http_error }
{
    match http_error {
        HttpError::MethodNotAllowed(method) => Some(method),
        HttpError::BadRequest
        | HttpError::NotFound
        | HttpError::LengthRequired
        | HttpError::ContentTooLarge
        | HttpError::HeadTooLarge
        | HttpError::NotImplemented => None,
    }
}

fn status(error_response: ErrorResponse) -> StatusCode
    ensures { result ≡ status_of error_response }
{
    match error_response {
        ErrorResponse::Rejected(http_error) => http_error_status(http_error),
        ErrorResponse::TooBig => StatusCode::BAD_REQUEST,
        ErrorResponse::Busy | ErrorResponse::SequenceFull | ErrorResponse::RoundsFull =>
            StatusCode::CONFLICT,
        ErrorResponse::Unavailable => StatusCode::SERVICE_UNAVAILABLE,
    }
}

fn line(error_response: ErrorResponse) -> &'static [u8]
    ensures { result.now ≡ text_line (words_of error_response) }
{
    match error_response {
        ErrorResponse::Rejected(http_error) => http_error_line(http_error),
        ErrorResponse::TooBig => b"K1\n",
        ErrorResponse::Busy => b"N2\n",
        ErrorResponse::SequenceFull => b"N3\n",
        ErrorResponse::RoundsFull => b"N4\n",
        ErrorResponse::Unavailable => b"503\n",
    }
}

fn allowed_method(error_response: ErrorResponse) -> Option<Allowed>
    ensures { result ≡ allowed_of error_response }
{
    match error_response {
        ErrorResponse::Rejected(http_error) => allowed_methods(http_error),
        ErrorResponse::TooBig
        | ErrorResponse::Busy
        | ErrorResponse::SequenceFull
        | ErrorResponse::RoundsFull
        | ErrorResponse::Unavailable => None,
    }
}

/// The response for an error response: its status, and one line of plain text. Allocates nothing.
pub fn respond_to_error(error_response: ErrorResponse) -> Response<'static>
    ensures { result ≡ response_of_error error_response }
{
    Response::new(
        status(error_response),
        PLAIN,
        allowed_method(error_response),
        line(error_response),
    )
}

/// The error response for a request that can't be read; none if the input is empty or a read
/// failed.
pub fn error_of_fault(fault: RequestFault) -> Option<ErrorResponse>
    ensures { result ≡ error_of_fault fault }
{
    match fault {
        RequestFault::NoRequest | RequestFault::ReadFailed => None,
        RequestFault::Memory => Some(ErrorResponse::Unavailable),
        RequestFault::Rejected(http_error) => Some(ErrorResponse::Rejected(http_error)),
    }
}

/// The error response for a node's error. `Nothing` never answers a proposal.
pub(crate) fn error_of_result(fault: NodeFault) -> ErrorResponse
    ensures { result ≡ error_of_result fault }
{
    match fault {
        NodeFault::Busy => ErrorResponse::Busy,
        NodeFault::SequenceFull => ErrorResponse::SequenceFull,
        NodeFault::RoundsFull => ErrorResponse::RoundsFull,
        NodeFault::Memory | NodeFault::Halted | NodeFault::TapeFailed | NodeFault::Nothing => {
            ErrorResponse::Unavailable
        }
    }
}
