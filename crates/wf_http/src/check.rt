//! The checks on a head.
ghost use Rattle.std.specs.Prelude.{◌≡◌, ◌≤◌, Some, IfSome, option_map};
ghost use Rattle.wf_text.specs.Number.{number_of_digits};
ghost use Rattle.wf_http.specs.Fields.{first_of};
ghost use Rattle.wf_http.specs.Checks.{most_body_bytes, codings_of, lengths_of, check_target, check_coding, check_reported, are_one_number, check_number, check_size, body_checks, body_length, first_failing, number_in};

use crate::fields::{CONTENT_LENGTH, Fields, TRANSFER_ENCODING};
use crate::http_error::HttpError;
use wf_text::number_of_digits;

/// The greatest length of a body, in bytes.
pub const MOST_BODY_BYTES: usize = 131_072;

/// The rejection of a target that doesn't begin with a slash (RFC 9112, section 3.2.1).
#[tactic(auto, unfolding(crate::specs::Checks::check_target))]
pub fn check_target(target: &[u8]) -> Option<HttpError>
    ensures { result ≡ check_target target.now }
{
    match target {
        [] => Some(HttpError::BadRequest),
        [first, ..] => {
            if *first == b'/' {
                None
            } else {
                Some(HttpError::BadRequest)
            }
        }
    }
}

fn check_coding(coding: Option<&[u8]>) -> Option<HttpError>
    ensures { result ≡ check_coding (option_map (λ value. value.now) coding.entry) }
{
    match coding {
        None => None,
        Some(_) => Some(HttpError::NotImplemented),
    }
}

fn check_reported(first: Option<&[u8]>) -> Option<HttpError>
    ensures { result ≡ check_reported (option_map (λ value. value.now) first.entry) }
{
    match first {
        None => Some(HttpError::LengthRequired),
        Some(_) => None,
    }
}

// Whether all lengths are digits, and the same number as the first. Numbers are compared by their
// digits without leading zeros, so they may have any length.
#[tactic(auto, using(crate::proofs::NumberTheorem::numbers_agree))]
fn are_one_number(fields: &Fields<'_>, first: &[u8]) -> bool
    requires { first_of (lengths_of fields.now) ≡ Some first.now }
    ensures { result ≡ are_one_number first.now (lengths_of fields.now) }
{
    fields.are_number(CONTENT_LENGTH, first)
}

fn check_number(fields: &Fields<'_>, first: Option<&[u8]>) -> Option<HttpError>
    requires { option_map (λ value. value.now) first ≡ first_of (lengths_of fields.now) }
    ensures { result ≡ check_number (first_of (lengths_of fields.now)) (lengths_of fields.now) }
{
    match first {
        None => None,
        Some(first) => {
            if are_one_number(fields, first) {
                None
            } else {
                Some(HttpError::BadRequest)
            }
        }
    }
}

fn check_size(first: Option<&[u8]>) -> Option<HttpError>
    ensures { result ≡ check_size (option_map (λ value. value.now) first.entry) }
{
    match first {
        None => None,
        Some(digits) => {
            if number_of_digits(digits) > MOST_BODY_BYTES as u64 {
                Some(HttpError::ContentTooLarge)
            } else {
                None
            }
        }
    }
}

// The rejection by the first check on a body that fails; `first` is its first length.
#[tactic(auto, using(crate::proofs::CheckTheorem::first_of_four))]
fn reject_body(fields: &Fields<'_>, first: Option<&[u8]>) -> Option<HttpError>
    requires { option_map (λ value. value.now) first ≡ first_of (lengths_of fields.now) }
    ensures { result ≡ first_failing (body_checks (codings_of fields.now) (lengths_of fields.now)) }
{
    check_coding(fields.first(TRANSFER_ENCODING))
        .or(check_reported(first))
        .or(check_number(fields, first))
        .or(check_size(first))
}

// The length of a body within the limit.
fn number_in(first: Option<&[u8]>) -> usize
    requires { IfSome (option_map (λ value. value.now) first)
        (λ digits. number_of_digits digits ≤ most_body_bytes) }
    ensures { result ≡ number_in (option_map (λ value. value.now) first.entry) }
{
    match first {
        None => 0,
        Some(digits) => number_of_digits(digits) as usize,
    }
}

/// The length of the body that the fields announce, or the rejection by the first check that fails:
/// of the body's coding (501), and whether its length is given (411), is one whole number (400) and
/// is within the limit (413) (RFC 9112, section 6; RFC 9110, section 8.6).
#[tactic(auto, using(crate::proofs::CheckTheorem::size_passed), unfolding(crate::specs::Checks::body_length))]
pub fn body_length(fields: &Fields<'_>) -> Result<usize, HttpError>
    ensures { result ≡ body_length fields.now }
{
    let first = fields.first(CONTENT_LENGTH);
    match reject_body(fields, first) {
        Some(http_error) => Err(http_error),
        None => Ok(number_in(first)),
    }
}
