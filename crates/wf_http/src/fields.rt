//! The header fields of a request.
ghost use Rattle.std.specs.Prelude.{◌≡◌, ◌≤◌, ◌&&◌, not, is_some, length, map, find, option_map};
ghost use Rattle.std.specs.List.{list_all, prefix_len};
ghost use Rattle.httparse.specs.Spans.{header_bytes};
ghost use Rattle.wf_http.specs.Fields.{is_named, is_digits, is_number, is_zero, significant, values, first_of};

use crate::span::bytes_in;
use httparse::spans::HeaderSpan;
use std::marker::Model;
use wf_text::are_digits;

/// The name of the field with a body's transfer codings (RFC 9112, section 6.1).
pub const TRANSFER_ENCODING: &[u8] = b"Transfer-Encoding";

/// The name of the field with a body's length (RFC 9110, section 8.6).
pub const CONTENT_LENGTH: &[u8] = b"Content-Length";

// Whether a value is one or more decimal digits.
fn is_digits(value: &[u8]) -> bool
    ensures { result ≡ is_digits value.now }
{
    match value {
        [] => false,
        [_, ..] => are_digits(value),
    }
}

fn count_zeros(digits: &[u8]) -> usize
    ensures value { result ≡ prefix_len is_zero digits.now }
    ensures within { result ≤ length digits.now }
{
    digits.iter().take_while(|digit| **digit == b'0').count()
}

// The digits without leading zeros.
fn significant(digits: &[u8]) -> &[u8]
    ensures { result.now ≡ significant digits.now }
{
    digits.split_at(count_zeros(digits)).1
}

// Whether the field at a span has this name.
fn is_named(bytes: &[u8], span: &HeaderSpan, name: &[u8]) -> bool
    ensures { result ≡ is_named name.now (header_bytes bytes.now span.now) }
{
    bytes_in(bytes, span.name).eq_ignore_ascii_case(name)
}

// Whether a value is digits, and the same number as these. Numbers are compared by their digits
// without leading zeros, so they may have any length.
fn is_number(first: &[u8], value: &[u8]) -> bool
    ensures { result ≡ is_number first.now value.now }
{
    is_digits(value) && significant(value) == significant(first)
}

// Whether the field at a span has this name, and its value isn't that number.
fn has_other(bytes: &[u8], span: &HeaderSpan, name: &[u8], first: &[u8]) -> bool
    ensures { result ≡ (is_named name.now (header_bytes bytes.now span.now)
        && not (is_number first.now (header_bytes bytes.now span.now).1)) }
{
    is_named(bytes, span, name) && !is_number(first, bytes_in(bytes, span.value))
}

/// The header fields of a request, as spans of its bytes.
#[derive(Drop)]
pub struct Fields<'b> {
    bytes: &'b [u8],
    spans: &'b [HeaderSpan],
}

impl<'b> Model for Fields<'b> {
    ghost use Rattle.std.specs.Prelude.{ℕ, List, map};
    ghost use Rattle.httparse.specs.Spans.{header_bytes};

    ghost Value = { List (List ℕ × List ℕ) };

    ghost view = { λ f. map (header_bytes f.bytes.now) f.spans.now };
}

impl<'b> Fields<'b> {
    /// The fields at these spans.
    pub fn new(bytes: &'b [u8], spans: &'b [HeaderSpan]) -> Self
        ensures { result ≡ map (header_bytes bytes.now) spans.now }
    {
        Fields { bytes, spans }
    }

    fn find_value(&self, name: &[u8]) -> Option<&'b [u8]>
        ensures { option_map (λ value. value.now) result
            ≡ option_map (λ field. field.1) (find (is_named name.now) self.now) }
    {
        for span in self.spans {
            if is_named(self.bytes, span, name) {
                return Some(bytes_in(self.bytes, span.value));
            }
        }
        None
    }

    fn finds_other(&self, name: &[u8], first: &[u8]) -> bool
        ensures { result ≡ is_some
            (find (λ field. is_named name.now field && not (is_number first.now field.1)) self.now) }
    {
        for span in self.spans {
            if has_other(self.bytes, span, name, first) {
                return true;
            }
        }
        false
    }

    /// The value of the first field of that name.
    pub fn first(&self, name: &[u8]) -> Option<&'b [u8]>
        ensures { option_map (λ value. value.now) result ≡ first_of (values name.now self.now) }
    {
        self.find_value(name)
    }

    /// Whether the value of each field of that name is one or more decimal digits, and the same
    /// number as this one.
    pub fn are_number(&self, name: &[u8], first: &[u8]) -> bool
        ensures { result ≡ list_all (is_number first.now) (values name.now self.now) }
    {
        !self.finds_other(name, first)
    }
}
