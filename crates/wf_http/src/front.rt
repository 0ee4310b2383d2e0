//! The front of a request: its head, and the bytes read after it.
ghost use Rattle.std.specs.Prelude.{◌≡◌, ◌≢◌, ◌≤◌, ◌<◌, ◌+◌, ◌-◌, ◌++◌, ℕ, List, Option, None, Ok, length, IfOk, IfErr, IfSome, OnOk};
ghost use Rattle.std.specs.Io.KnownBytes.{IsAtEnd};
ghost use Rattle.httparse.specs.Grammar.{HasNoRequest};
ghost use Rattle.wf_http.specs.Head.{most_head_bytes, most_fields};
ghost use Rattle.wf_http.specs.Front.{front_of, IsFront, TakesFront, TakesPiece, TakesHead, HasNoHead, IsHeadError, IsHeadFault, CountsReads};
ghost use Rattle.wf_http.specs.Checks.{most_body_bytes};
ghost use Rattle.wf_http.specs.declared.fault.RequestFault.TheVariants.{ReadFailed, Memory};
ghost use Rattle.wf_stream.specs.Effects.{Counts, ReadsPiece};

use crate::buffer::append;
use crate::check::MOST_BODY_BYTES;
use crate::fault::RequestFault;
use crate::fields::Fields;
use crate::http_error::HttpError;
use crate::span::bytes_in;
use arrayvec::ArrayVec;
use httparse::spans::{EMPTY_HEADER_SPAN, HeaderSpan, RequestSpans, parse_request};
use httparse::{Error, Status};
use std::io;
use std::marker::Model;
use wf_stream::Source;

/// The greatest length of a head, in bytes, with the empty lines before it.
pub const MOST_HEAD_BYTES: usize = 8_192;

/// The greatest number of fields of a head.
pub const MOST_FIELDS: usize = 32;

/// The limits in the code equal those in the specifications.
pub fn limits_are_as_defined()
    ensures bytes { MOST_HEAD_BYTES ≡ most_head_bytes }
    ensures fields { MOST_FIELDS ≡ most_fields }
    ensures body { MOST_BODY_BYTES ≡ most_body_bytes }
{}

// The spans of the parts of a head.
#[derive(Clone, Copy)]
struct Parts {
    fields: [HeaderSpan; MOST_FIELDS],
    spans: RequestSpans,
}

// The head at the front of the bytes; none if they may still become one.
#[tactic(auto, using(crate::proofs::HeadTheorem::small, crate::proofs::HeadTheorem::overflows))]
fn parse(bytes: &[u8]) -> Result<Option<Parts>, HttpError>
    requires { length bytes.now ≤ most_head_bytes }
    ensures found { IfOk result (λ found. IfSome found
        (λ parts. IsFront bytes.now (front_of bytes.now parts.fields parts.spans))) }
    ensures none { result ≡ Ok None → HasNoRequest bytes.now }
    // Whatever bytes follow.
    ensures refused { IfErr result
        (λ http_error. (more : List ℕ) → IsHeadError (bytes.now ++ more) http_error) }
{
    let mut fields = [EMPTY_HEADER_SPAN; MOST_FIELDS];
    match parse_request(bytes, &mut fields) {
        Ok(Status::Complete(spans)) => Ok(Some(Parts { fields, spans })),
        Ok(Status::Partial) => Ok(None),
        Err(Error::TooManyHeaders) => Err(HttpError::HeadTooLarge),
        Err(_) => Err(HttpError::BadRequest),
    }
}

// The result if the input ends without a complete head.
fn early_end(bytes: &[u8]) -> RequestFault
    requires { HasNoHead bytes.now }
    ensures fault { IsHeadFault bytes.now result }
    ensures calm { result ≢ ReadFailed }
    ensures no_memory { result ≢ Memory }
{
    if bytes.is_empty() {
        RequestFault::NoRequest
    } else {
        RequestFault::Rejected(HttpError::BadRequest)
    }
}

// The bytes read while looking for a head, stored inline: allocates nothing.
type HeadBytes = ArrayVec<u8, MOST_HEAD_BYTES>;

// Reads once, at most as many bytes as there is room for, and appends them.
#[tactic(auto, using(crate::proofs::HeadTheorem::piece_kept, crate::proofs::HeadTheorem::piece_taken))]
fn read_on<S: Source>(source: &mut S, bytes: &mut HeadBytes) -> io::Result<usize>
    requires { length bytes.old.items < most_head_bytes }
    ensures read { IfOk result (λ count.
        ReadsPiece count (S.left source.old) (S.left source.new) bytes.old.items bytes.new.items) }
    ensures within { OnOk result (length bytes.new.items ≤ most_head_bytes) }
    ensures end { IfOk result (λ count. count ≡ 0 → IsAtEnd (S.left source.new)) }
    ensures takes { TakesPiece (S.piece source.old)
        (most_head_bytes - length bytes.old.items) (S.left source.old) (S.left source.new) }
    ensures piece { S.piece source.new ≡ S.piece source.old }
    ensures cause { Counts result (S.failures source.old) (S.failures source.new) }
{
    let mut piece = [0u8; MOST_HEAD_BYTES];
    let room = MOST_HEAD_BYTES - bytes.len();
    match source.read(&mut piece[..room]) {
        Ok(count) => {
            append(bytes, &piece[..count]);
            Ok(count)
        }
        Err(error) => Err(error),
    }
}

/// A head, and the bytes read after it.
#[derive(Drop)]
pub struct Front {
    bytes: HeadBytes,
    parts: Parts,
}

impl Model for Front {
    ghost use Rattle.wf_http.specs.Front.{Front as FrontValue, front_of};

    ghost Value = { FrontValue };

    ghost view = { λ f. front_of f.bytes.items f.parts.fields f.parts.spans };
}

impl Front {
    /// Reads from the front of the input until a head is complete, and no further: at most 8,192
    /// bytes, in at most that many calls, since each call returns a byte, the end or an error.
    /// Allocates nothing.
    #[tactic(auto, using(crate::proofs::HeadTheorem::fault_at_end, crate::proofs::HeadTheorem::nothing_more, crate::proofs::HeadTheorem::fault_at_limit, crate::proofs::HeadTheorem::taken_at_limit, wf_stream::specs::KnownTheorems::piece_length))]
    pub fn read<S: Source>(source: &mut S) -> Result<Self, RequestFault>
        ensures ok { IfOk result (TakesFront (S.left source.old) (S.left source.new)) }
        ensures err { IfErr result
            (λ fault. IfSome (S.left source.old) (λ input. IsHeadFault input fault)) }
        ensures takes { TakesHead (S.piece source.old) (S.left source.old) (S.left source.new) }
        ensures no_memory { IfErr result (λ fault. fault ≢ Memory) }
        ensures reads { CountsReads result (S.failures source.old) (S.failures source.new) }
    {
        let mut bytes = ArrayVec::new();
        while bytes.len() < MOST_HEAD_BYTES {
            match read_on(source, &mut bytes) {
                Ok(0) => return Err(early_end(bytes.as_slice())),
                Ok(_) => {}
                Err(_) => return Err(RequestFault::ReadFailed),
            }
            match parse(bytes.as_slice()) {
                Ok(Some(parts)) => return Ok(Front { bytes, parts }),
                Ok(None) => {}
                Err(http_error) => return Err(RequestFault::Rejected(http_error)),
            }
        }
        Err(RequestFault::Rejected(HttpError::HeadTooLarge))
    }

    /// The target of the request.
    pub fn target(&self) -> &[u8]
        ensures { result.now ≡ self.now.head.target }
    {
        bytes_in(self.bytes.as_slice(), self.parts.spans.path)
    }

    /// The bytes read after the head.
    pub fn behind(&self) -> &[u8]
        ensures { result.now ≡ self.now.behind }
    {
        let length = self.parts.spans.len.min(self.bytes.len());
        self.bytes.as_slice().split_at(length).1
    }

    /// The method of the request.
    pub fn method(&self) -> &[u8]
        ensures { result.now ≡ self.now.head.method }
    {
        bytes_in(self.bytes.as_slice(), self.parts.spans.method)
    }

    /// The header fields of the request.
    #[tactic(auto, using(crate::proofs::HeadTheorem::taken_within))]
    pub fn fields(&self) -> Fields<'_>
        ensures { result ≡ self.now.head.fields }
    {
        let count = self.parts.spans.headers.min(self.parts.fields.len());
        Fields::new(self.bytes.as_slice(), self.parts.fields.split_at(count).0)
    }
}
