//! Spans of the parts of a head in its bytes.
ghost use Rattle.std.specs.Prelude.{◌≡◌};
ghost use Rattle.httparse.specs.Spans.{span_bytes};

use httparse::spans::Span;

/// The bytes of a span.
pub(crate) fn bytes_in(bytes: &[u8], span: Span) -> &[u8]
    ensures { result.now ≡ span_bytes bytes.now span }
{
    let behind = bytes.split_at(span.start.min(bytes.len())).1;
    behind
        .split_at(span.end.saturating_sub(span.start).min(behind.len()))
        .0
}
