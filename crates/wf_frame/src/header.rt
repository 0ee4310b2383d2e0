ghost use Rattle.std.specs.Prelude.{◌≡◌, Some};
ghost use Rattle.wf_frame.specs.Layout.{Layout, lengths_of};
ghost use Rattle.wf_frame.specs.Frame.{frame_front, kind_front, length_front, body_front, IsSplitAs};

use crate::fault::FrameFault;
use crate::format::FrameFormat;
use crate::lengths::Lengths;

/// The number of bytes before a body: the version, the kind and the body's length.
pub const HEADER_BYTES: usize = 6;

/// The version, the kind's byte and the body of the frame at the front of the bytes. The checks go
/// from left to right, each as soon as its bytes are there: the version, the kind, the body's
/// length, whether the body is whole. What follows the frame isn't looked at.
#[tactic(auto, unfolding(crate::specs::Frame::frame_front))]
pub fn split_frame<F: FrameFormat>(bytes: &[u8]) -> Result<(u8, u8, &[u8]), FrameFault>
    ensures { IsSplitAs (λ x. (x.0, x.1, x.2.now)) result (frame_front F.format bytes.now) }
{
    match bytes {
        [] => Err(FrameFault::Short),
        [version, rest @ ..] if F::reads(*version) => split_kind::<F>(*version, rest),
        _ => Err(FrameFault::BadVersion),
    }
}

#[tactic(auto, using(crate::proofs::LengthTests::unknown_front, crate::proofs::LengthTests::known_front), unfolding(crate::specs::Frame::kind_front))]
fn split_kind<F: FrameFormat>(version: u8, bytes: &[u8]) -> Result<(u8, u8, &[u8]), FrameFault>
    ensures { IsSplitAs (λ x. (x.0, x.1, x.2.now)) result (kind_front F.format version bytes.now) }
{
    match bytes {
        [] => Err(FrameFault::Short),
        [kind, rest @ ..] => match F::lengths(version, *kind) {
            None => Err(FrameFault::BadKind),
            Some(lengths) => split_length::<F>(version, *kind, lengths, rest),
        },
    }
}

#[tactic(auto, unfolding(crate::specs::Frame::length_front))]
fn split_length<F: FrameFormat>(
    version: u8,
    kind: u8,
    lengths: Lengths,
    bytes: &[u8],
) -> Result<(u8, u8, &[u8]), FrameFault>
    ensures { (layout : Layout) → lengths ≡ lengths_of layout →
        IsSplitAs (λ x. (x.0, x.1, x.2.now)) result (length_front F.format version kind (Some layout) bytes.now) }
{
    match bytes {
        [a, b, c, d, rest @ ..] => {
            let length = u32::from_be_bytes([*a, *b, *c, *d]) as usize;
            split_body::<F>(version, kind, lengths, length, rest)
        }
        _ => Err(FrameFault::Short),
    }
}

#[tactic(auto, using(crate::proofs::LengthTests::allowed), unfolding(crate::specs::Frame::body_front))]
fn split_body<F: FrameFormat>(
    version: u8,
    kind: u8,
    lengths: Lengths,
    length: usize,
    bytes: &[u8],
) -> Result<(u8, u8, &[u8]), FrameFault>
    ensures { (layout : Layout) → lengths ≡ lengths_of layout →
        IsSplitAs (λ x. (x.0, x.1, x.2.now)) result (body_front F.format version kind layout length bytes.now) }
{
    if length > F::longest() {
        return Err(FrameFault::TooLong);
    }
    if !lengths.allow(length) {
        return Err(FrameFault::BadLength);
    }
    if bytes.len() < length {
        return Err(FrameFault::Short);
    }
    let (body, _) = bytes.split_at(length);
    Ok((version, kind, body))
}
