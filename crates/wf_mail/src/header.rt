//! How much of a message is missing, by its header.

ghost use Rattle.std.specs.Prelude.{◌≡◌, take, length, IfOk, OnOk, OnErr};
ghost use Rattle.wf_mail.specs.Header.{known_length, IsFilled};

use std::alloc::AllocError;
use wf_codec::{BODY_BYTES, HEADER_BYTES};

/// The number of bytes of the message at the front: that of the header until the header is whole,
/// then with the body that it states, which is taken to be no longer than the longest.
#[tactic(auto, unfolding(crate::specs::Header::known_length))]
pub fn known_length(bytes: &[u8]) -> usize
    ensures { result ≡ known_length bytes.now }
{
    match bytes {
        [_, _, a, b, c, d, ..] => {
            HEADER_BYTES + (u32::from_be_bytes([*a, *b, *c, *d]) as usize).min(BODY_BYTES)
        }
        _ => HEADER_BYTES,
    }
}

/// Moves the piece's first bytes behind the rest until the message there is whole, as far as its
/// header tells, or none are left. After allocation failure some may have been moved.
#[tactic(auto, using(crate::proofs::Headers::filled_on, crate::proofs::Headers::front_stays))]
pub fn complete(rest: &mut Vec<u8>, piece: &[u8]) -> Result<(), AllocError>
    ensures ok { OnOk result ((left : _) ×
        IsFilled rest.old.items piece.now rest.new.items left (known_length rest.new.items)) }
    ensures err { OnErr result (take (length rest.old.items) rest.new.items ≡ rest.old.items) }
{
    let left = fill(rest, piece, HEADER_BYTES)?;
    fill(rest, left, known_length(rest))?;
    Ok(())
}

/// Moves the piece's first bytes behind the rest until it has that length or none are left, and
/// returns what is left.
#[tactic(auto, using(crate::proofs::Headers::filled_by))]
fn fill<'a>(rest: &mut Vec<u8>, piece: &'a [u8], length: usize) -> Result<&'a [u8], AllocError>
    ensures ok { IfOk result (λ left.
        IsFilled rest.old.items piece.now rest.new.items left.now length) }
    ensures err { OnErr result (rest.new.items ≡ rest.old.items) }
{
    let (moved, left) = piece.split_at(length.saturating_sub(rest.len()).min(piece.len()));
    rest.extend_from_slice(moved)?;
    Ok(left)
}
