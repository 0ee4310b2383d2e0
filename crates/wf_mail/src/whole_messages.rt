//! Whole messages at the front of bytes.

ghost use Rattle.std.specs.Prelude.{◌≢◌, ℕ, List, map, IfOk, IfErr, MatchOption};
ghost use Rattle.wf_codec.specs.Message.{view};
ghost use Rattle.wf_mail.specs.Stream.{Splits, Reads, IsWrong, Breaks};
ghost use Rattle.wf_mail.specs.FrontMessage.{TakesOne, TakesNone};

use std::alloc::Global;
use wf_codec::{DecodeFault, Message, decode};

/// Appends the whole messages that the bytes begin with, and returns what follows them: part of a
/// message at most.
#[tactic(auto, using(crate::proofs::WholeMessages::splits_one_more, crate::proofs::WholeMessages::left_is_less, crate::proofs::WholeMessages::read_to, crate::proofs::WholeMessages::broken_at, crate::proofs::WholeMessages::read_to_end))]
pub fn read_whole<'a>(
    alloc: Global,
    messages: &mut Vec<Message>,
    bytes: &'a [u8],
) -> Result<&'a [u8], DecodeFault>
    ensures ok { (stream : List ℕ) → Splits stream (map view messages.old.items) bytes.now →
        IfOk result (λ left. Reads stream (map view messages.new.items) left.now) }
    ensures err { (stream : List ℕ) → Splits stream (map view messages.old.items) bytes.now →
        IfErr result (λ fault. fault ≢ DecodeFault.Memory → Breaks stream fault) }
{
    let mut rest = bytes;
    while !rest.is_empty() {
        match read_next(alloc, messages, rest) {
            Ok(Some(length)) => rest = rest.split_at(length).1,
            Ok(None) => return Ok(rest),
            Err(fault) => return Err(fault),
        }
    }
    Ok(rest)
}

/// Appends the message at the front of the bytes, and returns its length; None if more bytes are
/// needed.
#[tactic(auto, using(crate::proofs::WholeMessages::next_taken))]
pub fn read_next(
    alloc: Global,
    messages: &mut Vec<Message>,
    bytes: &[u8],
) -> Result<Option<usize>, DecodeFault>
    ensures ok { IfOk result (λ found. MatchOption found
        (TakesNone bytes.now (map view messages.old.items) (map view messages.new.items))
        (λ n. TakesOne bytes.now n (map view messages.old.items) (map view messages.new.items))) }
    ensures err { IfErr result (λ fault. fault ≢ DecodeFault.Memory → IsWrong bytes.now fault) }
{
    match decode(alloc, bytes) {
        Ok((message, length)) => {
            messages.push(message)?;
            Ok(Some(length))
        }
        Err(DecodeFault::Short) => Ok(None),
        Err(fault) => Err(fault),
    }
}
