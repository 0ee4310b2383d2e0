//! A piece joined to the rest of the pieces before it.

ghost use Rattle.std.specs.Prelude.{◌≡◌, ◌≢◌, ◌++◌, ℕ, List, [], map, take, length, OnOk, OnErr, IfErr, IsErrOf};
ghost use Rattle.wf_codec.specs.Message.{view};
ghost use Rattle.wf_mail.specs.Stream.{Splits, Reads, Breaks, IsUnfinishedPart};

use crate::header::{complete, known_length};
use crate::whole_messages::{read_next, read_whole};
use std::alloc::Global;
use wf_codec::{DecodeFault, HEADER_BYTES, Message};

/// Appends the messages that the piece completes to the empty list, and keeps what follows them in
/// place of the rest. After allocation failure the rest is unchanged.
pub fn take_in(
    alloc: Global,
    messages: &mut Vec<Message>,
    rest: &mut Vec<u8>,
    piece: &[u8],
) -> Result<(), DecodeFault>
    requires empty { messages.old.items ≡ [] }
    requires part { IsUnfinishedPart rest.old.items }
    ensures ok { OnOk result
        (Reads (rest.old.items ++ piece.now) (map view messages.new.items) rest.new.items) }
    ensures err { IfErr result (λ fault. fault ≢ DecodeFault.Memory →
        Breaks (rest.old.items ++ piece.now) fault) }
    ensures memory { IsErrOf result DecodeFault.Memory → rest.new.items ≡ rest.old.items }
{
    let before = rest.len();
    if before == 0 {
        return keep_after(alloc, messages, rest, piece);
    }
    match join(alloc, messages, rest, piece) {
        Err(DecodeFault::Memory) => {
            rest.truncate(before);
            Err(DecodeFault::Memory)
        }
        result => result,
    }
}

/// Takes in a piece behind a rest that isn't empty. After allocation failure some bytes of the
/// piece may follow the rest.
#[tactic(auto, using(crate::proofs::Joined::still_part, crate::proofs::Joined::still_none, crate::proofs::Joined::ends_behind, crate::proofs::Joined::ends_within, crate::proofs::Joined::ends_there, crate::proofs::Joined::wrong_in, crate::proofs::Headers::front_stays))]
fn join(
    alloc: Global,
    messages: &mut Vec<Message>,
    rest: &mut Vec<u8>,
    piece: &[u8],
) -> Result<(), DecodeFault>
    requires empty { messages.old.items ≡ [] }
    requires part { IsUnfinishedPart rest.old.items }
    ensures ok { OnOk result
        (Reads (rest.old.items ++ piece.now) (map view messages.new.items) rest.new.items) }
    ensures err { IfErr result (λ fault. fault ≢ DecodeFault.Memory →
        Breaks (rest.old.items ++ piece.now) fault) }
    ensures front { OnErr result (take (length rest.old.items) rest.new.items ≡ rest.old.items) }
{
    let before = rest.len();
    complete(rest, piece)?;
    // The header was judged when it became whole.
    if HEADER_BYTES <= before && rest.len() < known_length(rest) {
        return Ok(());
    }
    match read_next(alloc, messages, rest)? {
        None => Ok(()),
        Some(length) => { keep_after(alloc, messages, rest, piece.split_at(length - before).1) }
    }
}

/// Appends the whole messages of the piece, and keeps what follows them in place of the rest. After
/// an error the rest is unchanged.
fn keep_after(
    alloc: Global,
    messages: &mut Vec<Message>,
    rest: &mut Vec<u8>,
    piece: &[u8],
) -> Result<(), DecodeFault>
    ensures ok { (stream : List ℕ) → Splits stream (map view messages.old.items) piece.now →
        OnOk result (Reads stream (map view messages.new.items) rest.new.items) }
    ensures err { (stream : List ℕ) → Splits stream (map view messages.old.items) piece.now →
        IfErr result (λ fault. fault ≢ DecodeFault.Memory → Breaks stream fault) }
    ensures unchanged { OnErr result (rest.new.items ≡ rest.old.items) }
{
    let left = read_whole(alloc, messages, piece)?;
    let mut pending = Vec::new(alloc);
    pending.extend_from_slice(left)?;
    *rest = pending;
    Ok(())
}
