//! The reader of whole files.
ghost use Rattle.std.specs.Prelude.{◌≡◌, ◌<◌, ◌≤◌, false, true, List, length, Err, IfErr, IfOk, OnErr, OnOk, Some};
ghost use Rattle.std.specs.Str.{is_utf8};
ghost use Rattle.std.specs.Str.Lossy.{utf8_valid_len};
ghost use Rattle.wf_mapfile.specs.Meaning.{Means, MeansNothing, file, meaning, longest_mapfile};
ghost use Rattle.wf_block.specs.ReadContract.{Gives, IsNotUtf8, is_memory};
ghost use Rattle.wf_mapfile.specs.Rejection.{HasError, IsErrorOf, begins_map};
ghost use Rattle.wf_block.specs.Token.{Token as TokenValue, token_value, tokens};

use crate::map::read_map;
use std::alloc::Global;
use wf_block::{LexFault, MapFault, Parser, Place, Token, TokenKind, is_name, tokenize};
use wf_def::MapDef;

/// The longest mapfile, in bytes.
pub const MOST_MAPFILE_BYTES: usize = 131_072;

/// The constant is the number in the definitions. A theorem: the call does nothing.
pub fn limit_of_mapfiles()
    ensures { MOST_MAPFILE_BYTES ≡ longest_mapfile }
{}

/// Reads a mapfile (MapServer mapfile reference): returns its meaning, or the first error from the
/// left.
///
/// `TooLong` is checked first and `NotUtf8` second, both without allocating; then tokens are
/// checked in order, and a missing keyword at the END of its block. `Memory` says nothing about the
/// file. Each byte is looked at a bounded number of times.
#[tactic(auto, using(crate::proofs::RejectionTheorem::has_error, crate::proofs::RejectionTheorem::not_utf8))]
pub fn read(alloc: Global, bytes: &[u8]) -> Result<MapDef, MapFault>
    // Over that length nothing else is checked.
    ensures too_long { longest_mapfile < length bytes.now → result ≡ Err MapFault.TooLong }
    // Otherwise, bytes that aren't UTF-8 are rejected for that, before anything is read.
    ensures not_utf8 { length bytes.now ≤ longest_mapfile → is_utf8 bytes.now ≡ false →
        IsNotUtf8 result }
    // A returned map is what the bytes mean.
    ensures meant { IfOk result (λ map. Means bytes.now map) }
    // An error other than allocation failure is returned only if the bytes mean no map.
    ensures refused { IfErr result (λ fault. is_memory fault ≡ false → MeansNothing bytes.now) }
    // It is that of the bytes, as far as the definition says which: so M3 with its offset, M9 for a
    // text without a token, M5 for one that begins with another token than MAP, and M12 for a map
    // with a token after it.
    ensures reported { IfErr result (λ fault. is_memory fault ≡ false → HasError bytes.now fault) }
{
    let mut place = Place::front();
    read_meaning(alloc, bytes, &mut place)
}

/// Why bytes aren't a mapfile, and where.
#[derive(Clone, Copy)]
pub struct Rejection {
    /// The first error from the left.
    pub fault: MapFault,
    /// Where the reader was when it found the error; the front of the file for an error that is
    /// checked before its tokens.
    pub place: Place,
}

/// Reads a mapfile like [`read`], for a report: an error comes with the block and the keyword where
/// it was found.
#[tactic(auto, using(crate::proofs::RejectionTheorem::has_error))]
pub fn read_with_place(alloc: Global, bytes: &[u8]) -> Result<MapDef, Rejection>
    ensures meant { IfOk result (λ map. Means bytes.now map) }
    ensures reported { IfErr result
        (λ rejection. is_memory rejection.fault ≡ false → HasError bytes.now rejection.fault) }
{
    let mut place = Place::front();
    match read_meaning(alloc, bytes, &mut place) {
        Ok(map) => Ok(map),
        Err(fault) => Err(Rejection { fault, place }),
    }
}

/// The meaning of the bytes, or the first error and where it is.
#[tactic(auto, unfolding(crate::specs::Meaning::meaning))]
fn read_meaning(alloc: Global, bytes: &[u8], place: &mut Place) -> Result<MapDef, MapFault>
    ensures too_long { longest_mapfile < length bytes.now → result ≡ Err MapFault.TooLong }
    ensures not_utf8 { length bytes.now ≤ longest_mapfile → is_utf8 bytes.now ≡ false →
        result ≡ Err (MapFault.NotUtf8 (utf8_valid_len bytes.now)) }
    ensures meaning { Gives (λ map. map) result (meaning bytes.now) }
    ensures reported { IfErr result (λ fault. is_memory fault ≡ false →
        length bytes.now ≤ longest_mapfile → is_utf8 bytes.now ≡ true → (file : List TokenValue) →
        tokens bytes.now ≡ Some file → IsErrorOf file fault) }
{
    if bytes.len() > MOST_MAPFILE_BYTES {
        return Err(MapFault::TooLong);
    }
    check_utf8(bytes)?;
    let lexed = tokenize(alloc, bytes)?;
    let mut parser = Parser::new(alloc, lexed.tokens.as_slice(), bytes.len());
    let parsed = read_file(&mut parser);
    *place = parser.place();
    match lexed.fault {
        None => parsed,
        Some(fault) => Err(first_fault(parsed, lexed.tokens.is_empty(), fault)),
    }
}

/// Rejects bytes that aren't UTF-8.
fn check_utf8(bytes: &[u8]) -> Result<(), MapFault>
    ensures ok { OnOk result (is_utf8 bytes.now ≡ true) }
    ensures err { OnErr result
        ((is_utf8 bytes.now ≡ false) ×
        (result ≡ Err (MapFault.NotUtf8 (utf8_valid_len bytes.now)))) }
{
    match str::from_utf8(bytes) {
        Ok(_) => Ok(()),
        Err(fault) => Err(MapFault::NotUtf8(fault.valid_up_to())),
    }
}

/// The first error of a file whose tokens end at an error: the parser's, unless the parser reached
/// that byte offset. Allocation failure is returned only if the parser's allocation failed.
fn first_fault(parsed: Result<MapDef, MapFault>, no_tokens: bool, lexed: LexFault) -> MapFault
    ensures { is_memory result ≡ true → parsed ≡ Err result }
{
    match parsed {
        Ok(_) | Err(MapFault::MissingEnd(_)) => lexed.into(),
        Err(fault) => { if no_tokens { lexed.into() } else { fault } }
    }
}

/// Whether a token is the word MAP.
#[tactic(auto, unfolding(crate::specs::Rejection::begins_map))]
fn begins_map(token: &Token<'_>) -> bool
    ensures { result ≡ begins_map (token_value token.now) }
{
    match token.kind {
        TokenKind::Word => is_name(token.text, "MAP"),
        TokenKind::Quoted | TokenKind::Braced => false,
    }
}

/// Reads a whole file: MAP up to its END, and nothing else.
#[tactic(auto, using(crate::proofs::RejectionTheorem::nothing_there, crate::proofs::RejectionTheorem::other_first, crate::proofs::RejectionTheorem::no_map_follows, crate::proofs::RejectionTheorem::error_missing, crate::proofs::RejectionTheorem::error_unexpected, crate::proofs::RejectionTheorem::error_within, crate::proofs::RejectionTheorem::error_trailing))]
fn read_file(parser: &mut Parser<'_>) -> Result<MapDef, MapFault>
    ensures meaning { Gives (λ map. map) result (file parser.old) }
    ensures error { IfErr result (λ fault. is_memory fault ≡ false → IsErrorOf parser.old fault) }
{
    if parser.peek().is_none() {
        return Err(MapFault::Missing);
    }
    let first = parser.next()?;
    if !begins_map(&first) {
        return Err(MapFault::UnexpectedWord(first.byte_offset));
    }
    let map = read_map(parser)?;
    match parser.peek() {
        None => Ok(map),
        Some(token) => Err(MapFault::Trailing(token.byte_offset)),
    }
}
