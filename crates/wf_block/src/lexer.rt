//! Cuts a text into tokens.

ghost use Rattle.std.specs.Prelude.{◌≡◌, ℕ, ◌<◌, ◌≤◌, ◌∷◌, [], true, false, length, Some, None, IfOk, IfSome, IfNone, OnSome};
ghost use Rattle.std.specs.List.{prefix_len};
ghost use Rattle.wf_block.specs.Token.{is_white, is_quote, is_hash, ends_line, is_slash, is_star, is_plain, opens_list, closes_list, Between, LineComment, BlockComment, InWord, InString, InList, tokens_from, tokens, without_mark, token_values};
ghost use Rattle.wf_text.specs.Text.{is_text};
ghost use Rattle.wf_text.specs.ValueList.{is_value_list};
ghost use Rattle.wf_block.specs.Lexeme.{tokens_by, IsNearEnd, begins, ends_word, goes_on, opens_comment, stays_in_list};

use crate::lexeme::Lexeme;
use crate::token::{LexFault, LexFaultKind, Token, TokenKind, Tokens};
use std::alloc::{AllocError, Global};
use wf_text::{MOST_TEXT_BYTES, check_list, check_text, is_text_character};

/// U+FEFF in UTF-8.
const BYTE_ORDER_MARK: [u8; 3] = [0xEF, 0xBB, 0xBF];

/// Each byte of a word at its own index, and a `#` at every other index.
static WORD_BYTES: [u8; 256] = *b"\
    ################################\
    #!##$%&###*+,-./0123456789:;<=>?\
    @ABCDEFGHIJKLMNOPQRSTUVWXYZ###^_\
    `abcdefghijklmnopqrstuvwxyz#|#~#\
    ################################\
    ################################\
    ################################\
    ################################";

#[tactic(auto, unfolding(crate::specs::Token::is_white))]
fn is_white(byte: u8) -> bool
    ensures { result ≡ is_white byte }
{
    matches!(byte, b' ' | b'\t' | b'\r' | b'\n')
}

#[tactic(auto, unfolding(crate::specs::Token::is_quote))]
fn is_quote(byte: u8) -> bool
    ensures { result ≡ is_quote byte }
{
    byte == b'"' || byte == b'\''
}

#[tactic(auto, unfolding(crate::specs::Token::is_hash))]
fn is_hash(byte: u8) -> bool
    ensures { result ≡ is_hash byte }
{
    byte == b'#'
}

#[tactic(auto, unfolding(crate::specs::Token::ends_line))]
fn ends_line(byte: u8) -> bool
    ensures { result ≡ ends_line byte }
{
    byte == b'\n'
}

#[tactic(auto, unfolding(crate::specs::Token::is_slash))]
pub fn is_slash(byte: u8) -> bool
    ensures { result ≡ is_slash byte }
{
    byte == b'/'
}

#[tactic(auto, unfolding(crate::specs::Token::is_star))]
fn is_star(byte: u8) -> bool
    ensures { result ≡ is_star byte }
{
    byte == b'*'
}

#[tactic(auto, unfolding(crate::specs::Token::opens_list))]
fn opens_list(byte: u8) -> bool
    ensures { result ≡ opens_list byte }
{
    byte == b'{'
}

#[tactic(auto, unfolding(crate::specs::Token::closes_list))]
fn closes_list(byte: u8) -> bool
    ensures { result ≡ closes_list byte }
{
    byte == b'}'
}

/// Whether the byte may stand in a word.
fn is_plain(byte: u8) -> bool
    ensures { result ≡ is_plain byte }
{
    WORD_BYTES[byte as usize] != b'#'
}

/// The number of bytes of the word at the front.
fn word_length(bytes: &[u8]) -> usize
    ensures length { result ≡ prefix_len is_plain bytes.now }
    ensures within { result ≤ length bytes.now }
{
    bytes.iter().take_while(|byte| is_plain(**byte)).count()
}

/// The number of bytes before the next quote of this kind, or of all bytes if there is none.
fn string_length(bytes: &[u8], quote: u8) -> usize
    ensures length { result ≡ prefix_len (goes_on quote) bytes.now }
    ensures within { result ≤ length bytes.now }
{
    bytes.iter().take_while(|byte| **byte != quote).count()
}

/// The number of bytes before the next closing brace, or of all bytes if there is none.
fn list_length(bytes: &[u8]) -> usize
    ensures length { result ≡ prefix_len stays_in_list bytes.now }
    ensures within { result ≤ length bytes.now }
{
    bytes.iter().take_while(|byte| !closes_list(**byte)).count()
}

/// Whether a word may end before these bytes.
#[tactic(auto, using(crate::proofs::TokenLemmas::empty), unfolding(crate::specs::Lexeme::ends_word))]
fn ends_word(bytes: &[u8]) -> bool
    ensures { result ≡ ends_word bytes.now }
{
    match bytes.split_first() {
        None => true,
        Some((byte, _)) => is_white(*byte) || is_hash(*byte) || is_quote(*byte),
    }
}

/// What follows the line that these bytes continue.
#[tactic(auto, using(crate::proofs::TokenLemmas::line_steps))]
fn after_line(bytes: &[u8]) -> &[u8]
    ensures tokens { tokens_from Between result.now ≡ tokens_from LineComment bytes.now }
    ensures within { length result.now ≤ length bytes.now }
{
    let mut rest = bytes;
    while let Some((byte, after)) = rest.split_first() {
        if ends_line(*byte) {
            return after;
        }
        rest = after;
    }
    rest
}

/// What follows a `/`, if it is at the front.
fn after_slash(bytes: &[u8]) -> Option<&[u8]>
    ensures found { IfSome result
        (λ after. (byte : ℕ) × (is_slash byte ≡ true) × (bytes.now ≡ byte ∷ after.now)) }
    ensures absent { IfNone result (begins is_slash bytes.now ≡ false) }
{
    match bytes.split_first() {
        Some((byte, after)) if is_slash(*byte) => Some(after),
        _ => None,
    }
}

/// What follows the block comment that these bytes continue, if it ends.
#[tactic(auto, using(crate::proofs::TokenLemmas::block_steps))]
fn after_comment(bytes: &[u8]) -> Option<&[u8]>
    ensures closed { IfSome result
        (λ after. tokens_from Between after.now ≡ tokens_from BlockComment bytes.now) }
    ensures within { IfSome result (λ after. length after.now ≤ length bytes.now) }
    ensures open { IfNone result (tokens_from BlockComment bytes.now ≡ None) }
{
    let mut rest = bytes;
    while let Some((byte, after)) = rest.split_first() {
        if is_star(*byte) {
            if let Some(behind) = after_slash(after) {
                return Some(behind);
            }
        }
        rest = after;
    }
    None
}

/// The word at the front; the first byte is one of a word.
#[tactic(auto, using(crate::proofs::TokenLemmas::word_steps))]
fn word(bytes: &[u8]) -> Lexeme<'_>
    requires { begins is_plain bytes.now ≡ true }
    ensures tokens { tokens_by result ≡ tokens_from (InWord []) bytes.now }
    ensures within { IsNearEnd (length bytes.now) result }
{
    let (text, after) = bytes.split_at(word_length(bytes));
    if ends_word(after) {
        Lexeme::Found {
            kind: TokenKind::Word,
            text,
            after,
        }
    } else {
        Lexeme::Fault {
            kind: LexFaultKind::BadToken,
            at: after,
        }
    }
}

/// Whether the bytes are a text.
fn is_text(bytes: &[u8]) -> bool
    ensures { result ≡ is_text bytes.now }
{
    check_text(bytes).is_ok()
}

/// Whether the bytes are the inside of a list.
fn is_value_list(bytes: &[u8]) -> bool
    ensures { result ≡ is_value_list bytes.now }
{
    check_list(bytes).is_some()
}

/// Whether a string, or a list, may contain the character.
fn may_stand(kind: TokenKind, character: char) -> bool {
    match kind {
        TokenKind::Braced => is_text_character(character)
            && !matches!(character, '{' | '\n' | '\r'),
        _ => is_text_character(character),
    }
}

/// The byte offset of the first character that no string, or no list, may contain.
fn first_forbidden(kind: TokenKind, text: &[u8]) -> Option<usize>
    ensures { IfSome result (λ offset. offset < length text.now) }
{
    let text = str::from_utf8(text).ok()?;
    for (offset, character) in text.char_indices() {
        if !may_stand(kind, character) {
            return Some(offset);
        }
    }
    None
}

/// The error of a string or a list that begins at `opening`, whose bytes are the first `count` of
/// `inside`: a character that it may not contain, else its length, else a missing closing quote or
/// brace.
fn refused<'a>(
    kind: TokenKind,
    opening: &'a [u8],
    inside: &'a [u8],
    count: usize,
    is_closed: bool,
) -> Lexeme<'a>
    requires text { count ≤ length inside.now }
    requires inside { length inside.now ≤ length opening.now }
    ensures tokens { tokens_by result ≡ None }
    ensures within { IsNearEnd (length opening.now) result }
{
    match first_forbidden(kind, &inside[..count]) {
        Some(offset) => Lexeme::Fault {
            kind: LexFaultKind::BadToken,
            at: &inside[offset..],
        },
        None if is_closed && count > MOST_TEXT_BYTES => Lexeme::Fault {
            kind: LexFaultKind::OutOfRange,
            at: opening,
        },
        None => Lexeme::Fault {
            kind: LexFaultKind::BadToken,
            at: opening,
        },
    }
}

/// The string in this quote that begins at `opening`, whose bytes begin at `inside`.
#[tactic(auto, using(crate::proofs::TokenLemmas::string_steps))]
fn string<'a>(opening: &'a [u8], quote: u8, inside: &'a [u8]) -> Lexeme<'a>
    requires { opening.now ≡ quote ∷ inside.now }
    ensures tokens { tokens_by result ≡ tokens_from (InString quote []) inside.now }
    ensures within { IsNearEnd (length opening.now) result }
{
    let count = string_length(inside, quote);
    let (text, rest) = inside.split_at(count);
    match rest.split_first() {
        Some((_, after)) if is_text(text) => Lexeme::Found {
            kind: TokenKind::Quoted,
            text,
            after,
        },
        Some(_) => refused(TokenKind::Quoted, opening, inside, count, true),
        None => refused(TokenKind::Quoted, opening, inside, count, false),
    }
}

/// The list that begins at `opening`, whose bytes begin at `inside`.
#[tactic(auto, using(crate::proofs::TokenLemmas::list_steps))]
fn list<'a>(opening: &'a [u8], inside: &'a [u8]) -> Lexeme<'a>
    requires { length inside.now < length opening.now }
    ensures tokens { tokens_by result ≡ tokens_from (InList []) inside.now }
    ensures within { IsNearEnd (length opening.now) result }
{
    let count = list_length(inside);
    let (text, rest) = inside.split_at(count);
    match rest.split_first() {
        Some((_, after)) if is_value_list(text) => Lexeme::Found {
            kind: TokenKind::Braced,
            text,
            after,
        },
        Some(_) => refused(TokenKind::Braced, opening, inside, count, true),
        None => refused(TokenKind::Braced, opening, inside, count, false),
    }
}

/// What follows `/*`, if that is at the front.
#[tactic(auto, using(crate::proofs::TokenLemmas::comment_steps), unfolding(crate::specs::Lexeme::opens_comment))]
fn comment_inside(bytes: &[u8]) -> Option<&[u8]>
    ensures tokens { IfSome result
        (λ inside. tokens_from BlockComment inside.now ≡ tokens_from Between bytes.now) }
    ensures within { IfSome result (λ inside. length inside.now < length bytes.now) }
    ensures absent { IfNone result (opens_comment bytes.now ≡ false) }
{
    let after = after_slash(bytes)?;
    match after.split_first() {
        Some((byte, inside)) if is_star(*byte) => Some(inside),
        _ => None,
    }
}

/// The block comment that begins at `opening`, whose bytes begin at `inside`.
fn block_comment<'a>(opening: &'a [u8], inside: &'a [u8]) -> Lexeme<'a>
    requires { length inside.now < length opening.now }
    ensures tokens { tokens_by result ≡ tokens_from BlockComment inside.now }
    ensures within { IsNearEnd (length opening.now) result }
{
    match after_comment(inside) {
        Some(after) => Lexeme::Gap { after },
        None => Lexeme::Fault {
            kind: LexFaultKind::BadToken,
            at: opening,
        },
    }
}

/// What is at the front of a text, between tokens.
#[tactic(auto, using(crate::proofs::TokenLemmas::between_steps), unfolding(crate::specs::Lexeme::opens_comment))]
fn lexeme(bytes: &[u8]) -> Lexeme<'_>
    ensures tokens { tokens_by result ≡ tokens_from Between bytes.now }
    ensures within { IsNearEnd (length bytes.now) result }
{
    let Some((byte, after)) = bytes.split_first() else {
        return Lexeme::End;
    };
    if is_white(*byte) {
        Lexeme::Gap { after }
    } else if is_hash(*byte) {
        Lexeme::Gap {
            after: after_line(after),
        }
    } else if is_quote(*byte) {
        string(bytes, *byte, after)
    } else if let Some(inside) = comment_inside(bytes) {
        block_comment(bytes, inside)
    } else if is_plain(*byte) {
        word(bytes)
    } else if opens_list(*byte) {
        list(bytes, after)
    } else {
        Lexeme::Fault {
            kind: LexFaultKind::BadToken,
            at: bytes,
        }
    }
}

/// The text without a leading byte order mark.
#[tactic(auto, unfolding(crate::specs::Token::without_mark))]
fn without_mark(bytes: &[u8]) -> &[u8]
    ensures text { result.now ≡ without_mark bytes.now }
    ensures within { length result.now ≤ length bytes.now }
{
    bytes.strip_prefix(&BYTE_ORDER_MARK).unwrap_or(bytes)
}

/// The tokens of a text up to its end or its first error. Byte offsets count from the front of the
/// bytes given, including a byte order mark.
#[tactic(auto, using(crate::proofs::TokenLemmas::token_list), unfolding(crate::specs::Token::tokens))]
pub fn tokenize<'a>(alloc: Global, bytes: &'a [u8]) -> Result<Tokens<'a>, AllocError>
    ensures lexed { IfOk result
        (λ lexed. IfNone lexed.fault (tokens bytes.now ≡ Some (token_values lexed.tokens.items))) }
    ensures refused { IfOk result (λ lexed. OnSome lexed.fault (tokens bytes.now ≡ None)) }
{
    let mut tokens = Vec::new(alloc);
    let mut rest = without_mark(bytes);
    loop {
        match lexeme(rest) {
            Lexeme::Gap { after } => rest = after,
            Lexeme::Found { kind, text, after } => {
                let byte_offset = bytes.len() - rest.len();
                tokens.push(Token {
                    kind,
                    byte_offset,
                    text,
                })?;
                rest = after;
            }
            Lexeme::End => {
                return Ok(Tokens {
                    tokens,
                    fault: None,
                });
            }
            Lexeme::Fault { kind, at } => {
                let byte_offset = bytes.len() - at.len();
                return Ok(Tokens {
                    tokens,
                    fault: Some(LexFault { kind, byte_offset }),
                });
            }
        }
    }
}
