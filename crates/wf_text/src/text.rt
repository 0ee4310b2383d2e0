//! Texts.
ghost use Rattle.std.specs.Prelude.{◌≡◌, true, false, IfOk, IfErr};
ghost use Rattle.std.specs.Cmp.{partial_equiv_from_equiv};
ghost use Rattle.std.specs.Cmp.Lexicographic.{nat_list_eq_equiv, bytes_decides};
ghost use Rattle.std.specs.Hash.{str as str_writes, same_Alike};
ghost use Rattle.std.specs.Str.{bytes_eq, chars, is_utf8};
ghost use Rattle.std.specs.List.{list_all};
ghost use Rattle.wf_text.specs.Text.{is_text, IsText, is_layout, is_text_character, has_both_quotes, is_memory, IsFirstFault};
ghost use Rattle.wf_text.specs.declared.fault.TextFault.TheVariants.{NotUtf8};

use crate::fault::TextFault;
use crate::limits::MOST_TEXT_BYTES;
use std::alloc::{AllocError, Global};
use std::hash::{Hash, Hasher};
use std::marker::Model;

/// A text of a map definition: UTF-8 of at most 1,000 bytes, without backslash, U+FFFE, U+FFFF or
/// control characters other than TAB, LF and CR, and not with both kinds of quote.
pub struct Text {
    text: String,
}

// Written by hand: callers then prove one call where they drop a text, not the release of its
// string.
impl Drop for Text {
    fn drop(self) {
        let Text { text } = self;
        drop(text);
    }
}

impl Model for Text {
    ghost use Rattle.std.specs.Prelude.{ℕ, List, string_bytes};
    ghost use Rattle.wf_text.specs.Text.{IsText};

    ghost Value = { List ℕ };

    ghost view = { λ t. string_bytes t.text };

    ghost invariant = { λ t. IsText (string_bytes t.text) };
}

impl Text {
    /// The text of these bytes. An error is the first that applies: too long, not UTF-8, a
    /// forbidden character, both kinds of quote. `OutOfMemory` is returned only if the bytes are a
    /// text and copying them fails.
    pub fn new(alloc: Global, bytes: &[u8]) -> Result<Self, TextFault>
        ensures value { IfOk result (λ text. text ≡ bytes.now) }
        ensures within { IfOk result IsText }
        ensures refused { IfErr result
            (λ fault. is_memory fault ≡ false → is_text bytes.now ≡ false) }
        ensures first { IfErr result (λ fault. IsFirstFault fault bytes.now) }
    {
        let text = check_text(bytes)?;
        match Text::from_str(alloc, text) {
            Ok(text) => Ok(text),
            Err(_) => Err(TextFault::OutOfMemory),
        }
    }

    /// A copy of a `str` that is a text.
    pub fn from_str(alloc: Global, text: &str) -> Result<Self, AllocError>
        requires { IsText text.now }
        ensures { IfOk result (λ copy. copy ≡ text.now) }
    {
        Ok(Text {
            text: String::from_str(alloc, text)?,
        })
    }

    /// The text in UTF-8.
    pub fn as_bytes(&self) -> &[u8]
        ensures value { result.now ≡ self.now }
        ensures within { IsText self.now }
    {
        self.text.as_bytes()
    }

    /// The text as a `str`.
    pub fn as_str(&self) -> &str
        ensures value { result.now ≡ self.now }
        ensures within { IsText self.now }
    {
        self.text.as_str()
    }
}

/// Whether a text may contain the character.
pub fn is_text_character(c: char) -> bool
    ensures { result ≡ is_text_character c }
{
    !(c < ' ' && !is_layout(c)) && c != '\\' && c != '\u{FFFE}' && c != '\u{FFFF}'
}

/// Whether the character is TAB, LF or CR.
fn is_layout(c: char) -> bool
    ensures { result ≡ is_layout c }
{
    c == '\t' || c == '\n' || c == '\r'
}

/// The bytes as a `str`, if they are a text. An error is the first that applies, in the order of
/// [`TextFault`]; it is never `OutOfMemory`, since nothing is copied.
#[tactic(auto, unfolding(crate::specs::Text::is_text))]
pub fn check_text(bytes: &[u8]) -> Result<&str, TextFault>
    ensures value { IfOk result (λ text. text.now ≡ bytes.now) }
    ensures within { IfOk result (λ text. IsText text.now) }
    ensures refused { IfErr result (λ fault. is_text bytes.now ≡ false) }
    ensures first { IfErr result (λ fault. IsFirstFault fault bytes.now) }
{
    // A canonical text writes each absent text as an empty one, so most texts are empty.
    if bytes.is_empty() {
        return Ok("");
    }
    if bytes.len() > MOST_TEXT_BYTES {
        return Err(TextFault::TooLong);
    }
    let text = utf8(bytes)?;
    if !all_may_stand(text) {
        return Err(TextFault::ForbiddenCharacter);
    }
    if has_both_quotes(bytes) {
        return Err(TextFault::BothQuotes);
    }
    Ok(text)
}

/// The bytes as a `str`, if they are UTF-8.
pub(crate) fn utf8(bytes: &[u8]) -> Result<&str, TextFault>
    ensures ok { IfOk result (λ text. (text.now ≡ bytes.now) × (is_utf8 bytes.now ≡ true)) }
    ensures err { IfErr result (λ fault. (fault ≡ NotUtf8) × (is_utf8 bytes.now ≡ false)) }
{
    match str::from_utf8(bytes) {
        Ok(text) => Ok(text),
        Err(_) => Err(TextFault::NotUtf8),
    }
}

/// Whether a text may contain each character.
pub(crate) fn all_may_stand(text: &str) -> bool
    ensures { result ≡ list_all is_text_character (chars text.now) }
{
    text.chars().all(is_text_character)
}

fn has_both_quotes(bytes: &[u8]) -> bool
    ensures { result ≡ has_both_quotes bytes.now }
{
    bytes.contains(&b'"') && bytes.contains(&b'\'')
}

impl Clone for Text {
    ghost is_clone = { λ text copy. copy ≡ text };

    fn clone(&self) -> Result<Self, AllocError> {
        Ok(Text {
            text: self.text.clone()?,
        })
    }
}

impl PartialEq for Text {
    ghost eq = { bytes_eq };

    ghost laws = { partial_equiv_from_equiv nat_list_eq_equiv };

    fn eq(&self, other: &Self) -> bool {
        self.text == other.text
    }
}

impl Eq for Text {
    ghost laws = { nat_list_eq_equiv };
}

impl Hash for Text {
    ghost hash_input = { str_writes };

    ghost respects_eq = { (same_Alike str_writes bytes_decides).fed };

    fn hash<H: Hasher>(&self, state: &mut H) {
        self.text.hash(state);
    }
}
