//! Lists of values.
ghost use Rattle.std.specs.Prelude.{◌≡◌, false, IfOk, IfSome, IfNone};
ghost use Rattle.std.specs.Cmp.{partial_equiv_from_equiv};
ghost use Rattle.std.specs.Cmp.Lexicographic.{nat_list_eq_equiv};
ghost use Rattle.std.specs.Str.{bytes_eq};
ghost use Rattle.std.specs.List.{list_all};
ghost use Rattle.wf_text.specs.ValueList.{is_value_list, IsValueList, is_list_byte};

use crate::limits::MOST_TEXT_BYTES;
use crate::text::{all_may_stand, utf8};
use std::alloc::{AllocError, Global};
use std::marker::Model;

/// The inside of a list `{..}` of a mapfile, whose values are between commas: UTF-8 of at most
/// 1,000 bytes and of characters that a text may contain, without braces, LF and CR. Both kinds of
/// quote may stand in one list, so it isn't a text.
pub struct ValueList {
    inside: String,
}

// Written by hand: callers then prove one call where they drop a list, not the release of its
// string.
impl Drop for ValueList {
    fn drop(self) {
        let ValueList { inside } = self;
        drop(inside);
    }
}

impl Model for ValueList {
    ghost use Rattle.std.specs.Prelude.{ℕ, List, string_bytes};
    ghost use Rattle.wf_text.specs.ValueList.{IsValueList};

    ghost Value = { List ℕ };

    ghost view = { λ l. string_bytes l.inside };

    ghost invariant = { λ l. IsValueList (string_bytes l.inside) };
}

impl ValueList {
    /// A copy of a `str` that is the inside of a list.
    pub fn from_str(alloc: Global, inside: &str) -> Result<Self, AllocError>
        requires { IsValueList inside.now }
        ensures { IfOk result (λ copy. copy ≡ inside.now) }
    {
        Ok(ValueList {
            inside: String::from_str(alloc, inside)?,
        })
    }

    /// The bytes between the braces, in UTF-8.
    pub fn as_bytes(&self) -> &[u8]
        ensures value { result.now ≡ self.now }
        ensures within { IsValueList self.now }
    {
        self.inside.as_bytes()
    }
}

/// The bytes as a `str`, if they are the inside of a list.
#[tactic(auto, unfolding(crate::specs::ValueList::is_value_list))]
pub fn check_list(bytes: &[u8]) -> Option<&str>
    ensures value { IfSome result (λ inside. inside.now ≡ bytes.now) }
    ensures within { IfSome result (λ inside. IsValueList inside.now) }
    ensures refused { IfNone result (is_value_list bytes.now ≡ false) }
{
    if bytes.len() > MOST_TEXT_BYTES || !are_list_bytes(bytes) {
        return None;
    }
    match utf8(bytes) {
        Ok(inside) if all_may_stand(inside) => Some(inside),
        _ => None,
    }
}

/// Whether each byte may stand in a list.
fn are_list_bytes(bytes: &[u8]) -> bool
    ensures { result ≡ list_all is_list_byte bytes.now }
{
    bytes.iter().all(|byte| is_list_byte(*byte))
}

/// Whether the byte may stand in a list: it isn't a brace, LF or CR.
fn is_list_byte(byte: u8) -> bool
    ensures { result ≡ is_list_byte byte }
{
    !matches!(byte, b'{' | b'}' | b'\n' | b'\r')
}

impl Clone for ValueList {
    ghost is_clone = { λ list copy. copy ≡ list };

    fn clone(&self) -> Result<Self, AllocError> {
        Ok(ValueList {
            inside: self.inside.clone()?,
        })
    }
}

impl PartialEq for ValueList {
    ghost eq = { bytes_eq };

    ghost laws = { partial_equiv_from_equiv nat_list_eq_equiv };

    fn eq(&self, other: &Self) -> bool {
        self.inside == other.inside
    }
}

impl Eq for ValueList {
    ghost laws = { nat_list_eq_equiv };
}
