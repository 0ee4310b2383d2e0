//! The name of a farm.
ghost use Rattle.std.specs.Prelude.{◌≡◌, ◌≤◌, ◌↔◌, length, IsTrue, IsSome, IfSome};
ghost use Rattle.std.specs.List.{list_all, prefix_len};
ghost use Rattle.wf_folder.specs.Name.{IsFarmName, IsNameText, is_name_byte, isnt_zero, name_text, pad};

use std::marker::Model;

/// The most bytes of a farm's name.
pub const NAME_BYTES: usize = 32;

/// A farm's name: 1 to 32 letters of ASCII, digits, `-`, `.` and `_`. A contract sees its 32 bytes,
/// which are the name and then zeros.
#[derive(Clone, Copy, Debug, PartialEq, Eq)]
pub struct FarmName {
    bytes: [u8; 32],
}

impl Model for FarmName {
    ghost use Rattle.std.specs.Prelude.{ℕ, List};
    ghost use Rattle.wf_folder.specs.Name.{IsFarmName};

    ghost Value = { List ℕ };

    ghost view = { λ name. name.bytes };

    ghost invariant = { λ name. IsFarmName name.bytes };

    ghost inverse = { λ bytes. record { bytes = bytes } };
}

impl FarmName {
    /// The farm's name with this text; None if no farm can have it.
    #[tactic(auto, using(crate::proofs::Names::padded_is_name))]
    pub fn new(text: &[u8]) -> Option<FarmName>
        ensures valid { IsSome result ↔ IsNameText text.now }
        ensures value { IfSome result (λ name. name ≡ pad text.now) }
    {
        if is_name_text(text) {
            Some(FarmName { bytes: pad(text) })
        } else {
            None
        }
    }

    /// The name with these bytes, its text and then zeros; None if there is none.
    #[tactic(auto, using(crate::proofs::Names::is_farm_name))]
    pub fn from_bytes(bytes: &[u8]) -> Option<FarmName>
        ensures valid { IsSome result ↔ IsFarmName bytes.now }
        ensures value { IfSome result (λ name. name ≡ bytes.now) }
    {
        let name = FarmName::new(text_in(bytes))?;
        if name.bytes.as_slice() == bytes {
            Some(name)
        } else {
            None
        }
    }

    /// Its text.
    pub fn text(&self) -> &[u8]
        ensures value { result.now ≡ name_text self.now }
        ensures is_name { IsFarmName self.now }
    {
        text_in(&self.bytes)
    }

    /// Its 32 bytes: its text, and then zeros.
    pub fn bytes(&self) -> [u8; 32]
        ensures value { result ≡ self.now }
        ensures is_name { IsFarmName self.now }
    {
        self.bytes
    }
}

/// Whether a farm's name may have this byte.
fn is_name_byte(byte: u8) -> bool
    ensures { result ≡ is_name_byte byte }
{
    (b'a' <= byte && byte <= b'z')
        || (b'A' <= byte && byte <= b'Z')
        || (b'0' <= byte && byte <= b'9')
        || byte == b'-'
        || byte == b'.'
        || byte == b'_'
}

/// Whether a farm may have this name.
fn is_name_text(text: &[u8]) -> bool
    ensures { IsTrue result ↔ IsNameText text.now }
{
    !text.is_empty() && text.len() <= NAME_BYTES && are_name_bytes(text)
}

/// Whether a farm's name may have each of these bytes.
fn are_name_bytes(text: &[u8]) -> bool
    ensures { result ≡ list_all is_name_byte text.now }
{
    text.iter().all(|byte| is_name_byte(*byte))
}

/// The text, and then zeros up to 32 bytes.
fn pad(text: &[u8]) -> [u8; 32]
    requires { length text.now ≤ 32 }
    ensures { result ≡ pad text.now }
{
    let mut bytes = [0u8; NAME_BYTES];
    bytes[..text.len()].copy_from_slice(text);
    bytes
}

/// The number of bytes before the first zero.
fn text_length(bytes: &[u8]) -> usize
    ensures value { result ≡ prefix_len isnt_zero bytes.now }
    ensures within { result ≤ length bytes.now }
{
    bytes.iter().take_while(|byte| **byte != 0).count()
}

/// The bytes before the first zero.
fn text_in(bytes: &[u8]) -> &[u8]
    ensures { result.now ≡ name_text bytes.now }
{
    bytes.split_at(text_length(bytes)).0
}
