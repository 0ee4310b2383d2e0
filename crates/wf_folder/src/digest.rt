//! Digests of 32 bytes in texts: sixty-four hexadecimal digits in lowercase.
ghost use Rattle.std.specs.Prelude.{◌≡◌, ◌≢◌, ◌++◌, ℕ, List, length, IfNone, IfSome, OnOk};
ghost use Rattle.hex.specs.Hex.{IsBytes, encode_lower};

use std::alloc::AllocError;

/// The number of digits.
const DIGITS: usize = 64;

/// The digits of a digest.
fn digest_digits(digest: &[u8; 32]) -> [u8; 64]
    requires { length digest.now ≡ 32 }
    ensures { result ≡ encode_lower digest.now }
{
    let mut digits = [b'0'; DIGITS];
    hex::encode_to_slice(digest.as_slice(), &mut digits).unwrap();
    digits
}

/// Appends a digest's digits.
pub(crate) fn push_digest(text: &mut Vec<u8>, digest: &[u8; 32]) -> Result<(), AllocError>
    requires { length digest.now ≡ 32 }
    ensures { OnOk result (text.new.items ≡ text.old.items ++ encode_lower digest.now) }
{
    text.extend_from_slice(&digest_digits(digest))
}

/// The digest whose digits bytes begin with, and what follows them.
#[tactic(auto, using(crate::proofs::Numbers::digest_fits, crate::proofs::Numbers::digest_front))]
pub(crate) fn split_digest(bytes: &[u8]) -> Option<([u8; 32], &[u8])>
    ensures digest { IfSome result (λ x. IsBytes x.0 × (length x.0 ≡ 32)) }
    ensures some { IfSome result (λ x. bytes.now ≡ encode_lower x.0 ++ x.1.now) }
    ensures none { IfNone result ((digest rest : List ℕ) → IsBytes digest → length digest ≡ 32 →
        bytes.now ≢ encode_lower digest ++ rest) }
{
    if bytes.len() < DIGITS {
        return None;
    }
    let (digits, rest) = bytes.split_at(DIGITS);
    match digest_of(digits) {
        Some(digest) => Some((digest, rest)),
        None => None,
    }
}

/// The digest with these digits.
fn digest_of(text: &[u8]) -> Option<[u8; 32]>
    ensures digest { IfSome result (λ digest. IsBytes digest × (length digest ≡ 32)) }
    ensures some { IfSome result (λ digest. text.now ≡ encode_lower digest) }
    ensures none { IfNone result ((digest : List ℕ) → IsBytes digest → length digest ≡ 32 →
        text.now ≢ encode_lower digest) }
{
    let mut digest = [0u8; 32];
    match hex::decode_to_slice(text, &mut digest) {
        Ok(()) => in_lowercase(text, digest),
        Err(_) => None,
    }
}

/// A digest, if the text has its digits in lowercase.
fn in_lowercase(text: &[u8], digest: [u8; 32]) -> Option<[u8; 32]>
    requires { length digest ≡ 32 }
    ensures same { IfSome result (λ found. found ≡ digest) }
    ensures some { IfSome result (λ _. text.now ≡ encode_lower digest) }
    ensures none { IfNone result (text.now ≢ encode_lower digest) }
{
    if digest_digits(&digest).as_slice() == text {
        Some(digest)
    } else {
        None
    }
}
