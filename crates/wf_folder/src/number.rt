//! Numbers of 32 bits in texts: eight hexadecimal digits in lowercase.
ghost use Rattle.std.specs.Prelude.{◌≡◌, ◌≢◌, ◌<◌, ◌^◌, ◌++◌, ℕ, List, IfNone, IfSome, OnErr, OnOk};
ghost use Rattle.std.specs.Int.{to_be_bytes};
ghost use Rattle.wf_folder.specs.Number.{number_digits};

use std::alloc::AllocError;

/// The number of digits.
const DIGITS: usize = 8;

/// The digits of a number.
#[tactic(auto, unfolding(crate::specs::Number::number_digits))]
pub fn number_digits(number: u32) -> [u8; 8]
    ensures { result ≡ number_digits number }
{
    let bytes = number.to_be_bytes();
    let mut digits = [b'0'; DIGITS];
    hex::encode_to_slice(bytes.as_slice(), &mut digits).unwrap();
    digits
}

/// Appends a number's digits. The only error is allocation failure, which changes nothing.
pub fn push_number(text: &mut Vec<u8>, number: u32) -> Result<(), AllocError>
    ensures ok { OnOk result (text.new.items ≡ text.old.items ++ number_digits number) }
    ensures err { OnErr result (text.new.items ≡ text.old.items) }
{
    text.extend_from_slice(&number_digits(number))
}

/// The number whose digits bytes begin with, and what follows them; None if they begin with no
/// number's.
#[tactic(auto, using(crate::proofs::Numbers::number_fits, crate::proofs::Numbers::number_front))]
pub fn split_number(bytes: &[u8]) -> Option<(u32, &[u8])>
    ensures some { IfSome result (λ x. bytes.now ≡ number_digits x.0 ++ x.1.now) }
    ensures none { IfNone result ((n : ℕ) (rest : List ℕ) → n < 2 ^ 32 →
        bytes.now ≢ number_digits n ++ rest) }
{
    if bytes.len() < DIGITS {
        return None;
    }
    let (digits, rest) = bytes.split_at(DIGITS);
    match number_of(digits) {
        Some(number) => Some((number, rest)),
        None => None,
    }
}

/// The number with these digits.
fn number_of(digits: &[u8]) -> Option<u32>
    ensures some { IfSome result (λ n. digits.now ≡ number_digits n) }
    ensures none { IfNone result ((n : ℕ) → n < 2 ^ 32 → digits.now ≢ number_digits n) }
{
    let mut bytes = [0u8; 4];
    match hex::decode_to_slice(digits, &mut bytes) {
        Ok(()) => with_digits(u32::from_be_bytes(bytes), digits),
        Err(_) => None,
    }
}

/// A number, if its digits are these.
fn with_digits(number: u32, digits: &[u8]) -> Option<u32>
    ensures same { IfSome result (λ found. found ≡ number) }
    ensures some { IfSome result (λ _. digits.now ≡ number_digits number) }
    ensures none { IfNone result (digits.now ≢ number_digits number) }
{
    if number_digits(number).as_slice() == digits {
        Some(number)
    } else {
        None
    }
}
