//! Bytes in hexadecimal.
use wf_test_table::{Answered, Transcript, Unanswered, digit};

/// Appends the bytes that the digits spell, two digits a byte.
pub fn push_hexadecimal(digits: &str, bytes: &mut Transcript) -> Answered {
    let mut high = None;
    for byte in digits.as_bytes() {
        high = take(high, *byte, bytes)?;
    }
    match high {
        None => Ok(()),
        Some(_) => Err(Unanswered::BadWords),
    }
}

/// Reads a digit. Returns the byte so far after the first digit of a byte, None after the second.
fn take(high: Option<u8>, byte: u8, bytes: &mut Transcript) -> Result<Option<u8>, Unanswered> {
    let Some(digit) = digit(byte) else {
        return Err(Unanswered::BadWords);
    };
    match high {
        None => Ok(Some(digit * 16)),
        Some(high) => {
            bytes.bytes(&[high | digit]);
            Ok(None)
        }
    }
}
