//! The UPDATESEQUENCE parameter (OGC 06-042, 7.2.3.5).
ghost use Rattle.std.specs.Prelude.{◌≡◌, option_map};
ghost use Rattle.wf_wms.specs.UpdateSequence.{comparison_of, sequence_rule};

use crate::comparison::Comparison;
use wf_text::{are_digits, number_of_digits};

fn compare(number: u64, seq: u16) -> Comparison
    ensures { result ≡ comparison_of number seq }
{
    let seq = u64::from(seq);
    if number == seq {
        Comparison::Equal
    } else if number < seq {
        Comparison::Below
    } else {
        Comparison::Above
    }
}

/// How the value of UPDATESEQUENCE compares with the update sequence `seq` of the server. Digits
/// may have any length.
pub(crate) fn comparison(value: Option<&str>, seq: u16) -> Comparison
    ensures { result ≡ sequence_rule (option_map (λ text. text.now) value.entry) seq }
{
    let Some(text) = value else {
        return Comparison::Absent;
    };
    if text.is_empty() {
        Comparison::Absent
    } else if are_digits(text.as_bytes()) {
        compare(number_of_digits(text.as_bytes()), seq)
    } else {
        Comparison::NoNumber
    }
}
