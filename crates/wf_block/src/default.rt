//! Defaults of keywords that are absent.
ghost use Rattle.std.specs.Prelude.{◌≡◌, ◌≤◌, [], IfOk, unwrap_or};
ghost use Rattle.wf_text.specs.Text.{IsText};

use std::alloc::{AllocError, Global};
use wf_text::{Text, Whole};

/// The number, or the least of its range.
pub fn or_least<const LEAST: u8, const MOST: u8>(
    slot: Option<Whole<LEAST, MOST>>,
) -> Whole<LEAST, MOST>
    requires { LEAST ≤ MOST }
    ensures { result ≡ unwrap_or slot.entry LEAST }
{
    match slot {
        Some(number) => number,
        None => Whole::new(LEAST).unwrap(),
    }
}

/// The text, or else an empty one.
pub fn text_or_empty(alloc: Global, text: Option<Text>) -> Result<Text, AllocError>
    ensures { IfOk result (λ t. t ≡ unwrap_or text []) }
{
    text_or(alloc, text, "")
}

/// The text, or else the default.
pub fn text_or(alloc: Global, text: Option<Text>, default: &str) -> Result<Text, AllocError>
    requires { IsText default.now }
    ensures { IfOk result (λ t. t ≡ unwrap_or text default.now) }
{
    match text {
        Some(text) => Ok(text),
        None => Text::from_str(alloc, default),
    }
}
