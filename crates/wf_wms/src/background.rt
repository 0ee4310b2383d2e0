//! The parameter BGCOLOR (OGC 06-042, 7.3.3.10).
ghost use Rattle.std.specs.Prelude.{◌≡◌, option_map};
ghost use Rattle.wf_wms.specs.Background.{background_in, color_of, is_hex_mark};

use crate::exception::{Exception, Parameter};
use wf_def::Color;

/// The background colour if BGCOLOR is absent.
const WHITE: Color = Color {
    r: 255,
    g: 255,
    b: 255,
};

/// The background colour: that of pixels that no layer covers.
pub(crate) fn background(value: Option<&str>) -> Result<Color, Exception>
    ensures { result ≡ background_in (option_map (λ text. text.now) value.entry) }
{
    match value {
        None => Ok(WHITE),
        Some(text) => {
            color_of(text.as_bytes()).ok_or(Exception::BadValue(Parameter::BackgroundColor))
        }
    }
}

/// The colour of `0x` or `0X` and six hexadecimal digits.
#[tactic(auto, unfolding(crate::specs::Background::color_of))]
fn color_of(text: &[u8]) -> Option<Color>
    ensures { result ≡ color_of text.now }
{
    match text {
        [digit, x, digits @ ..] if is_hex_mark(*digit, *x) => Color::from_hexadecimal(digits),
        _ => None,
    }
}

/// Whether the two bytes are `0x` or `0X`.
fn is_hex_mark(digit: u8, x: u8) -> bool
    ensures { result ≡ is_hex_mark digit x }
{
    digit == b'0' && (x == b'x' || x == b'X')
}
