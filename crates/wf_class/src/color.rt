//! Colours: three integers, or a string `#rrggbb`.
ghost use Rattle.std.specs.Prelude.{◌≡◌, ◌==◌, option_copied};
ghost use Rattle.wf_class.specs.Color.{color, hash_digits, rgb_color};
ghost use Rattle.wf_block.specs.ReadContract.{Gives};
ghost use Rattle.wf_block.specs.Token.{token_value};

use wf_block::{MapFault, Parser, Token, TokenKind};
use wf_def::Color;

/// Reads a colour (MapServer mapfile reference, COLOR).
#[tactic(auto, unfolding(crate::specs::Color::color))]
pub fn read_color(parser: &mut Parser<'_>) -> Result<Color, MapFault>
    ensures { Gives (λ c. (c, parser.new)) result (color parser.old) }
{
    let Some(token) = parser.peek() else {
        return Err(parser.missing_end());
    };
    match hash_digits(token) {
        Some(digits) => {
            let _ = parser.next()?;
            Color::from_hexadecimal(digits).ok_or(MapFault::BadNumber(token.byte_offset))
        }
        None => read_rgb_color(parser),
    }
}

/// Reads the three components of a colour, each from 0 to 255.
#[tactic(auto, unfolding(crate::specs::Color::rgb_color))]
fn read_rgb_color(parser: &mut Parser<'_>) -> Result<Color, MapFault>
    ensures { Gives (λ c. (c, parser.new)) result (rgb_color parser.old) }
{
    let r = parser.whole::<0, 255>()?.get();
    let g = parser.whole::<0, 255>()?.get();
    let b = parser.whole::<0, 255>()?.get();
    Ok(Color { r, g, b })
}

/// What follows the `#` of a string that begins with one.
#[tactic(auto, unfolding(crate::specs::Color::hash_digits))]
fn hash_digits<'a>(token: Token<'a>) -> Option<&'a [u8]>
    ensures { option_copied result ≡ hash_digits (token_value token.entry) }
{
    match token.kind {
        TokenKind::Word | TokenKind::Braced => None,
        TokenKind::Quoted => match token.text {
            [first, digits @ ..] if is_hash(*first) => Some(digits),
            _ => None,
        },
    }
}

fn is_hash(byte: u8) -> bool
    ensures { result ≡ (byte == 35) }
{
    byte == b'#'
}
