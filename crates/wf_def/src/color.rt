//! Colours.
ghost use Rattle.std.specs.Prelude.{◌≡◌, ◌<◌, true};
ghost use Rattle.std.specs.List.{list_all};
ghost use Rattle.std.specs.Char.{is_ascii_hexdigit, digit_value};
ghost use Rattle.wf_def.specs.Color.{byte_of_digits, hexadecimal_color};

/// A colour, each component from 0 to 255 (MapServer mapfile reference, COLOR).
#[derive(Clone, Copy, PartialEq, Eq)]
pub struct Color {
    pub r: u8,
    pub g: u8,
    pub b: u8,
}

impl Color {
    /// The colour of six hexadecimal digits of either letter case, two each of red, green and blue;
    /// `None` of any other bytes.
    #[tactic(auto, using(std::proofs::lemmas::List::Folds::list_all_at), unfolding(crate::specs::Color::hexadecimal_color))]
    pub fn from_hexadecimal(digits: &[u8]) -> Option<Color>
        ensures { result ≡ hexadecimal_color digits.now }
    {
        match digits {
            [r1, r0, g1, g0, b1, b0] if are_hexadecimal(digits) => Some(Color {
                r: byte_of_digits(*r1, *r0),
                g: byte_of_digits(*g1, *g0),
                b: byte_of_digits(*b1, *b0),
            }),
            _ => None,
        }
    }
}

fn are_hexadecimal(bytes: &[u8]) -> bool
    ensures { result ≡ list_all is_ascii_hexdigit bytes.now }
{
    bytes.iter().all(|byte| byte.is_ascii_hexdigit())
}

/// The byte of two hexadecimal digits.
fn byte_of_digits(high: u8, low: u8) -> u8
    requires high { is_ascii_hexdigit high ≡ true }
    requires low { is_ascii_hexdigit low ≡ true }
    ensures { result ≡ byte_of_digits high low }
{
    16 * digit_value(high) + digit_value(low)
}

/// The value of a hexadecimal digit.
fn digit_value(digit: u8) -> u8
    requires { is_ascii_hexdigit digit ≡ true }
    ensures value { result ≡ digit_value digit }
    ensures below { result < 16 }
{
    match digit {
        b'0'..=b'9' => digit - b'0',
        b'A'..=b'F' => digit - b'A' + 10,
        _ => digit - b'a' + 10,
    }
}
