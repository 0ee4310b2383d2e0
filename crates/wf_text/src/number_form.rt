//! The form of a number's text: a theorem about the definitions.

ghost use Rattle.wf_text.specs.NumberForm.{BadWithoutParts, CutIntoItsParts, MeansItsParts};
ghost use Rattle.std.specs.Prelude.{◌≡◌, ℤ, Ok};
ghost use Rattle.wf_text.specs.Number.{IsMicro, number};
ghost use Rattle.wf_text.specs.NumberText.{number_text};

/// Reading the text of a number returns that number. A theorem about the definitions: the call does
/// nothing.
pub fn number_is_read_again()
    ensures { (millionths : ℤ) → IsMicro millionths →
        number (number_text millionths) ≡ Ok millionths }
{}

/// A number's text is an optional sign, digits, and optionally a point and digits, with at least
/// one digit in all; then optionally `e` or `E`, an optional sign and one to three digits. Reading
/// cuts a text into exactly these parts, its value is that of the parts, and any other text isn't a
/// number. A theorem about the definitions: the call does nothing. MapServer mapfile reference,
/// numbers of EXTENT and POINTS.
pub fn number_form_is_exact()
    ensures parts { CutIntoItsParts }
    ensures value { MeansItsParts }
    ensures refused { BadWithoutParts }
{}
