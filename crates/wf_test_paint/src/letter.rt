//! Colours as letters: `K` black, `W` white, `R` red, `G` green, `B` blue, `Y` yellow; `?` any
//! other.
use wf_def::Color;
use wf_test_table::Unanswered;

/// The letter of a colour.
pub(crate) fn letter_of(color: Color) -> &'static str {
    match (color.r, color.g, color.b) {
        (0, 0, 0) => "K",
        (255, 255, 255) => "W",
        (255, 0, 0) => "R",
        (0, 255, 0) => "G",
        (0, 0, 255) => "B",
        (255, 255, 0) => "Y",
        _ => "?",
    }
}

/// The colour of a letter.
pub(crate) fn color_of(letter: &str) -> Result<Color, Unanswered> {
    let (r, g, b) = match letter {
        "K" => (0, 0, 0),
        "W" => (255, 255, 255),
        "R" => (255, 0, 0),
        "G" => (0, 255, 0),
        "B" => (0, 0, 255),
        "Y" => (255, 255, 0),
        _ => return Err(Unanswered::BadWords),
    };
    Ok(Color { r, g, b })
}
