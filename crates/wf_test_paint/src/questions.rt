//! The questions.
use crate::{cell, file, picture, position};
use wf_test_table::{Answered, CaseInput, Transcript, Unanswered};

/// Asks a question about the painter. A box is its least x, least y, most x and most y, with spaces
/// between.
///
/// ```text
/// picture BOX, W by H, BACKGROUND[, LAYER ..]    a mapfile            the layers painted from left
///                                                                     to right over a colour, and
///                                                                     their labels: a letter a
///                                                                     pixel, the top row first
/// part COLUMN ROW, W by H of PICTURE             a mapfile            the same of W columns and H
///                                                                     rows of the view's picture
///                                                                     from this pixel on
/// file BOX, W by H, BACKGROUND[, LAYER ..]       a mapfile            the layers' picture as a
///                                                                     file, cut to its tile
/// position BOX, W by H, X Y                      a mapfile            where the view shows the
///                                                                     point, in sixteenths of a
///                                                                     pixel from the left and from
///                                                                     the bottom; for a tile also
///                                                                     the pixel at which it is cut
///                                                                     out
/// cell EXTENT                                    BOX, W by H          level, column and row of the
///                                                                     extent's grid, none
/// ```
///
/// `letter` has the letters.
pub fn ask(question: &str, asked: CaseInput<'_>, answer: &mut Transcript) -> Answered {
    match question {
        "picture" => picture::ask(asked, answer),
        "part" => picture::ask_part(asked, answer),
        "file" => file::ask(asked, answer),
        "position" => position::ask(asked, answer),
        "cell" => cell::ask(asked, answer),
        _ => Err(Unanswered::UnknownQuestion),
    }
}
