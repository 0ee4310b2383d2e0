//! Theorems about tokens that are spelled as lines.

ghost use Rattle.wf_block.specs.Spelling.{LinesAreReadAgain, LinesAreUtf8, NumbersAreWords, WholeNumbersAreWords};

/// The tokens of spelled lines are the tokens that were spelled. A theorem: the call does nothing.
pub fn spelled_lines_are_read_again()
    ensures { LinesAreReadAgain }
{}

/// Spelled lines are UTF-8. A theorem: the call does nothing.
pub fn spelled_lines_are_utf8()
    ensures { LinesAreUtf8 }
{}

/// The text of a number is a word, and so are the digits of an integer. A theorem: the call does
/// nothing.
pub fn numbers_are_words()
    ensures numbers { NumbersAreWords }
    ensures whole_numbers { WholeNumbersAreWords }
{}
