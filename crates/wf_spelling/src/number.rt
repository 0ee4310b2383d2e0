//! The numbers of a canonical text.

ghost use Rattle.std.specs.Fmt.{decimal};
ghost use Rattle.wf_text.specs.NumberText.{number_text};
ghost use Rattle.wf_spelling.specs.Draft.{Writes};

use crate::draft::Draft;
use itoa::Buffer;
use wf_def::Micro;
use wf_text::NumberText;

/// Writes an integer.
pub fn push_whole(out: &mut Draft, whole: u64)
    ensures { Writes out.old (decimal whole) out.new }
{
    let mut digits = Buffer::new();
    out.push(digits.format(whole).as_bytes());
}

/// Writes a number of millionths.
pub fn push_number(out: &mut Draft, number: Micro)
    ensures { Writes out.old (number_text number) out.new }
{
    let text = NumberText::of(number);
    out.push(text.as_bytes());
}
