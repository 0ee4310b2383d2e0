//! The line at which a text is over a limit of scripts.

ghost use Rattle.std.specs.Prelude.{◌≡◌, length};
ghost use Rattle.wf_script.specs.Lines.{lesser, lines, over_bytes, over_limit, over_lines};

use crate::lines::lines_ended;

/// The longest script, in bytes.
pub const MOST_SCRIPT_BYTES: usize = 1_048_576;

/// The most lines of a script.
pub const MOST_LINES: usize = 10_000;

/// The line that holds the first byte over the limit of bytes, or the first line over the limit of
/// lines: the lesser, where both are.
#[tactic(auto, unfolding(crate::specs::Lines::over_limit))]
pub(crate) fn line_over(bytes: &[u8]) -> Option<usize>
    ensures { result ≡ over_limit bytes.now }
{
    lesser(line_of_byte_over(bytes), line_over_most(bytes))
}

fn lesser(first: Option<usize>, second: Option<usize>) -> Option<usize>
    ensures { result ≡ lesser first second }
{
    match (first, second) {
        (Some(first), Some(second)) => Some(first.min(second)),
        (Some(first), None) => Some(first),
        (None, second) => second,
    }
}

/// The line that holds the first byte over the limit.
#[tactic(auto, unfolding(crate::specs::Lines::over_bytes))]
fn line_of_byte_over(bytes: &[u8]) -> Option<usize>
    ensures { result ≡ over_bytes bytes.now }
{
    if bytes.len() > MOST_SCRIPT_BYTES {
        Some(lines_ended(bytes.split_at(MOST_SCRIPT_BYTES).0) + 1)
    } else {
        None
    }
}

/// The first line over the limit.
#[tactic(auto, unfolding(crate::specs::Lines::over_lines))]
fn line_over_most(bytes: &[u8]) -> Option<usize>
    ensures { result ≡ over_lines bytes.now }
{
    if lines_begun(bytes) > MOST_LINES {
        Some(MOST_LINES + 1)
    } else {
        None
    }
}

/// How many lines the bytes have; the last may end without a line feed.
#[tactic(auto, using(crate::proofs::LineCount::lines_counted, crate::proofs::LineCount::no_lines))]
fn lines_begun(bytes: &[u8]) -> usize
    ensures { result ≡ length (lines bytes.now) }
{
    match bytes.split_last() {
        Some((_, front)) => lines_ended(front) + 1,
        None => 0,
    }
}
