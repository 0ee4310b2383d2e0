//! The line of a file in which a byte offset stands.
ghost use Rattle.std.specs.Prelude.{◌≡◌, ◌+◌, ◌≤◌, drop, length, take};
ghost use Rattle.std.specs.List.{prefix_len, suffix_len};
ghost use Rattle.wf_check.specs.NumberedLine.{characters, first_line, is_feed, last_line, line_number, starts_character, stays_in_line};
ghost use Rattle.wf_block.specs.Token.{without_mark};

/// U+FEFF in UTF-8, which may stand at the front of a file and is shown by no editor.
const BYTE_ORDER_MARK: [u8; 3] = [0xEF, 0xBB, 0xBF];

/// The line in which a byte offset stands, cut there.
#[derive(Clone, Copy)]
pub struct NumberedLine<'a> {
    /// Its number, from 1.
    pub number: usize,
    /// Its bytes before the offset, without a byte order mark at the front of the file.
    pub before: &'a [u8],
    /// Its bytes from the offset on, without the line feed.
    pub after: &'a [u8],
}

impl<'a> NumberedLine<'a> {
    /// The line of this offset in a file.
    pub fn at(bytes: &'a [u8], offset: usize) -> Self
        requires { offset ≤ length bytes.now }
        ensures number { result.number ≡ line_number (take offset bytes.now) }
        ensures before { result.before.now ≡ last_line (without_mark (take offset bytes.now)) }
        ensures after { result.after.now ≡ first_line (drop offset bytes.now) }
    {
        let (before, after) = bytes.split_at(offset);
        NumberedLine {
            number: line_number(before),
            before: last_line(without_mark(before)),
            after: first_line(after),
        }
    }

    /// The column of the offset, in characters from 1.
    pub fn column(&self) -> usize
        ensures { result ≡ characters self.now.before.now + 1 }
    {
        characters(self.before) + 1
    }
}

#[tactic(auto, unfolding(crate::specs::NumberedLine::is_feed))]
pub(crate) fn is_feed(byte: u8) -> bool
    ensures { result ≡ is_feed byte }
{
    byte == b'\n'
}

#[tactic(auto, unfolding(crate::specs::NumberedLine::starts_character))]
fn starts_character(byte: u8) -> bool
    ensures { result ≡ starts_character byte }
{
    !(128 <= byte && byte < 192)
}

#[tactic(auto, unfolding(crate::specs::NumberedLine::stays_in_line))]
fn stays_in_line(byte: u8) -> bool
    ensures { result ≡ stays_in_line byte }
{
    !is_feed(byte)
}

/// The number of the line that follows these bytes.
#[tactic(auto, unfolding(crate::specs::NumberedLine::line_number))]
fn line_number(before: &[u8]) -> usize
    ensures { result ≡ line_number before.now }
{
    let mut number = 1;
    for byte in before {
        if is_feed(*byte) {
            number += 1;
        }
    }
    number
}

/// The number of characters.
#[tactic(auto, unfolding(crate::specs::NumberedLine::characters))]
fn characters(bytes: &[u8]) -> usize
    ensures value { result ≡ characters bytes.now }
    ensures most { result ≤ length bytes.now }
{
    let mut count = 0;
    for byte in bytes {
        if starts_character(*byte) {
            count += 1;
        }
    }
    count
}

/// The number of bytes after the last line feed.
fn tail_length(before: &[u8]) -> usize
    ensures value { result ≡ suffix_len stays_in_line before.now }
    ensures most { result ≤ length before.now }
{
    before
        .iter()
        .rev()
        .take_while(|byte| stays_in_line(**byte))
        .count()
}

/// The number of bytes before the first line feed.
fn head_length(after: &[u8]) -> usize
    ensures value { result ≡ prefix_len stays_in_line after.now }
    ensures most { result ≤ length after.now }
{
    after
        .iter()
        .take_while(|byte| stays_in_line(**byte))
        .count()
}

/// The bytes after the last line feed.
#[tactic(auto, unfolding(crate::specs::NumberedLine::last_line))]
fn last_line(before: &[u8]) -> &[u8]
    ensures { result.now ≡ last_line before.now }
{
    before.split_at(before.len() - tail_length(before)).1
}

/// The bytes before the first line feed.
#[tactic(auto, unfolding(crate::specs::NumberedLine::first_line))]
fn first_line(after: &[u8]) -> &[u8]
    ensures { result.now ≡ first_line after.now }
{
    after.split_at(head_length(after)).0
}

/// The bytes without a byte order mark.
#[tactic(auto, unfolding(wf_block::specs::Token::without_mark))]
fn without_mark(bytes: &[u8]) -> &[u8]
    ensures { result.now ≡ without_mark bytes.now }
{
    bytes.strip_prefix(&BYTE_ORDER_MARK).unwrap_or(bytes)
}

/// The number of the line of an offset.
pub(crate) fn line_of(bytes: &[u8], offset: usize) -> usize {
    line_number(bytes.split_at(offset.min(bytes.len())).0)
}
