//! The words of a line.

ghost use Rattle.std.specs.Prelude.{◌≡◌, ◌≤◌, ◌∷◌, [], length, ◌==◌, IfSome, IfNone, min, ◌-◌, ◌^◌};
ghost use Rattle.std.specs.Char.{is_ascii_digit};
ghost use Rattle.std.specs.List.{list_all, prefix_len};
ghost use Rattle.wf_script.specs.ReadContract.{Gives};
ghost use Rattle.wf_script.specs.Words.{a_number, a_text, a_word, ends_map, is_in_word, is_skipped, is_space, no_word, number, text_of, value, words};

use crate::fault::Wrong;
use std::marker::Model;

/// The most digits that a number has.
const MOST_DIGITS: usize = 9;

/// The words that are left of a line. Spaces separate them.
#[derive(Drop)]
pub(crate) struct Words<'a> {
    rest: &'a [u8],
}

impl<'a> Model for Words<'a> {
    ghost use Rattle.std.specs.Prelude.{ℕ, List};
    ghost use Rattle.wf_script.specs.Words.{words};

    ghost Value = { List (List ℕ) };

    ghost view = { λ w. words w.rest.now };
}

impl<'a> Words<'a> {
    pub(crate) fn new(line: &'a [u8]) -> Words<'a>
        ensures { result ≡ words line.now }
    {
        Words { rest: line }
    }

    /// The next word, if there is one.
    pub(crate) fn next(&mut self) -> Option<&'a [u8]>
        ensures none { IfNone result (self.old ≡ []) }
        ensures end { IfNone result (self.new ≡ []) }
        ensures some { IfSome result (λ word. self.old ≡ word.now ∷ self.new) }
    {
        let behind = self.rest.split_at(spaces(self.rest)).1;
        let (word, rest) = behind.split_at(length_of_word(behind));
        self.rest = rest;
        if word.is_empty() {
            return None;
        }
        Some(word)
    }

    /// The next word, which must be there.
    #[tactic(auto, unfolding(crate::specs::Words::a_word))]
    pub(crate) fn word(&mut self) -> Result<&'a [u8], Wrong>
        ensures { Gives (λ word. (word.now, self.new)) result (a_word self.old) }
    {
        match self.next() {
            Some(word) => Ok(word),
            None => Err(Wrong::BadLine),
        }
    }

    /// The next word as text.
    #[tactic(auto, unfolding(crate::specs::Words::a_text))]
    pub(crate) fn text(&mut self) -> Result<&'a str, Wrong>
        ensures { Gives (λ text. (text.now, self.new)) result (a_text self.old) }
    {
        let word = self.word()?;
        text(word)
    }

    /// The number that the next word is.
    #[tactic(auto, unfolding(crate::specs::Words::a_number))]
    pub(crate) fn number(&mut self) -> Result<usize, Wrong>
        ensures { Gives (λ n. (n, self.new)) result (a_number self.old) }
    {
        let word = self.word()?;
        number(word)
    }

    /// No word is left.
    #[tactic(auto, unfolding(crate::specs::Words::no_word))]
    pub(crate) fn end(&mut self) -> Result<(), Wrong>
        ensures { Gives (λ _. tt) result (no_word self.old) }
    {
        match self.next() {
            None => Ok(()),
            Some(_) => Err(Wrong::BadLine),
        }
    }
}

fn spaces(line: &[u8]) -> usize
    ensures value { result ≡ prefix_len is_space line.now }
    ensures most { result ≤ length line.now }
{
    line.iter().take_while(|byte| **byte == b' ').count()
}

fn length_of_word(line: &[u8]) -> usize
    ensures value { result ≡ prefix_len is_in_word line.now }
    ensures most { result ≤ length line.now }
{
    line.iter().take_while(|byte| **byte != b' ').count()
}

/// The text that a word is.
fn text(word: &[u8]) -> Result<&str, Wrong>
    ensures { Gives (λ text. text.now) result (text_of word.now) }
{
    match str::from_utf8(word) {
        Ok(text) => Ok(text),
        Err(_) => Err(Wrong::BadLine),
    }
}

fn are_digits(word: &[u8]) -> bool
    ensures { result ≡ list_all is_ascii_digit word.now }
{
    word.iter().all(|byte| byte.is_ascii_digit())
}

/// The number that 1 to 9 digits are.
#[tactic(auto, unfolding(crate::specs::Words::number), using(crate::proofs::Numbers::few_digits))]
pub(crate) fn number(word: &[u8]) -> Result<usize, Wrong>
    ensures { Gives (λ n. n) result (number word.now) }
{
    if word.is_empty() || word.len() > MOST_DIGITS || !are_digits(word) {
        return Err(Wrong::BadLine);
    }
    Ok(value(word))
}

/// The number that digits stand for, or `usize::MAX` where it is greater.
fn value(digits: &[u8]) -> usize
    ensures { result ≡ min (value digits.now) (2 ^ 64 - 1) }
{
    let mut number = 0usize;
    for digit in digits {
        number = number
            .saturating_mul(10)
            .saturating_add(usize::from(digit.saturating_sub(b'0')));
    }
    number
}

/// Is the line skipped: without a word, or with `#` as its first byte?
#[tactic(auto, unfolding(crate::specs::Words::is_skipped))]
pub(crate) fn is_skipped(line: &[u8]) -> bool
    ensures { result ≡ is_skipped line.now }
{
    match line.first() {
        Some(first) if *first == b'#' => true,
        _ => Words::new(line).next().is_none(),
    }
}

/// Does the line end a map: is `endmap` its one word?
#[tactic(auto, unfolding(crate::specs::Words::ends_map, crate::specs::Words::is_only))]
pub(crate) fn ends_map(line: &[u8]) -> bool
    ensures { result ≡ ends_map line.now }
{
    let mut words = Words::new(line);
    match words.next() {
        Some(word) => word == b"endmap".as_slice() && words.next().is_none(),
        None => false,
    }
}
