//! Words between spaces, read from left to right.
use crate::questions::Unanswered;
use std::mem;

/// The words that are left.
#[derive(Clone, Copy)]
pub struct CaseWords<'a> {
    rest: &'a str,
}

impl<'a> CaseWords<'a> {
    /// The words of a text.
    pub fn new(words: &'a str) -> CaseWords<'a> {
        CaseWords { rest: words }
    }

    /// The words of an input, which has to be UTF-8.
    pub fn of(input: &'a [u8]) -> Result<CaseWords<'a>, Unanswered> {
        match str::from_utf8(input) {
            Ok(words) => Ok(CaseWords::new(words)),
            Err(_) => Err(Unanswered::BadWords),
        }
    }

    /// The next word; an empty one after the last.
    pub fn word(&mut self) -> &'a str {
        match self.rest.split_once(' ') {
            Some((word, rest)) => {
                self.rest = rest;
                word
            }
            None => mem::replace(&mut self.rest, ""),
        }
    }

    /// The words up to the next comma and space, or all that are left.
    pub fn part(&mut self) -> &'a str {
        match self.rest.split_once(", ") {
            Some((part, rest)) => {
                self.rest = rest;
                part
            }
            None => mem::replace(&mut self.rest, ""),
        }
    }

    /// All words that are left.
    pub fn rest(self) -> &'a str {
        self.rest
    }

    /// Is no word left?
    pub fn is_empty(&self) -> bool {
        self.rest.is_empty()
    }

    /// The next word, a number of at most 255.
    pub fn byte(&mut self) -> Result<u8, Unanswered> {
        match self.word().parse::<u8>() {
            Ok(number) => Ok(number),
            Err(_) => Err(Unanswered::BadWords),
        }
    }

    /// The next word, a number of at most 65,535.
    pub fn short(&mut self) -> Result<u16, Unanswered> {
        match self.word().parse::<u16>() {
            Ok(number) => Ok(number),
            Err(_) => Err(Unanswered::BadWords),
        }
    }

    /// The next word, a number of at most 4,294,967,295.
    pub fn number(&mut self) -> Result<u32, Unanswered> {
        match self.word().parse::<u32>() {
            Ok(number) => Ok(number),
            Err(_) => Err(Unanswered::BadWords),
        }
    }

    /// The next word, a number that may be negative.
    pub fn signed_number(&mut self) -> Result<i64, Unanswered> {
        match self.word().parse::<i64>() {
            Ok(number) => Ok(number),
            Err(_) => Err(Unanswered::BadWords),
        }
    }

    /// The next word, a count.
    pub fn count(&mut self) -> Result<usize, Unanswered> {
        match self.word().parse::<usize>() {
            Ok(count) => Ok(count),
            Err(_) => Err(Unanswered::BadWords),
        }
    }
}
