//! The lines of a script, one after the other.

ghost use Rattle.std.specs.Prelude.{◌≡◌, ◌≤◌, ◌+◌, length, ◌==◌, [], IfSome, IfNone};
ghost use Rattle.std.specs.List.{prefix_len};
ghost use Rattle.wf_script.specs.Lines.{line_feeds, lines, without_return, is_in_line};

use std::marker::Model;

/// The lines that are left, and the number of the last one that was returned.
#[derive(Drop)]
pub(crate) struct Lines<'a> {
    rest: &'a [u8],
    number: usize,
}

impl<'a> Model for Lines<'a> {
    ghost use Rattle.std.specs.Prelude.{◌+◌, ◌<◌, ◌^◌, length};
    ghost use Rattle.wf_script.specs.Lines.{Lines, lines};

    ghost Value = { Lines };

    ghost view = { λ l. record { number = l.number; left = lines l.rest.now } };

    ghost invariant = { λ l. l.number + length l.rest.now < 2 ^ 64 };
}

impl<'a> Lines<'a> {
    ghost use Rattle.wf_script.specs.Lines.{IsNext, total};

    pub(crate) fn new(bytes: &'a [u8]) -> Lines<'a>
        ensures number { result.number ≡ 0 }
        ensures left { result.left ≡ lines bytes.now }
    {
        Lines {
            rest: bytes,
            number: 0,
        }
    }

    /// The number of the last line that was returned, counted from 1; 0 before the first.
    pub(crate) fn number(&self) -> usize
        ensures { result ≡ self.now.number }
    {
        self.number
    }

    /// The next line, without the line feed that ends it and the carriage return before that.
    #[tactic(auto, using(crate::proofs::LineCuts::none_left, crate::proofs::LineCuts::ended_line, crate::proofs::LineCuts::last_line, crate::proofs::LineCuts::one_less))]
    pub(crate) fn next(&mut self) -> Option<&'a [u8]>
        ensures none { IfNone result (self.old.left ≡ []) }
        ensures end { IfNone result (self.new ≡ self.old) }
        ensures some { IfSome result (λ line. IsNext line.now self.old self.new) }
        ensures total { total self.new ≡ total self.old }
    {
        if self.rest.is_empty() {
            return None;
        }
        self.number += 1;
        let (line, end) = self.rest.split_at(length_of_line(self.rest));
        match end.split_first() {
            Some((_, rest)) => {
                self.rest = rest;
                Some(without_return(line))
            }
            // The last line may end without a line feed.
            None => {
                self.rest = end;
                Some(line)
            }
        }
    }
}

/// How many bytes come before the first line feed.
fn length_of_line(bytes: &[u8]) -> usize
    ensures value { result ≡ prefix_len is_in_line bytes.now }
    ensures most { result ≤ length bytes.now }
{
    bytes.iter().take_while(|byte| **byte != b'\n').count()
}

#[tactic(auto, using(crate::proofs::LineCuts::return_dropped, crate::proofs::LineCuts::no_return, crate::proofs::LineCuts::nothing_dropped))]
fn without_return(line: &[u8]) -> &[u8]
    ensures { result.now ≡ without_return line.now }
{
    match line.split_last() {
        Some((last, front)) => { if *last == b'\r' { front } else { line } }
        None => line,
    }
}

/// How many lines end within the bytes.
pub(crate) fn lines_ended(bytes: &[u8]) -> usize
    ensures value { result ≡ line_feeds bytes.now }
    ensures most { result ≤ length bytes.now }
{
    bytes.iter().filter(|byte| **byte == b'\n').count()
}
