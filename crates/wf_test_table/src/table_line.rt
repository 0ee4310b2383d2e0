//! The forms of a line of a table.
//!
//! ```text
//! # WORDS             a comment; so is an empty line
//! text NAME           begins a named text, whose content follows
//! case NAME           begins a case; NAME describes what it shows
//! ask WORDS           the question of the case
//! < T                 content of the input: T and a line feed
//! <. T                T alone
//! <* N T              T, N times
//! <& NAME             a named text
//! > T  >. T  >* N T  >& NAME      the same, of the expected answer
//! for INPUT => ANSWER             a case in one line: INPUT is the input, ANSWER and a line feed
//!                                 are expected
//! ```
//!
//! White space beside a row's INPUT and ANSWER doesn't belong to them.

use crate::fault::TableFault;
use crate::words::CaseWords;

/// What a line of content adds.
#[derive(Clone, Copy)]
pub(crate) enum Content<'a> {
    Line(&'a str),
    Piece(&'a str),
    Times(u32, &'a str),
    Named(&'a str),
}

/// A line of a table.
#[derive(Clone, Copy)]
pub(crate) enum TableLine<'a> {
    Nothing,
    Text(&'a str),
    Case(&'a str),
    Ask(&'a str),
    Row(&'a str, &'a str),
    Input(Content<'a>),
    Expected(Content<'a>),
}

// What follows a word and a space; nothing where the word is the whole line.
fn behind<'a>(line: &'a str, word: &str) -> Option<&'a str> {
    let rest = line.strip_prefix(word)?;
    if rest.is_empty() {
        return Some(rest);
    }
    rest.strip_prefix(' ')
}

fn read_times(rest: &str) -> Result<Content<'_>, TableFault> {
    let Some((count, text)) = rest.split_once(' ') else {
        return Err(TableFault::BadCount);
    };
    match CaseWords::new(count).number() {
        Ok(count) => Ok(Content::Times(count, text)),
        Err(_) => Err(TableFault::BadCount),
    }
}

// The content that a line adds, from after its first character.
fn read_content(rest: &str) -> Result<Content<'_>, TableFault> {
    if let Some(text) = behind(rest, ".") {
        return Ok(Content::Piece(text));
    }
    if let Some(text) = behind(rest, "*") {
        return read_times(text);
    }
    if let Some(name) = behind(rest, "&") {
        return Ok(Content::Named(name));
    }
    match behind(rest, "") {
        Some(text) => Ok(Content::Line(text)),
        None => Err(TableFault::UnknownLine),
    }
}

fn read_row(rest: &str) -> Result<TableLine<'_>, TableFault> {
    match rest.split_once("=>") {
        Some((input, answer)) => Ok(TableLine::Row(input.trim(), answer.trim())),
        None => Err(TableFault::NoArrow),
    }
}

fn read_content_line(line: &str) -> Result<TableLine<'_>, TableFault> {
    if let Some(rest) = line.strip_prefix('<') {
        return Ok(TableLine::Input(read_content(rest)?));
    }
    match line.strip_prefix('>') {
        Some(rest) => Ok(TableLine::Expected(read_content(rest)?)),
        None => Err(TableFault::UnknownLine),
    }
}

fn line_with_word(line: &str) -> Result<TableLine<'_>, TableFault> {
    if let Some(rest) = behind(line, "for") {
        return read_row(rest);
    }
    if let Some(words) = behind(line, "ask") {
        return Ok(TableLine::Ask(words));
    }
    if let Some(name) = behind(line, "case") {
        return Ok(TableLine::Case(name));
    }
    if let Some(name) = behind(line, "text") {
        return Ok(TableLine::Text(name));
    }
    read_content_line(line)
}

/// Reads a line, given without its line feed.
pub(crate) fn read_line(line: &str) -> Result<TableLine<'_>, TableFault> {
    if line.is_empty() || line.starts_with('#') {
        return Ok(TableLine::Nothing);
    }
    if line.trim_end().len() < line.len() {
        return Err(TableFault::SpaceAtEnd);
    }
    line_with_word(line)
}
