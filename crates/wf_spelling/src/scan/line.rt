//! Scans the lines of a canonical text: tokens separated by single spaces, followed by LF.

ghost use Rattle.std.specs.Prelude.{◌≡◌, ◌<◌, [], ◌∷◌, ◌++◌, IfSome};
ghost use Rattle.std.specs.Fmt.{decimal};
ghost use Rattle.wf_text.specs.NumberText.{number_text};
ghost use Rattle.wf_block.specs.Spelling.{quote_for, quoted, braced, spelled, line, text_of};
ghost use Rattle.wf_spelling.specs.Canon.{alone, with_text, expression_token, with_expression, with_word, with_key, with_extent, with_color, when_there, point_line};
ghost use Rattle.wf_spelling.specs.Scan.{Scans};

use crate::line::quote_for;
use crate::scan::cursor::Cursor;
use crate::scan::number::{scan_number, scan_whole};
use std::alloc::Global;
use wf_def::{Color, Expression, Extent, Micro, Point, Text, ValueList, check_list};

/// Scans a line of one keyword.
#[inline(always)]
#[tactic(auto, unfolding(wf_block::specs::Spelling::line))]
pub fn scan_alone(cursor: &mut Cursor<'_>, keyword: &str)
    ensures { Scans cursor.old (line (alone keyword.now)) cursor.new }
{
    cursor.take(keyword.as_bytes());
    cursor.take(b"\n");
}

/// An empty text; `None` if allocation fails.
#[inline(always)]
pub fn empty_text(alloc: Global) -> Option<Text>
    ensures { IfSome result (λ text. text ≡ []) }
{
    match Text::from_str(alloc, "") {
        Ok(text) => Some(text),
        Err(_) => None,
    }
}

/// Scans a text in its quotes.
pub fn scan_text(cursor: &mut Cursor<'_>) -> Option<Text>
    ensures { IfSome result (λ text. Scans cursor.old (quoted text) cursor.new) }
{
    // A canonical text writes each absent text as an empty one, so most texts are empty.
    if cursor.skip(b"\"\"") {
        return empty_text(cursor.alloc());
    }
    let bytes = cursor.take_quoted()?;
    match Text::new(cursor.alloc(), bytes) {
        Ok(text) => Some(text),
        Err(_) => None,
    }
}

/// Scans a list in its braces.
fn scan_list(cursor: &mut Cursor<'_>) -> Option<ValueList>
    ensures { IfSome result (λ list. Scans cursor.old (braced list) cursor.new) }
{
    let bytes = cursor.take_braced()?;
    let inside = check_list(bytes)?;
    match ValueList::from_str(cursor.alloc(), inside) {
        Ok(list) => Some(list),
        Err(_) => None,
    }
}

/// Scans an expression: a list if a brace is ahead, else a text.
fn scan_expression(cursor: &mut Cursor<'_>) -> Option<Expression>
    ensures { IfSome result (λ e. Scans cursor.old (spelled (expression_token e)) cursor.new) }
{
    if cursor.is_at(b"{") {
        let list = scan_list(cursor)?;
        Some(Expression::OneOf(list))
    } else {
        let text = scan_text(cursor)?;
        Some(Expression::Equals(text))
    }
}

/// Scans this text in its quotes.
pub fn scan_quoted(cursor: &mut Cursor<'_>, text: &[u8])
    ensures { Scans cursor.old (quoted text.now) cursor.new }
{
    let quote = quote_for(text);
    cursor.take(&[quote]);
    cursor.take(text);
    cursor.take(&[quote]);
}

/// Scans a line of a keyword and a text.
#[tactic(auto, unfolding(wf_block::specs::Spelling::line))]
pub fn scan_with_text(cursor: &mut Cursor<'_>, keyword: &str) -> Option<Text>
    ensures { IfSome result (λ text. Scans cursor.old (line (with_text keyword.now text))
        cursor.new) }
{
    cursor.take(keyword.as_bytes());
    cursor.take(b" ");
    let text = scan_text(cursor);
    cursor.take(b"\n");
    text
}

/// Scans a line of a keyword and an expression.
#[tactic(auto, unfolding(wf_block::specs::Spelling::line))]
fn scan_with_expression(cursor: &mut Cursor<'_>, keyword: &str) -> Option<Expression>
    ensures { IfSome result (λ e. Scans cursor.old (line (with_expression keyword.now e))
        cursor.new) }
{
    cursor.take(keyword.as_bytes());
    cursor.take(b" ");
    let expression = scan_expression(cursor);
    cursor.take(b"\n");
    expression
}

/// Scans a line of a keyword and an expression, if the keyword is ahead; `Some(None)` if it isn't.
pub fn scan_optional_expression(
    cursor: &mut Cursor<'_>,
    keyword: &str,
) -> Option<Option<Expression>>
    ensures { IfSome result (λ e. Scans cursor.old
        (text_of (when_there (with_expression keyword.now) e)) cursor.new) }
{
    if !cursor.is_at(keyword.as_bytes()) {
        return Some(None);
    }
    match scan_with_expression(cursor, keyword) {
        Some(expression) => Some(Some(expression)),
        None => None,
    }
}

/// Scans a line of a keyword and a text that most values lack, given the line of an empty text
/// without its LF: one comparison does for all of it.
#[inline(always)]
pub fn scan_with_rare_text(cursor: &mut Cursor<'_>, keyword: &str, empty: &[u8]) -> Option<Text>
    requires { empty.now ++ 10 ∷ [] ≡ line (with_text keyword.now []) }
    ensures { IfSome result (λ text. Scans cursor.old (line (with_text keyword.now text))
        cursor.new) }
{
    if cursor.skip(empty) {
        cursor.take(b"\n");
        return empty_text(cursor.alloc());
    }
    scan_with_text(cursor, keyword)
}

/// Scans a line of a keyword and this word.
#[tactic(auto, unfolding(wf_block::specs::Spelling::line))]
pub fn scan_with_word(cursor: &mut Cursor<'_>, keyword: &str, word: &str)
    ensures { Scans cursor.old (line (with_word keyword.now word.now)) cursor.new }
{
    cursor.take(keyword.as_bytes());
    cursor.take(b" ");
    cursor.take(word.as_bytes());
    cursor.take(b"\n");
}

/// Scans a line of a keyword and an integer from 0 to 255.
#[tactic(auto, unfolding(wf_block::specs::Spelling::line))]
pub fn scan_with_whole(cursor: &mut Cursor<'_>, keyword: &str) -> Option<u8>
    ensures { IfSome result (λ whole. Scans cursor.old
        (line (with_word keyword.now (decimal whole))) cursor.new) }
{
    cursor.take(keyword.as_bytes());
    let whole = scan_next_whole(cursor)?;
    cursor.take(b"\n");
    Some(whole)
}

/// Scans a line of a metadata key, which has no double quote, and its text.
#[tactic(auto, unfolding(wf_block::specs::Spelling::line))]
pub fn scan_with_key(cursor: &mut Cursor<'_>, key: &str) -> Option<Text>
    requires { quote_for key.now ≡ 34 }
    ensures { IfSome result (λ text. Scans cursor.old (line (with_key key.now text)) cursor.new) }
{
    cursor.take(b"\"");
    cursor.take(key.as_bytes());
    cursor.take(b"\"");
    cursor.take(b" ");
    let text = scan_text(cursor);
    cursor.take(b"\n");
    text
}

/// Scans a space and a number.
fn scan_next_number(cursor: &mut Cursor<'_>) -> Option<Micro>
    ensures { IfSome result (λ number. Scans cursor.old (32 ∷ number_text number) cursor.new) }
{
    cursor.take(b" ");
    scan_number(cursor)
}

/// Scans a space and an integer from 0 to 255.
fn scan_next_whole(cursor: &mut Cursor<'_>) -> Option<u8>
    ensures { IfSome result (λ whole. Scans cursor.old (32 ∷ decimal whole) cursor.new) }
{
    cursor.take(b" ");
    let whole = scan_whole(cursor)?;
    if whole > 255 {
        return None;
    }
    Some(whole as u8)
}

/// Scans a line of a keyword and a box.
#[tactic(auto, unfolding(wf_block::specs::Spelling::line))]
pub fn scan_with_extent(cursor: &mut Cursor<'_>, keyword: &str) -> Option<Extent>
    ensures { IfSome result (λ extent. Scans cursor.old (line (with_extent keyword.now extent))
        cursor.new) }
{
    cursor.take(keyword.as_bytes());
    let minx = scan_next_number(cursor)?;
    let miny = scan_next_number(cursor)?;
    let maxx = scan_next_number(cursor)?;
    let maxy = scan_next_number(cursor)?;
    cursor.take(b"\n");
    Extent::new(minx, miny, maxx, maxy)
}

/// Scans a line of a keyword and a colour.
#[tactic(auto, unfolding(wf_block::specs::Spelling::line))]
pub fn scan_with_color(cursor: &mut Cursor<'_>, keyword: &str) -> Option<Color>
    ensures { IfSome result (λ color. Scans cursor.old (line (with_color keyword.now color))
        cursor.new) }
{
    cursor.take(keyword.as_bytes());
    let r = scan_next_whole(cursor)?;
    let g = scan_next_whole(cursor)?;
    let b = scan_next_whole(cursor)?;
    cursor.take(b"\n");
    Some(Color { r, g, b })
}

/// Scans a line of a keyword and a colour, if the keyword is ahead; `Some(None)` if it isn't.
pub fn scan_optional_color(cursor: &mut Cursor<'_>, keyword: &str) -> Option<Option<Color>>
    ensures { IfSome result (λ color. Scans cursor.old
        (text_of (when_there (with_color keyword.now) color)) cursor.new) }
{
    if !cursor.is_at(keyword.as_bytes()) {
        return Some(None);
    }
    let color = scan_with_color(cursor, keyword)?;
    Some(Some(color))
}

/// Scans a line of a point.
#[tactic(auto, unfolding(wf_block::specs::Spelling::line))]
pub fn scan_point(cursor: &mut Cursor<'_>) -> Option<Point>
    ensures { IfSome result (λ point. Scans cursor.old (line (point_line point)) cursor.new) }
{
    let x = scan_number(cursor)?;
    let y = scan_next_number(cursor)?;
    cursor.take(b"\n");
    Some(Point { x, y })
}
