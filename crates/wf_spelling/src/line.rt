//! Appends the lines of a canonical text: tokens separated by single spaces, followed by LF.

ghost use Rattle.std.specs.Prelude.{◌≡◌, ◌∷◌};
ghost use Rattle.std.specs.Fmt.{decimal};
ghost use Rattle.wf_text.specs.NumberText.{number_text};
ghost use Rattle.wf_block.specs.Spelling.{quote_for, quoted, braced, spelled, line, text_of};
ghost use Rattle.wf_spelling.specs.Canon.{alone, with_text, expression_token, with_expression, with_word, with_key, with_extent, with_color, when_there, point_line};
ghost use Rattle.wf_spelling.specs.Draft.{Writes};

use crate::draft::Draft;
use crate::number::{push_number, push_whole};
use wf_def::{Color, Expression, Extent, Micro, Point};

/// The quote around a text.
pub fn quote_for(text: &[u8]) -> u8
    ensures { result ≡ quote_for text.now }
{
    if text.contains(&b'"') { b'\'' } else { b'"' }
}

/// Writes a text in its quotes.
pub fn push_quoted(out: &mut Draft, text: &[u8])
    ensures { Writes out.old (quoted text.now) out.new }
{
    let quote = quote_for(text);
    out.push(&[quote]);
    out.push(text);
    out.push(&[quote]);
}

/// Writes a list in its braces.
fn push_braced(out: &mut Draft, inside: &[u8])
    ensures { Writes out.old (braced inside.now) out.new }
{
    out.push(b"{");
    out.push(inside);
    out.push(b"}");
}

/// Writes an expression.
fn push_expression(out: &mut Draft, expression: &Expression)
    ensures { Writes out.old (spelled (expression_token expression.now)) out.new }
{
    match expression {
        Expression::Equals(text) => push_quoted(out, text.as_bytes()),
        Expression::OneOf(list) => push_braced(out, list.as_bytes()),
    }
}

/// Writes a line of one keyword.
#[tactic(auto, unfolding(wf_block::specs::Spelling::line))]
pub fn push_alone(out: &mut Draft, keyword: &str)
    ensures { Writes out.old (line (alone keyword.now)) out.new }
{
    out.push(keyword.as_bytes());
    out.push(b"\n");
}

/// Writes a line of a keyword and a text.
#[tactic(auto, unfolding(wf_block::specs::Spelling::line))]
pub fn push_with_text(out: &mut Draft, keyword: &str, text: &[u8])
    ensures { Writes out.old (line (with_text keyword.now text.now)) out.new }
{
    out.push(keyword.as_bytes());
    out.push(b" ");
    push_quoted(out, text);
    out.push(b"\n");
}

/// Writes a line of a keyword and an expression.
#[tactic(auto, unfolding(wf_block::specs::Spelling::line))]
fn push_with_expression(out: &mut Draft, keyword: &str, expression: &Expression)
    ensures { Writes out.old (line (with_expression keyword.now expression.now)) out.new }
{
    out.push(keyword.as_bytes());
    out.push(b" ");
    push_expression(out, expression);
    out.push(b"\n");
}

/// Writes a line of a keyword and an expression, if there is an expression.
pub fn push_optional_expression(out: &mut Draft, keyword: &str, expression: &Option<Expression>)
    ensures { Writes out.old (text_of (when_there (with_expression keyword.now) expression.now))
        out.new }
{
    if let Some(expression) = expression {
        push_with_expression(out, keyword, expression);
    }
}

/// Writes a line of a keyword and a word.
#[tactic(auto, unfolding(wf_block::specs::Spelling::line))]
pub fn push_with_word(out: &mut Draft, keyword: &str, word: &str)
    ensures { Writes out.old (line (with_word keyword.now word.now)) out.new }
{
    out.push(keyword.as_bytes());
    out.push(b" ");
    out.push(word.as_bytes());
    out.push(b"\n");
}

/// Writes a line of a keyword and an integer.
#[tactic(auto, unfolding(wf_block::specs::Spelling::line))]
pub fn push_with_whole(out: &mut Draft, keyword: &str, whole: u8)
    ensures { Writes out.old (line (with_word keyword.now (decimal whole))) out.new }
{
    out.push(keyword.as_bytes());
    push_next_whole(out, whole);
    out.push(b"\n");
}

/// Writes a line of a metadata key and its text.
#[tactic(auto, unfolding(wf_block::specs::Spelling::line))]
pub fn push_with_key(out: &mut Draft, key: &str, text: &[u8])
    ensures { Writes out.old (line (with_key key.now text.now)) out.new }
{
    push_quoted(out, key.as_bytes());
    out.push(b" ");
    push_quoted(out, text);
    out.push(b"\n");
}

/// Writes a space and a number.
fn push_next_number(out: &mut Draft, number: Micro)
    ensures { Writes out.old (32 ∷ number_text number) out.new }
{
    out.push(b" ");
    push_number(out, number);
}

/// Writes a space and an integer.
fn push_next_whole(out: &mut Draft, whole: u8)
    ensures { Writes out.old (32 ∷ decimal whole) out.new }
{
    out.push(b" ");
    push_whole(out, u64::from(whole));
}

/// Writes a line of a keyword and a box.
#[tactic(auto, unfolding(wf_block::specs::Spelling::line))]
pub fn push_with_extent(out: &mut Draft, keyword: &str, extent: Extent)
    ensures { Writes out.old (line (with_extent keyword.now extent)) out.new }
{
    out.push(keyword.as_bytes());
    push_next_number(out, extent.minx());
    push_next_number(out, extent.miny());
    push_next_number(out, extent.maxx());
    push_next_number(out, extent.maxy());
    out.push(b"\n");
}

/// Writes a line of a keyword and a colour.
#[tactic(auto, unfolding(wf_block::specs::Spelling::line))]
pub fn push_with_color(out: &mut Draft, keyword: &str, color: Color)
    ensures { Writes out.old (line (with_color keyword.now color)) out.new }
{
    out.push(keyword.as_bytes());
    push_next_whole(out, color.r);
    push_next_whole(out, color.g);
    push_next_whole(out, color.b);
    out.push(b"\n");
}

/// Writes a line of a keyword and a colour, if there is a colour.
pub fn push_optional_color(out: &mut Draft, keyword: &str, color: Option<Color>)
    ensures { Writes out.old (text_of (when_there (with_color keyword.now) color)) out.new }
{
    if let Some(color) = color {
        push_with_color(out, keyword, color);
    }
}

/// Writes a line of a point.
#[tactic(auto, unfolding(wf_block::specs::Spelling::line))]
pub fn push_point(out: &mut Draft, point: Point)
    ensures { Writes out.old (line (point_line point)) out.new }
{
    push_number(out, point.x);
    push_next_number(out, point.y);
    out.push(b"\n");
}
