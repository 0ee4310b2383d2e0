//! CLASS: which features it contains, and how they are drawn.
ghost use Rattle.std.specs.Prelude.{◌≡◌, IfOk, length, nat_lt};
ghost use Rattle.wf_class.specs.Class.{begins_list, begins_pattern, class, class_of, class_once, expression, no_class};
ghost use Rattle.wf_block.specs.ReadContract.{Gives, Passes};
ghost use Rattle.wf_def.specs.Limit.{most_styles};

use crate::label::read_label;
use crate::slots::{ClassOnce, ClassSlots};
use crate::style::read_style;
use std::alloc::{AllocError, Global};
use wf_block::{
    Block, MapFault, Parser, Slots, Token, TokenKind, fill_block, is_name, is_slash, once,
    text_or_empty,
};
use wf_def::{Class, Expression, Styles};

impl Slots for ClassSlots {
    ghost use Rattle.wf_class.specs.declared.slots.ClassSlots.{ClassSlots as Value};
    ghost use Rattle.wf_class.specs.Class.{class_put};

    ghost Settings = { Value };

    ghost settings = { λ slots. slots };

    ghost Within = { Unit {0} };

    ghost within = { λ _. tt };

    ghost put = { λ _. class_put };

    #[tactic(auto, unfolding(crate::specs::Class::class_put))]
    fn take(&mut self, keyword: Token<'_>, parser: &mut Parser<'_>) -> Result<(), MapFault> {
        if is_name(keyword.text, "STYLE") {
            room(&self.styles)?;
            let style = read_style(parser)?;
            self.styles.push(style)?;
        } else {
            self.single.take(keyword, parser)?;
        }
        Ok(())
    }
}

impl ClassOnce {
    /// Reads the arguments of a keyword that comes at most once, and stores them.
    #[tactic(auto, unfolding(crate::specs::Class::class_once))]
    fn take(&mut self, keyword: Token<'_>, parser: &mut Parser<'_>) -> Result<(), MapFault>
        ensures { Gives (λ _. (self.new, parser.new)) result
            (class_once self.old keyword.entry.text.now parser.old) }
    {
        let word = keyword.text;
        let byte_offset = keyword.byte_offset;
        if is_name(word, "NAME") {
            once!(self.name, byte_offset, parser.text());
        } else if is_name(word, "EXPRESSION") {
            once!(self.expression, byte_offset, read_expression(parser));
        } else if is_name(word, "LABEL") {
            once!(self.label, byte_offset, read_label(parser));
        } else {
            return Err(MapFault::UnexpectedWord(byte_offset));
        }
        Ok(())
    }
}

/// Rejects another style if there is no room for it.
fn room(styles: &Styles) -> Result<(), MapFault>
    ensures { Passes (nat_lt (length styles.now) most_styles) result }
{
    if styles.is_full() {
        return Err(MapFault::TooMany);
    }
    Ok(())
}

impl ClassSlots {
    fn new(alloc: Global) -> Self
        ensures { result ≡ no_class }
    {
        ClassSlots {
            styles: Styles::new(alloc),
            single: ClassOnce::default(),
        }
    }

    /// The class of the slots; the name is empty if there is none.
    #[tactic(auto, unfolding(crate::specs::Class::class_of))]
    fn fill(self, alloc: Global) -> Result<Class, AllocError>
        ensures { IfOk result (λ c. c ≡ class_of self) }
    {
        let ClassSlots { styles, single } = self;
        let ClassOnce {
            name,
            expression,
            label,
        } = single;
        let name = text_or_empty(alloc, name)?;
        Ok(Class::new(name, expression, styles, label))
    }
}

/// Reads a block up to its END (MapServer mapfile reference, CLASS).
#[tactic(auto, unfolding(crate::specs::Class::class))]
pub fn read_class(parser: &mut Parser<'_>) -> Result<Class, MapFault>
    ensures { Gives (λ c. (c, parser.new)) result (class parser.old) }
{
    let mut slots = ClassSlots::new(parser.alloc());
    fill_block(parser, Block::Class, &mut slots)?;
    Ok(slots.fill(parser.alloc())?)
}

/// Reads a list or a text to compare with (MapServer mapfile reference, EXPRESSION). A regular
/// expression is neither.
#[tactic(auto, unfolding(crate::specs::Class::expression))]
fn read_expression(parser: &mut Parser<'_>) -> Result<Expression, MapFault>
    ensures { Gives (λ e. (e, parser.new)) result (expression parser.old) }
{
    if begins_list(parser) {
        return Ok(Expression::OneOf(parser.value_list()?));
    }
    if begins_pattern(parser) {
        return Err(MapFault::UnexpectedWord(parser.byte_offset()));
    }
    Ok(Expression::Equals(parser.text()?))
}

/// Whether a list begins here.
#[tactic(auto, unfolding(crate::specs::Class::begins_list))]
fn begins_list(parser: &Parser<'_>) -> bool
    ensures { result ≡ begins_list parser.now }
{
    match parser.peek() {
        None => false,
        Some(token) => match token.kind {
            TokenKind::Word | TokenKind::Quoted => false,
            TokenKind::Braced => true,
        },
    }
}

/// Whether a regular expression begins here: a word that begins with `/`, outside quotes.
#[tactic(auto, unfolding(crate::specs::Class::begins_pattern))]
fn begins_pattern(parser: &Parser<'_>) -> bool
    ensures { result ≡ begins_pattern parser.now }
{
    match parser.peek() {
        None => false,
        Some(token) => match token.kind {
            TokenKind::Quoted | TokenKind::Braced => false,
            TokenKind::Word => match token.text {
                [first, ..] => is_slash(*first),
                [] => false,
            },
        },
    }
}
