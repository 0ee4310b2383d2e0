//! The parser: readers of the remaining tokens.
ghost use Rattle.std.specs.Prelude.{◌≡◌, ◌∷◌, [], drop, false, is_some, length, IfOk, MatchOption, MatchResult, Some, None, if◌then◌else◌};
ghost use Rattle.wf_text.specs.Text.{IsText, is_text};
ghost use Rattle.wf_text.specs.ValueList.{is_value_list};
ghost use Rattle.wf_block.specs.Token.{token_value, token_values};
ghost use Rattle.wf_block.specs.ReadContract.{Gives, is_memory};
ghost use Rattle.wf_block.specs.Grammar.{argument, end, number, text, value_list, whole, word};

use crate::fault::MapFault;
use crate::keyword::is_end;
use crate::place::{Block, Place};
use crate::token::{Token, TokenKind};
use std::alloc::Global;
use std::marker::Model;
use wf_text::{Micro, NumberFault, Text, TextFault, ValueList, Whole, check_list, check_text};

/// The remaining tokens of a file. Model: their values.
#[derive(Drop)]
pub struct Parser<'a> {
    alloc: Global,
    tokens: &'a [Token<'a>],
    at: usize,
    end: usize,
    place: Place,
}

impl<'a> Model for Parser<'a> {
    ghost use Rattle.std.specs.Prelude.{◌≤◌, List, drop, length};
    ghost use Rattle.wf_block.specs.Token.{Token, token_values};

    ghost Value = { List Token };

    ghost view = { λ p. token_values (drop p.at p.tokens.now) };

    ghost invariant = { λ p. p.at ≤ length p.tokens.now };
}

impl<'a> Parser<'a> {
    /// A parser of a file's tokens; `end` is the file's length in bytes.
    pub fn new(alloc: Global, tokens: &'a [Token<'a>], end: usize) -> Self
        ensures { result ≡ token_values tokens.now }
    {
        Parser {
            alloc,
            tokens,
            at: 0,
            end,
            place: Place::front(),
        }
    }

    /// The number of remaining tokens.
    pub fn len(&self) -> usize
        ensures { result ≡ length self.now }
    {
        self.tokens.len() - self.at
    }

    /// Takes the first remaining token.
    pub fn next(&mut self) -> Result<Token<'a>, MapFault>
        ensures { MatchResult result (λ t. self.old ≡ token_value t ∷ self.new)
            (λ e. (self.old ≡ []) × (is_memory e ≡ false)) }
    {
        if self.at == self.tokens.len() {
            return Err(self.missing_end());
        }
        let token = self.tokens[self.at];
        self.at += 1;
        Ok(token)
    }

    /// The allocator for the values that are read.
    pub fn alloc(&self) -> Global {
        self.alloc
    }

    /// The first remaining token, without taking it.
    pub fn peek(&self) -> Option<Token<'a>>
        ensures { MatchOption result (self.now ≡ [])
            (λ t. self.now ≡ token_value t ∷ drop 1 self.now) }
    {
        if self.at == self.tokens.len() {
            return None;
        }
        Some(self.tokens[self.at])
    }

    /// The byte offset of the first remaining token, or the file's length.
    pub fn byte_offset(&self) -> usize {
        match self.peek() {
            Some(token) => token.byte_offset,
            None => self.end,
        }
    }

    /// The byte offset of the token that was read last.
    fn last(&self) -> Option<usize> {
        if self.at == 0 {
            return None;
        }
        Some(self.tokens[self.at - 1].byte_offset)
    }

    /// Where the reader is.
    pub fn place(&self) -> Place {
        let mut place = self.place;
        place.last = self.last();
        place
    }

    /// Enters a block, behind the keyword that begins it, and returns where the reader was.
    pub fn enter(&mut self, block: Block) -> Place
        ensures { self.new ≡ self.old }
    {
        let outer = self.place;
        self.place.block = Some(block);
        self.place.begin = self.last().unwrap_or(0);
        self.place.keyword = None;
        outer
    }

    /// Leaves a block, behind its END, for where the reader was before it.
    pub fn leave(&mut self, outer: Place)
        ensures { self.new ≡ self.old }
    {
        let ended = self.place.block;
        self.place = outer;
        self.place.ended = ended;
        self.place.lacking = None;
    }

    /// Says which keyword the block that ended last requires and doesn't have.
    pub fn lacks(&mut self, keyword: Option<&'static str>)
        ensures { self.new ≡ self.old }
    {
        self.place.lacking = keyword;
    }

    /// Says at or behind which keyword, or what stands for one, the reader is.
    pub fn at_keyword(&mut self, byte_offset: Option<usize>)
        ensures { self.new ≡ self.old }
    {
        self.place.keyword = byte_offset;
    }

    /// The error of a file that ends too early.
    pub fn missing_end(&self) -> MapFault
        ensures { is_memory result ≡ false }
    {
        MapFault::MissingEnd(self.end)
    }

    /// Reads an argument: a string, or a word other than END.
    #[tactic(auto, unfolding(crate::specs::Grammar::argument))]
    pub fn argument(&mut self) -> Result<Token<'a>, MapFault>
        ensures { Gives (λ t. (t.text.now, self.new)) result (argument self.old) }
    {
        let token = self.next()?;
        match token.kind {
            TokenKind::Quoted => Ok(token),
            TokenKind::Word => {
                if is_end(token.text) {
                    Err(MapFault::UnexpectedWord(token.byte_offset))
                } else {
                    Ok(token)
                }
            }
            TokenKind::Braced => Err(MapFault::UnexpectedWord(token.byte_offset)),
        }
    }

    /// Reads a word, such as a keyword.
    #[tactic(auto, unfolding(crate::specs::Grammar::word))]
    pub fn word(&mut self) -> Result<Token<'a>, MapFault>
        ensures { Gives (λ t. (t.text.now, self.new)) result (word self.old) }
    {
        let token = self.next()?;
        match token.kind {
            TokenKind::Quoted | TokenKind::Braced => Err(MapFault::UnexpectedWord(
                token.byte_offset,
            )),
            TokenKind::Word => Ok(token),
        }
    }

    /// Reads a keyword of a block, or its END.
    pub fn keyword(&mut self) -> Result<Token<'a>, MapFault>
        ensures { Gives (λ t. (t.text.now, self.new)) result (word self.old) }
    {
        self.at_keyword(None);
        let word = self.word()?;
        self.at_keyword(Some(word.byte_offset));
        Ok(word)
    }

    /// Reads the END of a block.
    #[tactic(auto, unfolding(crate::specs::Grammar::end))]
    pub fn end(&mut self) -> Result<(), MapFault>
        ensures { Gives (λ _. self.new) result (end self.old) }
    {
        let word = self.word()?;
        if is_end(word.text) {
            Ok(())
        } else {
            Err(MapFault::UnexpectedWord(word.byte_offset))
        }
    }

    /// Whether the block's END is next.
    #[tactic(auto, unfolding(crate::specs::Grammar::end, crate::specs::Grammar::word))]
    pub fn is_at_end(&self) -> bool
        ensures { result ≡ is_some (end self.now) }
    {
        match self.peek() {
            None => false,
            Some(token) => match token.kind {
                TokenKind::Quoted | TokenKind::Braced => false,
                TokenKind::Word => is_end(token.text),
            },
        }
    }

    /// Reads a text.
    #[tactic(auto, unfolding(crate::specs::Grammar::text))]
    pub fn text(&mut self) -> Result<Text, MapFault>
        ensures { Gives (λ t. (t, self.new)) result (text self.old) }
    {
        let token = self.argument()?;
        self.text_at(token.text, token.byte_offset)
    }

    /// Reads a text without copying it from the file.
    #[tactic(auto, unfolding(crate::specs::Grammar::text))]
    pub fn text_there(&mut self) -> Result<&'a str, MapFault>
        ensures read { Gives (λ t. (t.now, self.new)) result (text self.old) }
        ensures within { IfOk result (λ t. IsText t.now) }
    {
        let token = self.argument()?;
        text_of(token.text, token.byte_offset)
    }

    /// The bytes of a token as a text.
    pub fn text_at(&self, bytes: &[u8], byte_offset: usize) -> Result<Text, MapFault>
        ensures { Gives (λ t. t) result (if is_text bytes.now then Some bytes.now else None) }
    {
        let text = text_of(bytes, byte_offset)?;
        Ok(Text::from_str(self.alloc, text)?)
    }

    /// Reads a list in braces.
    #[tactic(auto, unfolding(crate::specs::Grammar::value_list))]
    pub fn value_list(&mut self) -> Result<ValueList, MapFault>
        ensures { Gives (λ l. (l, self.new)) result (value_list self.old) }
    {
        let token = self.next()?;
        match token.kind {
            TokenKind::Braced => self.value_list_at(token.text, token.byte_offset),
            TokenKind::Word | TokenKind::Quoted => Err(MapFault::UnexpectedWord(token.byte_offset)),
        }
    }

    /// The bytes of a token as the inside of a list.
    fn value_list_at(&self, bytes: &[u8], byte_offset: usize) -> Result<ValueList, MapFault>
        ensures { Gives (λ l. l) result (if is_value_list bytes.now then Some bytes.now else None) }
    {
        match check_list(bytes) {
            Some(inside) => Ok(ValueList::from_str(self.alloc, inside)?),
            None => Err(MapFault::BadToken(byte_offset)),
        }
    }

    /// Reads a number.
    #[tactic(auto, unfolding(crate::specs::Grammar::number))]
    pub fn number(&mut self) -> Result<Micro, MapFault>
        ensures { Gives (λ n. (n, self.new)) result (number self.old) }
    {
        let token = self.argument()?;
        match Micro::read(token.text) {
            Ok(number) => Ok(number),
            Err(NumberFault::BadNumber) => Err(MapFault::BadNumber(token.byte_offset)),
            Err(NumberFault::OutOfRange) => Err(MapFault::OutOfRange(token.byte_offset)),
        }
    }

    /// Reads an integer from `LEAST` to `MOST`.
    #[tactic(auto, unfolding(crate::specs::Grammar::whole))]
    pub fn whole<const LEAST: u8, const MOST: u8>(&mut self) -> Result<Whole<LEAST, MOST>, MapFault>
        ensures { Gives (λ n. (n, self.new)) result (whole LEAST MOST self.old) }
    {
        let byte_offset = self.byte_offset();
        let number = self.number()?;
        Whole::from_micro(number).ok_or(MapFault::OutOfRange(byte_offset))
    }
}

/// The bytes of a token as a text.
fn text_of(bytes: &[u8], byte_offset: usize) -> Result<&str, MapFault>
    ensures read { Gives (λ t. t.now) result (if is_text bytes.now then Some bytes.now else None) }
    ensures within { IfOk result (λ t. IsText t.now) }
{
    match check_text(bytes) {
        Ok(text) => Ok(text),
        Err(TextFault::TooLong) => Err(MapFault::OutOfRange(byte_offset)),
        Err(_) => Err(MapFault::BadToken(byte_offset)),
    }
}
