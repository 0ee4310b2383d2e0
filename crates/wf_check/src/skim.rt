//! What begins and ends in a file, as far as its keywords say.
//!
//! A skim reads no argument and goes on behind an error, so it has what a report counts there.

use std::alloc::{AllocError, Global};
use wf_block::{Block, Token, TokenKind, choose, is_end};
use wf_mapfile::{Takes, keyword_of};

/// What a token of a file does.
#[derive(Clone, Copy, PartialEq, Eq)]
pub(crate) enum Act {
    Begins(Block),
    Ends(Block),
    /// It is the first number of a point.
    Point,
    /// It is TYPE in LAYER.
    Type,
}

/// A token that does something: its index and its byte offset.
#[derive(Clone, Copy)]
pub(crate) struct Event {
    pub(crate) act: Act,
    pub(crate) index: usize,
    pub(crate) offset: usize,
}

/// The events of a file so far, the blocks that are open, and how many tokens of an argument have
/// to come.
#[derive(Drop)]
struct Skim {
    events: Vec<Event>,
    open: Vec<Block>,
    left: u8,
}

/// The events of a file of these tokens, in order.
pub(crate) fn events_of(alloc: Global, tokens: &[Token<'_>]) -> Result<Vec<Event>, AllocError> {
    let mut skim = Skim {
        events: Vec::new(alloc),
        open: Vec::new(alloc),
        left: 0,
    };
    for index in 0..tokens.len() {
        if let Err(error) = skim.step(index, tokens[index]) {
            drop(skim);
            return Err(error);
        }
    }
    let Skim { events, .. } = skim;
    Ok(events)
}

impl Skim {
    /// Goes past a token. What is neither a keyword nor its argument is passed over.
    fn step(&mut self, index: usize, token: Token<'_>) -> Result<(), AllocError> {
        let Some(act) = self.act(token) else {
            return Ok(());
        };
        if let Act::Begins(block) = act {
            self.open.push(block)?;
        }
        let offset = token.byte_offset;
        self.events.push(Event { act, index, offset })?;
        Ok(())
    }

    /// What a token does, behind those before it. A text that begins with `#` is a whole argument.
    fn act(&mut self, token: Token<'_>) -> Option<Act> {
        let is_word = matches!(token.kind, TokenKind::Word);
        if is_word && is_end(token.text) {
            self.left = 0;
            return Some(Act::Ends(self.open.pop()?));
        }
        if self.left == 0 {
            return self.begins(token);
        }
        let is_color = !is_word && token.text.first() == Some(&b'#');
        self.left = if is_color { 0 } else { self.left - 1 };
        None
    }

    /// What a token that is no part of an argument begins.
    fn begins(&mut self, token: Token<'_>) -> Option<Act> {
        let Some(block) = self.open.last().copied() else {
            if self.events.is_empty() {
                return Some(Act::Begins(Block::Map));
            }
            return None;
        };
        let takes = match block {
            Block::Projection => return None,
            Block::Metadata => Takes::Text,
            Block::Points => Takes::Text,
            _ => keyword_of(block, token.text)?.1,
        };
        if let Takes::Block(inner) = takes {
            return Some(Act::Begins(inner));
        }
        self.left = tokens_of(takes);
        match (block, takes) {
            (Block::Points, _) => Some(Act::Point),
            (Block::Layer, Takes::OneOf(_)) => Some(Act::Type),
            _ => None,
        }
    }
}

/// The number of tokens of an argument. A colour in quotes has one.
fn tokens_of(takes: Takes) -> u8 {
    match takes {
        Takes::Extent => 4,
        Takes::Color => 3,
        Takes::Size | Takes::Point => 2,
        _ => 1,
    }
}

/// The events of the block of a kind that begins last up to an offset, without its END.
pub(crate) fn block_at(events: &[Event], block: Block, offset: usize) -> &[Event] {
    let mut begins = 0;
    for index in 0..events.len() {
        let event = events[index];
        if event.act == Act::Begins(block) && event.offset <= offset {
            begins = index;
        }
    }
    let rest = events.split_at(begins.min(events.len())).1;
    let ends = rest.iter().position(|event| event.act == Act::Ends(block));
    rest.split_at(ends.unwrap_or(rest.len()).min(rest.len())).0
}

/// The kinds of layer, each with its word and the fewest points of a shape in it.
static FEWEST_POINTS: [(&str, (&str, usize)); 3] = [
    ("POINT", ("POINT", 1)),
    ("LINE", ("LINE", 2)),
    ("POLYGON", ("POLYGON", 3)),
];

/// A shape with fewer points than its layer needs: its points, the word of the layer's kind, and
/// the fewest points there.
#[derive(Clone, Copy)]
pub(crate) struct ShortShape {
    pub(crate) points: usize,
    pub(crate) kind: &'static str,
    pub(crate) fewest: usize,
}

/// The first shape of a layer that has too few points.
pub(crate) fn short_shape(layer: &[Event], tokens: &[Token<'_>]) -> Option<ShortShape> {
    let before = layer.iter().find(|event| event.act == Act::Type)?;
    let word = tokens.get(before.index.saturating_add(1))?;
    let (kind, fewest) = choose(&FEWEST_POINTS, word.text)?;
    let mut points = 0usize;
    for event in layer {
        match event.act {
            Act::Begins(Block::Points) => points = 0,
            Act::Point => points = points.saturating_add(1),
            Act::Ends(Block::Points) if points < fewest => {
                return Some(ShortShape {
                    points,
                    kind,
                    fewest,
                });
            }
            _ => {}
        }
    }
    None
}
