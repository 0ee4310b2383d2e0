//! STYLE: how a feature is drawn.
ghost use Rattle.std.specs.Prelude.{◌≡◌};
ghost use Rattle.wf_block.specs.ReadContract.{Gives};
ghost use Rattle.wf_class.specs.Style.{style, style_of};

use crate::color::read_color;
use crate::slots::StyleSlots;
use wf_block::{Block, MapFault, Parser, Slots, Token, fill_block, is_name, once, or_least};
use wf_def::{MOST_SIZE, MOST_WIDTH, Style};

impl Slots for StyleSlots {
    ghost use Rattle.wf_class.specs.declared.slots.StyleSlots.{StyleSlots as Value};
    ghost use Rattle.wf_class.specs.Style.{style_put};

    ghost Settings = { Value };

    ghost settings = { λ slots. slots };

    ghost Within = { Unit {0} };

    ghost within = { λ _. tt };

    ghost put = { λ _. style_put };

    #[tactic(auto, unfolding(crate::specs::Style::style_put))]
    fn take(&mut self, keyword: Token<'_>, parser: &mut Parser<'_>) -> Result<(), MapFault> {
        let word = keyword.text;
        let byte_offset = keyword.byte_offset;
        if is_name(word, "COLOR") {
            once!(self.color, byte_offset, read_color(parser));
        } else if is_name(word, "OUTLINECOLOR") {
            once!(self.outline_color, byte_offset, read_color(parser));
        } else if is_name(word, "WIDTH") {
            once!(self.width, byte_offset, parser.whole::<1, MOST_WIDTH>());
        } else if is_name(word, "SIZE") {
            once!(self.size, byte_offset, parser.whole::<1, MOST_SIZE>());
        } else {
            return Err(MapFault::UnexpectedWord(byte_offset));
        }
        Ok(())
    }
}

impl StyleSlots {
    /// The style of the slots, with defaults for absent ones.
    #[tactic(auto, unfolding(crate::specs::Style::style_of))]
    fn fill(self) -> Style
        ensures { result ≡ style_of self }
    {
        Style {
            color: self.color,
            outline_color: self.outline_color,
            width: or_least(self.width),
            size: or_least(self.size),
        }
    }
}

/// Reads a block up to its END (MapServer mapfile reference, STYLE).
#[tactic(auto, unfolding(crate::specs::Style::style))]
pub fn read_style(parser: &mut Parser<'_>) -> Result<Style, MapFault>
    ensures { Gives (λ s. (s, parser.new)) result (style parser.old) }
{
    let mut slots = StyleSlots::default();
    fill_block(parser, Block::Style, &mut slots)?;
    Ok(slots.fill())
}
