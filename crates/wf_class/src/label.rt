//! LABEL: how a feature's text is drawn.
ghost use Rattle.std.specs.Prelude.{◌≡◌};
ghost use Rattle.wf_class.specs.Label.{label, label_kind, label_of, label_position, label_size, truth};
ghost use Rattle.wf_block.specs.ReadContract.{Gives};

use crate::color::read_color;
use crate::slots::LabelSlots;
use wf_block::{Block, MapFault, Parser, Slots, Token, fill_block, is_name, once, or_least};
use wf_def::{Color, Label, LabelPosition, LabelSize, MOST_BUFFER, MOST_PRIORITY};

/// The colour of letters without COLOR.
const BLACK: Color = Color { r: 0, g: 0, b: 0 };

impl Slots for LabelSlots {
    ghost use Rattle.wf_class.specs.declared.slots.LabelSlots.{LabelSlots as Value};
    ghost use Rattle.wf_class.specs.Label.{label_put};

    ghost Settings = { Value };

    ghost settings = { λ slots. slots };

    ghost Within = { Unit {0} };

    ghost within = { λ _. tt };

    ghost put = { λ _. label_put };

    #[tactic(auto, unfolding(crate::specs::Label::label_put))]
    fn take(&mut self, keyword: Token<'_>, parser: &mut Parser<'_>) -> Result<(), MapFault> {
        let word = keyword.text;
        let byte_offset = keyword.byte_offset;
        if is_name(word, "COLOR") {
            once!(self.color, byte_offset, read_color(parser));
        } else if is_name(word, "SIZE") {
            once!(self.size, byte_offset, read_label_size(parser));
        } else if is_name(word, "POSITION") {
            once!(self.position, byte_offset, read_label_position(parser));
        } else if is_name(word, "PRIORITY") {
            once!(
                self.priority,
                byte_offset,
                parser.whole::<1, MOST_PRIORITY>()
            );
        } else if is_name(word, "FORCE") {
            once!(self.force, byte_offset, read_truth(parser));
        } else if is_name(word, "BUFFER") {
            once!(self.buffer, byte_offset, parser.whole::<0, MOST_BUFFER>());
        } else if is_name(word, "TYPE") {
            once!(self.kind, byte_offset, read_label_kind(parser));
        } else {
            return Err(MapFault::UnexpectedWord(byte_offset));
        }
        Ok(())
    }
}

impl LabelSlots {
    /// The label of the slots, with defaults for absent ones.
    #[tactic(auto, unfolding(crate::specs::Label::label_of))]
    fn fill(self) -> Label
        ensures { result ≡ label_of self }
    {
        Label {
            color: self.color.unwrap_or(BLACK),
            size: self.size.unwrap_or(LabelSize::Medium),
            position: self.position.unwrap_or(LabelPosition::CenterCenter),
            priority: or_least(self.priority),
            force: self.force.unwrap_or(false),
            buffer: or_least(self.buffer),
        }
    }
}

/// Reads a block up to its END (MapServer mapfile reference, LABEL).
#[tactic(auto, unfolding(crate::specs::Label::label))]
pub fn read_label(parser: &mut Parser<'_>) -> Result<Label, MapFault>
    ensures { Gives (λ l. (l, parser.new)) result (label parser.old) }
{
    let mut slots = LabelSlots::default();
    fill_block(parser, Block::Label, &mut slots)?;
    Ok(slots.fill())
}

/// Reads the size of letters.
#[tactic(auto, unfolding(crate::specs::Label::label_size))]
fn read_label_size(parser: &mut Parser<'_>) -> Result<LabelSize, MapFault>
    ensures { Gives (λ s. (s, parser.new)) result (label_size parser.old) }
{
    parser.one_of(&[
        ("TINY", LabelSize::Tiny),
        ("SMALL", LabelSize::Small),
        ("MEDIUM", LabelSize::Medium),
        ("LARGE", LabelSize::Large),
        ("GIANT", LabelSize::Giant),
    ])
}

/// Reads a text's position relative to its point.
#[tactic(auto, unfolding(crate::specs::Label::label_position))]
fn read_label_position(parser: &mut Parser<'_>) -> Result<LabelPosition, MapFault>
    ensures { Gives (λ p. (p, parser.new)) result (label_position parser.old) }
{
    parser.one_of(&[
        ("UL", LabelPosition::UpperLeft),
        ("UC", LabelPosition::UpperCenter),
        ("UR", LabelPosition::UpperRight),
        ("CL", LabelPosition::CenterLeft),
        ("CC", LabelPosition::CenterCenter),
        ("CR", LabelPosition::CenterRight),
        ("LL", LabelPosition::LowerLeft),
        ("LC", LabelPosition::LowerCenter),
        ("LR", LabelPosition::LowerRight),
    ])
}

/// Reads a truth value.
#[tactic(auto, unfolding(crate::specs::Label::truth))]
fn read_truth(parser: &mut Parser<'_>) -> Result<bool, MapFault>
    ensures { Gives (λ t. (t, parser.new)) result (truth parser.old) }
{
    parser.one_of(&[("TRUE", true), ("FALSE", false)])
}

/// Reads the kind of letters; there is only one.
#[tactic(auto, unfolding(crate::specs::Label::label_kind))]
fn read_label_kind(parser: &mut Parser<'_>) -> Result<(), MapFault>
    ensures { Gives (λ k. (k, parser.new)) result (label_kind parser.old) }
{
    parser.one_of(&[("BITMAP", ())])
}
